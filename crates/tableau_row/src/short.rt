ghost use Rattle.std.specs.Prelude.{◌≡◌, pos, ◌*ℤ◌, ◌-ℤ◌, neg_ℤ, ◌&&◌, IsTrue, IsFalse};
ghost use Rattle.std.specs.List.{list_all};
ghost use Rattle.affine_forms.specs.Checks.{Fits};
ghost use Rattle.row_laws.specs.Short.{is_short as is_short_number, IsShort, IsShortRow, AreShort, AreShortLists, IsCombined};
ghost use Rattle.row_laws.specs.Rows.{row_from};

use short_numbers::{narrow, short_difference};

// Whether the number lies from -(2^63 - 1) to 2^63 - 1.
pub(crate) fn is_short(z: i128) -> bool
    ensures { result ≡ is_short_number z }
{
    -9223372036854775808 < z && z < 9223372036854775808
}

// Whether all of them do.
pub(crate) fn all_short(entries: &[i128]) -> bool
    ensures { result ≡ list_all is_short_number entries.now }
{
    entries.iter().all(|entry| is_short(*entry))
}

/// Whether all numbers of a row lie from `-(2^63 - 1)` to `2^63 - 1`.
#[tactic(auto, using(row_laws::proofs::ShortRows::short_list, row_laws::proofs::Combining::short_bound))]
pub fn is_short_row(den: i128, coefs: &[i128], constant: &[i128]) -> bool
    ensures value { result ≡ (is_short_number den
        && (list_all is_short_number coefs.now && list_all is_short_number constant.now)) }
    ensures short { IsTrue result → IsShortRow (row_from den coefs.now constant.now) }
{
    is_short(den) && all_short(coefs) && all_short(constant)
}

// Whether both hold.
pub(crate) fn both(first: bool, second: bool) -> bool
    ensures first { IsTrue result → IsTrue first }
    ensures second { IsTrue result → IsTrue second }
{
    first && second
}

// Whether numbers that were short so far are with one more.
pub(crate) fn with_entry(short: bool, entry: i128) -> bool
    ensures so_far { IsTrue result → IsTrue short }
    ensures entry { IsTrue result → IsShort entry }
{
    short && is_short(entry)
}

// The opposite of a short number.
pub(crate) fn short_opposite(z: i128) -> i128
    requires { IsShort z }
    ensures { result ≡ neg_ℤ z }
{
    -(narrow(z) as i128)
}

// `a*x - b*y` for short numbers; whether it is short.
fn short_entry(a: i128, x: i128, b: i128, y: i128) -> (i128, bool)
    requires factors { AreShort a b }
    requires entries { AreShort x y }
    ensures value { result.0 ≡ a *ℤ x -ℤ b *ℤ y }
    ensures fits { Fits result.0 }
    ensures short { IsTrue result.1 → IsShort result.0 }
{
    let entry = short_difference(a, x, b, y);
    (entry, is_short(entry))
}

// Whether `a*x - b*y` may be another number than x, where y is the entry.
fn changes(a: i64, entry: i64) -> bool
    ensures one { IsFalse result → a ≡ pos 1 }
    ensures none { IsFalse result → entry ≡ pos 0 }
{
    a != 1 || entry != 0
}

// Makes `a*r - b*s` of r, entry by entry, for short numbers; whether those are short too. Under an a of 1 the entries of
// r stay at which s is 0.
#[tactic(auto, using(row_laws::proofs::ShortRows::fits_short))]
pub(crate) fn combine_short(a: i128, r: &mut [i128], b: i128, s: &[i128]) -> bool
    requires factors { AreShort a b }
    requires lists { AreShortLists r.old s.now }
    ensures { IsCombined a r.old b s.now result r.new }
{
    let mut short = true;
    for i in 0..r.len() {
        if changes(narrow(a), narrow(s[i])) {
            let (entry, entry_short) = short_entry(a, r[i], b, s[i]);
            short = both(short, entry_short);
            r[i] = entry;
        }
    }
    short
}
