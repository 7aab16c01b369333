ghost use Rattle.std.specs.Prelude.{◌≡◌, ◌≤ℤ◌, pos, map, All, IsTrue, IfOk};
ghost use Rattle.pip_model.specs.Numbers.{divides as divides_of, gcd_of, floor_mod as floor_mod_of, gcd as gcd_of_two};
ghost use Rattle.pip_model.specs.Forms.{floor_divided, residue};
ghost use Rattle.pip_model.specs.Rows.{is_whole as is_whole_of};
ghost use Rattle.affine_forms.specs.Checks.{Fits};

use crate::memory::WantOfMemory;
use crate::numbers::{divides, floor_div, floor_mod, gcd};
use std::alloc::Global;

// The greatest common divisor of a number of at least 0 and an entry, which is often 0.
#[inline(always)]
fn gcd_more(found: i128, entry: i128) -> i128
    requires low { pos 0 ≤ℤ found }
    requires found_fits { Fits found }
    requires entry_fits { Fits entry }
    ensures value { result ≡ gcd_of_two found entry }
    ensures low { pos 0 ≤ℤ result }
    ensures positive { pos 1 ≤ℤ found → (pos 1 ≤ℤ result) × (result ≤ℤ found) }
    ensures fits { Fits result }
{
    if entry == 0 {
        return found;
    }
    gcd(found, entry)
}

// The greatest common divisor of a number and all entries.
fn fold_gcd(start: i128, entries: &[i128]) -> i128
    requires start_nonnegative { pos 0 ≤ℤ start }
    requires start_fits { Fits start }
    requires fits { All Fits entries.now }
    ensures value { result ≡ gcd_of_two start (gcd_of entries.now) }
    ensures low { pos 0 ≤ℤ result }
    ensures positive { pos 1 ≤ℤ start → (pos 1 ≤ℤ result) × (result ≤ℤ start) }
    ensures fits { Fits result }
{
    let mut found = start;
    for entry in entries {
        if found == 1 {
            return 1;
        }
        found = gcd_more(found, *entry);
    }
    found
}

/// The greatest common divisor of a number of at least 0 and all entries.
#[tactic(auto, using(crate::proofs::Divisors::gcd_divides_start, crate::proofs::Divisors::gcd_divides_entries))]
pub fn gcd_with(start: i128, entries: &[i128]) -> i128
    requires start_nonnegative { pos 0 ≤ℤ start }
    requires start_fits { Fits start }
    requires fits { All Fits entries.now }
    ensures value { result ≡ gcd_of_two start (gcd_of entries.now) }
    ensures low { pos 0 ≤ℤ result }
    ensures positive { pos 1 ≤ℤ start → (pos 1 ≤ℤ result) × (result ≤ℤ start) }
    ensures divides_start { pos 1 ≤ℤ result → IsTrue (divides_of result start) }
    ensures divides { pos 1 ≤ℤ result → All (λ x. IsTrue (divides_of result x)) entries.now }
    ensures fits { Fits result }
{
    fold_gcd(start, entries)
}

// The greatest common divisor of all entries, 0 where all are 0.
#[tactic(auto, using(pip_model::proofs::Gcd::gcd_zero, crate::proofs::Divisors::gcd_of_divides))]
pub(crate) fn divisor(entries: &[i128]) -> i128
    requires { All Fits entries.now }
    ensures value { result ≡ gcd_of entries.now }
    ensures low { pos 0 ≤ℤ result }
    ensures divides { pos 1 ≤ℤ result → All (λ x. IsTrue (divides_of result x)) entries.now }
    ensures fits { Fits result }
{
    fold_gcd(0, entries)
}

/// Divides each entry by a d of at least 1, rounded down.
pub fn divide_all(entries: &mut [i128], d: i128)
    requires positive { pos 1 ≤ℤ d }
    requires fits { All Fits entries.old }
    ensures value { entries.new ≡ floor_divided d entries.old }
    ensures fits { All Fits entries.new }
{
    for entry in entries.iter_mut() {
        *entry = floor_div(*entry, d);
    }
}

/// Whether d divides each entry.
pub fn is_whole(d: i128, entries: &[i128]) -> bool
    requires positive { pos 1 ≤ℤ d }
    requires fits { All Fits entries.now }
    ensures { result ≡ is_whole_of d entries.now }
{
    entries.iter().all(|entry| divides(d, *entry))
}

/// Each entry modulo d, in `0 .. d - 1`.
pub fn remainders(alloc: Global, d: i128, entries: &[i128]) -> Result<Vec<i128>, WantOfMemory>
    requires positive { pos 1 ≤ℤ d }
    requires fits { All Fits entries.now }
    ensures value { IfOk result (λ v. v.items ≡ map (λ x. floor_mod_of x d) entries.now) }
    ensures fits { IfOk result (λ v. All Fits v.items) }
{
    let mut found = Vec::with_capacity(alloc, entries.len())?;
    for entry in entries {
        found.push(floor_mod(*entry, d))?;
    }
    Ok(found)
}

/// The opposite of each entry modulo d, in `0 .. d - 1`.
pub fn residues(alloc: Global, d: i128, entries: &[i128]) -> Result<Vec<i128>, WantOfMemory>
    requires positive { pos 1 ≤ℤ d }
    requires fits { All Fits entries.now }
    ensures value { IfOk result (λ v. v.items ≡ residue d entries.now) }
    ensures fits { IfOk result (λ v. All Fits v.items) }
{
    let mut found = Vec::with_capacity(alloc, entries.len())?;
    for entry in entries {
        found.push(floor_mod(-*entry, d))?;
    }
    Ok(found)
}
