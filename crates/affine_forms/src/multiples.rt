ghost use Rattle.std.specs.Prelude.{◌≡◌, ◌<◌, ◌≤ℤ◌, pos, ◌-ℤ◌, length, map, [], ◌∷◌, ◌++◌, All, IfOk, OnOk, OnErr, slice_set};
ghost use Rattle.pip_model.specs.Forms.{entry};
ghost use Rattle.pip_model.specs.Agreement.{IsChecked};
ghost use Rattle.affine_forms.specs.Checks.{Fits, IsFitted, is_overflow};
ghost use Rattle.affine_forms.specs.Forms.{raised as raised_of};

use crate::numbers::{Overflow, floor_mod, minus, plus};

// The least multiple of d from x on.
fn raise_to_multiple(d: i128, x: i128) -> Result<i128, Overflow>
    requires positive { pos 1 ≤ℤ d }
    requires fits { Fits x }
    ensures { IsFitted (raised_of d x) result }
{
    plus(x, floor_mod(-x, d))
}

// Refuses where one of the multiples does not fit.
fn check_raised(d: i128, entries: &[i128]) -> Result<(), Overflow>
    requires positive { pos 1 ≤ℤ d }
    requires fits { All Fits entries.now }
    ensures listed { IsChecked is_overflow (map (raised_of d) entries.now) result }
    ensures fits { IfOk result (λ _. All (λ x. Fits (raised_of d x)) entries.now) }
{
    for entry in entries {
        raise_to_multiple(d, *entry)?;
    }
    Ok(())
}

// The least multiple of d from x on, where it fits.
fn raise(d: i128, x: i128) -> i128
    requires positive { pos 1 ≤ℤ d }
    requires fits { Fits x }
    requires raised { Fits (raised_of d x) }
    ensures value { result ≡ raised_of d x }
    ensures fits { Fits result }
{
    raise_to_multiple(d, x).unwrap_or(x)
}

// Each entry becomes the least multiple of d from it on.
fn raise_all(d: i128, entries: &mut [i128])
    requires positive { pos 1 ≤ℤ d }
    requires fits { All Fits entries.old }
    requires raised { All (λ x. Fits (raised_of d x)) entries.old }
    ensures value { entries.new ≡ map (raised_of d) entries.old }
    ensures fits { All Fits entries.new }
{
    for entry in entries.iter_mut() {
        *entry = raise(d, *entry);
    }
}

/// Each entry becomes the least multiple of d from it on, and that at place q the multiple before that one. It
/// overflows exactly where one of these multiples does not fit, and then leaves all as it was.
pub fn round_form(d: i128, entries: &mut [i128], q: usize) -> Result<(), Overflow>
    requires positive { pos 1 ≤ℤ d }
    requires fits { All Fits entries.old }
    requires place { q < length entries.old }
    ensures listed { IsChecked is_overflow
        (map (raised_of d) entries.old ++ (raised_of d (entry entries.old q) -ℤ d) ∷ []) result }
    ensures ok { OnOk result
        (entries.new ≡ slice_set (map (raised_of d) entries.old) q (raised_of d (entry entries.old q) -ℤ d)) }
    ensures err { OnErr result (entries.new ≡ entries.old) }
    ensures fits { All Fits entries.new }
{
    check_raised(d, entries)?;
    let before = minus(raise_to_multiple(d, entries[q])?, d)?;
    raise_all(d, entries);
    entries[q] = before;
    Ok(())
}
