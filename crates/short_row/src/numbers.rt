ghost use Rattle.std.specs.Prelude.{◌≡◌, ◌≤◌, pos, ◌-ℤ◌, ◌*ℤ◌, ◌≤ℤ◌, length, All};
ghost use Rattle.pip_model.specs.Numbers.{gcd as gcd_of_two, gcd_of, floor_mod as floor_mod_of};
ghost use Rattle.pip_model.specs.Forms.{combine as combine_of, floor_divided};
ghost use Rattle.affine_forms.specs.Checks.{Fits};
ghost use Rattle.short_numbers.specs.Short.{IsShort, AreShort, IsShortDivisor};
ghost use Rattle.short_row.specs.Begun.{finished};
ghost use Rattle.short_row.specs.Terms.{AreTerms, IsNarrowed};

use affine_forms::short_product;
use short_numbers::{short_difference, short_floor_div, short_gcd};

/// The product of short numbers.
pub fn product(a: i64, b: i64) -> i128
    requires a { IsShort a }
    requires b { IsShort b }
    ensures value { result ≡ a *ℤ b }
    ensures fits { Fits result }
{
    short_product(a as i128, b as i128)
}

/// The number in 64 bits, where it is short.
pub fn narrow(z: i128) -> Option<i64>
    ensures { IsNarrowed z result }
{
    if -9223372036854775807 <= z && z <= 9223372036854775807 {
        Some(z as i64)
    } else {
        None
    }
}

/// `a*x - b*y` for short numbers.
pub fn wide_entry(a: i64, x: i64, b: i64, y: i64) -> i128
    requires first { AreShort a x }
    requires second { AreShort b y }
    ensures value { result ≡ a *ℤ x -ℤ b *ℤ y }
    ensures fits { Fits result }
{
    short_difference(a as i128, x as i128, b as i128, y as i128)
}

// `a*x - b*y` for short numbers, where it is short.
fn narrow_entry(a: i64, x: i64, b: i64, y: i64) -> Option<i64>
    requires first { AreShort a x }
    requires second { AreShort b y }
    ensures { IsNarrowed (a *ℤ x -ℤ b *ℤ y) result }
{
    narrow(wide_entry(a, x, b, y))
}

// Makes `a*r - b*s` of r, entry by entry, up to the first that is not short; how many are made.
pub(crate) fn combine(a: i64, r: &mut [i64], b: i64, s: &[i64]) -> usize
    requires { AreTerms a r.old b s.now }
    ensures count { result ≤ length r.old }
    ensures value { finished a r.new b s.now result ≡ combine_of a r.old b s.now }
    ensures short { All IsShort r.new }
{
    for i in 0..r.len() {
        let Some(number) = narrow_entry(a, r[i], b, s[i]) else {
            return i;
        };
        r[i] = number;
    }
    r.len()
}

// The greatest common divisor of a number and all entries.
pub(crate) fn gcd_with(start: i64, entries: &[i64]) -> i64
    requires start { IsShortDivisor start }
    requires short { All IsShort entries.now }
    ensures value { result ≡ gcd_of_two start (gcd_of entries.now) }
    ensures divisor { IsShortDivisor result }
{
    let mut found = start;
    for number in entries {
        if found == 1 {
            return 1;
        }
        found = short_gcd(found, *number);
    }
    found
}

/// What the quotient rounded down leaves, in `0 .. d - 1`.
pub fn floor_mod(a: i64, d: i64) -> i64
    requires { IsShortDivisor d }
    ensures value { result ≡ floor_mod_of a d }
    ensures short { IsShort result }
{
    a.rem_euclid(d)
}

// Divides each entry, rounded down.
pub(crate) fn divide_all(entries: &mut [i64], d: i64)
    requires positive { pos 1 ≤ℤ d }
    requires short { All IsShort entries.old }
    ensures value { entries.new ≡ floor_divided d entries.old }
    ensures short { All IsShort entries.new }
{
    for number in entries.iter_mut() {
        *number = short_floor_div(*number, d);
    }
}
