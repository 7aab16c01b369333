ghost use Rattle.std.specs.Prelude.{◌≡◌, ◌+◌, pos, ◌≤ℤ◌};
ghost use Rattle.pip_model.specs.Numbers.{euclid, gcd as gcd_of_two};
ghost use Rattle.short_numbers.specs.Short.{IsShort, IsShortDivisor};

use crate::division::short_gcd;
use crate::products::is_half;

// Euclid's algorithm in 32 bits, which divides the second number first.
fn gcd_half(a: u32, b: u32) -> u32
    ensures { result ≡ euclid (b + 1) a b }
{
    let mut x = b;
    let mut y = a;
    while y != 0 {
        let rest = x % y;
        x = y;
        y = rest;
    }
    x
}

/// The greatest common divisor of a number of at least 1 and a short one: at once where one of them is 1 or -1, by 32 bits
/// where both have them.
#[inline(always)]
pub fn gcd(a: i64, b: i64) -> i64
    requires a { IsShortDivisor a }
    requires b { IsShort b }
    ensures value { result ≡ gcd_of_two a b }
    ensures divisor { IsShortDivisor result }
    ensures bound { result ≤ℤ a }
{
    if a == 1 || b == 1 || b == -1 {
        return 1;
    }
    if is_half(a) && is_half(b) {
        i64::from(gcd_half(a as u32, b.unsigned_abs() as u32))
    } else {
        short_gcd(a, b)
    }
}
