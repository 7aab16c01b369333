ghost use Rattle.std.specs.Prelude.{◌≡◌, ◌+◌, ◌<◌, ◌^◌, pos, ◌≤ℤ◌};
ghost use Rattle.affine_forms.specs.Numbers.{euclid, gcd as gcd_of_two, floor_div as floor_div_of};
ghost use Rattle.short_numbers.specs.Short.{IsShort};

// Euclid's algorithm on numbers below 2^63, which divides the second number first.
fn gcd_natural(a: u64, b: u64) -> u64
    requires a { a < 2 ^ 63 }
    requires b { b < 2 ^ 63 }
    ensures value { result ≡ euclid (b + 1) a b }
    ensures bound { result < 2 ^ 63 }
{
    if b == 0 {
        return a;
    }
    let mut x = b;
    let mut y = a;
    while y != 0 {
        let rest = x % y;
        x = y;
        y = rest;
    }
    x
}

/// The greatest common divisor of short numbers, 0 of two zeros.
pub fn short_gcd(a: i64, b: i64) -> i64
    requires a { IsShort a }
    requires b { IsShort b }
    ensures value { result ≡ gcd_of_two a b }
    ensures low { pos 0 ≤ℤ result }
    ensures positive { pos 1 ≤ℤ a → pos 1 ≤ℤ result }
    ensures bound { pos 1 ≤ℤ a → result ≤ℤ a }
    ensures short { IsShort result }
{
    gcd_natural(a.unsigned_abs(), b.unsigned_abs()) as i64
}

/// The quotient of a short number, rounded down.
#[tactic(auto, using(crate::proofs::Quotients::quotient_short))]
pub fn short_floor_div(a: i64, d: i64) -> i64
    requires positive { pos 1 ≤ℤ d }
    requires short { IsShort a }
    ensures value { result ≡ floor_div_of a d }
    ensures short { IsShort result }
{
    a.div_euclid(d)
}
