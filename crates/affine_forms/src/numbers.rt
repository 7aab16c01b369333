ghost use Rattle.std.specs.Prelude.{◌≡◌, ◌+◌, ◌<◌, ◌≤◌, ◌^◌, pos, ◌+ℤ◌, ◌-ℤ◌, ◌*ℤ◌, ◌≤ℤ◌, ◌<ℤ◌, unsigned_abs, IsTrue};
ghost use Rattle.pip_model.specs.Numbers.{fits, floor_div as floor_div_of, floor_mod as floor_mod_of, euclid, gcd as gcd_of_two, divides as divides_of, is_nonneg, is_positive};
ghost use Rattle.affine_forms.specs.Checks.{Fits, IsFitted};

/// The refusal of a calculation whose number does not fit `-(2^127 - 1) .. 2^127 - 1`.
#[derive(Clone, Copy, Debug, PartialEq, Eq)]
pub struct Overflow;

/// The sum. It overflows exactly where the sum does not fit.
pub fn plus(a: i128, b: i128) -> Result<i128, Overflow>
    ensures { IsFitted (a +ℤ b) result }
{
    match a.checked_add(b) {
        Some(number) if number != i128::MIN => Ok(number),
        _ => Err(Overflow),
    }
}

/// The difference. It overflows exactly where the difference does not fit.
pub fn minus(a: i128, b: i128) -> Result<i128, Overflow>
    ensures { IsFitted (a -ℤ b) result }
{
    match a.checked_sub(b) {
        Some(number) if number != i128::MIN => Ok(number),
        _ => Err(Overflow),
    }
}

// Whether the number lies from `-(2^63 - 1)` to `2^63 - 1`.
pub(crate) fn is_short(z: i128) -> bool
    ensures { IsTrue result → unsigned_abs z < 2 ^ 63 }
{
    -9223372036854775807 <= z && z <= 9223372036854775807
}

// The product of short numbers, in one multiplication.
fn exact_product(a: i128, b: i128) -> i128
    requires a { unsigned_abs a < 2 ^ 63 }
    requires b { unsigned_abs b < 2 ^ 63 }
    ensures { result ≡ a *ℤ b }
{
    (a as i64 as i128) * (b as i64 as i128)
}

/// The product of two numbers from `-(2^63 - 1)` to `2^63 - 1`, and its bound.
pub fn short_product(a: i128, b: i128) -> i128
    requires a { unsigned_abs a < 2 ^ 63 }
    requires b { unsigned_abs b < 2 ^ 63 }
    ensures value { result ≡ a *ℤ b }
    ensures bound { unsigned_abs result < 2 ^ 126 }
    ensures fits { Fits (a *ℤ b) }
{
    exact_product(a, b)
}

/// The difference of numbers that are far from the ends.
pub fn exact_difference(a: i128, b: i128) -> i128
    requires a { unsigned_abs a < 2 ^ 126 }
    requires b { unsigned_abs b < 2 ^ 126 }
    ensures value { result ≡ a -ℤ b }
    ensures fits { Fits (a -ℤ b) }
{
    a - b
}

/// The product. It overflows exactly where the product does not fit.
pub fn times(a: i128, b: i128) -> Result<i128, Overflow>
    ensures { IsFitted (a *ℤ b) result }
{
    if is_short(a) && is_short(b) {
        return Ok(short_product(a, b));
    }
    match a.checked_mul(b) {
        Some(number) if number != i128::MIN => Ok(number),
        _ => Err(Overflow),
    }
}

/// The quotient of a fitting a and a d of at least 1, rounded down.
pub fn floor_div(a: i128, d: i128) -> i128
    requires positive { pos 1 ≤ℤ d }
    requires fits { Fits a }
    ensures value { result ≡ floor_div_of a d }
    ensures some { d ≤ℤ a → pos 1 ≤ℤ result }
    ensures fits { Fits result }
{
    if is_short(a) && is_short(d) {
        return (a as i64).div_euclid(d as i64) as i128;
    }
    a.div_euclid(d)
}

/// What the quotient rounded down leaves of a, in `0 .. d - 1`.
pub fn floor_mod(a: i128, d: i128) -> i128
    requires positive { pos 1 ≤ℤ d }
    requires fits { Fits a }
    ensures value { result ≡ floor_mod_of a d }
    ensures low { pos 0 ≤ℤ result }
    ensures high { result <ℤ d }
    ensures fits { Fits result }
{
    if is_short(a) && is_short(d) {
        return (a as i64).rem_euclid(d as i64) as i128;
    }
    a.rem_euclid(d)
}

/// Whether a d of at least 1 divides a.
pub fn divides(d: i128, a: i128) -> bool
    requires positive { pos 1 ≤ℤ d }
    requires fits { Fits a }
    ensures { result ≡ divides_of d a }
{
    floor_mod(a, d) == 0
}

/// Whether the number is at least 0.
pub fn nonnegative(z: i128) -> bool
    ensures { result ≡ is_nonneg z }
{
    z >= 0
}

/// Whether the number is above 0.
pub fn positive(z: i128) -> bool
    ensures value { result ≡ is_positive z }
    ensures some { IsTrue result → pos 1 ≤ℤ z }
{
    z > 0
}

// Euclid's algorithm on short numbers.
fn gcd_short(a: u64, b: u64) -> u64
    ensures { result ≡ euclid (b + 1) a b }
{
    let mut x = a;
    let mut y = b;
    while y != 0 {
        let rest = x % y;
        x = y;
        y = rest;
    }
    x
}

// Euclid's algorithm.
fn gcd_natural(a: u128, b: u128) -> u128
    requires a_below { a < 2 ^ 127 }
    requires b_below { b < 2 ^ 127 }
    ensures value { result ≡ euclid (b + 1) a b }
    ensures bound { result < 2 ^ 127 }
{
    if a <= 18446744073709551615 && b <= 18446744073709551615 {
        return gcd_short(a as u64, b as u64) as u128;
    }
    let mut x = a;
    let mut y = b;
    while y != 0 {
        let rest = x % y;
        x = y;
        y = rest;
    }
    x
}

/// The greatest common divisor of the absolute values, 0 of two zeros.
pub fn gcd(a: i128, b: i128) -> i128
    requires a_fits { Fits a }
    requires b_fits { Fits b }
    ensures value { result ≡ gcd_of_two a b }
    ensures low { pos 0 ≤ℤ result }
    ensures positive { pos 1 ≤ℤ a → (pos 1 ≤ℤ result) × (result ≤ℤ a) }
    ensures fits { Fits result }
{
    gcd_natural(a.unsigned_abs(), b.unsigned_abs()) as i128
}
