ghost use Rattle.std.specs.Prelude.{◌≡◌, ◌<◌, ◌^◌, ◌*ℤ◌, ◌-ℤ◌, unsigned_abs, IsTrue};
ghost use Rattle.affine_forms.specs.Checks.{Fits};
ghost use Rattle.short_numbers.specs.Short.{IsShort, IsHalf, AreShort, AreHalf};

use affine_forms::{exact_difference, short_product};

/// `a*x - b*y` for short numbers.
pub fn short_difference(a: i128, x: i128, b: i128, y: i128) -> i128
    requires first { AreShort a x }
    requires second { AreShort b y }
    ensures value { result ≡ a *ℤ x -ℤ b *ℤ y }
    ensures fits { Fits result }
{
    exact_difference(short_product(a, x), short_product(b, y))
}

/// Whether the number lies from `-(2^31 - 1)` to `2^31 - 1`.
pub fn is_half(z: i64) -> bool
    ensures { IsTrue result → IsHalf z }
{
    -2147483647 <= z && z <= 2147483647
}

/// The short number in 64 bits.
pub fn narrow(z: i128) -> i64
    requires { IsShort z }
    ensures { result ≡ z }
{
    z as i64
}

// The product of numbers of 32 bits.
#[tactic(auto, using(crate::proofs::Bounds::half_bound))]
fn exact_half_product(a: i64, b: i64) -> i64
    requires { AreHalf a b }
    ensures { result ≡ a *ℤ b }
{
    a * b
}

/// The product of numbers of 32 bits, and its bound.
#[tactic(auto, using(crate::proofs::Bounds::half_bound))]
pub fn half_product(a: i64, b: i64) -> i64
    requires { AreHalf a b }
    ensures value { result ≡ a *ℤ b }
    ensures bound { unsigned_abs result < 2 ^ 62 }
{
    exact_half_product(a, b)
}

// The difference of numbers that are far from the ends, which is short.
fn narrow_difference(a: i64, b: i64) -> i64
    requires a { unsigned_abs a < 2 ^ 62 }
    requires b { unsigned_abs b < 2 ^ 62 }
    ensures value { result ≡ a -ℤ b }
    ensures short { IsShort result }
{
    a - b
}

/// `a*x - b*y` for numbers of 32 bits, which is short.
pub fn half_difference(a: i64, x: i64, b: i64, y: i64) -> i64
    requires first { AreHalf a x }
    requires second { AreHalf b y }
    ensures value { result ≡ a *ℤ x -ℤ b *ℤ y }
    ensures short { IsShort result }
{
    narrow_difference(half_product(a, x), half_product(b, y))
}
