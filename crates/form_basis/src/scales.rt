ghost use Rattle.std.specs.Prelude.{◌≡◌, pos, ◌≤ℤ◌, ◌*ℤ◌, IfSome};
ghost use Rattle.pip_model.specs.Numbers as model;
ghost use Rattle.row_laws.specs.Short.{IsShort};

use short_numbers::{short_floor_div, short_gcd};

/// A short number above 0, meant as a common multiple of the two: `factor` tests that it is one.
pub fn multiple(a: i64, b: i64) -> Option<i64>
    requires positive { pos 1 ≤ℤ a }
    requires first { IsShort a }
    requires second { IsShort b }
    ensures positive { IfSome result (λ l. pos 1 ≤ℤ l) }
    ensures short { IfSome result (λ l. IsShort l) }
{
    let product = short_floor_div(a, short_gcd(a, b)).checked_mul(b)?;
    if product < 1 { None } else { Some(product) }
}

/// What the scale has of a denominator, where it is a multiple of it.
pub fn factor(scale: i64, den: i64) -> Option<i64>
    requires scale { pos 1 ≤ℤ scale }
    requires short { IsShort scale }
    requires den { pos 1 ≤ℤ den }
    ensures value { IfSome result (λ q. q ≡ model.floor_div scale den) }
    ensures multiple { IfSome result (λ q. scale ≡ den *ℤ q) }
{
    let quotient = short_floor_div(scale, den);
    let product = den.checked_mul(quotient)?;
    if product == scale {
        Some(quotient)
    } else {
        None
    }
}
