ghost use Rattle.std.specs.Prelude.{◌≡◌, ◌<◌, pos, ◌*ℤ◌, ◌-ℤ◌, ◌≤ℤ◌, length, IsTrue, IfSome};
ghost use Rattle.pip_model.specs.Forms.{entry as entry_of};
ghost use Rattle.pip_model.specs.Numbers.{gcd as gcd_of_two, floor_div as floor_div_of};
ghost use Rattle.row_laws.specs.Lowest.{AreLowest};
ghost use Rattle.row_laws.specs.Short.{IsShort, IsShortRow, AreShort};
ghost use Rattle.tableau_row.specs.Views.{row_of};

use crate::view::RowView;
use short_numbers::{narrow, short_floor_div, short_gcd};

// What a row and the pivot's row are multiplied by in a pivot, in lowest terms, and the greatest common divisor of their
// denominators.
#[derive(Clone, Copy)]
pub(crate) struct Step {
    pub(crate) row: i64,
    pub(crate) pivot: i64,
    pub(crate) divisor: i64,
    ghost positive: { pos 1 ≤ℤ row },
    ghost short: { AreShort row pivot },
    ghost divisor_positive: { pos 1 ≤ℤ divisor },
    ghost divisor_short: { IsShort divisor },
}

// The greatest common divisor of two denominators.
#[tactic(auto, using(pip_model::proofs::Gcd::gcd_one, row_laws::proofs::Lowest::gcd_with_one))]
#[inline(always)]
fn shared_divisor(first: i64, second: i64) -> i64
    requires first { pos 1 ≤ℤ first }
    requires short { AreShort first second }
    ensures value { result ≡ gcd_of_two first second }
    ensures positive { pos 1 ≤ℤ result }
    ensures short { IsShort result }
{
    if first == 1 || second == 1 {
        return 1;
    }
    short_gcd(first, second)
}

impl Step {
    // The factors a and b in lowest terms, with the divisor.
    #[inline(always)]
    fn lowest(a: i64, b: i64, divisor: i64) -> Step
        requires positive { pos 1 ≤ℤ a }
        requires short { AreShort a b }
        requires divisor_positive { pos 1 ≤ℤ divisor }
        requires divisor_short { IsShort divisor }
        ensures lowest { AreLowest a b result.row result.pivot }
        ensures divisor { result.divisor ≡ divisor }
    {
        if a == 1 || b == 1 || b == -1 {
            return Step {
                row: a,
                pivot: b,
                divisor,
            };
        }
        let common = short_gcd(a, b);
        if common == 1 {
            return Step {
                row: a,
                pivot: b,
                divisor,
            };
        }
        Step {
            row: short_floor_div(a, common),
            pivot: short_floor_div(b, common),
            divisor,
        }
    }

    // The step of a row with the denominator, and the entry in column c, in the pivot on row p and that column.
    #[inline(always)]
    pub(crate) fn new(p: &RowView<'_>, c: usize, den: i128, entry: i128) -> Step
        requires column { c < length p.now.coefs.now }
        requires positive { pos 1 ≤ℤ entry_of p.now.coefs.now c }
        requires p { IsShortRow (row_of p.now) }
        requires den { pos 1 ≤ℤ den }
        requires short { AreShort den entry }
        ensures lowest { AreLowest (entry_of p.now.coefs.now c) entry result.row result.pivot }
        ensures divisor { result.divisor ≡ gcd_of_two den p.now.den }
    {
        let divisor = shared_divisor(narrow(den), narrow(p.den));
        Step::lowest(narrow(p.coefs[c]), narrow(entry), divisor)
    }
}
