ghost use Rattle.std.specs.Prelude.{◌≡◌, ◌+◌, ◌<◌, ◌≤◌, pos, ◌≤ℤ◌, length, replicate};
ghost use Rattle.pip_model.specs.Rows as model;
ghost use Rattle.row_laws.specs.Flat.{row_of_numbers};
ghost use Rattle.row_laws.specs.Short.{IsShortRow};
ghost use Rattle.row_laws.specs.Rows.{row_from};
ghost use Rattle.short_row.specs.Sized.{places_of};
ghost use Rattle.short_row.specs.Rows.{row_of};
ghost use Rattle.short_row.specs.Turned.{IsDenominatorOf, IsTurned};

use crate::numbers::{divide_all, gcd_with};
use short_numbers::short_floor_div;

/// A row: its denominator, its coefficients, and its constant form, which is a constant.
#[derive(Clone, Copy)]
pub struct ShortRow<'t> {
    pub den: i64,
    pub coefs: &'t [i64],
    pub constant: &'t [i64],
}

/// The row of these numbers over so many columns.
pub fn view_of(row: &[i64], unknowns: usize) -> ShortRow<'_>
    requires { unknowns < length row.now }
    ensures { row_of result ≡ row_of_numbers unknowns row.now }
{
    let (den, rest) = row.split_at(1);
    let (coefs, constant) = rest.split_at(unknowns);
    ShortRow {
        den: den[0],
        coefs,
        constant,
    }
}

/// Divides a row by the greatest common divisor of its numbers; the new denominator.
#[inline(always)]
pub fn divide_parts(den: i64, coefs: &mut [i64], constant: &mut [i64]) -> i64
    requires positive { pos 1 ≤ℤ den }
    requires short { IsShortRow (row_from den coefs.old constant.old) }
    ensures value { row_from result coefs.new constant.new ≡ model.divided (row_from den coefs.old constant.old) }
    ensures short { IsShortRow (row_from result coefs.new constant.new) }
{
    if den == 1 {
        return 1;
    }
    let divisor = gcd_with(gcd_with(den, coefs), constant);
    if divisor == 1 {
        return den;
    }
    divide_all(coefs, divisor);
    divide_all(constant, divisor);
    short_floor_div(den, divisor)
}

// Makes all numbers 0.
fn clear_all(numbers: &mut [i64])
    ensures { numbers.new ≡ replicate (length numbers.old) (pos 0) }
{
    for number in numbers.iter_mut() {
        *number = 0;
    }
}

/// Makes of zeros the numbers of the row of column c.
#[inline(always)]
pub fn put_unit(row: &mut [i64], unknowns: usize, c: usize)
    requires size { unknowns + 2 ≤ length row.old }
    requires column { c < unknowns }
    requires zeros { row.old ≡ replicate (length row.old) (pos 0) }
    ensures { row_of_numbers unknowns row.new ≡ model.unit_row unknowns (places_of unknowns row.old) c }
{
    row[0] = 1;
    row[c + 1] = 1;
}

/// Makes of the numbers of a row those of the row of column c.
pub fn make_unit(row: &mut [i64], unknowns: usize, c: usize)
    requires size { unknowns + 2 ≤ length row.old }
    requires column { c < unknowns }
    ensures { row_of_numbers unknowns row.new ≡ model.unit_row unknowns (places_of unknowns row.old) c }
{
    clear_all(row);
    put_unit(row, unknowns, c);
}
