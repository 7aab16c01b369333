ghost use Rattle.std.specs.Prelude.{◌≡◌, pos, ◌≤ℤ◌, length};
ghost use Rattle.pip_model.specs.Rows as model;
ghost use Rattle.row_laws.specs.Rows.{row_from};
ghost use Rattle.short_row.specs.Begun.{begun_row, begun_divisor, IsBegun};
ghost use Rattle.short_row.specs.Sized.{IsShortReduced, IsPivot};
ghost use Rattle.short_row.specs.Rows.{row_of};
ghost use Rattle.short_row.specs.Turned.{IsDenominatorOf};

use crate::row::ShortRow;
use crate::wide::{Factors, divide_finished, gcd_with_finished, narrow_quotient};
use affine_forms::gcd;

// A row that the pivot's row is put into, before its numbers are divided: its denominator, its entry in the column,
// what the two rows are multiplied by, and how many of its coefficients and of its constants are made. The others are
// still those of the row before.
#[derive(Clone, Copy)]
pub(crate) struct BegunRow {
    pub by: Factors,
    pub column: usize,
    pub den: i128,
    pub entry: i128,
    pub coefs: usize,
    pub constant: usize,
}

// The greatest common divisor of all numbers of the row.
fn divisor(p: &ShortRow<'_>, begun: &BegunRow, coefs: &[i64], constant: &[i64]) -> i128
    requires { IsBegun begun.now (row_of p.now) coefs.now constant.now }
    ensures value { result ≡ begun_divisor begun.now (row_of p.now) coefs.now constant.now }
    ensures positive { pos 1 ≤ℤ result }
{
    let first = gcd(begun.den, begun.entry);
    let found = gcd_with_finished(first, begun.by, coefs, p.coefs, begun.coefs);
    gcd_with_finished(found, begun.by, constant, p.constant, begun.constant)
}

// Makes what is left of the row, divided by the greatest common divisor of its numbers; the new denominator, none where
// a number is not short then.
pub(crate) fn finish(
    p: &ShortRow<'_>,
    begun: &BegunRow,
    coefs: &mut [i64],
    constant: &mut [i64],
) -> Option<i64>
    requires { IsBegun begun.now (row_of p.now) coefs.old constant.old }
    ensures { IsDenominatorOf (model.divided (begun_row begun.now (row_of p.now) coefs.old constant.old))
        coefs.new constant.new result }
{
    let divisor = divisor(p, begun, coefs, constant);
    let den = narrow_quotient(begun.den, divisor)?;
    let entry = narrow_quotient(begun.entry, divisor)?;
    if !divide_finished(begun.by, coefs, p.coefs, begun.coefs, divisor) {
        return None;
    }
    if !divide_finished(begun.by, constant, p.constant, begun.constant, divisor) {
        return None;
    }
    coefs[begun.column] = entry;
    Some(den)
}
