ghost use Rattle.std.specs.Prelude.{◌≡◌, ◌+◌, ◌<◌, ◌≤◌, pos, ◌≤ℤ◌, length, drop, true, All, IsTrue, IsFalse, IfSome};
ghost use Rattle.pip_model.specs.Forms.{entry};
ghost use Rattle.pip_model.specs.Numbers.{gcd as gcd_of_two, gcd_of};
ghost use Rattle.pip_model.specs.Rows as model;
ghost use Rattle.short_numbers.specs.Short.{IsShort, IsShortDivisor};
ghost use Rattle.row_laws.specs.Flat.{row_of_numbers};
ghost use Rattle.row_laws.specs.Rows.{content};
ghost use Rattle.short_row.specs.Put.{IsPut, ArePutEnds, put_row};
ghost use Rattle.short_row.specs.Turned.{IsTurned};

use crate::begun::{BegunRow, finish};
use crate::numbers::{combine, divide_all, gcd_with, narrow, product};
use crate::row::view_of;
use crate::whole::divide_common;
use crate::wide::Factors;
use short_numbers::{gcd, is_half};

// A row that the pivot's row is put into: what the two rows are multiplied by, the column, and how many of the numbers
// behind the denominator are made. The others, and the denominator, are still those of the row before.
#[derive(Clone, Copy)]
pub(crate) struct PutRow {
    pub by: Factors,
    pub column: usize,
    pub made: usize,
}

// The column of such a row, and how many of its numbers are made.
#[derive(Clone, Copy)]
pub(crate) struct PutProgress {
    pub column: usize,
    pub made: usize,
}

// Makes the further numbers up to the first that is not short; how many are made then.
fn extend(row: &mut [i64], unknowns: usize, p: &[i64], put: &PutRow) -> usize
    requires { IsPut unknowns put.now p.now row.old }
    ensures put { IsPut unknowns (record put.now { made = result }) p.now row.new }
    ensures row { put_row unknowns (record put.now { made = result }) p.now row.new
        ≡ put_row unknowns put.now p.now row.old }
{
    let (_, rest) = row.split_at_mut(put.made + 1);
    let (_, others) = p.split_at(put.made + 1);
    put.made + combine(put.by.of_row, rest, put.by.of_pivot, others)
}

// The denominator and the entry in the column, where they are short.
fn put_ends(by: Factors, den: i64, pivot_den: i64) -> Option<(i64, i64)>
    requires den { IsShort den }
    requires pivot_den { IsShort pivot_den }
    requires of_row { IsShort by.of_row }
    requires of_pivot { IsShort by.of_pivot }
    ensures { IfSome result (ArePutEnds by den pivot_den) }
{
    let now = narrow(product(den, by.of_row))?;
    let entry = narrow(product(by.of_pivot, pivot_den))?;
    Some((now, entry))
}

// The greatest common divisor of two denominators.
fn common(a: i64, b: i64) -> i64
    requires a { IsShortDivisor a }
    requires b { IsShortDivisor b }
    ensures value { result ≡ gcd_of_two a b }
    ensures divisor { IsShortDivisor result }
{
    if a == 1 || b == 1 {
        return 1;
    }
    gcd(a, b)
}

// Divides a row by the greatest common divisor of its numbers, which is found from that of a number and those behind
// the denominator.
#[inline(never)]
fn divide_found(row: &mut [i64], unknowns: usize, start: i64)
    requires some { 1 ≤ length row.old }
    requires short { All IsShort row.old }
    requires start { IsShortDivisor start }
    requires content { content (row_of_numbers unknowns row.old) ≡ gcd_of_two start (gcd_of (drop 1 row.old)) }
    ensures value { row_of_numbers unknowns row.new ≡ model.divided (row_of_numbers unknowns row.old) }
    ensures short { All IsShort row.new }
{
    let (_, numbers) = row.split_at(1);
    let divisor = gcd_with(start, numbers);
    if divisor != 1 {
        divide_all(row, divisor);
    }
}

// The same, where the number is mostly the greatest common divisor.
#[inline(always)]
fn divide_row(row: &mut [i64], unknowns: usize, start: i64)
    requires some { 1 ≤ length row.old }
    requires short { All IsShort row.old }
    requires start { IsShortDivisor start }
    requires content { content (row_of_numbers unknowns row.old) ≡ gcd_of_two start (gcd_of (drop 1 row.old)) }
    ensures value { row_of_numbers unknowns row.new ≡ model.divided (row_of_numbers unknowns row.old) }
    ensures short { All IsShort row.new }
{
    if start == 1 {
        return;
    }
    if is_half(start) {
        divide_common(row, start);
    } else {
        divide_found(row, unknowns, start);
    }
}

// Ends a row whose numbers behind the denominator are all made: puts the denominator and the entry in the column where
// they belong, and divides. Whether these two are short; the row stays otherwise.
#[inline(always)]
fn close(row: &mut [i64], unknowns: usize, p: &[i64], put: &PutRow) -> bool
    requires put { IsPut unknowns put.now p.now row.old }
    requires made { put.now.made + 1 ≡ length row.old }
    ensures turned { IsTrue result
        → IsTurned unknowns (model.divided (put_row unknowns put.now p.now row.old)) true row.new }
    ensures same { IsFalse result → row.new ≡ row.old }
{
    let Some(ends) = put_ends(put.by, row[0], p[0]) else {
        return false;
    };
    let start = common(row[0], p[0]);
    row[0] = ends.0;
    row[put.column + 1] = ends.1;
    divide_row(row, unknowns, start);
    true
}

// Of so many numbers that are made behind the denominator, how many are coefficients.
fn coefs_of(made: usize, unknowns: usize) -> usize
    ensures within { result ≤ unknowns }
    ensures front { result ≤ made }
    ensures all { result < unknowns → result ≡ made }
{
    if made < unknowns { made } else { unknowns }
}

// Ends a row by 128 bits. Whether its numbers are short.
#[inline(never)]
fn finish_put(row: &mut [i64], unknowns: usize, p: &[i64], by: Factors, at: PutProgress) -> bool
    requires { IsPut unknowns (record { by = by; column = at.column; made = at.made }) p.now row.old }
    ensures { IsTurned unknowns
        (model.divided (put_row unknowns (record { by = by; column = at.column; made = at.made }) p.now row.old))
        result row.new }
{
    let pivot = view_of(p, unknowns);
    let coefs_made = coefs_of(at.made, unknowns);
    let (den, rest) = row.split_at_mut(1);
    let (coefs, constant) = rest.split_at_mut(unknowns);
    let begun = BegunRow {
        by,
        column: at.column,
        den: product(den[0], by.of_row),
        entry: product(by.of_pivot, pivot.den),
        coefs: coefs_made,
        constant: at.made - coefs_made,
    };
    match finish(&pivot, &begun, coefs, constant) {
        Some(now) => {
            den[0] = now;
            true
        }
        None => false,
    }
}

// Ends a row, of which more numbers may be made first. Whether its numbers are short.
#[inline(never)]
fn put_rest(row: &mut [i64], unknowns: usize, p: &[i64], by: Factors, at: PutProgress) -> bool
    requires { IsPut unknowns (record { by = by; column = at.column; made = at.made }) p.now row.old }
    ensures { IsTurned unknowns
        (model.divided (put_row unknowns (record { by = by; column = at.column; made = at.made }) p.now row.old))
        result row.new }
{
    let column = at.column;
    let put = PutRow {
        by,
        column,
        made: at.made,
    };
    let made = extend(row, unknowns, p, &put);
    let now = PutRow { by, column, made };
    if made + 1 == row.len() && close(row, unknowns, p, &now) {
        return true;
    }
    finish_put(row, unknowns, p, by, PutProgress { column, made })
}

// Ends a row, whose numbers are mostly all made. Whether its numbers are short.
#[inline(always)]
pub(crate) fn end_put(row: &mut [i64], unknowns: usize, p: &[i64], put: &PutRow) -> bool
    requires { IsPut unknowns put.now p.now row.old }
    ensures { IsTurned unknowns (model.divided (put_row unknowns put.now p.now row.old)) result row.new }
{
    if put.made + 1 == row.len() && close(row, unknowns, p, put) {
        return true;
    }
    let at = PutProgress {
        column: put.column,
        made: put.made,
    };
    put_rest(row, unknowns, p, put.by, at)
}
