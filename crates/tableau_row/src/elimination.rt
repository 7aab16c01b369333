ghost use Rattle.std.specs.Prelude.{◌≡◌, ◌+◌, ◌-◌, ◌<◌, ◌*ℤ◌, ◌-ℤ◌, [], ◌∷◌, ◌++◌, length, take, drop, slice_set, All, IsTrue, true};
ghost use Rattle.pip_model.specs.Forms.{combine, entry, remove};
ghost use Rattle.pip_model.specs.Listed.{all_fit, combine_listed};
ghost use Rattle.pip_model.specs.Rows as model;
ghost use Rattle.pip_model.specs.Agreement.{IsChecked};
ghost use Rattle.affine_forms.specs.Checks.{Fits, is_overflow};
ghost use Rattle.row_laws.specs.Short.{IsShortRow};
ghost use Rattle.row_laws.specs.Rows.{IsRow, IsOwnRow, row_from};
ghost use Rattle.row_laws.specs.Steps.{IsElimination, MakesRow};
ghost use Rattle.tableau_row.specs.Views.{row_of};

use crate::narrow::{divide_all_short, short_divisor_with, short_quotient};
use crate::short::{all_short, is_short, is_short_row};
use crate::view::RowView;
use affine_forms::{Overflow, difference, divide_all, floor_div, gcd_with, times};
use short_numbers::narrow;

// Checks `a*r - b*s`, entry by entry.
fn check_each(a: i128, r: &[i128], b: i128, s: &[i128]) -> Result<(), Overflow>
    requires { length r.now ≡ length s.now }
    ensures { IsChecked is_overflow (combine_listed a r.now b s.now) result }
{
    for i in 0..r.len() {
        difference(a, r[i], b, s[i])?;
    }
    Ok(())
}

// Checks `a*r - b*s`; short numbers need no product for that.
#[tactic(auto, using(row_laws::proofs::Combining::short_listed))]
fn check_combined(a: i128, r: &[i128], b: i128, s: &[i128]) -> Result<(), Overflow>
    requires { length r.now ≡ length s.now }
    ensures { IsChecked is_overflow (combine_listed a r.now b s.now) result }
{
    if is_short(a) && is_short(b) && all_short(r) && all_short(s) {
        return Ok(());
    }
    check_each(a, r, b, s)
}

// Checks `a*r - b*s` but for place c.
#[tactic(auto, using(row_laws::proofs::Places::listed_but, row_laws::proofs::Places::drop_two))]
fn check_but(a: i128, r: &[i128], b: i128, s: &[i128], c: usize) -> Result<(), Overflow>
    requires lengths { length r.now ≡ length s.now }
    requires place { c < length r.now }
    ensures { IsChecked is_overflow (combine_listed a (take c r.now ++ drop (c + 1) r.now) b
        (take c s.now ++ drop (c + 1) s.now)) result }
{
    let (r_front, r_rest) = r.split_at(c);
    let (s_front, s_rest) = s.split_at(c);
    check_combined(a, r_front, b, s_front)?;
    let (_, r_back) = r_rest.split_at(1);
    let (_, s_back) = s_rest.split_at(1);
    check_combined(a, r_back, b, s_back)?;
    Ok(())
}

/// Checks the numbers of a row with row p, solved for column c, put in: it overflows exactly where one does not fit.
pub fn check_eliminated(p: &RowView<'_>, c: usize, row: &RowView<'_>) -> Result<(), Overflow>
    requires coefs { length row.now.coefs.now ≡ length p.now.coefs.now }
    requires constant { length row.now.constant.now ≡ length p.now.constant.now }
    requires column { c < length p.now.coefs.now }
    ensures { IsChecked is_overflow (model.eliminated_listed (row_of p.now) c (row_of row.now)) result }
{
    let a = p.coefs[c];
    let b = row.coefs[c];
    times(row.den, a)?;
    times(b, p.den)?;
    check_but(a, row.coefs, b, p.coefs, c)?;
    check_combined(a, row.constant, b, p.constant)?;
    Ok(())
}

// `a*x - b*y`, known to fit.
fn exact_difference(a: i128, x: i128, b: i128, y: i128) -> i128
    requires { IsTrue (all_fit ((a *ℤ x) ∷ (b *ℤ y) ∷ (a *ℤ x -ℤ b *ℤ y) ∷ [])) }
    ensures value { result ≡ a *ℤ x -ℤ b *ℤ y }
    ensures fits { Fits result }
{
    match difference(a, x, b, y) {
        Ok(number) => number,
        Err(_) => unreachable!(),
    }
}

// `a*b`, known to fit.
fn exact_product(a: i128, b: i128) -> i128
    requires { Fits (a *ℤ b) }
    ensures value { result ≡ a *ℤ b }
    ensures fits { Fits result }
{
    match times(a, b) {
        Ok(number) => number,
        Err(_) => unreachable!(),
    }
}

// Makes `a*r - b*s` of r, entry by entry.
fn combine_all(a: i128, r: &mut [i128], b: i128, s: &[i128])
    requires lengths { length r.old ≡ length s.now }
    requires listed { IsTrue (all_fit (combine_listed a r.old b s.now)) }
    requires fits { All Fits r.old }
    ensures value { r.new ≡ combine a r.old b s.now }
    ensures fits { All Fits r.new }
{
    for i in 0..r.len() {
        r[i] = exact_difference(a, r[i], b, s[i]);
    }
}

// By what a row and the pivot's row are multiplied, before their difference is made.
#[derive(Clone, Copy)]
struct Factors {
    a: i128,
    b: i128,
}

// Makes `a*r - b*s` of r but for place c, which gets the entry.
fn combine_but(by: Factors, r: &mut [i128], s: &[i128], c: usize, entry: i128)
    requires lengths { length r.old ≡ length s.now }
    requires place { c < length r.old }
    requires listed { IsTrue (all_fit (combine_listed by.a (remove c r.old) by.b (remove c s.now))) }
    requires entry { Fits entry }
    requires fits { All Fits r.old }
    ensures value { r.new ≡ slice_set (combine by.a r.old by.b s.now) c entry }
    ensures fits { All Fits r.new }
{
    let (s_front, s_rest) = s.split_at(c);
    let (_, s_back) = s_rest.split_at(1);
    let (front, rest) = r.split_at_mut(c);
    combine_all(by.a, front, by.b, s_front);
    let (at, back) = rest.split_at_mut(1);
    combine_all(by.a, back, by.b, s_back);
    at[0] = entry;
}

// Divides a row of short numbers by their greatest common divisor; the new denominator.
#[tactic(auto, using(row_laws::proofs::ShortRows::fits_short, row_laws::proofs::ShortRows::short_fit))]
#[inline(always)]
fn divide_short_parts(den: i128, coefs: &mut [i128], constant: &mut [i128]) -> i128
    requires row { IsOwnRow (row_from den coefs.old constant.old) }
    requires short { IsShortRow (row_from den coefs.old constant.old) }
    ensures { let r = row_from den coefs.old constant.old in
        MakesRow r (model.divided r) true (row_from result coefs.new constant.new) }
{
    let divisor = short_divisor_with(short_divisor_with(narrow(den), coefs), constant);
    if divisor == 1 {
        return den;
    }
    divide_all_short(coefs, divisor);
    divide_all_short(constant, divisor);
    short_quotient(den, divisor)
}

// Divides a row by the greatest common divisor of its numbers; the new denominator, and whether the numbers are known
// to be short, as before where nothing is divided.
fn divide_long_parts(den: i128, coefs: &mut [i128], constant: &mut [i128]) -> (i128, bool)
    requires { IsOwnRow (row_from den coefs.old constant.old) }
    ensures { let r = row_from den coefs.old constant.old in
        MakesRow r (model.divided r) result.1 (row_from result.0 coefs.new constant.new) }
{
    let divisor = gcd_with(gcd_with(den, coefs), constant);
    if divisor == 1 {
        return (den, false);
    }
    divide_all(coefs, divisor);
    divide_all(constant, divisor);
    let den = floor_div(den, divisor);
    (den, is_short_row(den, coefs, constant))
}

// Divides a row by the greatest common divisor of its numbers; the new denominator, and whether the numbers are known
// to be short, as before where nothing is divided.
#[inline(always)]
pub(crate) fn divide_parts(
    den: i128,
    coefs: &mut [i128],
    constant: &mut [i128],
    short: bool,
) -> (i128, bool)
    requires row { IsOwnRow (row_from den coefs.old constant.old) }
    requires short { IsTrue short → IsShortRow (row_from den coefs.old constant.old) }
    ensures { let r = row_from den coefs.old constant.old in
        MakesRow r (model.divided r) result.1 (row_from result.0 coefs.new constant.new) }
{
    if den == 1 {
        return (1, short);
    }
    if short {
        let den = divide_short_parts(den, coefs, constant);
        return (den, true);
    }
    divide_long_parts(den, coefs, constant)
}

// Puts row p, solved for column c, into a row; the new denominator.
fn substitute_long(
    p: &RowView<'_>,
    c: usize,
    den: i128,
    coefs: &mut [i128],
    constant: &mut [i128],
) -> i128
    requires step { IsElimination (row_of p.now) c (row_from den coefs.old constant.old) }
    requires listed { IsTrue (all_fit
        (model.eliminated_listed (row_of p.now) c (row_from den coefs.old constant.old))) }
    ensures value { row_from result coefs.new constant.new ≡ model.substituted (row_of p.now) c
        (row_from den coefs.old constant.old) }
    ensures row { IsRow (length coefs.old) (length constant.old - 1) (row_from result coefs.new constant.new) }
{
    let a = p.coefs[c];
    let b = coefs[c];
    let entry = exact_product(b, p.den);
    combine_but(Factors { a, b }, coefs, p.coefs, c, entry);
    combine_all(a, constant, b, p.constant);
    exact_product(den, a)
}

// Makes of a row that after the pivot on row p and column c; the new denominator, and whether the numbers are short.
pub(crate) fn eliminate_parts(
    p: &RowView<'_>,
    c: usize,
    den: i128,
    coefs: &mut [i128],
    constant: &mut [i128],
) -> (i128, bool)
    requires step { IsElimination (row_of p.now) c (row_from den coefs.old constant.old) }
    requires listed { IsTrue (all_fit
        (model.eliminated_listed (row_of p.now) c (row_from den coefs.old constant.old))) }
    ensures { let r = row_from den coefs.old constant.old in
        MakesRow r (model.eliminated (row_of p.now) c r) result.1 (row_from result.0 coefs.new constant.new) }
{
    let den = substitute_long(p, c, den, coefs, constant);
    divide_parts(den, coefs, constant, is_short_row(den, coefs, constant))
}
