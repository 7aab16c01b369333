ghost use Rattle.std.specs.Prelude.{◌≡◌, ◌+◌, ◌-◌, ◌<◌, ◌≤◌, pos, ◌≤ℤ◌, [], ◌∷◌, length, All, IsTrue, IfOk, IfSome, OnErr, OnOk, true, vec_len, vec_capacity};
ghost use Rattle.pip_model.specs.Forms.{combine, negate};
ghost use Rattle.pip_model.specs.Listed.{all_fit};
ghost use Rattle.pip_model.specs.Rows as model;
ghost use Rattle.pip_model.specs.Cuts.{rounded, rounded_listed};
ghost use Rattle.pip_model.specs.Agreement.{IsChecked};
ghost use Rattle.affine_forms.specs.Checks.{Fits, is_overflow};
ghost use Rattle.row_laws.specs.Flat.{numbers_of};
ghost use Rattle.row_laws.specs.Short.{IsShort, IsShortRow, AreShort, AreShortLists, AreShortRows};
ghost use Rattle.row_laws.specs.Lowest.{AreReduced, substituted_by};
ghost use Rattle.row_laws.specs.Rows.{IsOwnRow, IsReduced};
ghost use Rattle.tableau_row.specs.Stepped.{IsStep};
ghost use Rattle.row_laws.specs.Steps.{IsPivotRow, IsElimination, IsMadeReduced, MakesRow, column_row};
ghost use Rattle.tableau_row.specs.Room.{Appends, Leaves};
ghost use Rattle.tableau_row.specs.Views.{row_of};

use crate::row::{divide, eliminate, round};
use crate::short::{both, short_opposite};
use crate::view::RowView;
use affine_forms::Overflow;

/// Appends the entries, for which there is room. It takes no memory, like all that append here.
#[inline(always)]
pub fn append_entries(numbers: &mut Vec<i128>, entries: &[i128])
    requires room { vec_len numbers.old + length entries.now ≤ vec_capacity numbers.old }
    ensures { Appends numbers.old numbers.new entries.now }
{
    match numbers.extend_from_slice(entries) {
        Ok(()) => {}
        Err(_) => unreachable!(),
    }
}

// Appends the number, for which there is room.
#[inline(always)]
pub(crate) fn append_one(numbers: &mut Vec<i128>, number: i128)
    requires room { vec_len numbers.old < vec_capacity numbers.old }
    ensures { Appends numbers.old numbers.new (number ∷ []) }
{
    numbers.push_reserved(number);
}

/// Appends the numbers of a row: its denominator, its coefficients, the entries of its constant form.
#[inline(always)]
pub fn append_row(numbers: &mut Vec<i128>, row: &RowView<'_>)
    requires room { vec_len numbers.old + length (numbers_of (row_of row.now)) ≤ vec_capacity numbers.old }
    ensures { Appends numbers.old numbers.new (numbers_of (row_of row.now)) }
{
    append_one(numbers, row.den);
    append_entries(numbers, row.coefs);
    append_entries(numbers, row.constant);
}

// The same, in one piece where the numbers stand in one run.
#[inline(always)]
fn append_run(numbers: &mut Vec<i128>, row: &RowView<'_>, run: Option<&[i128]>)
    requires room { vec_len numbers.old + length (numbers_of (row_of row.now)) ≤ vec_capacity numbers.old }
    requires run { IfSome run (λ s. s.now ≡ numbers_of (row_of row.now)) }
    ensures { Appends numbers.old numbers.new (numbers_of (row_of row.now)) }
{
    match run {
        Some(run) => append_entries(numbers, run),
        None => append_row(numbers, row),
    }
}

/// Appends the numbers of the row divided by their greatest common divisor; whether they are known to be short.
pub fn append_divided(numbers: &mut Vec<i128>, row: &RowView<'_>) -> bool
    requires room { vec_len numbers.old + length (numbers_of (row_of row.now)) ≤ vec_capacity numbers.old }
    requires row { IsOwnRow (row_of row.now) }
    ensures appended { Appends numbers.old numbers.new (numbers_of (model.divided (row_of row.now))) }
    ensures made { IsMadeReduced (row_of row.now) result (model.divided (row_of row.now)) }
{
    let start = numbers.len();
    append_row(numbers, row);
    let (_, last) = numbers.split_at_mut(start);
    divide(last, row.coefs.len(), row.short)
}

/// Appends the numbers of what the row is after the pivot on row p and column c, which are known to fit; whether they
/// are known to be short. The run, if any, has the numbers of the row.
pub fn append_eliminated(
    numbers: &mut Vec<i128>,
    p: &RowView<'_>,
    c: usize,
    row: &RowView<'_>,
    run: Option<&[i128]>,
) -> bool
    requires room { vec_len numbers.old + length (numbers_of (row_of row.now)) ≤ vec_capacity numbers.old }
    requires step { IsElimination (row_of p.now) c (row_of row.now) }
    requires reduced { AreReduced (row_of p.now) (row_of row.now) }
    requires run { IfSome run (λ s. s.now ≡ numbers_of (row_of row.now)) }
    requires listed { IsTrue (all_fit (model.eliminated_listed (row_of p.now) c (row_of row.now))) }
    ensures appended { Appends numbers.old numbers.new
        (numbers_of (model.eliminated (row_of p.now) c (row_of row.now))) }
    ensures made { IsMadeReduced (row_of row.now) result (model.eliminated (row_of p.now) c (row_of row.now)) }
{
    let start = numbers.len();
    append_run(numbers, row, run);
    let (_, last) = numbers.split_at_mut(start);
    eliminate(last, p, c, both(p.short, row.short))
}

// Appends the opposites of short entries, for which there is room.
fn append_negated(numbers: &mut Vec<i128>, entries: &[i128])
    requires room { vec_len numbers.old + length entries.now ≤ vec_capacity numbers.old }
    requires short { All IsShort entries.now }
    ensures appended { Appends numbers.old numbers.new (negate entries.now) }
    ensures length { vec_len numbers.new ≡ vec_len numbers.old + length entries.now }
{
    for entry in entries {
        append_one(numbers, short_opposite(*entry));
    }
}

/// Appends the numbers of what the row of column c itself is after the pivot on row p and column c: p solved for that
/// column. All numbers of p are short, and have no common divisor; so those made are and have none, and nothing is
/// divided.
pub fn append_solved(numbers: &mut Vec<i128>, p: &RowView<'_>, c: usize)
    requires room { vec_len numbers.old + length (numbers_of (row_of p.now)) ≤ vec_capacity numbers.old }
    requires p { IsPivotRow (row_of p.now) c }
    requires reduced { IsReduced (row_of p.now) }
    requires short { IsShortRow (row_of p.now) }
    ensures listed { IsTrue (all_fit (model.eliminated_listed (row_of p.now) c (column_row (row_of p.now) c))) }
    ensures appended { Appends numbers.old numbers.new
        (numbers_of (model.eliminated (row_of p.now) c (column_row (row_of p.now) c))) }
    ensures made { IsMadeReduced (row_of p.now) true
        (model.eliminated (row_of p.now) c (column_row (row_of p.now) c)) }
{
    let (front, rest) = p.coefs.split_at(c);
    let (_, back) = rest.split_at(1);
    append_one(numbers, p.coefs[c]);
    append_negated(numbers, front);
    append_one(numbers, p.den);
    append_negated(numbers, back);
    append_negated(numbers, p.constant);
}

/// Appends the numbers of the row rounded by the quotient at place q, and says whether they are short; a refusal leaves
/// all as it was.
pub fn append_rounded(
    numbers: &mut Vec<i128>,
    row: &RowView<'_>,
    q: usize,
) -> Result<bool, Overflow>
    requires room { vec_len numbers.old + length (numbers_of (row_of row.now)) ≤ vec_capacity numbers.old }
    requires row { IsOwnRow (row_of row.now) }
    requires place { q + 1 < length row.now.constant.now }
    ensures listed { IsChecked is_overflow (rounded_listed (row_of row.now) q) result }
    ensures appended { OnOk result (Appends numbers.old numbers.new (numbers_of (rounded (row_of row.now) q))) }
    ensures made { IfOk result (λ s. IsMadeReduced (row_of row.now) s (rounded (row_of row.now) q)) }
    ensures err { OnErr result (Leaves numbers.old numbers.new) }
{
    let start = numbers.len();
    append_row(numbers, row);
    let (_, last) = numbers.split_at_mut(start);
    match round(last, row.coefs.len(), q) {
        Ok(short) => Ok(short),
        Err(refusal) => {
            numbers.truncate(start);
            Err(refusal)
        }
    }
}

/// Appends the numbers of the row with a 0 before the constant of its constant form.
pub fn append_widened(numbers: &mut Vec<i128>, narrow: &RowView<'_>)
    requires room { vec_len numbers.old + length (numbers_of (row_of narrow.now)) < vec_capacity numbers.old }
    requires constant { 0 < length narrow.now.constant.now }
    ensures { Appends numbers.old numbers.new (numbers_of (model.widened (row_of narrow.now))) }
{
    let (coefficients, last) = narrow.constant.split_at(narrow.constant.len() - 1);
    append_one(numbers, narrow.den);
    append_entries(numbers, narrow.coefs);
    append_entries(numbers, coefficients);
    append_one(numbers, 0);
    append_entries(numbers, last);
}
