ghost use Rattle.std.specs.Prelude.{◌≡◌, ◌+◌, ◌-◌, ◌<◌, pos, ◌≤ℤ◌, ◌&&◌, false, length, drop, IsTrue, IfOk, IfSome, IfNone, OnErr, OnOk, replicate, slice_set};
ghost use Rattle.std.specs.List.{list_all};
ghost use Rattle.pip_model.specs.Numbers.{gcd as gcd_of_two, gcd_of, is_zero, same_number};
ghost use Rattle.pip_model.specs.Forms.{entry};
ghost use Rattle.pip_model.specs.Listed.{all_fit};
ghost use Rattle.pip_model.specs.Rows as model;
ghost use Rattle.pip_model.specs.Cuts.{rounded, rounded_listed};
ghost use Rattle.pip_model.specs.Agreement.{IsChecked};
ghost use Rattle.affine_forms.specs.Checks.{is_overflow};
ghost use Rattle.row_laws.specs.Flat.{numbers_of, row_of_numbers, is_unit, is_unit_row};
ghost use Rattle.row_laws.specs.Lowest.{AreReduced, substituted_by};
ghost use Rattle.row_laws.specs.Short.{IsShort, IsShortRow, AreShort, AreShortRows};
ghost use Rattle.row_laws.specs.Rows.{IsRow, IsOwnRow, IsReduced, content, row_from};
ghost use Rattle.row_laws.specs.Steps.{IsElimination, IsMadeReduced, MakesRow};
ghost use Rattle.tableau_row.specs.Views.{row_of};

use crate::elimination::{divide_parts, eliminate_parts};
use crate::narrow::divide_run;
use crate::short::{both, combine_short, is_short_row, with_entry};
use crate::step::Step;
use crate::view::RowView;
use affine_forms::{Overflow, divide_all, floor_div, gcd_with, round_form, short_product};

/// The row of these numbers over so many columns: its denominator, its coefficients, the entries of its constant form.
#[inline(always)]
pub fn view_of(numbers: &[i128], unknowns: usize, short: bool) -> RowView<'_>
    requires length { unknowns < length numbers.now }
    requires short { IsTrue short → IsShortRow (row_of_numbers unknowns numbers.now) }
    ensures { row_of result ≡ row_of_numbers unknowns numbers.now }
{
    let (den, parts) = numbers.split_at(1);
    let (coefs, constant) = parts.split_at(unknowns);
    RowView {
        den: den[0],
        coefs,
        constant,
        short,
    }
}

// Whether all entries are 0.
fn all_zero(entries: &[i128]) -> bool
    ensures { result ≡ list_all is_zero entries.now }
{
    entries.iter().all(|entry| *entry == 0)
}

// Whether the first entry is 1, and all behind it are 0.
fn is_one(entries: &[i128]) -> bool
    requires { 0 < length entries.now }
    ensures { result ≡ (same_number (entry entries.now 0) (pos 1) && list_all is_zero (drop 1 entries.now)) }
{
    let (first, rest) = entries.split_at(1);
    first[0] == 1 && all_zero(rest)
}

// The column whose coefficients these are.
fn unit_of(coefs: &[i128]) -> Option<usize>
    ensures some { IfSome result (λ c. c < length coefs.now) }
    ensures value { IfSome result (λ c. coefs.now ≡ slice_set (replicate (length coefs.now) (pos 0)) c (pos 1)) }
    ensures none { IfNone result (is_unit coefs.now ≡ false) }
{
    for i in 0..coefs.len() {
        if coefs[i] != 0 {
            let (_, rest) = coefs.split_at(i);
            return if is_one(rest) { Some(i) } else { None };
        }
    }
    None
}

/// The column whose row this is, none of any other row.
#[inline(always)]
pub fn unit_column(row: &RowView<'_>) -> Option<usize>
    requires { 0 < length row.now.constant.now }
    ensures some { IfSome result (λ c. c < length row.now.coefs.now) }
    ensures value { IfSome result (λ c.
        row_of row.now ≡ model.unit_row (length row.now.coefs.now) (length row.now.constant.now - 1) c) }
    ensures none { IfNone result (is_unit_row (row_of row.now) ≡ false) }
{
    if row.den != 1 {
        return None;
    }
    if all_zero(row.constant) {
        unit_of(row.coefs)
    } else {
        None
    }
}

// Divides a row's numbers by their greatest common divisor; whether they are known to be short, as before if by 1.
pub(crate) fn divide(numbers: &mut [i128], unknowns: usize, short: bool) -> bool
    requires length { unknowns < length numbers.old }
    requires row { IsOwnRow (row_of_numbers unknowns numbers.old) }
    requires short { IsTrue short → IsShortRow (row_of_numbers unknowns numbers.old) }
    ensures value { numbers.new ≡ numbers_of (model.divided (row_of_numbers unknowns numbers.old)) }
    ensures made { let r = row_of_numbers unknowns numbers.old in IsMadeReduced r result (model.divided r) }
{
    let (den, parts) = numbers.split_at_mut(1);
    let (coefs, constant) = parts.split_at_mut(unknowns);
    let (made, made_short) = divide_parts(den[0], coefs, constant, short);
    den[0] = made;
    made_short
}

// The same, where the greatest common divisor is that of the start, at least 1, and all numbers but the denominator.
fn divide_from(numbers: &mut [i128], unknowns: usize, start: i64, short: bool) -> bool
    requires length { unknowns < length numbers.old }
    requires row { IsOwnRow (row_of_numbers unknowns numbers.old) }
    requires start { pos 1 ≤ℤ start }
    requires start_short { IsShort start }
    requires divisor { content (row_of_numbers unknowns numbers.old)
        ≡ gcd_of_two start (gcd_of (drop 1 numbers.old)) }
    requires short { IsTrue short → IsShortRow (row_of_numbers unknowns numbers.old) }
    ensures value { numbers.new ≡ numbers_of (model.divided (row_of_numbers unknowns numbers.old)) }
    ensures made { let r = row_of_numbers unknowns numbers.old in IsMadeReduced r result (model.divided r) }
{
    if !short {
        return divide(numbers, unknowns, false);
    }
    divide_run(numbers, start);
    true
}

// Makes of a row's numbers those of the row with row p, solved for column c, put in by the step; whether they are
// short. Those of both rows are.
fn substitute_short(numbers: &mut [i128], step: Step, p: &RowView<'_>, c: usize) -> bool
    requires length { length p.now.coefs.now < length numbers.old }
    requires step { IsElimination (row_of p.now) c (row_of_numbers (length p.now.coefs.now) numbers.old) }
    requires short { AreShortRows (row_of p.now) (row_of_numbers (length p.now.coefs.now) numbers.old) }
    ensures value { numbers.new ≡ numbers_of (substituted_by step.row step.pivot (row_of p.now) c
        (row_of_numbers (length p.now.coefs.now) numbers.old)) }
    ensures made { let r = row_of_numbers (length p.now.coefs.now) numbers.old in
        let made = substituted_by step.row step.pivot (row_of p.now) c r in MakesRow r made result made }
{
    let (den, parts) = numbers.split_at_mut(1);
    let (coefs, constant) = parts.split_at_mut(p.coefs.len());
    let made = short_product(den[0], step.row as i128);
    let entry = short_product(step.pivot as i128, p.den);
    let coefs_short = combine_short(step.row as i128, coefs, step.pivot as i128, p.coefs);
    coefs[c] = entry;
    let constant_short = combine_short(step.row as i128, constant, step.pivot as i128, p.constant);
    den[0] = made;
    both(
        with_entry(coefs_short, entry),
        with_entry(constant_short, made),
    )
}

// Makes of a row's numbers those of what the row is after the pivot on row p and column c; whether they are short.
// Those of both rows are.
fn eliminate_short(numbers: &mut [i128], p: &RowView<'_>, c: usize) -> bool
    requires length { length p.now.coefs.now < length numbers.old }
    requires step { IsElimination (row_of p.now) c (row_of_numbers (length p.now.coefs.now) numbers.old) }
    requires reduced { AreReduced (row_of p.now) (row_of_numbers (length p.now.coefs.now) numbers.old) }
    requires short { AreShortRows (row_of p.now) (row_of_numbers (length p.now.coefs.now) numbers.old) }
    ensures value { numbers.new
        ≡ numbers_of (model.eliminated (row_of p.now) c (row_of_numbers (length p.now.coefs.now) numbers.old)) }
    ensures made { let r = row_of_numbers (length p.now.coefs.now) numbers.old in
        IsMadeReduced r result (model.eliminated (row_of p.now) c r) }
{
    let step = Step::new(p, c, numbers[0], numbers[1 + c]);
    let short = substitute_short(numbers, step, p, c);
    if step.divisor == 1 {
        return short;
    }
    divide_from(numbers, p.coefs.len(), step.divisor, short)
}

// The same, where the numbers of one of the rows are not known to be short.
fn eliminate_long(numbers: &mut [i128], p: &RowView<'_>, c: usize) -> bool
    requires length { length p.now.coefs.now < length numbers.old }
    requires step { IsElimination (row_of p.now) c (row_of_numbers (length p.now.coefs.now) numbers.old) }
    requires listed { IsTrue (all_fit
        (model.eliminated_listed (row_of p.now) c (row_of_numbers (length p.now.coefs.now) numbers.old))) }
    ensures value { numbers.new
        ≡ numbers_of (model.eliminated (row_of p.now) c (row_of_numbers (length p.now.coefs.now) numbers.old)) }
    ensures made { let r = row_of_numbers (length p.now.coefs.now) numbers.old in
        IsMadeReduced r result (model.eliminated (row_of p.now) c r) }
{
    let (den, parts) = numbers.split_at_mut(1);
    let (coefs, constant) = parts.split_at_mut(p.coefs.len());
    let (made, made_short) = eliminate_parts(p, c, den[0], coefs, constant);
    den[0] = made;
    made_short
}

// Makes of a row's numbers those of what the row is after the pivot on row p and column c; whether they are known to
// be short. Those of both rows may be known to be. Neither row's numbers have a common divisor.
pub(crate) fn eliminate(numbers: &mut [i128], p: &RowView<'_>, c: usize, short: bool) -> bool
    requires length { length p.now.coefs.now < length numbers.old }
    requires step { IsElimination (row_of p.now) c (row_of_numbers (length p.now.coefs.now) numbers.old) }
    requires reduced { AreReduced (row_of p.now) (row_of_numbers (length p.now.coefs.now) numbers.old) }
    requires listed { IsTrue (all_fit
        (model.eliminated_listed (row_of p.now) c (row_of_numbers (length p.now.coefs.now) numbers.old))) }
    requires short { IsTrue short
        → AreShortRows (row_of p.now) (row_of_numbers (length p.now.coefs.now) numbers.old) }
    ensures value { numbers.new
        ≡ numbers_of (model.eliminated (row_of p.now) c (row_of_numbers (length p.now.coefs.now) numbers.old)) }
    ensures made { let r = row_of_numbers (length p.now.coefs.now) numbers.old in
        IsMadeReduced r result (model.eliminated (row_of p.now) c r) }
{
    if short {
        return eliminate_short(numbers, p, c);
    }
    eliminate_long(numbers, p, c)
}

// The row's parts, rounded by the quotient at place q, and its new denominator; a refusal leaves them as they were.
fn round_parts(
    den: i128,
    coefs: &mut [i128],
    constant: &mut [i128],
    q: usize,
) -> Result<i128, Overflow>
    requires row { IsOwnRow (row_from den coefs.old constant.old) }
    requires place { q + 1 < length constant.old }
    ensures listed { IsChecked is_overflow (rounded_listed (row_from den coefs.old constant.old) q) result }
    ensures ok { IfOk result (λ d.
        row_from d coefs.new constant.new ≡ rounded (row_from den coefs.old constant.old) q) }
    ensures row { IfOk result (λ d.
        IsRow (length coefs.old) (length constant.old - 1) (row_from d coefs.new constant.new)) }
    ensures reduced { IfOk result (λ d. IsReduced (row_from d coefs.new constant.new)) }
    ensures err { OnErr result ((coefs.new ≡ coefs.old) × (constant.new ≡ constant.old)) }
{
    round_form(den, constant, q)?;
    let divisor = gcd_with(gcd_with(den, coefs), constant);
    divide_all(coefs, divisor);
    divide_all(constant, divisor);
    Ok(floor_div(den, divisor))
}

// Makes of a row's numbers those of the row rounded by the quotient at place q, and says whether they are short; a
// refusal leaves them as they were.
pub(crate) fn round(numbers: &mut [i128], unknowns: usize, q: usize) -> Result<bool, Overflow>
    requires length { unknowns < length numbers.old }
    requires row { IsOwnRow (row_of_numbers unknowns numbers.old) }
    requires place { q + unknowns + 2 < length numbers.old }
    ensures listed { IsChecked is_overflow (rounded_listed (row_of_numbers unknowns numbers.old) q) result }
    ensures ok { OnOk result (numbers.new ≡ numbers_of (rounded (row_of_numbers unknowns numbers.old) q)) }
    ensures made { let r = row_of_numbers unknowns numbers.old in
        IfOk result (λ s. IsMadeReduced r s (rounded r q)) }
    ensures err { OnErr result (numbers.new ≡ numbers.old) }
{
    let (den, parts) = numbers.split_at_mut(1);
    let (coefs, constant) = parts.split_at_mut(unknowns);
    let made = round_parts(den[0], coefs, constant, q)?;
    den[0] = made;
    Ok(is_short_row(made, coefs, constant))
}
