ghost use Rattle.std.specs.Prelude.{◌≡◌, ◌+◌, ◌<◌, ◌≤◌, pos, ◌≤ℤ◌, ◌++◌, length, take, replicate, false, IsTrue, IsFalse, IfOk, OnOk, OnErr, vec_len};
ghost use Rattle.std.specs.List.{list_all};
ghost use Rattle.pip_model.specs.Forms.{widen_to};
ghost use Rattle.pip_model.specs.Rows.{divided, form_row, unit_row};
ghost use Rattle.affine_forms.specs.Forms.{IsForm};
ghost use Rattle.row_laws.specs.Flat.{numbers_of, row_of_numbers};
ghost use Rattle.row_laws.specs.Short.{is_short, IsShortRow};
ghost use Rattle.short_row.specs.Sized.{IsShortReduced, row_size};
ghost use Rattle.short_row.specs.Rows.{row_of};
ghost use Rattle.short_row.specs.Terms.{AreNarrowed, IsNarrowed};

use affine_forms::WantOfMemory;
use short_row::{ShortRow, divide_parts, narrow, put_unit};

// How many numbers are copied at once: a copy of no more than 2,048 bytes goes by vectors.
const PIECE: usize = 256;

// Appends numbers, piece by piece.
pub(crate) fn append_pieces(numbers: &mut Vec<i64>, more: &[i64]) -> Result<(), WantOfMemory>
    ensures { OnOk result (numbers.new.items ≡ numbers.old.items ++ more.now) }
{
    let mut rest = more;
    while rest.len() > PIECE {
        let (piece, others) = rest.split_at(PIECE);
        numbers.extend_from_slice(piece)?;
        rest = others;
    }
    numbers.extend_from_slice(rest)?;
    Ok(())
}

// Appends the numbers of a row, or some of them.
fn append_row(numbers: &mut Vec<i64>, row: &ShortRow<'_>) -> Result<(), WantOfMemory>
    ensures ok { OnOk result (numbers.new.items ≡ numbers.old.items ++ numbers_of (row_of row.now)) }
    ensures front { take (vec_len numbers.old) numbers.new.items ≡ numbers.old.items }
{
    numbers.push(row.den)?;
    numbers.extend_from_slice(row.coefs)?;
    numbers.extend_from_slice(row.constant)?;
    Ok(())
}

// Appends the numbers of a row. A refusal leaves all as it was.
pub(crate) fn push_row(numbers: &mut Vec<i64>, row: &ShortRow<'_>) -> Result<(), WantOfMemory>
    ensures ok { OnOk result (numbers.new.items ≡ numbers.old.items ++ numbers_of (row_of row.now)) }
    ensures err { OnErr result (numbers.new.items ≡ numbers.old.items) }
{
    let before = numbers.len();
    let pushed = append_row(numbers, row);
    if pushed.is_err() {
        numbers.truncate(before);
    }
    pushed
}

// Appends the numbers of the row of column c. A refusal leaves all as it was.
pub(crate) fn push_unit_row(
    numbers: &mut Vec<i64>,
    unknowns: usize,
    c: usize,
) -> Result<(), WantOfMemory>
    requires { c < unknowns }
    ensures ok { OnOk result (numbers.new.items ≡ numbers.old.items ++ numbers_of (unit_row unknowns 0 c)) }
    ensures err { OnErr result (numbers.new.items ≡ numbers.old.items) }
{
    let before = numbers.len();
    let more = unknowns.checked_add(2).ok_or(WantOfMemory)?;
    let size = before.checked_add(more).ok_or(WantOfMemory)?;
    numbers.resize(size, 0)?;
    let (_, row) = numbers.split_at_mut(before);
    put_unit(row, unknowns, c);
    Ok(())
}

// Divides the numbers of a row by their greatest common divisor.
fn divide_row(row: &mut [i64], unknowns: usize)
    requires size { length row.old ≡ row_size unknowns }
    requires positive { pos 1 ≤ℤ (row_of_numbers unknowns row.old).den }
    requires short { IsShortRow (row_of_numbers unknowns row.old) }
    ensures value { row_of_numbers unknowns row.new ≡ divided (row_of_numbers unknowns row.old) }
    ensures row { IsShortReduced unknowns 0 (row_of_numbers unknowns row.new) }
{
    let (den, rest) = row.split_at_mut(1);
    let (coefs, constant) = rest.split_at_mut(unknowns);
    den[0] = divide_parts(den[0], coefs, constant);
}

// Appends the numbers of a row, divided by their greatest common divisor. A refusal leaves all as it was.
pub(crate) fn push_divided_row(
    numbers: &mut Vec<i64>,
    unknowns: usize,
    row: &[i64],
) -> Result<(), WantOfMemory>
    requires size { length row.now ≡ row_size unknowns }
    requires positive { pos 1 ≤ℤ (row_of_numbers unknowns row.now).den }
    requires short { IsShortRow (row_of_numbers unknowns row.now) }
    ensures ok { OnOk result (numbers.new.items
        ≡ numbers.old.items ++ numbers_of (divided (row_of_numbers unknowns row.now))) }
    ensures row { OnOk result (IsShortReduced unknowns 0 (divided (row_of_numbers unknowns row.now))) }
    ensures err { OnErr result (numbers.new.items ≡ numbers.old.items) }
{
    let before = numbers.len();
    numbers.extend_from_slice(row)?;
    let (_, made) = numbers.split_at_mut(before);
    divide_row(made, unknowns);
    Ok(())
}

// The same number, where it is short; most are 0.
#[inline(always)]
fn narrow_entry(z: i128) -> Option<i64>
    ensures { IsNarrowed z result }
{
    if z == 0 { Some(0) } else { narrow(z) }
}

// Makes the numbers of as many entries, up to the first that is not short; whether all are.
fn narrow_all(numbers: &mut [i64], entries: &[i128]) -> bool
    requires { length numbers.old ≡ length entries.now }
    ensures { AreNarrowed entries.now result numbers.new }
{
    for i in 0..entries.len() {
        let Some(short) = narrow_entry(entries[i]) else {
            return false;
        };
        numbers[i] = short;
    }
    true
}

// Makes of a row of zeros that of a form which is read over all columns, up to the first number that is not short;
// whether all are.
fn make_form(row: &mut [i64], unknowns: usize, form: &[i128]) -> bool
    requires zeros { row.old ≡ replicate (row_size unknowns) (pos 0) }
    requires form { IsForm form.now }
    requires narrow { length form.now ≤ unknowns + 1 }
    ensures items { IsTrue result → row.new ≡ numbers_of (form_row unknowns (widen_to unknowns form.now)) }
    ensures short { IsTrue result → IsShortRow (form_row unknowns (widen_to unknowns form.now)) }
    ensures long { IsFalse result → list_all is_short form.now ≡ false }
{
    let (coefficients, constant) = form.split_at(form.len() - 1);
    let (den, rest) = row.split_at_mut(1);
    let (front, last) = rest.split_at_mut(unknowns);
    let (front, _) = front.split_at_mut(coefficients.len());
    den[0] = 1;
    narrow_all(front, coefficients) && narrow_all(last, constant)
}

// Appends the numbers of the row of a form that is read over all columns, up to the first that is not short; whether
// all are.
pub(crate) fn append_form(
    numbers: &mut Vec<i64>,
    unknowns: usize,
    form: &[i128],
) -> Result<bool, WantOfMemory>
    requires form { IsForm form.now }
    requires narrow { length form.now ≤ unknowns + 1 }
    ensures items { IfOk result (λ b. IsTrue b → numbers.new.items
        ≡ numbers.old.items ++ numbers_of (form_row unknowns (widen_to unknowns form.now))) }
    ensures short { IfOk result (λ b. IsTrue b → IsShortRow (form_row unknowns (widen_to unknowns form.now))) }
    ensures long { IfOk result (λ b. IsFalse b → list_all is_short form.now ≡ false) }
{
    let before = numbers.len();
    let more = unknowns.checked_add(2).ok_or(WantOfMemory)?;
    let size = before.checked_add(more).ok_or(WantOfMemory)?;
    numbers.resize(size, 0)?;
    let (_, row) = numbers.split_at_mut(before);
    Ok(make_form(row, unknowns, form))
}
