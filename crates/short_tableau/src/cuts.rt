ghost use Rattle.std.specs.Prelude.{◌≡◌, ◌+◌, ◌*◌, ◌<◌, pos, ◌≤ℤ◌, neg_ℤ, ◌++◌, length, map, All, OnOk, OnErr};
ghost use Rattle.pip_model.specs.Cuts.{constant_cut};
ghost use Rattle.pip_model.specs.Forms.{negate, residue};
ghost use Rattle.pip_model.specs.Numbers.{floor_mod as floor_mod_of};
ghost use Rattle.pip_model.specs.Rows.{row_at};
ghost use Rattle.row_laws.specs.Flat.{numbers_of, row_of_numbers};
ghost use Rattle.row_laws.specs.Short.{IsShort, IsShortRow};
ghost use Rattle.row_laws.specs.Rows.{row_from};
ghost use Rattle.short_tableau.specs.Dense.{IsDense, rows_in};
ghost use Rattle.short_row.specs.Sized.{IsShortReduced, row_size};
ghost use Rattle.short_numbers.specs.Short.{IsShortDivisor};

use crate::rows::place_of;
use affine_forms::WantOfMemory;
use short_row::{divide_parts, floor_mod};

// What the quotient rounded up leaves, in `-(d - 1) .. 0`.
fn ceil_mod(a: i64, d: i64) -> i64
    requires divisor { IsShortDivisor d }
    requires short { IsShort a }
    ensures value { result ≡ neg_ℤ (floor_mod_of (neg_ℤ a) d) }
    ensures short { IsShort result }
{
    -floor_mod(-a, d)
}

// Makes of each entry what its quotient rounded down leaves.
fn floor_mod_all(entries: &mut [i64], d: i64)
    requires divisor { IsShortDivisor d }
    requires short { All IsShort entries.old }
    ensures value { entries.new ≡ map (λ x. floor_mod_of x d) entries.old }
    ensures short { All IsShort entries.new }
{
    for number in entries.iter_mut() {
        *number = floor_mod(*number, d);
    }
}

// Makes of each entry what its quotient rounded up leaves.
fn ceil_mod_all(entries: &mut [i64], d: i64)
    requires divisor { IsShortDivisor d }
    requires short { All IsShort entries.old }
    ensures value { entries.new ≡ negate (residue d entries.old) }
    ensures short { All IsShort entries.new }
{
    for number in entries.iter_mut() {
        *number = ceil_mod(*number, d);
    }
}

// Makes of a row's numbers those of its cut; the new denominator.
fn cut_parts(den: i64, coefs: &mut [i64], constant: &mut [i64]) -> i64
    requires positive { pos 1 ≤ℤ den }
    requires short { IsShortRow (row_from den coefs.old constant.old) }
    ensures value { row_from result coefs.new constant.new ≡ constant_cut (row_from den coefs.old constant.old) }
    ensures short { IsShortRow (row_from result coefs.new constant.new) }
{
    floor_mod_all(coefs, den);
    ceil_mod_all(constant, den);
    divide_parts(den, coefs, constant)
}

// Makes of the numbers of a row those of its cut.
fn make_cut(row: &mut [i64], unknowns: usize)
    requires size { length row.old ≡ row_size unknowns }
    requires row { IsShortReduced unknowns 0 (row_of_numbers unknowns row.old) }
    ensures value { row_of_numbers unknowns row.new ≡ constant_cut (row_of_numbers unknowns row.old) }
    ensures row { IsShortReduced unknowns 0 (row_of_numbers unknowns row.new) }
{
    let (den, rest) = row.split_at_mut(1);
    let (coefs, constant) = rest.split_at_mut(unknowns);
    den[0] = cut_parts(den[0], coefs, constant);
}

// Appends the numbers of the cut by row i of so many. A refusal leaves all as it was.
pub(crate) fn push_cut_row(
    numbers: &mut Vec<i64>,
    unknowns: usize,
    rows: usize,
    i: usize,
) -> Result<(), WantOfMemory>
    requires dense { IsDense unknowns rows numbers.old.items }
    requires row { i < rows }
    ensures ok { OnOk result (numbers.new.items
        ≡ numbers.old.items ++ numbers_of (constant_cut (row_at (rows_in unknowns rows numbers.old.items) i))) }
    ensures row { OnOk result
        (IsShortReduced unknowns 0 (constant_cut (row_at (rows_in unknowns rows numbers.old.items) i))) }
    ensures err { OnErr result (numbers.new.items ≡ numbers.old.items) }
{
    let before = numbers.len();
    let place = place_of(unknowns, rows, i, numbers);
    numbers.extend_from_within(place..place + (unknowns + 2))?;
    let (_, row) = numbers.split_at_mut(before);
    make_cut(row, unknowns);
    Ok(())
}
