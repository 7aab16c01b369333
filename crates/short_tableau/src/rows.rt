ghost use Rattle.std.proofs.Props.{props};
ghost use Rattle.std.specs.Prelude.{◌≡◌, ◌+◌, ◌*◌, ◌<◌, ◌≤◌, false, length, drop, map, slice_set, IsTrue, IsFalse, IfSome};
ghost use Rattle.pip_model.specs.Forms.{constant, entry};
ghost use Rattle.pip_model.specs.Rows as model;
ghost use Rattle.row_laws.specs.Flat.{row_of_numbers};
ghost use Rattle.row_laws.specs.Short.{IsShort};
ghost use Rattle.row_laws.specs.Choices.{IsCandidate};
ghost use Rattle.short_tableau.specs.Below.{negative_from};
ghost use Rattle.short_tableau.specs.Dense.{IsDense, rows_in};
ghost use Rattle.short_numbers.specs.Nonzeros.{AreNonzeros};
ghost use Rattle.short_row.specs.Sized.{IsPivot, row_size};
ghost use Rattle.short_row.specs.Rows.{row_of};
ghost use Rattle.short_row.specs.Turned.{is_short_row};
ghost use Rattle.short_tableau.specs.Turned.{AreTurned};

use short_row::{Nonzeros, ShortRow, make_unit, nonzeros_of, turn, view_of};

// Where the numbers of row i begin.
pub(crate) fn place_of(unknowns: usize, rows: usize, i: usize, numbers: &[i64]) -> usize
    requires dense { length numbers.now ≡ rows * row_size unknowns }
    requires row { i < rows }
    ensures value { result ≡ i * row_size unknowns }
    ensures within { result + row_size unknowns ≤ length numbers.now }
{
    i * (unknowns + 2)
}

// The numbers of row i of so many.
pub(crate) fn numbers_in(numbers: &[i64], unknowns: usize, rows: usize, i: usize) -> &[i64]
    requires dense { IsDense unknowns rows numbers.now }
    requires row { i < rows }
    ensures value { row_of_numbers unknowns result.now ≡ model.row_at (rows_in unknowns rows numbers.now) i }
    ensures length { length result.now ≡ row_size unknowns }
{
    let (_, behind) = numbers.split_at(place_of(unknowns, rows, i, numbers));
    let (row, _) = behind.split_at(unknowns + 2);
    row
}

// Row i of so many.
pub(crate) fn row_in(numbers: &[i64], unknowns: usize, rows: usize, i: usize) -> ShortRow<'_>
    requires dense { IsDense unknowns rows numbers.now }
    requires row { i < rows }
    ensures { row_of result ≡ model.row_at (rows_in unknowns rows numbers.now) i }
{
    view_of(numbers_in(numbers, unknowns, rows, i), unknowns)
}

// The constant of row i of so many.
pub(crate) fn constant_at(numbers: &[i64], unknowns: usize, rows: usize, i: usize) -> i64
    requires dense { IsDense unknowns rows numbers.now }
    requires row { i < rows }
    ensures { result ≡ constant (model.row_at (rows_in unknowns rows numbers.now) i).constant }
{
    numbers[place_of(unknowns, rows, i, numbers) + (unknowns + 1)]
}

// The first of so many rows whose constant is below 0.
pub(crate) fn first_below_in(numbers: &[i64], unknowns: usize, rows: usize) -> Option<usize>
    requires dense { IsDense unknowns rows numbers.now }
    ensures value { result ≡ negative_from 0 (rows_in unknowns rows numbers.now) }
    ensures bound { IfSome result (λ r. r < rows) }
{
    for i in 0..rows {
        if constant_at(numbers, unknowns, rows, i) < 0 {
            return Some(i);
        }
    }
    None
}

// The coefficient of row i of so many in column k.
pub(crate) fn coef_at(numbers: &[i64], unknowns: usize, rows: usize, i: usize, k: usize) -> i64
    requires dense { IsDense unknowns rows numbers.now }
    requires row { i < rows }
    requires column { k < unknowns }
    ensures value { result ≡ entry (model.row_at (rows_in unknowns rows numbers.now) i).coefs k }
    ensures short { IsShort result }
{
    numbers[place_of(unknowns, rows, i, numbers) + (1 + k)]
}

// A pivot on the row of these numbers over so many columns and a column, with the list of the places at which the row
// is not 0, where one is made.
#[derive(Clone, Copy)]
pub(crate) struct Pivot<'p> {
    pub row: &'p [i64],
    pub unknowns: usize,
    pub column: usize,
    pub nonzeros: &'p Option<Nonzeros>,
    ghost size: { length row.now ≡ row_size unknowns },
    ghost solvable: { IsPivot unknowns 0 (row_of_numbers unknowns row.now) column },
    ghost listed: { IfSome nonzeros.now (AreNonzeros (drop 1 row.now)) } by { Prim.hlevel props },
}

// Makes of row i of so many what it is after the pivot; whether its numbers are short. A row that is 0 in the column
// stays.
#[inline(always)]
fn turn_at(numbers: &mut [i64], rows: usize, i: usize, pivot: &Pivot<'_>) -> bool
    requires dense { IsDense pivot.now.unknowns rows numbers.old }
    requires row { i < rows }
    ensures dense { IsTrue result → IsDense pivot.now.unknowns rows numbers.new }
    ensures rows { IsTrue result → rows_in pivot.now.unknowns rows numbers.new
        ≡ slice_set (rows_in pivot.now.unknowns rows numbers.old) i
        (model.eliminated (row_of_numbers pivot.now.unknowns pivot.now.row.now) pivot.now.column
        (model.row_at (rows_in pivot.now.unknowns rows numbers.old) i)) }
    ensures long { IsFalse result → is_short_row
        (model.eliminated (row_of_numbers pivot.now.unknowns pivot.now.row.now) pivot.now.column
        (model.row_at (rows_in pivot.now.unknowns rows numbers.old) i)) ≡ false }
{
    let unknowns = pivot.unknowns;
    if coef_at(numbers, unknowns, rows, i, pivot.column) == 0 {
        return true;
    }
    let place = place_of(unknowns, rows, i, numbers);
    let (_, behind) = numbers.split_at_mut(place);
    let (row, _) = behind.split_at_mut(unknowns + 2);
    turn(row, unknowns, pivot.row, pivot.column, pivot.nonzeros)
}

// Makes of so many rows what they are after the pivot; whether their numbers are short.
#[inline(always)]
pub(crate) fn turn_rows(numbers: &mut [i64], rows: usize, pivot: &Pivot<'_>) -> bool
    requires { IsDense pivot.now.unknowns rows numbers.old }
    ensures { AreTurned pivot.now.unknowns rows
        (map (model.eliminated (row_of_numbers pivot.now.unknowns pivot.now.row.now) pivot.now.column)
        (rows_in pivot.now.unknowns rows numbers.old)) result numbers.new }
{
    for i in 0..rows {
        if !turn_at(numbers, rows, i, pivot) {
            return false;
        }
    }
    true
}

// Makes of so many rows those after the pivot on row r and column c; whether their numbers are short.
pub(crate) fn pivot_rows(
    numbers: &mut [i64],
    unknowns: usize,
    rows: usize,
    r: usize,
    c: usize,
) -> bool
    requires dense { IsDense unknowns rows numbers.old }
    requires row { r < rows }
    requires candidate { IsCandidate unknowns (model.row_at (rows_in unknowns rows numbers.old) r) c }
    ensures { AreTurned unknowns rows (model.pivot (rows_in unknowns rows numbers.old) r c) result numbers.new }
{
    let place = place_of(unknowns, rows, r, numbers);
    let (front, behind) = numbers.split_at_mut(place);
    let (row, back) = behind.split_at_mut(unknowns + 2);
    let nonzeros = nonzeros_of(row);
    let pivot = Pivot {
        row,
        unknowns,
        column: c,
        nonzeros: &nonzeros,
    };
    if !turn_rows(front, r, &pivot) {
        return false;
    }
    if !turn_rows(back, rows - (r + 1), &pivot) {
        return false;
    }
    make_unit(row, unknowns, c);
    true
}
