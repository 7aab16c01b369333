ghost use Rattle.std.specs.Prelude.{◌≡◌, ◌+◌, ◌^◌, ◌<◌, ◌≤◌, pos, ◌≤ℤ◌, false, not, [], All, length, map, flat_map, IsTrue, IsFalse, IfOk, OnOk, OnErr, IfSome};
ghost use Rattle.std.specs.List.{list_all};
ghost use Rattle.pip_model.specs.Cuts.{constant_cut};
ghost use Rattle.pip_model.specs.Forms.{constant, entry, widen_to};
ghost use Rattle.pip_model.specs.Listed.{all_fit};
ghost use Rattle.pip_model.specs.Numbers.{is_nonneg};
ghost use Rattle.pip_model.specs.Rows as model;
ghost use Rattle.affine_forms.specs.Forms.{IsForm};
ghost use Rattle.row_laws.specs.Flat.{row_of_numbers};
ghost use Rattle.row_laws.specs.Short.{is_short, IsShort, IsShortRow};
ghost use Rattle.row_laws.specs.Tableaus.{with_row};
ghost use Rattle.row_laws.specs.Choices.{IsCandidate};
ghost use Rattle.short_tableau.specs.Below.{negative_from};
ghost use Rattle.short_row.specs.Sized.{IsShortReduced, row_size};
ghost use Rattle.short_row.specs.Rows.{row_of};
ghost use Rattle.short_row.specs.Turned.{is_short_row};

use crate::cuts::push_cut_row;
use crate::pushing::{append_form, append_pieces, push_divided_row, push_row, push_unit_row};
use crate::rows::{
    Pivot, coef_at, constant_at, first_below_in, numbers_in, pivot_rows, row_in, turn_rows,
};
use affine_forms::WantOfMemory;
use short_row::{ShortRow, widen_numbers};
use std::alloc::Global;
use std::marker::Model;

/// Rows over the same columns, one for each unknown, whose constant forms are constants. Each number of a row lies from
/// -(2^63 - 1) to 2^63 - 1, and a row's numbers have no common divisor. Contracts see the rows as a tableau's.
// The numbers stand row after row: the denominator, the coefficients, the constant.
#[derive(Drop)]
pub struct ShortTableau {
    unknowns: usize,
    count: usize,
    numbers: Vec<i64>,
}

impl Model for ShortTableau {
    ghost use Rattle.row_laws.specs.Tableaus.{TableauRows};
    ghost use Rattle.short_tableau.specs.Dense.{IsDense, rows_in};

    ghost Value = { TableauRows };

    ghost view = { λ t.
        record { unknowns = t.unknowns; width = 0; rows = rows_in t.unknowns t.count t.numbers.items } };

    ghost invariant = { λ t. IsDense t.unknowns t.count t.numbers.items };
}

// Makes room for so many numbers where there are none: in a new block, since there is nothing to move.
fn make_room(numbers: &mut Vec<i64>, most: usize) -> Result<(), WantOfMemory>
    requires { numbers.old.items ≡ [] }
    ensures { numbers.new.items ≡ [] }
{
    if numbers.capacity() < most {
        let alloc = *numbers.allocator();
        *numbers = Vec::with_capacity(alloc, most)?;
    }
    Ok(())
}

impl ShortTableau {
    /// No rows over so many columns. It takes no memory.
    pub fn new(alloc: Global, unknowns: usize) -> ShortTableau
        ensures { result ≡ record { unknowns = unknowns; width = 0; rows = [] } }
    {
        ShortTableau {
            unknowns,
            count: 0,
            numbers: Vec::new(alloc),
        }
    }

    /// Makes room for so many more rows. All stays as it was.
    pub fn reserve(&mut self, rows: usize) -> Result<(), WantOfMemory>
        ensures { self.new ≡ self.old }
    {
        let size = self.unknowns.checked_add(2).ok_or(WantOfMemory)?;
        let room = size.checked_mul(rows).ok_or(WantOfMemory)?;
        self.numbers.reserve(room)?;
        Ok(())
    }

    /// Drops all rows, and has so many columns from now on. The room stays.
    pub fn restart(&mut self, unknowns: usize)
        ensures { self.new ≡ record { unknowns = unknowns; width = 0; rows = [] } }
    {
        self.unknowns = unknowns;
        self.count = 0;
        self.numbers.clear();
    }

    /// Becomes the same as another. It takes no memory where there is room. A refusal leaves the other's columns and
    /// no rows.
    pub fn copy_from(&mut self, t: &ShortTableau) -> Result<(), WantOfMemory>
        ensures ok { OnOk result (self.new ≡ t.now) }
        ensures err { OnErr result (self.new ≡ record t.now { rows = [] }) }
    {
        self.unknowns = t.unknowns;
        self.count = 0;
        self.numbers.clear();
        let more = t.numbers.len() / 4;
        make_room(&mut self.numbers, t.numbers.len().saturating_add(more))?;
        if append_pieces(&mut self.numbers, &t.numbers).is_err() {
            self.numbers.clear();
            return Err(WantOfMemory);
        }
        self.count = t.count;
        Ok(())
    }

    /// The number of rows.
    pub fn rows(&self) -> usize
        ensures { result ≡ length self.now.rows }
    {
        self.count
    }

    /// The number of columns.
    pub fn unknowns(&self) -> usize
        ensures { result ≡ self.now.unknowns }
    {
        self.unknowns
    }

    /// The number of columns; the rows are short.
    pub fn columns(&self) -> usize
        ensures value { result ≡ self.now.unknowns }
        ensures rows { All (IsShortReduced self.now.unknowns 0) self.now.rows }
    {
        self.unknowns
    }

    /// Row i.
    pub fn row(&self, i: usize) -> ShortRow<'_>
        requires { i < length self.now.rows }
        ensures value { row_of result ≡ model.row_at self.now.rows i }
        ensures row { IsShortReduced self.now.unknowns 0 (row_of result) }
    {
        row_in(&self.numbers, self.unknowns, self.count, i)
    }

    /// The numbers of row i.
    pub fn row_numbers(&self, i: usize) -> &[i64]
        requires { i < length self.now.rows }
        ensures value { row_of_numbers self.now.unknowns result.now ≡ model.row_at self.now.rows i }
        ensures length { length result.now ≡ row_size self.now.unknowns }
        ensures row { IsShortReduced self.now.unknowns 0 (row_of_numbers self.now.unknowns result.now) }
    {
        numbers_in(&self.numbers, self.unknowns, self.count, i)
    }

    /// The coefficient of row i in column k.
    pub fn coef(&self, i: usize, k: usize) -> i64
        requires row { i < length self.now.rows }
        requires column { k < self.now.unknowns }
        ensures value { result ≡ entry (model.row_at self.now.rows i).coefs k }
        ensures short { IsShort result }
    {
        coef_at(&self.numbers, self.unknowns, self.count, i, k)
    }

    /// The numbers of row i in 128 bits: the denominator, the coefficients, the constant.
    pub fn wide_row(&self, alloc: Global, i: usize) -> Result<Vec<i128>, WantOfMemory>
        requires { i < length self.now.rows }
        ensures value { IfOk result (λ numbers. row_of_numbers self.now.unknowns numbers.items
            ≡ model.row_at self.now.rows i) }
        ensures length { IfOk result (λ numbers. length numbers.items ≡ row_size self.now.unknowns) }
        ensures row { IsShortReduced self.now.unknowns 0 (model.row_at self.now.rows i) }
    {
        let row = numbers_in(&self.numbers, self.unknowns, self.count, i);
        widen_numbers(alloc, row)
    }

    /// Whether the constant of row i is below 0.
    pub fn is_below(&self, i: usize) -> bool
        requires { i < length self.now.rows }
        ensures { result ≡ not (is_nonneg (constant (model.row_at self.now.rows i).constant)) }
    {
        constant_at(&self.numbers, self.unknowns, self.count, i) < 0
    }

    /// The first row whose constant is below 0.
    pub fn first_below(&self) -> Option<usize>
        ensures value { result ≡ negative_from 0 self.now.rows }
        ensures bound { IfSome result (λ r. r < length self.now.rows) }
    {
        first_below_in(&self.numbers, self.unknowns, self.count)
    }

    /// Adds the row of column c, whose quantity is that column's. A refusal leaves all as it was.
    pub fn push_unit(&mut self, c: usize) -> Result<(), WantOfMemory>
        requires { c < self.old.unknowns }
        ensures ok { OnOk result (self.new ≡ with_row self.old (model.unit_row self.old.unknowns 0 c)) }
        ensures err { OnErr result (self.new ≡ self.old) }
    {
        push_unit_row(&mut self.numbers, self.unknowns, c)?;
        self.count += 1;
        Ok(())
    }

    /// Adds row i of a tableau over the same columns. A refusal leaves all as it was.
    #[inline(always)]
    pub fn push_copy(&mut self, t: &ShortTableau, i: usize) -> Result<(), WantOfMemory>
        requires unknowns { t.now.unknowns ≡ self.old.unknowns }
        requires row { i < length t.now.rows }
        ensures ok { OnOk result (self.new ≡ with_row self.old (model.row_at t.now.rows i)) }
        ensures err { OnErr result (self.new ≡ self.old) }
    {
        push_row(&mut self.numbers, &t.row(i))?;
        self.count += 1;
        Ok(())
    }

    /// Adds the row of these numbers - the denominator, the coefficients, the constant -, divided by their greatest
    /// common divisor. A refusal leaves all as it was.
    pub fn push_divided(&mut self, row: &[i64]) -> Result<(), WantOfMemory>
        requires size { length row.now ≡ row_size self.old.unknowns }
        requires positive { pos 1 ≤ℤ (row_of_numbers self.old.unknowns row.now).den }
        requires short { IsShortRow (row_of_numbers self.old.unknowns row.now) }
        ensures ok { OnOk result (self.new
            ≡ with_row self.old (model.divided (row_of_numbers self.old.unknowns row.now))) }
        ensures err { OnErr result (self.new ≡ self.old) }
    {
        push_divided_row(&mut self.numbers, self.unknowns, row)?;
        self.count += 1;
        Ok(())
    }

    /// Adds the cut by row i: where the row's quantity is whole, the sum of the fractional parts of its coefficients
    /// times the columns' quantities is at least that of the opposite of its constant. A refusal leaves all as it
    /// was.
    pub fn push_cut(&mut self, i: usize) -> Result<(), WantOfMemory>
        requires { i < length self.old.rows }
        ensures ok { OnOk result (self.new ≡ with_row self.old (constant_cut (model.row_at self.old.rows i))) }
        ensures err { OnErr result (self.new ≡ self.old) }
    {
        push_cut_row(&mut self.numbers, self.unknowns, self.count, i)?;
        self.count += 1;
        Ok(())
    }

    /// Adds the row of a form, which is read over all columns, where its numbers are short, and says whether they are.
    /// Where one is not, no row is left, as after a refusal.
    pub fn push_form(&mut self, form: &[i128]) -> Result<bool, WantOfMemory>
        requires form { IsForm form.now }
        requires narrow { length form.now ≤ self.old.unknowns + 1 }
        ensures short { IfOk result (λ b. IsTrue b → self.new
            ≡ with_row self.old (model.form_row self.old.unknowns (widen_to self.old.unknowns form.now))) }
        ensures long { IfOk result (λ b. IsFalse b → list_all is_short form.now ≡ false) }
        ensures none { IfOk result (λ b. IsFalse b → self.new ≡ record self.old { rows = [] }) }
        ensures err { OnErr result (self.new ≡ record self.old { rows = [] }) }
        ensures unknowns { self.new.unknowns ≡ self.old.unknowns }
    {
        let pushed = append_form(&mut self.numbers, self.unknowns, form);
        if let Ok(true) = pushed {
            self.count += 1;
            return Ok(true);
        }
        self.count = 0;
        self.numbers.clear();
        pushed?;
        Ok(false)
    }

    /// The pivot on row r and column c: the row, solved for the column's quantity, is put into each other row, and
    /// row r becomes the row of the column. Whether all numbers of the rows that are made are short; where one is not,
    /// no row is left. All listed numbers fit. It takes no memory.
    #[inline(always)]
    pub fn pivot(&mut self, r: usize, c: usize) -> bool
        requires row { r < length self.old.rows }
        requires candidate { IsCandidate self.old.unknowns (model.row_at self.old.rows r) c }
        ensures listed { IsTrue (all_fit (model.pivot_listed self.old.rows r c)) }
        ensures short { IsTrue result → self.new ≡ record self.old { rows = model.pivot self.old.rows r c } }
        ensures long { IsFalse result → list_all is_short_row (model.pivot self.old.rows r c) ≡ false }
        ensures none { IsFalse result → self.new ≡ record self.old { rows = [] } }
    {
        if !pivot_rows(&mut self.numbers, self.unknowns, self.count, r, c) {
            self.count = 0;
            self.numbers.clear();
            return false;
        }
        true
    }

    /// Puts row i of a tableau over the same columns, solved for the quantity of column c, into each row. Whether all
    /// numbers of the rows that are made are short; where one is not, no row is left. All listed numbers fit. It takes
    /// no memory.
    #[inline(always)]
    pub fn eliminate(&mut self, t: &ShortTableau, i: usize, c: usize) -> bool
        requires unknowns { t.now.unknowns ≡ self.old.unknowns }
        requires row { i < length t.now.rows }
        requires candidate { IsCandidate self.old.unknowns (model.row_at t.now.rows i) c }
        ensures listed { IsTrue (all_fit
            (flat_map (model.eliminated_listed (model.row_at t.now.rows i) c) self.old.rows)) }
        ensures short { IsTrue result → self.new
            ≡ record self.old { rows = map (model.eliminated (model.row_at t.now.rows i) c) self.old.rows } }
        ensures long { IsFalse result → list_all is_short_row
            (map (model.eliminated (model.row_at t.now.rows i) c) self.old.rows) ≡ false }
        ensures none { IsFalse result → self.new ≡ record self.old { rows = [] } }
    {
        let row = t.row_numbers(i);
        // One row alone, as a further form's is, stays where it is 0 in the column.
        if self.rows() == 1 && self.coef(0, c) == 0 {
            return true;
        }
        let pivot = Pivot {
            row,
            unknowns: self.unknowns,
            column: c,
            nonzeros: &None,
        };
        if !turn_rows(&mut self.numbers, self.count, &pivot) {
            self.count = 0;
            self.numbers.clear();
            return false;
        }
        true
    }
}
