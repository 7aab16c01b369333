ghost use Rattle.std.specs.Prelude.{◌≡◌, ◌+◌, ◌-◌, ◌^◌, ◌<◌, ◌≤◌, pos, ◌≤ℤ◌, false, All, map, not, filter, flat_map, [], length, take, IfOk, IfSome, IfNone, OnOk, OnErr};
ghost use Rattle.pip_model.specs.Forms.{entry};
ghost use Rattle.pip_model.specs.Rows as model;
ghost use Rattle.pip_model.specs.Cuts.{rounded_listed};
ghost use Rattle.pip_model.specs.Agreement.{IsChecked};
ghost use Rattle.affine_forms.specs.Checks.{is_overflow};
ghost use Rattle.row_laws.specs.Flat.{numbers_of, is_unit_row};
ghost use Rattle.tableau.specs.Places.{unit_run};
ghost use Rattle.tableau.specs.KeptRows.{AreReady, IsSpare, SameRows, with_rows};
ghost use Rattle.row_laws.specs.Rows.{IsRow, row_from};
ghost use Rattle.row_laws.specs.Tableaus.{with_row, with_rounded};
ghost use Rattle.tableau_row.specs.Views.{row_of};

use crate::flat_rows::FlatRows;
use crate::unit_run::make_run;
use affine_forms::{Form, Overflow, WantOfMemory};
use std::alloc::Global;
use std::marker::Model;
use std::mem::swap;
use tableau_row::{RowView, is_short_row};

/// Rows over the same columns, one for each unknown, whose constant forms stand over the same places: the
/// parameters, and then the quotients of a path. Each number of a row fits, and each denominator is at least 1.
// A step makes the next rows, which then change places with the rows; the rows of columns are lent from the units.
#[derive(Drop)]
pub struct Tableau {
    rows: FlatRows,
    next: FlatRows,
    units: Vec<i128>,
}

impl Model for Tableau {
    ghost use Rattle.row_laws.specs.Tableaus.{TableauRows};
    ghost use Rattle.tableau.specs.KeptRows.{IsSpare};

    ghost Value = { TableauRows };

    ghost view = { λ t. record { unknowns = t.rows.unknowns; width = t.rows.width; rows = t.rows.rows } };

    ghost invariant = { λ t. IsSpare t.rows t.next t.units.items };
}

// How many more rows than those of its start a tableau has room for, so that the first cuts move none.
const SPARE: usize = 4;

// Makes room for so many rows, and the run.
fn make_rooms(
    rows: &mut FlatRows,
    next: &mut FlatRows,
    units: &mut Vec<i128>,
    most: usize,
) -> Result<(), WantOfMemory>
    requires spare { IsSpare rows.old next.old units.old.items }
    ensures spare { IsSpare rows.new next.new units.new.items }
    ensures same { SameRows rows.new rows.old }
    ensures ready { OnOk result (AreReady rows.new next.new units.new.items most) }
{
    make_run(units, rows.unknowns(), rows.width())?;
    rows.reserve(most)?;
    next.reserve(most)?;
    Ok(())
}

// For how many rows a tableau of so many columns and forms has room at its start.
fn first_room(unknowns: usize, forms: usize) -> Result<usize, WantOfMemory>
    ensures { IfOk result (λ most. unknowns + forms ≤ most) }
{
    let rows = unknowns.checked_add(forms).ok_or(WantOfMemory)?;
    Ok(rows.saturating_add(SPARE))
}

// Makes of no rows those of all columns.
fn push_units(rows: &mut FlatRows)
    requires empty { rows.old.rows ≡ [] }
    requires room { rows.old.unknowns ≤ rows.old.most }
    ensures { rows.new ≡ record rows.old {
      rows = map (model.unit_row rows.old.unknowns rows.old.width) (model.count_from 0 rows.old.unknowns);
    } }
{
    for c in 0..rows.unknowns() {
        rows.push_unit(c);
    }
}

// Adds the rows of the forms.
fn push_forms(rows: &mut FlatRows, forms: &[Form])
    requires room { length rows.old.rows + length forms.now ≤ rows.old.most }
    requires forms { All (λ form. length form ≡ rows.old.unknowns + rows.old.width + 1) forms.now }
    ensures { rows.new ≡ with_rows rows.old (map (model.form_row rows.old.unknowns) forms.now) }
{
    for form in forms {
        rows.push_form(form);
    }
}

// The tableau of these rows, with the run from which those of columns are lent.
fn tableau_of(alloc: Global, rows: FlatRows, units: &[i128]) -> Result<Tableau, WantOfMemory>
    requires run { 0 < length units.now → units.now ≡ unit_run rows.unknowns rows.width }
    requires begun { 0 < length rows.rows → 0 < length units.now }
    ensures { IfOk result (λ t. t ≡ record { unknowns = rows.unknowns; width = rows.width; rows = rows.rows }) }
{
    let next = FlatRows::with_room(alloc, rows.unknowns(), rows.width(), rows.len() + 2)?;
    let units = Vec::from_slice(alloc, units)?;
    Ok(Tableau { rows, next, units })
}

impl Tableau {
    /// The first tableau of these forms over the unknowns, the places and a constant: the unknowns' own rows, then
    /// a row for each form.
    pub fn start(
        alloc: Global,
        unknowns: usize,
        width: usize,
        rows: &[Form],
    ) -> Result<Tableau, WantOfMemory>
        requires { All (λ form. length form ≡ unknowns + width + 1) rows.now }
        ensures { IfOk result (λ t.
            t ≡ record { unknowns = unknowns; width = width; rows = model.start unknowns width rows.now }) }
    {
        let mut made = Tableau::new(alloc, unknowns, width);
        made.restart(rows)?;
        Ok(made)
    }

    /// No rows over so many columns and places. It takes no memory.
    pub fn new(alloc: Global, unknowns: usize, width: usize) -> Tableau
        ensures { result ≡ record { unknowns = unknowns; width = width; rows = [] } }
    {
        Tableau {
            rows: FlatRows::new(alloc, unknowns, width),
            next: FlatRows::new(alloc, unknowns, width),
            units: Vec::new(alloc),
        }
    }

    /// No rows over so many columns and places from now on. It takes no memory, and the room stays.
    pub fn reshape(&mut self, unknowns: usize, width: usize)
        ensures { self.new ≡ record { unknowns = unknowns; width = width; rows = [] } }
    {
        self.rows.reshape(unknowns, width);
        self.next.reshape(unknowns, width);
        self.units.clear();
    }

    /// Makes of the rows those that `start` gives of these forms.
    pub fn restart(&mut self, forms: &[Form]) -> Result<(), WantOfMemory>
        requires { All (λ form. length form ≡ self.old.unknowns + self.old.width + 1) forms.now }
        ensures ok { OnOk result (self.new
            ≡ record self.old { rows = model.start self.old.unknowns self.old.width forms.now }) }
        ensures err { OnErr result (self.new ≡ self.old) }
    {
        let most = first_room(self.rows.unknowns(), forms.len())?;
        make_rooms(&mut self.rows, &mut self.next, &mut self.units, most)?;
        self.rows.clear();
        push_units(&mut self.rows);
        push_forms(&mut self.rows, forms);
        Ok(())
    }

    /// The number of rows.
    pub fn rows(&self) -> usize
        ensures { result ≡ length self.now.rows }
    {
        self.rows.len()
    }

    /// The number of columns.
    pub fn unknowns(&self) -> usize
        ensures { result ≡ self.now.unknowns }
    {
        self.rows.unknowns()
    }

    /// The number of places of a constant form.
    pub fn width(&self) -> usize
        ensures { result ≡ self.now.width }
    {
        self.rows.width()
    }

    /// Row i.
    #[inline(always)]
    pub fn row(&self, i: usize) -> RowView<'_>
        requires { i < length self.now.rows }
        ensures value { row_of result ≡ model.row_at self.now.rows i }
        ensures row { IsRow self.now.unknowns self.now.width (row_of result) }
    {
        self.rows.row(self.units.as_slice(), i)
    }

    /// The column whose row row i is, none of any other row.
    #[inline(always)]
    pub fn column_of(&self, i: usize) -> Option<usize>
        requires { i < length self.now.rows }
        ensures some { IfSome result (λ c. (c < self.now.unknowns)
            × (model.row_at self.now.rows i ≡ model.unit_row self.now.unknowns self.now.width c)) }
        ensures none { IfNone result (is_unit_row (model.row_at self.now.rows i) ≡ false) }
    {
        self.rows.column(i)
    }

    /// The kept numbers of the rows that are no unit rows, row after row in order: each D, its coefficients, the
    /// entries of its constant form. It takes no memory.
    pub fn flat(&self) -> &[i128]
        ensures { result.now ≡ flat_map numbers_of (filter (λ row. not (is_unit_row row)) self.now.rows) }
    {
        self.rows.numbers()
    }

    /// The allocator that the tableau keeps.
    pub fn allocator(&self) -> Global {
        self.rows.allocator()
    }

    /// No rows over the same columns and places. It takes no memory.
    pub fn empty_like(&self) -> Tableau
        ensures { result ≡ record self.now { rows = [] } }
    {
        Tableau::new(self.allocator(), self.unknowns(), self.width())
    }

    /// The same tableau.
    pub fn try_clone(&self, alloc: Global) -> Result<Tableau, WantOfMemory>
        ensures { IfOk result (λ t. t ≡ self.now) }
    {
        let rows = self.rows.try_clone(alloc)?;
        tableau_of(alloc, rows, self.units.as_slice())
    }

    /// Becomes the same as another, in the room that there is where it is enough. A refusal leaves no rows, over the
    /// columns and places of the other.
    pub fn copy_from(&mut self, t: &Tableau) -> Result<(), WantOfMemory>
        ensures ok { OnOk result (self.new ≡ t.now) }
        ensures err { OnErr result (self.new ≡ record t.now { rows = [] }) }
    {
        self.reshape(t.rows.unknowns(), t.rows.width());
        let most = t.rows.len() + 2;
        make_rooms(&mut self.rows, &mut self.next, &mut self.units, most)?;
        t.rows.copy(&mut self.rows);
        Ok(())
    }

    /// The tableau of the first so many rows.
    pub fn first_rows(&self, alloc: Global, count: usize) -> Result<Tableau, WantOfMemory>
        requires { count ≤ length self.now.rows }
        ensures { IfOk result (λ t. t ≡ record self.now { rows = take count self.now.rows }) }
    {
        let rows = self.rows.front(alloc, self.units.as_slice(), count)?;
        tableau_of(alloc, rows, self.units.as_slice())
    }

    /// Adds a row, divided by the greatest common divisor of all its numbers.
    pub fn push_row(
        &mut self,
        den: i128,
        coefs: &[i128],
        constant: &[i128],
    ) -> Result<(), WantOfMemory>
        requires { IsRow self.old.unknowns self.old.width (row_from den coefs.now constant.now) }
        ensures ok { OnOk result (self.new ≡ with_row self.old (model.divided (row_from den coefs.now constant.now))) }
        ensures err { OnErr result (self.new ≡ self.old) }
    {
        let most = self.rows.len() + 1;
        make_rooms(&mut self.rows, &mut self.next, &mut self.units, most)?;
        let short = is_short_row(den, coefs, constant);
        self.rows
            .push_divided(&RowView::new(den, coefs, constant, short));
        Ok(())
    }

    /// Puts a new place, with the coefficient 0, before the constant of each row's constant form.
    pub fn widen_params(&mut self) -> Result<(), WantOfMemory>
        requires { self.old.width < 2 ^ 64 - 1 }
        ensures ok { OnOk result
            (self.new ≡ record self.old { width = self.old.width + 1; rows = map model.widened self.old.rows }) }
        ensures err { OnErr result (self.new ≡ self.old) }
    {
        let alloc = self.rows.allocator();
        let mut wider = Tableau::new(alloc, self.rows.unknowns(), self.rows.width() + 1);
        let most = self.rows.len() + SPARE;
        make_rooms(&mut wider.rows, &mut wider.next, &mut wider.units, most)?;
        self.rows.widen(self.units.as_slice(), &mut wider.rows);
        *self = wider;
        Ok(())
    }

    /// The pivot on row r and column c: the row, solved for the column's quantity, is put into each other row, and
    /// row r becomes the row of the column. It takes no memory.
    pub fn exchange(&mut self, r: usize, c: usize) -> Result<(), Overflow>
        requires row { r < length self.old.rows }
        requires column { c < self.old.unknowns }
        requires positive { pos 1 ≤ℤ entry (model.row_at self.old.rows r).coefs c }
        ensures listed { IsChecked is_overflow (model.pivot_listed self.old.rows r c) result }
        ensures ok { OnOk result (self.new ≡ record self.old { rows = model.pivot self.old.rows r c }) }
        ensures err { OnErr result (self.new ≡ self.old) }
    {
        self.rows.turn(self.units.as_slice(), r, c, &mut self.next)?;
        swap(&mut self.rows, &mut self.next);
        Ok(())
    }

    /// Rounds a row's constant form t up by `g - D*q`, where D is the row's denominator, g is `-t` modulo D and q the
    /// quotient at that place. It takes no memory.
    pub fn round_constant(&mut self, row: usize, q: usize) -> Result<(), Overflow>
        requires row { row < length self.old.rows }
        requires place { q < self.old.width }
        ensures listed { IsChecked is_overflow (rounded_listed (model.row_at self.old.rows row) q) result }
        ensures ok { OnOk result (self.new ≡ with_rounded self.old row q) }
        ensures err { OnErr result (self.new ≡ self.old) }
    {
        self.rows
            .round(self.units.as_slice(), row, q, &mut self.next)?;
        swap(&mut self.rows, &mut self.next);
        Ok(())
    }
}
