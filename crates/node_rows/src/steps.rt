ghost use Rattle.std.specs.Prelude.{◌≡◌, ◌+◌, ◌<◌, ◌≤◌, pos, ◌≤ℤ◌, map, length, ◌++◌, [], ◌∷◌, All, IfOk, OnOk, OnErr, IfSome, is_some};
ghost use Rattle.pip_model.specs.Rows as model;
ghost use Rattle.pip_model.specs.Rows.{row_at, eliminated};
ghost use Rattle.pip_model.specs.Forms.{entry};
ghost use Rattle.pip_model.specs.Agreement.{IsChecked};
ghost use Rattle.affine_forms.specs.Checks.{is_form_overflow};
ghost use Rattle.form_laws.specs.Bounds.{norm as norm_of};
ghost use Rattle.dual_pivot.specs.Choices.{IsCandidate};
ghost use Rattle.pip_model.specs.Run.{Setting, Node, turn_by, MinusAt};
ghost use Rattle.pip_problem.specs.Faults.{run_fault};
ghost use Rattle.pip_problem.specs.Counts.{IsCountedRun};
ghost use Rattle.point_run.specs.Turns.{pivoted, HasSameScope};
ghost use Rattle.node_rows.specs.ReadRows.{IsRead, all_rows, read};

use crate::basis::{Basis, measure};
use crate::node_rows::NodeRows;
use crate::reading::push_read;
use crate::rooms::make_rest;
use affine_forms::{Form, FormRefusal, WantOfMemory};
use pip_problem::{Refusal, Work};
use tableau::Tableau;

// The unknowns' rows after the pivot on their row r and column c, which refuses no number.
fn pivoted_at(
    rows: &Tableau,
    basis: &Basis,
    form: &Form,
    r: usize,
    c: usize,
) -> Result<Tableau, WantOfMemory>
    requires read { IsRead rows.now basis.now form.now }
    requires row { r < length rows.now.rows }
    requires column { c < rows.now.unknowns }
    requires positive { pos 1 ≤ℤ entry (row_at rows.now.rows r).coefs c }
    ensures { IfOk result (λ t. t
        ≡ record rows.now { rows = map (eliminated (row_at rows.now.rows r) c) rows.now.rows }) }
{
    let mut turned = rows.try_clone(rows.allocator())?;
    match turned.exchange(r, c) {
        Ok(()) => Ok(turned),
        Err(_) => unreachable!(),
    }
}

// The unknowns' rows and the form's row after the pivot on the form's row and column c, which refuses no number.
fn pivoted_with(
    rows: &Tableau,
    basis: &Basis,
    form: &Form,
    c: usize,
) -> Result<Tableau, WantOfMemory>
    requires read { IsRead rows.now basis.now form.now }
    requires column { c < rows.now.unknowns }
    requires positive { pos 1 ≤ℤ entry (read rows.now basis.now form.now).coefs c }
    ensures { IfOk result (λ t. t ≡ record rows.now {
      rows = model.pivot (rows.now.rows ++ read rows.now basis.now form.now ∷ []) rows.now.unknowns c;
    }) }
{
    let mut turned = rows.try_clone(rows.allocator())?;
    push_read(&mut turned, rows, basis, form)?;
    match turned.exchange(rows.unknowns(), c) {
        Ok(()) => Ok(turned),
        Err(_) => unreachable!(),
    }
}

// The unknowns' rows after the pivot on the form's row and column c, which refuses no number.
fn pivoted_by(rows: &Tableau, basis: &Basis, form: &Form, c: usize) -> Result<Tableau, WantOfMemory>
    requires read { IsRead rows.now basis.now form.now }
    requires column { c < rows.now.unknowns }
    requires positive { pos 1 ≤ℤ entry (read rows.now basis.now form.now).coefs c }
    ensures { IfOk result (λ t. t
        ≡ record rows.now { rows = map (eliminated (read rows.now basis.now form.now) c) rows.now.rows }) }
{
    let turned = pivoted_with(rows, basis, form, c)?;
    turned.first_rows(rows.allocator(), rows.unknowns())
}

// The unknowns' rows after the pivot on row r and column c of all, which refuses no number.
fn turned(
    rows: &Tableau,
    basis: &Basis,
    forms: &[Form],
    r: usize,
    c: usize,
) -> Result<Tableau, WantOfMemory>
    requires read { All (IsRead rows.now basis.now) forms.now }
    requires some { 0 < length forms.now }
    requires row { r < length rows.now.rows + length forms.now }
    requires column { c < rows.now.unknowns }
    requires positive { pos 1 ≤ℤ entry (row_at (all_rows rows.now basis.now forms.now).rows r).coefs c }
    ensures { IfOk result (λ t. t ≡ record rows.now {
      rows = map (eliminated (row_at (all_rows rows.now basis.now forms.now).rows r) c) rows.now.rows;
    }) }
{
    let n = rows.rows();
    if r < n {
        pivoted_at(rows, basis, &forms[0], r, c)
    } else {
        pivoted_by(rows, basis, &forms[r - n], c)
    }
}

// The column that enters at a form's row.
fn entering_by(rows: &Tableau, basis: &Basis, form: &Form) -> Result<Option<usize>, FormRefusal>
    requires read { IsRead rows.now basis.now form.now }
    ensures listed { IsChecked is_form_overflow (model.entering_listed
        (rows.now.rows ++ read rows.now basis.now form.now ∷ []) rows.now.unknowns) result }
    ensures value { IfOk result (λ c. c
        ≡ model.entering (rows.now.rows ++ read rows.now basis.now form.now ∷ []) rows.now.unknowns) }
    ensures candidate { IfOk result (λ c. IfSome c (IsCandidate rows.now.unknowns (read rows.now basis.now form.now))) }
{
    let mut with = rows.try_clone(rows.allocator())?;
    push_read(&mut with, rows, basis, form)?;
    let column = dual_pivot::entering(&with, rows.unknowns())?;
    Ok(column)
}

// The column that enters at row r, as in a tableau.
fn entering(t: &NodeRows, r: usize) -> Result<Option<usize>, FormRefusal>
    requires row { r < length t.now.rows }
    requires rows { t.now.unknowns ≤ length t.now.rows }
    ensures listed { IsChecked is_form_overflow (model.entering_listed t.now.rows r) result }
    ensures value { IfOk result (λ c. c ≡ model.entering t.now.rows r) }
    ensures candidate { IfOk result (λ c. IfSome c (IsCandidate t.now.unknowns (row_at t.now.rows r))) }
{
    let n = t.made.rows();
    if r < n {
        let _ = t.made.row(r);
        let column = dual_pivot::entering(&t.made, r)?;
        Ok(column)
    } else {
        entering_by(&t.made, &t.basis, &t.forms.as_slice()[r - n])
    }
}

// The pivot on row r and column c, as in a tableau.
fn pivot(t: &mut NodeRows, r: usize, c: usize) -> Result<(), FormRefusal>
    requires row { r < length t.old.rows }
    requires column { c < t.old.unknowns }
    requires positive { pos 1 ≤ℤ entry (row_at t.old.rows r).coefs c }
    ensures listed { IsChecked is_form_overflow (model.pivot_listed t.old.rows r c) result }
    ensures ok { OnOk result (t.new ≡ record t.old { rows = model.pivot t.old.rows r c }) }
    ensures err { OnErr result (t.new ≡ t.old) }
{
    t.pivot_by_forms(r, c)
}

// The step at a row below 0: which column enters. Where one does, a pivot is counted and then made.
fn enter(rows: &mut NodeRows, r: usize, work: &mut Work) -> Result<Option<usize>, Refusal>
    requires rows { rows.old.unknowns ≤ length rows.old.rows }
    requires row { r < length rows.old.rows }
    ensures gives { (S : Setting) (N : Node) → IsCountedRun (λ c. pivoted N rows.new.rows (is_some c)) run_fault result
        work.old work.new (turn_by S (record N { rows = rows.old.rows }) (MinusAt r)) }
    ensures err { OnErr result (rows.new ≡ rows.old) }
    ensures scope { OnOk result (HasSameScope rows.old rows.new) }
{
    let Some(c) = entering(rows, r)? else {
        return Ok(None);
    };
    work.count_pivot()?;
    pivot(rows, r, c)?;
    Ok(Some(c))
}

// The step at a row below 0: whether a column enters. Where one does, a pivot is counted and then made.
pub(crate) fn step(rows: &mut NodeRows, r: usize, work: &mut Work) -> Result<bool, Refusal>
    requires rows { rows.old.unknowns ≤ length rows.old.rows }
    requires row { r < length rows.old.rows }
    ensures gives { (S : Setting) (N : Node) → IsCountedRun (pivoted N rows.new.rows) run_fault result work.old work.new
        (turn_by S (record N { rows = rows.old.rows }) (MinusAt r)) }
    ensures err { OnErr result (rows.new ≡ rows.old) }
    ensures scope { OnOk result (HasSameScope rows.old rows.new) }
{
    let column = enter(rows, r, work)?;
    Ok(column.is_some())
}

impl NodeRows {
    // The pivot where the rows of all forms are made.
    fn pivot_made(&mut self, r: usize, c: usize) -> Result<(), FormRefusal>
        requires row { r < length self.old.rows }
        requires column { c < self.old.unknowns }
        requires positive { pos 1 ≤ℤ entry (row_at self.old.rows r).coefs c }
        ensures listed { IsChecked is_form_overflow (model.pivot_listed self.old.rows r c) result }
        ensures ok { OnOk result (self.new ≡ record self.old { rows = model.pivot self.old.rows r c }) }
        ensures err { OnErr result (self.new ≡ self.old) }
    {
        make_rest(&mut self.made, &self.basis, &mut self.forms)?;
        self.made.exchange(r, c)?;
        Ok(())
    }

    // The pivot where the rows of forms are read off the unknowns'.
    fn pivot_by_forms(&mut self, r: usize, c: usize) -> Result<(), FormRefusal>
        requires row { r < length self.old.rows }
        requires column { c < self.old.unknowns }
        requires positive { pos 1 ≤ℤ entry (row_at self.old.rows r).coefs c }
        ensures listed { IsChecked is_form_overflow (model.pivot_listed self.old.rows r c) result }
        ensures ok { OnOk result (self.new ≡ record self.old { rows = model.pivot self.old.rows r c }) }
        ensures err { OnErr result (self.new ≡ self.old) }
    {
        let count = self.forms.len();
        if count < 1 {
            return self.pivot_made(r, c);
        }
        let rows = turned(&self.made, &self.basis, self.forms.as_slice(), r, c)?;
        match measure(&rows, self.norm) {
            Some(basis) => {
                self.basis = basis;
                self.made = rows;
                Ok(())
            }
            None => self.pivot_made(r, c),
        }
    }
}
