ghost use Rattle.std.specs.Prelude.{◌≡◌, ℕ, ◌+◌, ◌*◌, ◌^◌, ◌<◌, length, map, IsTrue};
ghost use Rattle.pip_model.specs.Listed.{all_fit};
ghost use Rattle.pip_model.specs.Rows as model;
ghost use Rattle.pip_model.specs.Rows.{row_at};
ghost use Rattle.row_laws.specs.Choices.{IsCandidate};
ghost use Rattle.form_basis.specs.ReadRows.{IsMeasured};
ghost use Rattle.form_run.specs.Held.{IsHeld, IsOneRow};

use crate::flat_lists::FlatLists;
use crate::form_rows::FormRows;
use crate::marked_forms::MarkedForms;
use crate::measuring::measure;
use form_basis::{Basis, are_short};
use short_run::ShortTableau;

// Gives column c the form of the quantity of row r: of n places' rows or behind them.
fn exchange(columns: &mut FlatLists, forms: &FlatLists, n: usize, r: usize, c: usize)
    requires column { c < length columns.old.lists }
    requires size { forms.now.size ≡ columns.old.size }
    requires places { n < columns.old.size }
    requires row { r < n + length forms.now.lists }
    ensures size { columns.new.size ≡ columns.old.size }
    ensures lists { length columns.new.lists ≡ length columns.old.lists }
{
    if r < n {
        columns.set_unit(c, r);
    } else {
        columns.set(c, forms.at(r - n));
    }
}

// Drops all.
fn clear(
    places: &mut ShortTableau,
    basis: &mut Basis,
    forms: &mut MarkedForms,
    columns: &mut FlatLists,
)
    ensures { (most : ℕ) → most < 2 ^ 63 → IsHeld places.new basis.new forms.new columns.new most }
{
    places.restart(0);
    basis.scale = 1;
    basis.most = 1;
    basis.columns.clear();
    forms.restart(1);
    columns.restart(1);
}

// Puts the row, solved for column c, into each place's; whether the numbers of these and of all forms' rows are short.
fn turn(
    places: &mut ShortTableau,
    basis: &mut Basis,
    row: &ShortTableau,
    c: usize,
    norm: u64,
) -> bool
    requires places { length places.old.rows ≡ places.old.unknowns }
    requires unknowns { row.now.unknowns ≡ places.old.unknowns }
    requires row { 0 < length row.now.rows }
    requires candidate { IsCandidate places.old.unknowns (row_at row.now.rows 0) c }
    ensures places { IsTrue result → places.new
        ≡ record places.old { rows = map (model.eliminated (row_at row.now.rows 0) c) places.old.rows } }
    ensures basis { IsTrue result → IsMeasured places.new basis.new }
    ensures bound { IsTrue result → norm * basis.new.most < 2 ^ 63 }
{
    if !places.eliminate(row, 0, c) {
        return false;
    }
    if !measure(basis, places) {
        return false;
    }
    are_short(norm, basis.most)
}

impl FormRows {
    // The pivot on row r, which was read, and column c; whether all numbers are short. Where one is not, no row is left.
    pub(crate) fn pivot(&mut self, row: &ShortTableau, r: usize, c: usize) -> bool
        requires row { r < length self.old.rows }
        requires read { IsOneRow self.old r row.now }
        requires candidate { IsCandidate self.old.unknowns (row_at self.old.rows r) c }
        ensures listed { IsTrue (all_fit (model.pivot_listed self.old.rows r c)) }
        ensures short { IsTrue result → self.new ≡ record self.old { rows = model.pivot self.old.rows r c } }
    {
        let n = self.places.rows();
        self.above = 0;
        exchange(&mut self.columns, self.forms.lists(), n, r, c);
        if turn(&mut self.places, &mut self.basis, row, c, self.norm) {
            return true;
        }
        clear(
            &mut self.places,
            &mut self.basis,
            &mut self.forms,
            &mut self.columns,
        );
        self.norm = 0;
        false
    }
}
