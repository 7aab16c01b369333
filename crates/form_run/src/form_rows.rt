ghost use Rattle.std.specs.Prelude.{◌≡◌, ◌+◌, ◌*◌, ◌^◌, ◌<◌, ◌≤◌, [], ◌∷◌, ◌++◌, length, map, All, IsTrue, IfSome, OnOk, OnErr};
ghost use Rattle.pip_model.specs.Listed.{all_fit};
ghost use Rattle.pip_model.specs.Rows as model;
ghost use Rattle.pip_model.specs.Rows.{row_at};
ghost use Rattle.row_laws.specs.Choices.{IsCandidate};
ghost use Rattle.row_laws.specs.Rows.{IsRow};
ghost use Rattle.point_turns.specs.Turns.{negative_from};
ghost use Rattle.form_basis.specs.ReadRows.{IsRead, read};
ghost use Rattle.form_run.specs.Held.{IsAbove, IsOneRow};

use crate::flat_lists::FlatLists;
use crate::looking::form_below;
use crate::marked_forms::MarkedForms;
use crate::room::{RowRoom, read_form};
use affine_forms::WantOfMemory;
use form_basis::Basis;
use short_run::ShortTableau;
use std::marker::Model;

/// The rows of a run without parameters: those of the places are kept, and behind them stand those of forms, which are
/// read off them. For each column the form of its quantity is kept too, of which contracts say its length alone. They see
/// the rows as a tableau's. The rows of so many first forms are known not to be below 0.
#[derive(Drop)]
pub struct FormRows {
    pub(crate) places: ShortTableau,
    pub(crate) basis: Basis,
    pub(crate) forms: MarkedForms,
    pub(crate) columns: FlatLists,
    pub(crate) norm: u64,
    pub(crate) above: usize,
}

impl Model for FormRows {
    ghost use Rattle.row_laws.specs.Tableaus.{TableauRows};
    ghost use Rattle.form_run.specs.Held.{IsHeld, IsAbove, all_rows};

    ghost Value = { TableauRows };

    ghost view = { λ t. all_rows t.places t.basis t.forms.lists };

    ghost invariant = { λ t. (IsHeld t.places t.basis t.forms t.columns t.norm)
        × (IsAbove t.places t.basis t.forms.lists t.above) };
}

impl FormRows {
    // The first row below 0. The forms in front of it are not asked again before the next pivot.
    pub(crate) fn first_below(&mut self) -> Option<usize>
        ensures value { result ≡ negative_from 0 self.old.rows }
        ensures bound { IfSome result (λ r. r < length self.old.rows) }
        ensures kept { self.new ≡ self.old }
    {
        if let Some(r) = self.places.first_below() {
            return Some(r);
        }
        let count = self.forms.lists().len();
        match form_below(&self.places, &self.basis, &mut self.forms, self.above) {
            Some(i) => {
                self.above = i;
                Some(self.places.rows() + i)
            }
            None => {
                self.above = count;
                None
            }
        }
    }

    /// Reads row r.
    pub fn read_row(&self, r: usize, room: &mut RowRoom) -> Result<(), WantOfMemory>
        requires { r < length self.now.rows }
        ensures { OnOk result (IsOneRow self.now r room.new.row) }
    {
        let n = self.places.rows();
        if r < n {
            room.row.restart(self.places.unknowns());
            room.row.push_copy(&self.places, r)
        } else {
            let form = self.forms.lists().at(r - n);
            read_form(room, &self.places, &self.basis, form)
        }
    }

    // The column that enters at row r, which was read.
    pub(crate) fn entering(&self, row: &ShortTableau, r: usize) -> Option<usize>
        requires row { r < length self.now.rows }
        requires read { IsOneRow self.now r row.now }
        ensures listed { IsTrue (all_fit (model.entering_listed self.now.rows r)) }
        ensures value { result ≡ model.entering self.now.rows r }
        ensures candidate { IfSome result (IsCandidate self.now.unknowns (row_at self.now.rows r)) }
        ensures row { IsRow self.now.unknowns 0 (row_at self.now.rows r) }
    {
        self.places.entering_behind(row, 0)
    }

    // The first of the places' rows whose constant the row's denominator does not divide.
    pub(crate) fn first_fraction(&self) -> Option<usize>
        ensures value { result ≡ model.first_fraction self.now.unknowns self.now.rows }
        ensures bound { IfSome result (λ i. i < self.now.unknowns) }
        ensures row { IfSome result (λ i. IsRow self.now.unknowns 0 (row_at self.now.rows i)) }
    {
        self.places.first_fraction()
    }
}
