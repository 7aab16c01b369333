ghost use Rattle.std.specs.Prelude.{◌≡◌, ◌+◌, ◌<◌, ◌≤◌, length, slice_set, take, IfOk, OnOk};
ghost use Rattle.pip_model.specs.Rows as model;
ghost use Rattle.pip_model.specs.Cuts.{rounded, rounded_listed};
ghost use Rattle.pip_model.specs.Agreement.{IsChecked};
ghost use Rattle.affine_forms.specs.Checks.{is_overflow};
ghost use Rattle.tableau.specs.KeptRows.{IsOver, IsSpare, with_rows, SameRows};
ghost use Rattle.tableau.specs.Places.{AreLent, lent_rows, unit_run};

use crate::copying::copy_kept;
use crate::flat_rows::FlatRows;
use crate::kept::{Kept, Lent};
use affine_forms::{Overflow, WantOfMemory};
use std::alloc::Global;

// Adds the kept rows.
fn copy_rows(next: &mut FlatRows, lent: &Lent<'_>, kept: &[Kept])
    requires room { length next.old.rows + length kept.now ≤ next.old.most }
    requires over { IsOver next.old lent.now }
    requires lent { AreLent lent.now kept.now }
    ensures { next.new ≡ with_rows next.old (lent_rows lent.now kept.now) }
{
    for one in kept {
        copy_kept(next, lent, *one);
    }
}

impl FlatRows {
    // The first so many rows, with room for two more.
    pub(crate) fn front(
        &self,
        alloc: Global,
        units: &[i128],
        count: usize,
    ) -> Result<FlatRows, WantOfMemory>
        requires count { count ≤ length self.now.rows }
        requires units { 0 < length self.now.rows → units.now ≡ unit_run self.now.unknowns self.now.width }
        ensures { IfOk result (λ t. SameRows t (record self.now { rows = take count self.now.rows })) }
    {
        let mut rows = FlatRows::with_room(alloc, self.unknowns, self.width, count + 2)?;
        if count > 0 {
            let (lent, kept) = self.lent(units);
            let (front, _) = kept.split_at(count);
            copy_rows(&mut rows, &lent, front);
        }
        Ok(rows)
    }

    // Makes of the next rows these, but for row r rounded by the quotient at place q; they may then change places.
    pub(crate) fn round(
        &self,
        units: &[i128],
        r: usize,
        q: usize,
        next: &mut FlatRows,
    ) -> Result<(), Overflow>
        requires spare { IsSpare self.now next.old units.now }
        requires row { r < length self.now.rows }
        requires place { q < self.now.width }
        ensures listed { IsChecked is_overflow (rounded_listed (model.row_at self.now.rows r) q) result }
        ensures ok { OnOk result (next.new
            ≡ record next.old { rows = slice_set self.now.rows r (rounded (model.row_at self.now.rows r) q) }) }
        ensures spare { IsSpare self.now next.new units.now }
        ensures swapped { OnOk result (IsSpare next.new self.now units.now) }
    {
        let (lent, front, row, back) = self.sides(units, r, next);
        copy_rows(next, &lent, front);
        next.push_rounded(&row, q)?;
        copy_rows(next, &lent, back);
        Ok(())
    }
}
