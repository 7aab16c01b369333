ghost use Rattle.std.specs.Prelude.{◌≡◌, ◌<◌, ◌≤◌, length, IfOk};
ghost use Rattle.tableau.specs.KeptRows.{IsOver, SameRows, with_more};
ghost use Rattle.tableau.specs.Places.{IsLent, lent_row};

use crate::appending::append_all_kept;
use crate::flat_rows::FlatRows;
use crate::kept::{Kept, Lent};
use affine_forms::WantOfMemory;
use std::alloc::Global;
use tableau_row::append_entries;

// Adds a kept row that is lent.
#[inline(always)]
pub(crate) fn copy_kept(next: &mut FlatRows, lent: &Lent<'_>, one: Kept)
    requires room { length next.old.rows < next.old.most }
    requires over { IsOver next.old lent.now }
    requires one { IsLent lent.now one }
    ensures { next.new ≡ with_more next.old (lent_row lent.now one) }
{
    match one {
        Kept::Unit(c) => next.push_unit(c),
        Kept::At(at) => next.push_plain(lent.numbers_at(at.first), at.short),
    }
}

impl FlatRows {
    // Makes of the rows these.
    pub(crate) fn copy(&self, copy: &mut FlatRows)
        requires unknowns { copy.old.unknowns ≡ self.now.unknowns }
        requires width { copy.old.width ≡ self.now.width }
        requires room { length self.now.rows ≤ copy.old.most }
        ensures { copy.new ≡ record self.now { most = copy.old.most } }
    {
        copy.kept.clear();
        copy.numbers.clear();
        append_all_kept(&mut copy.kept, self.kept.as_slice());
        append_entries(&mut copy.numbers, self.numbers.as_slice());
    }

    // The same rows, with room for two more.
    pub(crate) fn try_clone(&self, alloc: Global) -> Result<FlatRows, WantOfMemory>
        ensures { IfOk result (λ t. SameRows t self.now) }
    {
        let mut made = FlatRows::with_room(alloc, self.unknowns, self.width, self.len() + 2)?;
        self.copy(&mut made);
        Ok(made)
    }
}
