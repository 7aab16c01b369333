ghost use Rattle.std.specs.Prelude.{◌≡◌, ◌+◌, ◌<◌, ◌≤◌, length, map};
ghost use Rattle.pip_model.specs.Rows as model;
ghost use Rattle.tableau.specs.Places.{AreLent, IsLent, lent_row, unit_run};
ghost use Rattle.tableau.specs.KeptRows.{IsWider, with_more, with_rows};

use crate::flat_rows::FlatRows;
use crate::kept::{Kept, Lent};

// Adds a kept row with a 0 before the constant of its constant form.
fn widen_kept(next: &mut FlatRows, lent: &Lent<'_>, one: Kept)
    requires room { length next.old.rows < next.old.most }
    requires wider { IsWider next.old lent.now }
    requires one { IsLent lent.now one }
    ensures { next.new ≡ with_more next.old (model.widened (lent_row lent.now one)) }
{
    match one {
        Kept::Unit(c) => next.push_unit(c),
        Kept::At(_) => next.push_widened(&lent.row(one)),
    }
}

// Adds the kept rows, each with a 0 before the constant of its constant form.
fn widen_rows(next: &mut FlatRows, lent: &Lent<'_>, kept: &[Kept])
    requires room { length next.old.rows + length kept.now ≤ next.old.most }
    requires wider { IsWider next.old lent.now }
    requires lent { AreLent lent.now kept.now }
    ensures { next.new ≡ with_rows next.old (map (λ one. model.widened (lent_row lent.now one)) kept.now) }
{
    for one in kept {
        widen_kept(next, lent, *one);
    }
}

impl FlatRows {
    // Adds to rows of one place more these, each with a 0 before the constant of its constant form.
    pub(crate) fn widen(&self, units: &[i128], next: &mut FlatRows)
        requires units { 0 < length self.now.rows → units.now ≡ unit_run self.now.unknowns self.now.width }
        requires unknowns { next.old.unknowns ≡ self.now.unknowns }
        requires width { next.old.width ≡ self.now.width + 1 }
        requires room { length next.old.rows + length self.now.rows ≤ next.old.most }
        ensures { next.new ≡ with_rows next.old (map model.widened self.now.rows) }
    {
        if self.len() == 0 {
            return;
        }
        let (lent, kept) = self.lent(units);
        widen_rows(next, &lent, kept);
    }
}
