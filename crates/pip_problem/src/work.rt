ghost use Rattle.std.specs.Prelude.{◌≡◌, ◌-◌, ◌≤◌, ◌↔◌, OnOk, IsTrue, if◌then◌else◌};
ghost use Rattle.affine_forms.specs.Run as model;
ghost use Rattle.affine_forms.specs.Run.{IsBudget, start_work};
ghost use Rattle.affine_forms.specs.Agreement.{AgreesCounted};
ghost use Rattle.pip_problem.specs.Faults.{run_fault};
ghost use Rattle.pip_problem.specs.Counts.{IsCountedRun, HasRoomFor, counted_more};

use crate::limits::Limits;
use crate::refusal::Refusal;
use std::marker::Model;

/// What a run has counted so far of pivots, cuts and splits, and its budget. No count is above its limit.
#[derive(Drop)]
pub struct Work {
    most_pivots: u64,
    most_cuts: u64,
    most_splits: u64,
    most_nesting: u64,
    pivots: u64,
    cuts: u64,
    splits: u64,
}

/// What was counted of pivots, cuts and splits.
#[derive(Clone, Copy)]
pub struct Counts {
    pub pivots: u64,
    pub cuts: u64,
    pub splits: u64,
}

impl Model for Work {
    ghost use Rattle.std.specs.Prelude.{◌≤◌};
    ghost use Rattle.affine_forms.specs.Run as run;

    ghost Value = { run.Work };

    ghost view = { λ w. record {
      budget = record { pivots = w.most_pivots; cuts = w.most_cuts; splits = w.most_splits; nesting = w.most_nesting };
      pivots = w.pivots;
      cuts = w.cuts;
      splits = w.splits;
    } };

    ghost invariant = { λ w. (w.pivots ≤ w.most_pivots) × (w.cuts ≤ w.most_cuts) × (w.splits ≤ w.most_splits) };
}

impl Work {
    /// Nothing is counted yet.
    pub fn start(limits: &Limits) -> Work
        ensures value { result ≡ start_work limits.now }
        ensures budget { IsBudget result.budget }
    {
        Work {
            most_pivots: limits.pivots(),
            most_cuts: limits.cuts(),
            most_splits: limits.splits(),
            most_nesting: limits.nesting(),
            pivots: 0,
            cuts: 0,
            splits: 0,
        }
    }

    /// The number of pivots so far.
    pub fn pivots(&self) -> u64
        ensures { result ≡ self.now.pivots }
    {
        self.pivots
    }

    /// The number of cuts so far.
    pub fn cuts(&self) -> u64
        ensures { result ≡ self.now.cuts }
    {
        self.cuts
    }

    /// The number of splits so far.
    pub fn splits(&self) -> u64
        ensures { result ≡ self.now.splits }
    {
        self.splits
    }

    /// What is counted so far.
    pub fn counts(&self) -> Counts
        ensures pivots { result.pivots ≡ self.now.pivots }
        ensures cuts { result.cuts ≡ self.now.cuts }
        ensures splits { result.splits ≡ self.now.splits }
    {
        Counts {
            pivots: self.pivots,
            cuts: self.cuts,
            splits: self.splits,
        }
    }

    /// What is counted since it was so much.
    pub fn counts_since(&self, before: Counts) -> Counts
        requires pivots { before.pivots ≤ self.now.pivots }
        requires cuts { before.cuts ≤ self.now.cuts }
        requires splits { before.splits ≤ self.now.splits }
        ensures pivots { result.pivots ≡ self.now.pivots - before.pivots }
        ensures cuts { result.cuts ≡ self.now.cuts - before.cuts }
        ensures splits { result.splits ≡ self.now.splits - before.splits }
    {
        Counts {
            pivots: self.pivots - before.pivots,
            cuts: self.cuts - before.cuts,
            splits: self.splits - before.splits,
        }
    }

    /// Counts so much more, where all of it has room in the budget; else nothing.
    pub fn count_again(&mut self, counts: Counts) -> bool
        ensures room { IsTrue result ↔ HasRoomFor self.old counts }
        ensures counted { self.new ≡ (if result then counted_more self.old counts else self.old) }
    {
        if counts.pivots > self.most_pivots - self.pivots
            || counts.cuts > self.most_cuts - self.cuts
            || counts.splits > self.most_splits - self.splits
        {
            return false;
        }
        self.pivots += counts.pivots;
        self.cuts += counts.cuts;
        self.splits += counts.splits;
        true
    }

    /// Counts no more than it did when it was so much.
    pub fn back_to(&mut self, counts: Counts)
        requires pivots { counts.pivots ≤ self.old.pivots }
        requires cuts { counts.cuts ≤ self.old.cuts }
        requires splits { counts.splits ≤ self.old.splits }
        ensures { self.new ≡ record self.old { pivots = counts.pivots; cuts = counts.cuts; splits = counts.splits } }
    {
        self.pivots = counts.pivots;
        self.cuts = counts.cuts;
        self.splits = counts.splits;
    }

    /// Counts a pivot, before it is made. It is refused exactly where the count stands at its limit, which it does then
    /// as before.
    pub fn count_pivot(&mut self) -> Result<(), Refusal>
        ensures gives { IsCountedRun (λ x. tt) run_fault result self.old self.new model.count_pivot }
    {
        if self.pivots >= self.most_pivots {
            return Err(Refusal::Pivots(self.most_pivots));
        }
        self.pivots += 1;
        Ok(())
    }

    /// Counts a cut, before it is made. It is refused exactly where the count stands at its limit, which it does then
    /// as before.
    pub fn count_cut(&mut self) -> Result<(), Refusal>
        ensures gives { IsCountedRun (λ x. tt) run_fault result self.old self.new model.count_cut }
    {
        if self.cuts >= self.most_cuts {
            return Err(Refusal::Cuts(self.most_cuts));
        }
        self.cuts += 1;
        Ok(())
    }

    /// Counts a split, before it is made. It is refused exactly where the count stands at its limit, which it does then
    /// as before.
    pub fn count_split(&mut self) -> Result<(), Refusal>
        ensures gives { IsCountedRun (λ x. tt) run_fault result self.old self.new model.count_split }
    {
        if self.splits >= self.most_splits {
            return Err(Refusal::Splits(self.most_splits));
        }
        self.splits += 1;
        Ok(())
    }

    /// Refuses n nested nodes exactly where n is above the limit. Nothing is counted.
    pub fn check_nesting(&self, n: u64) -> Result<(), Refusal>
        ensures gives { AgreesCounted (λ x. tt) run_fault result self.now (model.check_nesting n self.now) }
        ensures within { OnOk result (n ≤ self.now.budget.nesting) }
    {
        if n > self.most_nesting {
            return Err(Refusal::Nesting(self.most_nesting));
        }
        Ok(())
    }
}
