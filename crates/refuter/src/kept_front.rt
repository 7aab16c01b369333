ghost use Rattle.std.specs.Prelude.{◌≡◌, ◌+◌, ◌<◌, List, ℤ, length, map, All, OnOk};
ghost use Rattle.pip_model.specs.Made.{narrow_to};
ghost use Rattle.pip_model.specs.Refuting.{refute_from};
ghost use Rattle.pip_problem.specs.Counts.{IsCountedRun};
ghost use Rattle.point_run.specs.Points.{first_rows};
ghost use Rattle.point_run.specs.Turns.{node_of};
ghost use Rattle.kept_run.specs.Traces.{IsTraced};
ghost use Rattle.short_run.specs.Stops.{stop_fault};
ghost use Rattle.refuter.specs.Kept.{KeepsNone, AreFirst, AreFirstWithin};

use crate::closing::{exchange_all, refute_with};
use crate::narrowed::Narrowed;
use affine_forms::{Form, WantOfMemory};
use certificate_parts::Refutation;
use kept_run::{Question, Remembered, goes_further, remember, rows_behind};
use pip_problem::Work;
use refutation_steps::Trace;
use short_run::Stop;
use std::alloc::Global;
use std::marker::Model;

// The run of so many first forms of an earlier list, over their first places.
#[derive(Drop)]
pub(crate) struct KeptFront {
    alloc: Global,
    width: usize,
    count: usize,
    // Their run, where it is known, and else nothing but its room.
    run: Remembered,
    is_known: bool,
    question: Question,
}

impl Model for KeptFront {
    ghost use Rattle.refuter.specs.Kept.{KeptRun};

    ghost Value = { KeptRun };

    ghost view = { λ k. record { width = k.width; count = k.count; is_known = k.is_known; run = k.run } };
}

impl KeptFront {
    // No forms. It takes no memory.
    pub(crate) fn new(alloc: Global) -> KeptFront
        ensures { KeepsNone result }
    {
        KeptFront {
            alloc,
            width: 0,
            count: 0,
            run: Remembered::new(alloc),
            is_known: false,
            question: Question::new(alloc),
        }
    }

    // Makes the run of these forms anew, over so many places.
    fn recall(
        &mut self,
        narrowed: &mut Narrowed,
        known: &[Form],
        width: usize,
    ) -> Result<(), WantOfMemory>
        requires { All (λ c. width < length c) known.now }
        ensures width { OnOk result (self.new.width ≡ width) }
        ensures first { OnOk result (AreFirst self.new known.now) }
    {
        let forms = narrowed.narrow(known, width)?;
        self.is_known = remember(&mut self.run, width, forms).is_ok();
        self.width = width;
        self.count = known.len();
        Ok(())
    }

    // Goes on from the run of its forms to that of these and one more.
    fn recall_one(&mut self, narrowed: &mut Narrowed, known: &[Form]) -> Result<(), WantOfMemory>
        requires wide { All (λ c. self.old.width < length c) known.now }
        requires first { AreFirst self.old known.now }
        requires more { self.old.count < length known.now }
        ensures width { OnOk result (self.new.width ≡ self.old.width) }
        ensures count { OnOk result (self.new.count ≡ self.old.count + 1) }
        ensures first { OnOk result (AreFirst self.new known.now) }
    {
        let next = self.count + 1;
        let forms = narrowed.narrow(&known[self.count..next], self.width)?;
        self.is_known = goes_further(
            self.is_known,
            &mut self.run,
            &forms[0],
            &mut self.question.row,
        );
        self.count = next;
        Ok(())
    }

    // Goes on from the run of its forms to that of all of these.
    fn recall_further(
        &mut self,
        narrowed: &mut Narrowed,
        known: &[Form],
    ) -> Result<(), WantOfMemory>
        requires wide { All (λ c. self.old.width < length c) known.now }
        requires first { AreFirst self.old known.now }
        ensures width { OnOk result (self.new.width ≡ self.old.width) }
        ensures first { OnOk result (AreFirst self.new known.now) }
    {
        for _ in self.count..known.len() {
            self.recall_one(narrowed, known)?;
        }
        Ok(())
    }

    // Has the run of these forms, over so many places. It goes on from its own where that is over as many.
    pub(crate) fn recall_others(
        &mut self,
        narrowed: &mut Narrowed,
        known: &[Form],
        width: usize,
    ) -> Result<(), WantOfMemory>
        requires wide { All (λ c. width < length c) known.now }
        requires first { AreFirstWithin self.old known.now (length known.now) }
        ensures width { OnOk result (self.new.width ≡ width) }
        ensures first { OnOk result (AreFirst self.new known.now) }
    {
        if self.width != width || self.count == 0 || known.len() < self.count {
            return self.recall(narrowed, known, width);
        }
        self.recall_further(narrowed, known)
    }

    // Keeps no forms.
    pub(crate) fn forget(&mut self)
        ensures { KeepsNone self.new }
    {
        self.is_known = false;
        self.count = 0;
    }

    // Keeps its forms only where they are no more than so many.
    pub(crate) fn keep_within(&mut self, most: usize)
        ensures { (known : List (List ℤ)) → AreFirstWithin self.old known most → AreFirst self.new known }
    {
        if self.count <= most {
            return;
        }
        self.forget();
    }

    // The run of known forms, of which its own are the first, from its own, with its trace: the steps, none where it found
    // a point; `Long` where none is known.
    pub(crate) fn refute_behind(
        &mut self,
        narrowed: &mut Narrowed,
        known: &[Form],
        trace: &mut Trace,
        work: &mut Work,
    ) -> Result<Option<Refutation>, Stop>
        requires wide { All (λ c. self.old.width < length c) known.now }
        requires first { AreFirst self.old known.now }
        requires traced { IsTraced self.old.width
            (first_rows self.old.width (map (narrow_to self.old.width) known.now)) trace.old }
        ensures gives { IsCountedRun (λ o. o) stop_fault result work.old work.new
            (refute_from self.old.width trace.old
            (node_of (first_rows self.old.width (map (narrow_to self.old.width) known.now)))) }
        ensures kept { self.new ≡ self.old }
    {
        if !self.is_known {
            return Err(Stop::Long);
        }
        let (_, more) = known.split_at(self.count);
        let further = narrowed.narrow(more, self.width)?;
        rows_behind(&self.run.run, &mut self.question.row, further, work)?;
        exchange_all(&self.run.run, trace);
        refute_with(self.alloc, &self.run, &mut self.question, trace, work)
    }
}
