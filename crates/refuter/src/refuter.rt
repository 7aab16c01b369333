ghost use Rattle.std.specs.Prelude.{◌≡◌, ◌^◌, ◌<◌, ◌≤◌, [], List, ℤ, pos, ◌≤ℤ◌, ◌<ℤ◌, length, map, All, IsTrue, IfOk, OnOk, OnErr};
ghost use Rattle.pip_model.specs.Made.{narrow_to};
ghost use Rattle.pip_model.specs.Refuting as model;
ghost use Rattle.affine_forms.specs.Checks.{Fits};
ghost use Rattle.pip_problem.specs.Faults.{run_fault};
ghost use Rattle.pip_problem.specs.Counts.{IsCountedRun};
ghost use Rattle.refuter.specs.Kept.{KeepsNone, AreFirst, AreFirstWithin, AreFirstOver};
ghost use Rattle.short_run.specs.Stops.{stop_fault};

use crate::kept_front::KeptFront;
use crate::narrowed::Narrowed;
use crate::places::Places;
use affine_forms::{Form, WantOfMemory};
use certificate_parts::{Certificate, Refutation};
use pip_problem::{Refusal, Work};
use refutation_steps::RefutationRoom;
use short_run::Stop;
use std::alloc::Global;
use std::marker::Model;
use std::mem::replace;

/// Makes refutations of known forms, one after the other. From one to the next it keeps the first pivots of the run of
/// so many first forms as it is told. It goes on from them where it is told that the next first forms begin with these,
/// and they are over as many places, and else begins again. What it was asked before changes no answer.
#[derive(Drop)]
pub struct Refuter {
    kept: usize,
    front: KeptFront,
    narrowed: Narrowed,
    room: RefutationRoom,
    // The places of the refutation before.
    places: Places,
}

impl Model for Refuter {
    ghost use Rattle.refuter.specs.Kept.{KeptRun};

    ghost Value = { KeptRun };

    ghost view = { λ k. k.front };
}

impl Refuter {
    /// It keeps no forms. Takes no memory.
    pub fn new(alloc: Global) -> Refuter
        ensures { KeepsNone result }
    {
        Refuter {
            kept: 0,
            front: KeptFront::new(alloc),
            narrowed: Narrowed::new(alloc),
            room: RefutationRoom::new(alloc),
            places: Places::new(alloc),
        }
    }

    /// Gives all room back.
    pub fn discard(self) {}

    /// The places that it keeps, which it lets go.
    pub fn take_places(&mut self) -> Places
        ensures { self.new ≡ self.old }
    {
        let none = Places::new(self.places.allocator());
        replace(&mut self.places, none)
    }

    /// Keeps these places for the next refutation.
    pub fn keep_places(&mut self, places: Places)
        ensures { self.new ≡ self.old }
    {
        self.places = places;
    }

    /// Keeps the rooms of a certificate's steps for those that it makes.
    pub fn keep_steps(&mut self, certificate: Certificate)
        ensures { self.new ≡ self.old }
    {
        self.room.trace.keep(certificate);
    }

    /// From now on it keeps the run of so many of the first known forms; of none where there are fewer.
    pub fn keep(&mut self, forms: usize)
        ensures { self.new ≡ self.old }
    {
        self.kept = forms;
    }

    // Has the run of so many of the first known forms as it was told to keep, over so many places; whether it keeps any.
    fn recall_first(&mut self, known: &[Form], width: usize) -> Result<bool, WantOfMemory>
        requires wide { All (λ c. width < length c) known.now }
        requires first { AreFirst self.old known.now }
        ensures first { OnOk result (AreFirst self.new known.now) }
        ensures width { IfOk result (λ kept. IsTrue kept → self.new.width ≡ width) }
    {
        if known.len() < self.kept || self.kept == 0 {
            return Ok(false);
        }
        let (front, _) = known.split_at(self.kept);
        self.front.recall_others(&mut self.narrowed, front, width)?;
        Ok(true)
    }

    // The steps by which known forms, of which there are some, have no point, by the run of its own; `Long` where it has
    // none.
    fn refute_kept(
        &mut self,
        known: &[Form],
        places: &[i128],
        first: i128,
        work: &mut Work,
    ) -> Result<Option<Refutation>, Stop>
        requires wide { All (λ c. length places.now < length c) known.now }
        requires places { All Fits places.now }
        requires some { pos 0 ≤ℤ first }
        requires few { first <ℤ pos (2 ^ 64) }
        requires first { AreFirstOver (length places.now) self.old known.now }
        requires some_known { 1 ≤ length known.now }
        ensures gives { IsCountedRun (λ o. o) stop_fault result work.old work.new
            (model.refute (length places.now) (map (narrow_to (length places.now)) known.now) places.now first) }
        ensures kept { self.new ≡ self.old }
    {
        self.room.trace.restart(places, known.len(), first)?;
        self.front
            .refute_behind(&mut self.narrowed, known, &mut self.room.trace, work)
    }

    // The same by the run of all of them.
    fn refute_all(
        &mut self,
        known: &[Form],
        places: &[i128],
        first: i128,
        work: &mut Work,
    ) -> Result<Option<Refutation>, Refusal>
        requires wide { All (λ c. length places.now < length c) known.now }
        requires places { All Fits places.now }
        requires some { pos 0 ≤ℤ first }
        requires few { first <ℤ pos (2 ^ 64) }
        ensures gives { IsCountedRun (λ o. o) run_fault result work.old work.new
            (model.refute (length places.now) (map (narrow_to (length places.now)) known.now) places.now first) }
        ensures kept { self.new ≡ self.old }
    {
        let forms = self.narrowed.narrow(known, places.len())?;
        self.room.refute(forms, places, first, work)
    }

    // The same, from the run that is kept where its numbers are short.
    #[tactic(auto, using(refutation_steps::proofs::Tracing::refute_by_run))]
    fn refute_first(
        &mut self,
        known: &[Form],
        places: &[i128],
        first: i128,
        work: &mut Work,
    ) -> Result<Option<Refutation>, Refusal>
        requires wide { All (λ c. length places.now < length c) known.now }
        requires places { All Fits places.now }
        requires some { pos 0 ≤ℤ first }
        requires few { first <ℤ pos (2 ^ 64) }
        requires first { AreFirstOver (length places.now) self.old known.now }
        ensures gives { IsCountedRun (λ o. o) run_fault result work.old work.new
            (model.refute (length places.now) (map (narrow_to (length places.now)) known.now) places.now first) }
        ensures kept { self.new ≡ self.old }
    {
        if known.is_empty() {
            return self.refute_all(known, places, first, work);
        }
        let before = work.counts();
        match self.refute_kept(known, places, first, work) {
            Ok(found) => Ok(found),
            Err(Stop::Refused(refusal)) => Err(refusal),
            Err(Stop::Long) => {
                work.back_to(before);
                self.refute_all(known, places, first, work)
            }
        }
    }

    /// Keeps no forms from here on, but their rooms for others.
    pub fn forget(&mut self)
        ensures { KeepsNone self.new }
    {
        self.front.forget();
    }

    // The steps by which the known forms have no point, where those that it keeps are the first of them.
    fn refute_known(
        &mut self,
        known: &[Form],
        places: &[i128],
        first: i128,
        work: &mut Work,
    ) -> Result<Option<Refutation>, Refusal>
        requires wide { All (λ c. length places.now < length c) known.now }
        requires places { All Fits places.now }
        requires some { pos 0 ≤ℤ first }
        requires few { first <ℤ pos (2 ^ 64) }
        requires first { AreFirst self.old known.now }
        ensures gives { IsCountedRun (λ o. o) run_fault result work.old work.new
            (model.refute (length places.now) (map (narrow_to (length places.now)) known.now) places.now first) }
        ensures first { OnOk result (AreFirst self.new known.now) }
    {
        if !self.recall_first(known, places.len())? {
            return self.refute_all(known, places, first, work);
        }
        self.refute_first(known, places, first, work)
    }

    /// Keeps its forms only where they are no more than so many: as many of the first known forms of the next refutation
    /// are those of the one before.
    pub fn keep_within(&mut self, same: usize)
        ensures { (known : List (List ℤ)) → AreFirstWithin self.old known same → AreFirst self.new known }
    {
        self.front.keep_within(same);
    }

    /// The steps by which the known forms, each over its first places alone and its constant, have no point, as
    /// `refute_forms` gives them of these forms, with its counts and its refusals. The forms that it keeps are the
    /// first of these. After a refusal it keeps none, and may be asked further.
    pub fn refute(
        &mut self,
        known: &[Form],
        places: &[i128],
        first: i128,
        work: &mut Work,
    ) -> Result<Option<Refutation>, Refusal>
        requires wide { All (λ c. length places.now < length c) known.now }
        requires places { All Fits places.now }
        requires some { pos 0 ≤ℤ first }
        requires few { first <ℤ pos (2 ^ 64) }
        requires first { AreFirst self.old known.now }
        ensures gives { IsCountedRun (λ o. o) run_fault result work.old work.new
            (model.refute (length places.now) (map (narrow_to (length places.now)) known.now) places.now first) }
        ensures first { OnOk result (AreFirst self.new known.now) }
        ensures refused { OnErr result (KeepsNone self.new) }
    {
        match self.refute_known(known, places, first, work) {
            Ok(found) => Ok(found),
            Err(refusal) => {
                self.forget();
                Err(refusal)
            }
        }
    }
}
