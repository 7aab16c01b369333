ghost use Rattle.std.specs.Prelude.{◌≡◌, ℕ, ◌+◌, ◌*◌, ◌^◌, ◌<◌, ◌≤◌, ℤ, List, [], ◌∷◌, ◌++◌, length, take, IsTrue, None, IfSome, IfNone, IfOk};
ghost use Rattle.pip_model.specs.Contexts.{IsContext};
ghost use Rattle.pip_model.specs.Forms.{opposite, width};
ghost use Rattle.pip_model.specs.Run as model;
ghost use Rattle.pip_problem.specs.Faults.{run_fault};
ghost use Rattle.pip_problem.specs.Counts.{HasCounted, IsCountedRun};
ghost use Rattle.lane_run.specs.Stops.{stop_fault};
ghost use Rattle.point_turns.specs.Points.{finds_point, has_point};
ghost use Rattle.point_turns.specs.Turns.{negative_from};
ghost use Rattle.form_laws.specs.Bounds.{norm};
ghost use Rattle.lanes.specs.Narrow.{AreLanes};
ghost use Rattle.lane_run.specs.Laned.{AreUnused};
ghost use Rattle.scaled_laws.specs.Tables.{no_rows};
ghost use Rattle.lane_questions.specs.InLanes.{lanes_of, all_lanes, AreWithin, IsWithin};
ghost use Rattle.lane_questions.specs.Kept.{LaneVertex, IsKeptLanes, IsEndedLanes, IsQuestion};
ghost use Rattle.lane_run.specs.Runs.{run_rows, forms_of, AreModest, IsRowBelow};
ghost use Rattle.lane_questions.specs.Behind.{IsBehind};
ghost use Rattle.pip_model.specs.Forms.{widen_to};
ghost use Rattle.std.specs.Prelude.{map};
ghost use Rattle.lane_questions.specs.Signs.{class_of_sign};

use crate::forms::{LaneForms, small_norm};
use crate::sign::LaneSign;
use lane_run::{LaneRows, ReadForms, Stop, entering_at, pivot_at, row_below, run_in_lanes};
use lanes::Lanes;
use pip_problem::{Counts, Refusal, Work};
use std::alloc::Global;
use std::marker::Model;
use std::slice::from_ref;

/// The rows that the kept run of a context's forms ends at, as those of the places, and the number of its pivots.
#[derive(Drop)]
pub struct KeptLanes {
    rows: LaneRows,
    pivots: u64,
}

impl Model for KeptLanes {
    ghost use Rattle.lane_questions.specs.Kept.{LaneVertex};

    ghost Value = { LaneVertex };

    ghost view = { λ k. record { table = k.rows; pivots = k.pivots } };
}

impl KeptLanes {
    /// The run of no forms over no places. It takes no memory.
    pub fn new(alloc: Global) -> KeptLanes
        ensures rows { result.table ≡ no_rows 0 0 }
        ensures pivots { result.pivots ≡ 0 }
    {
        KeptLanes {
            rows: LaneRows::new(alloc),
            pivots: 0,
        }
    }

    /// How many places it is over.
    pub fn places(&self) -> usize
        ensures { result ≡ self.now.table.unknowns }
    {
        self.rows.unknowns()
    }

    /// Becomes the run of no forms over so many places; whether there was memory for it.
    pub fn restart(&mut self, places: usize) -> bool
        requires { places ≤ 7 }
        ensures { IsTrue result → IsKeptLanes places [] self.new }
    {
        self.pivots = 0;
        self.rows.start(places).is_ok()
    }

    /// Becomes the same run as another; whether there was memory for it.
    pub fn copy_from(&mut self, kept: &KeptLanes) -> bool
        ensures { IsTrue result → self.new ≡ kept.now }
    {
        self.pivots = kept.pivots;
        self.rows.copy_from(&kept.rows).is_ok()
    }

    // Makes the pivot at the row of these numbers, the first one below 0; whether a column enters and all fits.
    fn step(&mut self, row: Lanes) -> bool
        requires lanes { AreLanes row }
        requires unused { AreUnused self.old.table.unknowns row }
        ensures { IsTrue result → (n : ℕ) (K : List (List ℤ)) → AreModest n (map (widen_to n) K)
            → IsRowBelow self.old.table (map (widen_to n) K) row → IsKeptLanes n K self.old → IsKeptLanes n K self.new }
    {
        let Some(c) = entering_at(&self.rows, row) else {
            return false;
        };
        let Some(pivots) = self.pivots.checked_add(1) else {
            return false;
        };
        self.pivots = pivots;
        pivot_at(&mut self.rows, row, c)
    }

    /// Goes on with all forms of a context; whether the run is known then, and ends at rows of which none is below 0.
    /// Nothing is counted.
    pub fn extend(&mut self, forms: &LaneForms) -> bool
        ensures { IsTrue result → (n known : ℕ) (K : List (List ℤ)) → IsContext n K → forms.now.forms ≡ all_lanes K
            → IsKeptLanes n (take known K) self.old → IsEndedLanes n K self.new }
    {
        let read = ReadForms {
            forms: forms.as_slice(),
            further: &[],
            norm: forms.norm(),
        };
        for _ in 0..read.forms.len() + 8 {
            if !read.are_readable(&self.rows) {
                return false;
            }
            let Some(row) = row_below(&self.rows, read) else {
                return true;
            };
            if !self.step(row) {
                return false;
            }
        }
        false
    }

    // Goes on with the pivot on the row of these numbers behind the last rows, in the room of other rows.
    #[inline(always)]
    fn pivot_behind(
        &self,
        room: &mut LaneRows,
        forms: ReadForms<'_>,
        row: Lanes,
        work: &mut Work,
    ) -> Result<bool, Stop>
        requires within { AreWithin forms.norm (forms.forms.now ++ forms.further.now) }
        requires small { forms.norm < 2 ^ 31 }
        requires lanes { AreLanes row }
        requires unused { AreUnused self.now.table.unknowns row }
        ensures gives { (F : List (List ℤ)) → AreModest self.now.table.unknowns F → IsRowBelow self.now.table F row
            → F ≡ forms_of self.now.table.unknowns (forms.entry.forms.now ++ forms.entry.further.now)
            → IsCountedRun (λ b. b) stop_fault result work.old work.new
            (finds_point self.now.table.unknowns (run_rows self.now.table F)) }
        ensures counted { HasCounted work.old work.new }
    {
        let Some(c) = entering_at(&self.rows, row) else {
            return Ok(false);
        };
        work.count_pivot()?;
        room.copy_from(&self.rows)?;
        if !pivot_at(room, row, c) {
            return Err(Stop::Long);
        }
        run_in_lanes(room, forms, work)
    }

    // Goes on behind the last rows, none of which is below 0, in the room of other rows.
    #[inline(always)]
    fn cut_behind(
        &self,
        room: &mut LaneRows,
        forms: ReadForms<'_>,
        work: &mut Work,
    ) -> Result<bool, Stop>
        requires within { AreWithin forms.norm (forms.forms.now ++ forms.further.now) }
        requires small { forms.norm < 2 ^ 31 }
        ensures gives { (F : List (List ℤ)) → F ≡ forms_of self.now.table.unknowns (forms.entry.forms.now ++ forms.entry.further.now)
            → negative_from 0 (run_rows self.now.table F) ≡ None
            → IsCountedRun (λ b. b) stop_fault result work.old work.new
            (finds_point self.now.table.unknowns (run_rows self.now.table F)) }
        ensures counted { HasCounted work.old work.new }
    {
        let _ = (self.rows.scale(), self.rows.unknowns());
        if self.rows.first_fraction().is_none() {
            return Ok(true);
        }
        room.copy_from(&self.rows)?;
        run_in_lanes(room, forms, work)
    }

    // Whether the forms have a point, the last of which has the row of these numbers.
    #[inline(always)]
    fn find(
        &self,
        room: &mut LaneRows,
        forms: ReadForms<'_>,
        row: Lanes,
        work: &mut Work,
    ) -> Result<bool, Stop>
        requires within { AreWithin forms.norm (forms.forms.now ++ forms.further.now) }
        requires small { forms.norm < 2 ^ 31 }
        requires lanes { AreLanes row }
        requires unused { AreUnused self.now.table.unknowns row }
        ensures gives { (n : ℕ) (K : List (List ℤ)) (c : List ℤ)
            → IsBehind n K c (forms.entry.forms.now ++ forms.entry.further.now) row self.now
            → IsCountedRun (λ b. b) stop_fault result work.old work.new (has_point n (K ++ c ∷ [])) }
        ensures counted { HasCounted work.old work.new }
    {
        let _ = self.rows.scale();
        let counts = Counts {
            pivots: self.pivots,
            cuts: 0,
            splits: 0,
        };
        if !work.count_again(counts) {
            return Err(Stop::Long);
        }
        if row.get(0) < 0 {
            return self.pivot_behind(room, forms, row, work);
        }
        self.cut_behind(room, forms, work)
    }

    // Whether the forms with one more have a point, where no row that is read has a number of more than 31 bits.
    #[inline(always)]
    fn ask_readable(
        &self,
        room: &mut LaneRows,
        forms: ReadForms<'_>,
        form: Lanes,
        work: &mut Work,
    ) -> Result<bool, Stop>
        requires within { AreWithin forms.norm forms.forms.now }
        requires form { IsWithin forms.norm form }
        requires readable { forms.norm * self.now.table.most < 2 ^ 31 }
        requires small { forms.norm < 2 ^ 31 }
        ensures gives { (n : ℕ) (K : List (List ℤ)) (c : List ℤ) → IsQuestion n K c forms.entry.forms.now form self.now
            → IsCountedRun (λ b. b) stop_fault result work.old work.new (has_point n (K ++ c ∷ [])) }
        ensures counted { HasCounted work.old work.new }
    {
        let read = ReadForms {
            forms: forms.forms,
            further: from_ref(&form),
            norm: forms.norm,
        };
        let row = self.rows.read(form);
        self.find(room, read, row, work)
    }

    // Whether the forms with one more have a point, where no number passes 31 bits.
    #[inline(always)]
    fn ask_shortly(
        &self,
        room: &mut LaneRows,
        forms: &LaneForms,
        form: Lanes,
        work: &mut Work,
    ) -> Result<bool, Stop>
        ensures gives { (n : ℕ) (K : List (List ℤ)) (c : List ℤ) → IsQuestion n K c forms.now.forms form self.now
            → IsCountedRun (λ b. b) stop_fault result work.old work.new (has_point n (K ++ c ∷ [])) }
        ensures counted { HasCounted work.old work.new }
    {
        let Some(size) = small_norm(form) else {
            return Err(Stop::Long);
        };
        let read = ReadForms {
            forms: forms.as_slice(),
            further: &[],
            norm: forms.norm().max(size),
        };
        if !read.are_readable(&self.rows) {
            return Err(Stop::Long);
        }
        self.ask_readable(room, read, form, work)
    }

    /// Whether a context with one form more has a point, by the kept run of its forms: with the counts and the refusals
    /// of the run over all. None where a number is too great, and nothing is counted then.
    pub fn ask(
        &self,
        room: &mut LaneRows,
        forms: &LaneForms,
        form: Lanes,
        work: &mut Work,
    ) -> Option<Result<bool, Refusal>>
        ensures gives { IfSome result (λ r. (n : ℕ) (K : List (List ℤ)) (c : List ℤ)
            → IsQuestion n K c forms.now.forms form self.now
            → IsCountedRun (λ b. b) run_fault r work.old work.new (has_point n (K ++ c ∷ []))) }
        ensures none { IfNone result (work.new ≡ work.old) }
    {
        let before = work.counts();
        match self.ask_shortly(room, forms, form, work) {
            Ok(found) => Some(Ok(found)),
            Err(Stop::Refused(refusal)) => Some(Err(refusal)),
            Err(Stop::Long) => {
                work.back_to(before);
                None
            }
        }
    }

    // Whether the forms alone have a point, where no number passes 31 bits.
    #[inline(always)]
    fn find_own(
        &self,
        room: &mut LaneRows,
        forms: &LaneForms,
        work: &mut Work,
    ) -> Result<bool, Stop>
        ensures gives { (n : ℕ) (K : List (List ℤ)) → 1 ≤ n → IsEndedLanes n K self.now → forms.now.forms ≡ all_lanes K
            → IsCountedRun (λ b. b) stop_fault result work.old work.new (has_point n K) }
        ensures counted { HasCounted work.old work.new }
    {
        let counts = Counts {
            pivots: self.pivots,
            cuts: 0,
            splits: 0,
        };
        if !work.count_again(counts) {
            return Err(Stop::Long);
        }
        let read = ReadForms {
            forms: forms.as_slice(),
            further: &[],
            norm: forms.norm(),
        };
        self.cut_behind(room, read, work)
    }

    /// Whether a context has a point, by the kept run of its forms: with the counts and the refusals of the run over all.
    /// None where a number is too great, and nothing is counted then.
    pub fn has_point(
        &self,
        room: &mut LaneRows,
        forms: &LaneForms,
        work: &mut Work,
    ) -> Option<Result<bool, Refusal>>
        ensures gives { IfSome result (λ r. (n : ℕ) (K : List (List ℤ)) → 1 ≤ n → IsEndedLanes n K self.now
            → forms.now.forms ≡ all_lanes K → IsCountedRun (λ b. b) run_fault r work.old work.new (has_point n K)) }
        ensures none { IfNone result (work.new ≡ work.old) }
    {
        let before = work.counts();
        match self.find_own(room, forms, work) {
            Ok(found) => Some(Ok(found)),
            Err(Stop::Refused(refusal)) => Some(Err(refusal)),
            Err(Stop::Long) => {
                work.back_to(before);
                None
            }
        }
    }

    // The sign, where no number passes 31 bits.
    #[inline(always)]
    fn sign_shortly(
        &self,
        room: &mut LaneRows,
        forms: &LaneForms,
        form: Lanes,
        work: &mut Work,
    ) -> Result<LaneSign, Stop>
        ensures gives { (n : ℕ) (K : List (List ℤ)) (c : List ℤ) → IsQuestion n K c forms.now.forms form self.now
            → IsCountedRun (class_of_sign c) stop_fault result work.old work.new (model.class_by_points n K c) }
        ensures counted { HasCounted work.old work.new }
    {
        let Some(size) = small_norm(form) else {
            return Err(Stop::Long);
        };
        let read = ReadForms {
            forms: forms.as_slice(),
            further: &[],
            norm: forms.norm().max(size + 1),
        };
        if !read.are_readable(&self.rows) {
            return Err(Stop::Long);
        }
        let below = opposite(form);
        if !self.ask_readable(room, read, below, work)? {
            return Ok(LaneSign::Plus);
        }
        if !self.ask_readable(room, read, form, work)? {
            return Ok(LaneSign::Minus);
        }
        Ok(LaneSign::Unknown)
    }

    /// The sign of a tightened form at a context's points: by the question with its opposite, and then by that with the
    /// form. With the counts and the refusals of the runs over all forms; none where a number is too great, and nothing
    /// is counted then.
    pub fn sign(
        &self,
        room: &mut LaneRows,
        forms: &LaneForms,
        form: Lanes,
        work: &mut Work,
    ) -> Option<Result<LaneSign, Refusal>>
        ensures gives { IfSome result (λ r. (n : ℕ) (K : List (List ℤ)) (c : List ℤ)
            → IsQuestion n K c forms.now.forms form self.now
            → IsCountedRun (class_of_sign c) run_fault r work.old work.new (model.class_by_points n K c)) }
        ensures none { IfNone result (work.new ≡ work.old) }
    {
        let before = work.counts();
        match self.sign_shortly(room, forms, form, work) {
            Ok(sign) => Some(Ok(sign)),
            Err(Stop::Refused(refusal)) => Some(Err(refusal)),
            Err(Stop::Long) => {
                work.back_to(before);
                None
            }
        }
    }
}

// The opposite `-c - 1` of a form.
#[inline(always)]
fn opposite(form: Lanes) -> Lanes
    requires { norm form < 2 ^ 30 }
    ensures value { (c : List ℤ) → 1 ≤ length c → form ≡ lanes_of c → result ≡ lanes_of (opposite c) }
    ensures lanes { AreLanes form }
    ensures within { IsWithin (norm form + 1) result }
{
    let _ = form.get(0);
    let negated = form.minus();
    let constant = negated.get(0);
    negated.with(0, constant - 1)
}
