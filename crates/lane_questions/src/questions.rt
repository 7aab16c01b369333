ghost use Rattle.std.specs.Prelude.{◌≡◌, ℕ, ◌+◌, ◌≤◌, ℤ, List, [], ◌∷◌, ◌++◌, length, take, IfSome, IfNone, true, false, IsTrue};
ghost use Rattle.pip_model.specs.Contexts.{IsContext, IsNarrow};
ghost use Rattle.pip_model.specs.Run as model;
ghost use Rattle.pip_problem.specs.Faults.{run_fault};
ghost use Rattle.pip_problem.specs.Counts.{IsCountedRun};
ghost use Rattle.point_turns.specs.Points.{has_point};
ghost use Rattle.lane_questions.specs.Asking.{IsAsking, IsBegun, IsMade, unkept};
ghost use Rattle.lane_questions.specs.InLanes.{lanes_of};
ghost use Rattle.lane_questions.specs.Signs.{class_of_sign};

use crate::forms::{LaneForms, in_lanes};
use crate::kept::KeptLanes;
use crate::sign::LaneSign;
use affine_forms::Form;
use lane_run::LaneRows;
use lanes::Lanes;
use pip_problem::{Refusal, Work};
use std::alloc::Global;
use std::marker::Model;
use std::mem::swap;

/// What a context keeps from question to question in lanes: its first forms, the run of the first of them, and an
/// earlier one of fewer.
#[derive(Drop)]
pub struct LaneQuestions {
    forms: LaneForms,
    kept: KeptLanes,
    is_kept: bool,
    known: usize,
    earlier: KeptLanes,
    is_earlier: bool,
    fewer: usize,
    is_tried: bool,
    room: LaneRows,
}

// Whether a run is there, over the right places, of no more forms than these.
fn stays(is_there: bool, is_over: bool, known: usize, forms: usize) -> bool
    ensures { IsTrue result → IsTrue is_there × IsTrue is_over × (known ≤ forms) }
{
    is_there && is_over && known <= forms
}

impl Model for LaneQuestions {
    ghost use Rattle.lane_questions.specs.Asking.{LaneState};

    ghost Value = { LaneState };

    ghost view = { λ s. record {
      forms = s.forms.forms;
      is_kept = s.is_kept;
      known = s.known;
      kept = s.kept;
      is_earlier = s.is_earlier;
      fewer = s.fewer;
      earlier = s.earlier;
      tried = s.is_tried;
    } };
}

impl LaneQuestions {
    /// Those of a context without forms. It takes no memory.
    pub fn new(alloc: Global) -> LaneQuestions
        ensures asking { (n : ℕ) → IsAsking n [] result }
        ensures tried { result.tried ≡ false }
    {
        LaneQuestions {
            forms: LaneForms::new(alloc),
            kept: KeptLanes::new(alloc),
            is_kept: false,
            known: 0,
            earlier: KeptLanes::new(alloc),
            is_earlier: false,
            fewer: 0,
            is_tried: false,
            room: LaneRows::new(alloc),
        }
    }

    /// Those of a context without forms from now on. The room stays.
    pub fn restart(&mut self)
        ensures asking { (n : ℕ) → IsAsking n [] self.new }
        ensures tried { self.new.tried ≡ false }
    {
        self.forms.clear();
        self.is_kept = false;
        self.is_earlier = false;
        self.is_tried = false;
    }

    /// A form is added to the context.
    pub fn grow(&mut self)
        ensures asking { (n : ℕ) (K : List (List ℤ)) (c : List ℤ) → IsAsking n K self.old
            → IsAsking n (K ++ c ∷ []) self.new }
        ensures tried { self.new.tried ≡ false }
    {
        self.is_tried = false;
    }

    /// A place is added to the context, at which all forms read 0.
    pub fn widen(&mut self)
        ensures asking { (n : ℕ) (K : List (List ℤ)) → IsAsking n K self.old → IsAsking (n + 1) K self.new }
        ensures tried { self.new.tried ≡ false }
    {
        self.is_kept = false;
        self.is_tried = false;
    }

    /// The context goes back to its first forms, over so many places.
    pub fn back_to(&mut self, forms: usize, places: usize)
        ensures asking { (n : ℕ) (K : List (List ℤ)) → forms ≤ length K → IsAsking n K self.old
            → IsAsking places (take forms K) self.new }
        ensures tried { self.new.tried ≡ false }
    {
        let is_over = self.kept.places() == places;
        self.forms.truncate(forms);
        self.is_kept = stays(self.is_kept, is_over, self.known, forms);
        self.is_earlier = stays(self.is_earlier, true, self.fewer, forms);
        self.is_tried = false;
        self.take_earlier(places);
    }

    // Where no run is kept, the earlier one is, if there is one over so many places.
    fn take_earlier(&mut self, places: usize)
        requires { self.old.tried ≡ false }
        ensures asking { (K : List (List ℤ)) → IsAsking places K self.old → IsAsking places K self.new }
        ensures tried { self.new.tried ≡ false }
    {
        if !self.is_kept && self.is_earlier && self.earlier.places() == places {
            swap(&mut self.kept, &mut self.earlier);
            self.known = self.fewer;
            self.is_kept = true;
            self.is_earlier = false;
        }
    }

    // Begins the run where none is kept; else keeps a copy of it, where it is one of fewer forms.
    fn begin(&mut self, places: usize) -> bool
        requires { places ≤ 7 }
        ensures begun { IsTrue result → (K : List (List ℤ)) → IsAsking places K self.old → IsBegun places K self.new }
        ensures asking { (K : List (List ℤ)) → IsAsking places K self.old → IsAsking places K (unkept self.new) }
        ensures forms { self.new.forms ≡ self.old.forms }
    {
        if !self.is_kept {
            self.known = 0;
            return self.kept.restart(places);
        }
        if self.known < self.forms.len() {
            self.is_earlier = self.earlier.copy_from(&self.kept);
            self.fewer = self.known;
        }
        true
    }

    // Makes the run of all forms; whether it is there then.
    fn make_run(&mut self, places: usize, forms: &[Form]) -> bool
        requires asking { IsAsking places forms.now self.old }
        requires context { IsContext places forms.now }
        requires untried { self.old.tried ≡ false }
        ensures made { IsTrue result → IsMade places forms.now self.new }
        ensures asking { IsAsking places forms.now (unkept self.new) }
    {
        if places > 7 {
            return false;
        }
        if !self.forms.read(forms) {
            return false;
        }
        if !self.begin(places) {
            return false;
        }
        self.kept.extend(&self.forms)
    }

    // Makes the run of all forms, where that was not tried; whether it is kept.
    #[inline(always)]
    fn prepare(&mut self, places: usize, forms: &[Form]) -> bool
        requires asking { IsAsking places forms.now self.old }
        requires context { IsContext places forms.now }
        ensures asking { IsAsking places forms.now self.new }
        ensures kept { result ≡ self.new.is_kept }
        ensures tried { self.new.tried ≡ true }
    {
        if self.is_tried {
            return self.is_kept;
        }
        self.is_kept = self.make_run(places, forms);
        self.known = forms.len();
        self.is_tried = true;
        self.is_kept
    }

    /// Whether the context with one form more has a point, as `KeptLanes` answers it. None where no run is kept of all
    /// forms, or a number is too great, and nothing is counted then.
    pub fn ask(
        &mut self,
        places: usize,
        forms: &[Form],
        form: &Form,
        work: &mut Work,
    ) -> Option<Result<bool, Refusal>>
        requires asking { IsAsking places forms.now self.old }
        requires context { IsContext places forms.now }
        requires narrow { length form.now ≤ places + 1 }
        ensures gives { IfSome result (λ r. IsCountedRun (λ b. b) run_fault r work.old work.new
            (has_point places (forms.now ++ form.now ∷ []))) }
        ensures none { IfNone result (work.new ≡ work.old) }
        ensures asking { IsAsking places forms.now self.new }
        ensures tried { self.new.tried ≡ true }
    {
        if !self.prepare(places, forms) {
            return None;
        }
        let form = in_lanes(form.as_slice())?;
        self.kept.ask(&mut self.room, &self.forms, form, work)
    }

    /// Whether the context has a point, as `KeptLanes` answers it. None where no run is kept of all forms, or a number is
    /// too great, and nothing is counted then.
    pub fn has_point(
        &mut self,
        places: usize,
        forms: &[Form],
        work: &mut Work,
    ) -> Option<Result<bool, Refusal>>
        requires some { 1 ≤ places }
        requires asking { IsAsking places forms.now self.old }
        requires context { IsContext places forms.now }
        ensures gives { IfSome result (λ r. IsCountedRun (λ b. b) run_fault r work.old work.new
            (has_point places forms.now)) }
        ensures none { IfNone result (work.new ≡ work.old) }
        ensures asking { IsAsking places forms.now self.new }
        ensures tried { self.new.tried ≡ true }
    {
        if !self.prepare(places, forms) {
            return None;
        }
        self.kept.has_point(&mut self.room, &self.forms, work)
    }

    /// The sign of a tightened form in lanes, as `KeptLanes` tells it. None where no run is kept of all forms, or a number
    /// is too great, and nothing is counted then.
    pub fn sign(
        &mut self,
        places: usize,
        forms: &[Form],
        form: Lanes,
        work: &mut Work,
    ) -> Option<Result<LaneSign, Refusal>>
        requires asking { IsAsking places forms.now self.old }
        requires context { IsContext places forms.now }
        ensures gives { IfSome result (λ r. (c : List ℤ) → form ≡ lanes_of c → IsNarrow places c
            → IsCountedRun (class_of_sign c) run_fault r work.old work.new (model.class_by_points places forms.now c)) }
        ensures none { IfNone result (work.new ≡ work.old) }
        ensures asking { IsAsking places forms.now self.new }
        ensures tried { self.new.tried ≡ true }
    {
        if !self.prepare(places, forms) {
            return None;
        }
        self.kept.sign(&mut self.room, &self.forms, form, work)
    }
}
