ghost use Rattle.std.specs.Prelude.{◌≡◌, List, ℤ, ◌+◌, ◌-◌, ◌^◌, ◌<◌, ◌≤◌, [], ◌∷◌, ◌++◌, true, false, length, take, IfOk, OnOk, IfErr, IfSome, IfNone, IsTrue, vec_len, vec_capacity};
ghost use Rattle.pip_model.specs.Contexts.{IsContext, IsNarrow, PointTells, IsPointRefusal};
ghost use Rattle.pip_model.specs.Run as model;
ghost use Rattle.pip_model.specs.Run.{Work as Counts, Done};
ghost use Rattle.affine_forms.specs.Forms.{IsForm};
ghost use Rattle.pip_problem.specs.Faults.{run_fault};
ghost use Rattle.pip_problem.specs.Counts.{IsCountedRun};
ghost use Rattle.kept_run.specs.Points.{has_point};
ghost use Rattle.lane_questions.specs.InLanes.{form_in, lanes_of};
ghost use Rattle.lane_questions.specs.Signs.{class_of_sign};
ghost use Rattle.context_points.specs.Scoped.{IsKeptContext};

use crate::asking::ask_plainly;
use crate::constants::are_nonnegative;
use affine_forms::{Form, WantOfMemory};
use form_run::ask_by_forms;
use kept_run::{Question, Remembered, Spares, ask_shortly, go_further, remember};
use lane_questions::{LaneQuestions, LaneSign, Lanes, write_form};
use pip_problem::{Refusal, Work};
use point_run::{Point, find_point};
use std::alloc::Global;
use std::marker::Model;
use std::slice::from_ref;

/// A context: forms over the parameters and quotients in scope, which it takes to be at least 0. Its width is their
/// number; a form that is narrower reads 0 at the missing places. It stands for the whole vectors of numbers from 0 on
/// at which no form is below 0. Contracts see the width, the forms in order, the room that is left for more, and whether
/// it was tried to make the run of all forms.
///
/// From one question with a form more to the next a context keeps its own forms' run: up to its end in lanes, over at
/// most seven places and while its numbers are narrow; and where that does not answer the first pivots of the run, no
/// more than it has places and forms, and the rows that they made. Each goes on where forms were added, and begins
/// again where one of its forms was dropped or the width changed; but in lanes it goes back to the run from which it
/// went on last, where that has only forms that stay. The room of both stays, and so does that of a question's rows and
/// form.
#[derive(Drop)]
pub struct Context {
    width: usize,
    forms: Vec<Form>,
    // The run of the first forms, where it is known, and else nothing but its room.
    run: Remembered,
    is_known: bool,
    // How many forms' run it is.
    known: usize,
    // Whether it was tried to make the run of all forms.
    is_tried: bool,
    question: Question,
    spares: Spares,
    // What is kept of the forms in lanes.
    lanes: LaneQuestions,
}

/// How many forms a context had, and its width: where it can go back to.
#[derive(Clone, Copy, Debug, PartialEq, Eq)]
pub struct ContextMark {
    pub forms: usize,
    pub width: usize,
}

// Whether a run is known, of no more forms than the mark has, and over as many places.
fn stays(is_known: bool, known: usize, width: usize, mark: ContextMark) -> bool
    ensures { IsTrue result → IsTrue is_known × (known ≤ mark.forms) × (width ≡ mark.width) }
{
    is_known && known <= mark.forms && width == mark.width
}

// Makes room for so many more forms; where there are none, in a new block, since there is nothing to move.
fn make_room(forms: &mut Vec<Form>, more: usize) -> Result<(), WantOfMemory>
    ensures items { forms.new.items ≡ forms.old.items }
    ensures room { OnOk result (vec_len forms.old + more ≤ vec_capacity forms.new) }
    ensures capacity { vec_capacity forms.old ≤ vec_capacity forms.new }
{
    if forms.is_empty() && forms.capacity() < more {
        let alloc = *forms.allocator();
        *forms = Vec::with_capacity(alloc, more)?;
        return Ok(());
    }
    forms.reserve(more)?;
    Ok(())
}

impl Model for Context {
    ghost use Rattle.std.specs.Prelude.{◌-◌, ◌||◌};
    ghost use Rattle.std.specs.Vec.{vec_len, vec_capacity};
    ghost use Rattle.context_points.specs.Known.{IsKnown, IsTried};
    ghost use Rattle.lane_questions.specs.Asking.{IsAsking};
    ghost use Rattle.context_points.specs.Scoped.{ScopedForms};

    ghost Value = { ScopedForms };

    ghost view = { λ k.
        record {
          width = k.width;
          forms = k.forms.items;
          spare = vec_capacity k.forms - vec_len k.forms;
          tried = k.is_tried || k.lanes.tried;
        } };

    ghost invariant = { λ k.
        IsKnown k.width k.forms.items k.is_known k.known k.run
        × IsTried k.is_tried k.known k.forms.items × IsAsking k.width k.forms.items k.lanes };
}

impl Context {
    /// The context of no forms over so many places. It takes no memory.
    pub fn new(alloc: Global, width: usize) -> Context
        ensures width { result.width ≡ width }
        ensures forms { result.forms ≡ [] }
        ensures tried { result.tried ≡ false }
    {
        Context {
            width,
            forms: Vec::new(alloc),
            run: Remembered::new(alloc),
            is_known: false,
            known: 0,
            is_tried: false,
            question: Question::new(alloc),
            spares: Spares::new(alloc),
            lanes: LaneQuestions::new(alloc),
        }
    }

    /// The same as `new`.
    pub fn try_new(alloc: Global, width: usize) -> Result<Context, WantOfMemory>
        ensures width { IfOk result (λ k. k.width ≡ width) }
        ensures forms { IfOk result (λ k. k.forms ≡ []) }
        ensures tried { IfOk result (λ k. k.tried ≡ false) }
    {
        Ok(Context::new(alloc, width))
    }

    /// Gives all room back.
    pub fn discard(self) {}

    /// No forms over so many places from now on. It takes no memory. The room of forms, as far as there is a place for it,
    /// and of runs stays.
    pub fn restart(&mut self, width: usize)
        ensures width { self.new.width ≡ width }
        ensures forms { self.new.forms ≡ [] }
        ensures tried { self.new.tried ≡ false }
    {
        self.spares.keep_from(&mut self.forms, 0);
        self.lanes.restart();
        self.width = width;
        self.is_known = false;
        self.known = 0;
        self.is_tried = false;
    }

    /// Makes room for at least n more forms. The context stays as it was, and so does the room after a refusal.
    pub fn reserve(&mut self, n: usize) -> Result<(), WantOfMemory>
        ensures kept { IsKeptContext self.old self.new }
        ensures room { OnOk result (n ≤ self.new.spare) }
    {
        self.spares.make_room();
        make_room(&mut self.forms, n)?;
        Ok(())
    }

    /// Adds a form that is no wider than the context, where there is room for it. Takes no memory, and at most one
    /// form's room.
    pub fn add(&mut self, f: Form)
        requires room { 1 ≤ self.old.spare }
        requires narrow { length f ≤ self.old.width + 1 }
        ensures width { self.new.width ≡ self.old.width }
        ensures forms { self.new.forms ≡ self.old.forms ++ f ∷ [] }
        ensures spare { self.old.spare ≤ self.new.spare + 1 }
        ensures tried { self.new.tried ≡ false }
    {
        let _ = f.width();
        self.forms.push(f).unwrap();
        self.lanes.grow();
        self.is_tried = false;
    }

    /// Adds a place, at which all forms read 0. Takes no memory.
    pub fn widen(&mut self)
        requires { self.old.width < 2 ^ 64 - 1 }
        ensures width { self.new.width ≡ self.old.width + 1 }
        ensures forms { self.new.forms ≡ self.old.forms }
        ensures spare { self.old.spare ≤ self.new.spare }
        ensures tried { self.new.tried ≡ false }
    {
        self.width += 1;
        self.lanes.widen();
        self.is_known = false;
        self.is_tried = false;
    }

    /// The forms in order. Each is no wider than the context.
    pub fn forms(&self) -> &[Form]
        ensures value { result.now ≡ self.now.forms }
        ensures narrow { IsContext self.now.width result.now }
    {
        &self.forms
    }

    /// The number of forms and the width. Each form is no wider.
    pub fn mark(&self) -> ContextMark
        ensures forms { result.forms ≡ length self.now.forms }
        ensures width { result.width ≡ self.now.width }
        ensures narrow { IsContext self.now.width self.now.forms }
    {
        ContextMark {
            forms: self.forms.len(),
            width: self.width,
        }
    }

    /// Goes back to a mark: keeps as many of the first forms as it says, none of them wider than its width, which
    /// becomes the context's. The room of the others is free again. It takes no memory: the forms that leave are kept, as
    /// room for copies, where there is room for them.
    pub fn back_to(&mut self, mark: ContextMark)
        requires forms { mark.forms ≤ length self.old.forms }
        requires narrow { IsContext mark.width (take mark.forms self.old.forms) }
        ensures width { self.new.width ≡ mark.width }
        ensures forms { self.new.forms ≡ take mark.forms self.old.forms }
        ensures spare { self.old.spare + (length self.old.forms - mark.forms) ≤ self.new.spare }
        ensures tried { self.new.tried ≡ false }
    {
        self.spares.keep_from(&mut self.forms, mark.forms);
        self.lanes.back_to(mark.forms, mark.width);
        self.is_known = stays(self.is_known, self.known, self.width, mark);
        self.width = mark.width;
        self.is_tried = false;
    }

    /// A whole vector of numbers from 0 on at which no form is below 0; None exactly where there is none. It is found
    /// by the run of the dual simplex with Gomory cuts over the forms as rows, whose pivots and cuts are counted. The
    /// refusals are those of that run: an overflow or a budget of pivots or cuts. The counts stay at what was counted.
    pub fn point(&self, alloc: Global, work: &mut Work) -> Result<Option<Point>, Refusal>
        ensures gives { IsCountedRun (λ o. o) run_fault result work.old work.new
            (model.point self.now.width self.now.forms) }
        ensures tells { IfOk result (PointTells self.now.width self.now.forms) }
        ensures refusal { IfErr result (λ e. IfSome (run_fault e) IsPointRefusal) }
    {
        find_point(alloc, self.width, &self.forms, work)
    }

    /// The form of these entries, in the room that was kept for it if there is one.
    pub fn copy_form(&mut self, entries: &[i128]) -> Result<Form, WantOfMemory>
        requires { IsForm entries.now }
        ensures value { IfOk result (λ form. form ≡ entries.now) }
        ensures kept { IsKeptContext self.old self.new }
    {
        let mut copy = self.spares.take();
        copy.extend_from_slice(entries)?;
        Ok(Form::from_entries(copy))
    }

    /// Keeps the room of a form for the next one that is copied.
    pub fn keep_room(&mut self, form: Form)
        ensures { IsKeptContext self.old self.new }
    {
        self.spares.keep(form);
    }

    // Makes the run of all forms alone, where that was not tried before.
    #[inline(always)]
    fn prepare(&mut self)
        ensures kept { IsKeptContext self.old self.new }
        ensures tried { self.new.tried ≡ true }
    {
        if !self.is_tried {
            self.recall();
        }
    }

    // Makes the run of all forms alone.
    fn recall(&mut self)
        ensures kept { IsKeptContext self.old self.new }
        ensures tried { self.new.tried ≡ true }
    {
        self.is_tried = true;
        self.is_known = if self.is_known {
            let further = &self.forms[self.known..];
            go_further(&mut self.run, further, &mut self.question.row).is_ok()
        } else {
            remember(&mut self.run, self.width, &self.forms).is_ok()
        };
        self.known = self.forms.len();
    }

    // Whether the context with these further forms has a point, by the remembered run of all its own; None where there
    // is none, or a number is not short, and nothing is counted then.
    fn ask_known(&mut self, further: &[Form], work: &mut Work) -> Option<Result<bool, Refusal>>
        requires narrow { IsContext self.old.width further.now }
        ensures gives { IfSome result (λ r. IsCountedRun (λ b. b) run_fault r work.old work.new
            (has_point self.old.width (self.old.forms ++ further.now))) }
        ensures none { IfNone result (work.new ≡ work.old) }
        ensures kept { IsKeptContext self.old self.new }
        ensures tried { self.new.tried ≡ self.old.tried }
    {
        if !self.is_known || self.known < self.forms.len() {
            return None;
        }
        ask_shortly(&self.run, &mut self.question, further, work)
    }

    // Whether the context has a point, where it has no forms, or no places: the run then ends at its first rows. None
    // elsewhere.
    fn point_at_once(&self) -> Option<bool>
        ensures some { IfSome result (λ b. (w : Counts) → has_point self.now.width self.now.forms w ≡ Done b w) }
        ensures none { IfNone result (1 ≤ self.now.width) }
    {
        if self.forms.is_empty() {
            return Some(true);
        }
        if self.width == 0 {
            return Some(are_nonnegative(&self.forms));
        }
        None
    }

    // Whether the context has a point, by the runs in rows of more than 32 bits: in those of the kept run, where it is
    // short, else in rows that are read off their forms, and where a number is long by the run in 128 bits.
    fn has_point_wider(&mut self, alloc: Global, work: &mut Work) -> Result<bool, Refusal>
        ensures gives { IsCountedRun (λ b. b) run_fault result work.old work.new
            (has_point self.old.width self.old.forms) }
        ensures kept { IsKeptContext self.old self.new }
    {
        self.prepare();
        if let Some(answer) = self.ask_known(&[], work) {
            return answer;
        }
        if let Some(answer) = ask_by_forms(alloc, self.width, &self.forms, &[], work) {
            return answer;
        }
        let point = find_point(alloc, self.width, &self.forms, work)?;
        Ok(point.is_some())
    }

    /// Whether the context has a point, as `point` would find it, with its counts and refusals. The context stays as it
    /// was, and the pivots are kept for the questions that follow. Without forms or without places no run is begun.
    pub fn has_point(&mut self, alloc: Global, work: &mut Work) -> Result<bool, Refusal>
        ensures gives { IsCountedRun (λ b. b) run_fault result work.old work.new
            (has_point self.old.width self.old.forms) }
        ensures kept { IsKeptContext self.old self.new }
    {
        if let Some(found) = self.point_at_once() {
            return Ok(found);
        }
        if let Some(answer) = self.lanes.has_point(self.width, &self.forms, work) {
            return answer;
        }
        self.has_point_wider(alloc, work)
    }

    /// The form over so many places that stands in lanes, in the room that was kept for one if there is one.
    pub fn form_of_lanes(&mut self, form: Lanes, places: usize) -> Result<Form, WantOfMemory>
        requires { places ≤ 7 }
        ensures value { IfOk result (λ made. made ≡ form_in places form) }
        ensures kept { IsKeptContext self.old self.new }
    {
        let mut room = self.spares.take();
        write_form(&mut room, form, places)?;
        Ok(Form::from_entries(room))
    }

    /// The sign of a tightened form in lanes at the context's points, by the run in lanes: with the counts and the
    /// refusals of the runs over all forms. None where that is not had, and nothing is counted then.
    pub fn sign_in_lanes(
        &mut self,
        form: Lanes,
        work: &mut Work,
    ) -> Option<Result<LaneSign, Refusal>>
        ensures gives { IfSome result (λ r. (c : List ℤ) → form ≡ lanes_of c → IsNarrow self.old.width c
            → IsCountedRun (class_of_sign c) run_fault r work.old work.new
            (model.class_by_points self.old.width self.old.forms c)) }
        ensures none { IfNone result (work.new ≡ work.old) }
        ensures kept { IsKeptContext self.old self.new }
        ensures tried { self.new.tried ≡ true }
    {
        self.lanes.sign(self.width, &self.forms, form, work)
    }

    // Whether the context with one form more has a point, by the runs in rows of more than 32 bits.
    fn point_with_wider(
        &mut self,
        alloc: Global,
        form: &Form,
        work: &mut Work,
    ) -> Result<bool, Refusal>
        requires narrow { length form.now ≤ self.old.width + 1 }
        ensures gives { IsCountedRun (λ b. b) run_fault result work.old work.new
            (has_point self.old.width (self.old.forms ++ form.now ∷ [])) }
        ensures kept { IsKeptContext self.old self.new }
        ensures tried { self.new.tried ≡ true }
    {
        self.prepare();
        let _ = form.width();
        if let Some(answer) = self.ask_known(from_ref(form), work) {
            return answer;
        }
        if let Some(answer) = ask_by_forms(alloc, self.width, &self.forms, from_ref(form), work) {
            return answer;
        }
        ask_plainly(alloc, self.width, &self.forms, form, work)
    }

    /// Whether the context with one form more has a point, as `point` would find it; the form is no wider than the
    /// context, which stays as it was, and no room is needed for it. What is counted and the refusals are those of the
    /// run over all the forms. The pivots of the context's own forms are made at the first question, and kept for the
    /// next ones.
    pub fn point_with(
        &mut self,
        alloc: Global,
        form: &Form,
        work: &mut Work,
    ) -> Result<bool, Refusal>
        requires narrow { length form.now ≤ self.old.width + 1 }
        ensures gives { IsCountedRun (λ b. b) run_fault result work.old work.new
            (has_point self.old.width (self.old.forms ++ form.now ∷ [])) }
        ensures kept { IsKeptContext self.old self.new }
        ensures tried { self.new.tried ≡ true }
    {
        if let Some(answer) = self.lanes.ask(self.width, &self.forms, form, work) {
            return answer;
        }
        self.point_with_wider(alloc, form, work)
    }
}
