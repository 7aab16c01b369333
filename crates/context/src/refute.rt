ghost use Rattle.std.specs.Prelude.{◌≡◌, ◌^◌, ◌≤ℤ◌, ◌<ℤ◌, pos, length, All, IfErr, IfSome};
ghost use Rattle.pip_model.specs.Contexts.{IsPointRefusal};
ghost use Rattle.pip_model.specs.RefutedPoint.{IsRefutedPoint};
ghost use Rattle.pip_model.specs.Refuting as model;
ghost use Rattle.pip_model.specs.Run.{point as point_of};
ghost use Rattle.affine_forms.specs.Checks.{Fits};
ghost use Rattle.pip_problem.specs.Faults.{run_fault};
ghost use Rattle.pip_problem.specs.Counts.{IsCountedRun};

use certificate_parts::Refutation;
use context_points::{Context, Work};
use pip_problem::Refusal;
use refutation_steps::refute_forms;
use std::alloc::Global;

/// What can be refuted: a context.
// A trait, so that whoever asks a context for points stands on no refutation.
pub trait Refute {
    ghost use Rattle.std.specs.Prelude.{ℕ, ℤ, List};

    /// Over how many places the forms are.
    ghost width: { Self → ℕ };

    /// The forms in order.
    ghost forms: { Self → List (List ℤ) };

    /// The steps by which the forms have no point, None exactly where `point` gives a vector. They are made along its
    /// run, with its counts and its refusals. A form's index is its place in the context; `places` has the indices of
    /// the places' forms, and `first` is that of the first step's form.
    fn refute(
        &self,
        alloc: Global,
        places: &[i128],
        first: i128,
        work: &mut Work,
    ) -> Result<Option<Refutation>, Refusal>
        requires number { length places.now ≡ width self.now }
        requires places { All Fits places.now }
        requires some { pos 0 ≤ℤ first }
        requires few { first <ℤ pos (2 ^ 64) }
        ensures gives { IsCountedRun (λ o. o) run_fault result work.old work.new
            (model.refute (width self.now) (forms self.now) places.now first) }
        ensures point { IsRefutedPoint (point_of (width self.now) (forms self.now) work.old)
            (model.refute (width self.now) (forms self.now) places.now first work.old) }
        ensures refusal { IfErr result (λ e. IfSome (run_fault e) IsPointRefusal) };
}

impl Refute for Context {
    ghost width = { λ k. k.width };

    ghost forms = { λ k. k.forms };

    fn refute(
        &self,
        alloc: Global,
        places: &[i128],
        first: i128,
        work: &mut Work,
    ) -> Result<Option<Refutation>, Refusal> {
        refute_forms(alloc, self.forms(), places, first, work)
    }
}
