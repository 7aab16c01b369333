ghost use Rattle.std.specs.Prelude.{◌≡◌, ◌+◌, ◌^◌, ◌≤◌, ◌≤ℤ◌, ◌<ℤ◌, ◌++◌, [], ◌∷◌, pos, length, All};
ghost use Rattle.pip_model.specs.Refuting as refuting;
ghost use Rattle.affine_forms.specs.Checks.{Fits};
ghost use Rattle.pip_problem.specs.Faults.{run_fault};
ghost use Rattle.pip_problem.specs.Counts.{IsCountedRun};
ghost use Rattle.point_run.specs.Points.{has_point};

use affine_forms::Form;
use certificate_parts::Refutation;
use context::{Context, Refute, Work};
use pip_problem::Refusal;
use std::alloc::Global;

/// Whether a context with one form more has a point.
pub fn point_with(
    alloc: Global,
    context: &mut Context,
    form: &Form,
    work: &mut Work,
) -> Result<bool, Refusal>
    requires { length form.now ≤ context.old.width + 1 }
    ensures { IsCountedRun (λ b. b) run_fault result work.old work.new
        (has_point context.old.width (context.old.forms ++ form.now ∷ [])) }
{
    context.point_with(alloc, form, work)
}

/// The steps by which a context has no point.
pub fn refute(
    alloc: Global,
    context: &Context,
    places: &[i128],
    first: i128,
    work: &mut Work,
) -> Result<Option<Refutation>, Refusal>
    requires number { length places.now ≡ context.now.width }
    requires places { All Fits places.now }
    requires some { pos 0 ≤ℤ first }
    requires few { first <ℤ pos (2 ^ 64) }
    ensures { IsCountedRun (λ o. o) run_fault result work.old work.new
        (refuting.refute context.now.width context.now.forms places.now first) }
{
    context.refute(alloc, places, first, work)
}
