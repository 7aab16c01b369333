ghost use Rattle.std.specs.Prelude.{◌≡◌, ◌+◌, ◌≤◌, [], ◌∷◌, ◌++◌, length};
ghost use Rattle.pip_model.specs.Contexts.{IsContext};
ghost use Rattle.pip_model.specs.Forms.{widen_to};
ghost use Rattle.pip_model.specs.Rows.{form_row};
ghost use Rattle.pip_problem.specs.Faults.{run_fault};
ghost use Rattle.pip_problem.specs.Counts.{IsCountedRun};
ghost use Rattle.point_run.specs.Points.{finds_point, first_rows};

use affine_forms::Form;
use pip_problem::{Refusal, Work};
use point_run::{WideRows, push_form, run_on, start_rows};
use std::alloc::Global;

// Whether the run of the forms as rows, and of one form more, finds a point.
pub(crate) fn ask_plainly(
    alloc: Global,
    places: usize,
    forms: &[Form],
    form: &Form,
    work: &mut Work,
) -> Result<bool, Refusal>
    requires context { IsContext places forms.now }
    requires narrow { length form.now ≤ places + 1 }
    ensures gives { IsCountedRun (λ b. b) run_fault result work.old work.new
        (finds_point places (first_rows places forms.now ++ form_row places (widen_to places form.now) ∷ [])) }
{
    let mut t = start_rows(alloc, places, forms)?;
    push_form(alloc, &mut t, form)?;
    run_on::<WideRows>(&mut t, true, usize::MAX, work)
}
