ghost use Rattle.std.specs.Prelude.{◌≡◌, ◌++◌, IfSome, IfNone};
ghost use Rattle.pip_model.specs.Contexts.{IsContext};
ghost use Rattle.pip_problem.specs.Faults.{run_fault};
ghost use Rattle.pip_problem.specs.Counts.{IsCountedRun};
ghost use Rattle.short_run.specs.Stops.{stop_fault};
ghost use Rattle.point_turns.specs.Points.{has_point};

use crate::room::RowRoom;
use crate::run::ReadRows;
use crate::starting::start_by_forms;
use affine_forms::Form;
use pip_problem::{Refusal, Work};
use point_turns::run_on;
use short_run::Stop;
use std::alloc::Global;

// Whether the forms have a point.
fn ask(
    alloc: Global,
    places: usize,
    forms: &[Form],
    further: &[Form],
    work: &mut Work,
) -> Result<bool, Stop>
    requires forms { IsContext places forms.now }
    requires further { IsContext places further.now }
    ensures gives { IsCountedRun (λ b. b) stop_fault result work.old work.new
        (has_point places (forms.now ++ further.now)) }
{
    let mut room = RowRoom::new(alloc);
    let rows = start_by_forms(alloc, places, forms, further, &mut room)?;
    let mut read = ReadRows { rows, room };
    run_on::<ReadRows>(&mut read, true, usize::MAX, work)
}

/// Whether these forms, which are those of a context and further ones, have a point; None where a number is not short, or
/// the form of a cut is not found, and nothing is counted then.
pub fn ask_by_forms(
    alloc: Global,
    places: usize,
    forms: &[Form],
    further: &[Form],
    work: &mut Work,
) -> Option<Result<bool, Refusal>>
    requires forms { IsContext places forms.now }
    requires further { IsContext places further.now }
    ensures gives { IfSome result (λ r. IsCountedRun (λ b. b) run_fault r work.old work.new
        (has_point places (forms.now ++ further.now))) }
    ensures none { IfNone result (work.new ≡ work.old) }
{
    let before = work.counts();
    match ask(alloc, places, forms, further, work) {
        Ok(found) => Some(Ok(found)),
        Err(Stop::Refused(refusal)) => Some(Err(refusal)),
        Err(Stop::Long) => {
            work.back_to(before);
            None
        }
    }
}
