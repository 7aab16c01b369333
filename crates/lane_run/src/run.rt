ghost use Rattle.std.specs.Prelude.{◌^◌, ◌<◌, ◌++◌};
ghost use Rattle.pip_problem.specs.Counts.{IsCountedRun};
ghost use Rattle.short_run.specs.Stops.{stop_fault};
ghost use Rattle.point_turns.specs.Points.{finds_point};
ghost use Rattle.lane_run.specs.Within.{AreWithin};
ghost use Rattle.lane_run.specs.Runs.{run_rows, forms_of};

use crate::read_forms::ReadForms;
use crate::turn::turn_or_end;
use lane_rows::LaneRows;
use pip_problem::Work;
use short_run::Stop;

/// The run of a question over the rows of a table and those that are read off it, to its end: whether it finds a point.
/// `Long` where a number passes 31 bits, of which nothing is said.
pub fn run_in_lanes(
    rows: &mut LaneRows,
    forms: ReadForms<'_>,
    work: &mut Work,
) -> Result<bool, Stop>
    requires within { AreWithin forms.norm (forms.forms.now ++ forms.further.now) }
    requires small { forms.norm < 2 ^ 31 }
    ensures gives { IsCountedRun (λ b. b) stop_fault result work.old work.new (finds_point rows.old.unknowns
        (run_rows rows.old (forms_of rows.old.unknowns (forms.entry.forms.now ++ forms.entry.further.now)))) }
{
    loop {
        if let Some(found) = turn_or_end(rows, forms, work)? {
            return Ok(found);
        }
    }
}
