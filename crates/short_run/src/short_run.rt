ghost use Rattle.std.specs.Prelude.{◌≤◌, length};
ghost use Rattle.point_turns.specs.Counts.{IsCountedRun};
ghost use Rattle.short_run.specs.Stops.{stop_fault};
ghost use Rattle.point_turns.specs.Points.{finds_point};

use crate::point_rows::ShortRows;
use crate::stop::Stop;
use point_turns::{ShortTableau, Work, run_on};

// How many cuts a question's run makes in short rows.
const MOST_CUTS: usize = 128;

/// The run of a question over short rows to its end: whether it finds a point. It stops at its 129th cut, since
/// each cut is a row more that every pivot turns.
pub fn run_short(rows: &mut ShortTableau, work: &mut Work) -> Result<bool, Stop>
    requires { rows.old.unknowns ≤ length rows.old.rows }
    ensures gives { IsCountedRun (λ b. b) stop_fault result work.old work.new
        (finds_point rows.old.unknowns rows.old.rows) }
{
    let most = rows.rows().saturating_add(MOST_CUTS);
    run_on::<ShortRows>(rows, true, most, work)
}
