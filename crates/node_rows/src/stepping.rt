ghost use Rattle.std.specs.Prelude.{◌≡◌, ◌<◌, ◌≤◌, length, OnOk, OnErr};
ghost use Rattle.pip_model.specs.Run.{Setting, Node, turn_by, MinusAt};
ghost use Rattle.pip_problem.specs.Faults.{run_fault};
ghost use Rattle.pip_problem.specs.Counts.{IsCountedRun};
ghost use Rattle.point_run.specs.Turns.{pivoted, HasSameScope};

use crate::node_rows::NodeRows;
use crate::steps::step;
use pip_problem::{Refusal, Work};

/// The step at a row below 0: whether a column enters. Where one does, a pivot is counted and then made. A refusal leaves
/// the rows as they were, and the counts at what was counted.
pub fn enter_and_pivot(rows: &mut NodeRows, r: usize, work: &mut Work) -> Result<bool, Refusal>
    requires rows { rows.old.unknowns ≤ length rows.old.rows }
    requires row { r < length rows.old.rows }
    ensures gives { (S : Setting) (N : Node) → IsCountedRun (pivoted N rows.new.rows) run_fault result work.old work.new
        (turn_by S (record N { rows = rows.old.rows }) (MinusAt r)) }
    ensures err { OnErr result (rows.new ≡ rows.old) }
    ensures scope { OnOk result (HasSameScope rows.old rows.new) }
{
    if rows.forms.is_empty() {
        point_run::enter_and_pivot(&mut rows.made, r, work)
    } else {
        step(rows, r, work)
    }
}
