ghost use Rattle.std.specs.Prelude.{◌≡◌, ◌≤◌, length, map, IfOk, IfSome, IfNone};
ghost use Rattle.pip_model.specs.Contexts.{IsContext};
ghost use Rattle.pip_model.specs.Forms.{widen_to};
ghost use Rattle.pip_model.specs.Limits.{most_unknowns};
ghost use Rattle.pip_model.specs.Rows.{start};
ghost use Rattle.pip_model.specs.Run as model;
ghost use Rattle.pip_model.specs.Run.{point_setting, run_from};
ghost use Rattle.pip_problem.specs.Faults.{run_fault};
ghost use Rattle.pip_problem.specs.Counts.{IsCountedRun};
ghost use Rattle.point_turns.specs.TurnAt.{IsTurnAt};
ghost use Rattle.point_turns.specs.Turns.{made, node_of};
ghost use Rattle.plain_laws.specs.Plain.{plain_setting};
ghost use Rattle.plain_run.specs.Trees.{tree_in};

use pip_problem::{Refusal, Work};
use plain_run::{PlainProblem, ShortTableau, Spares};
use point_run::{PointTurn, WideRows};
use quast::Quast;
use tableau::Tableau;

/// One turn of the run of a point.
pub fn take_turn(rows: &mut Tableau, work: &mut Work) -> Result<PointTurn, Refusal>
    requires width { rows.old.width ≡ 0 }
    requires rows { rows.old.unknowns ≤ length rows.old.rows }
    ensures gives { IsCountedRun (made rows.old.unknowns rows.new.rows) run_fault result work.old work.new
        (model.turn (point_setting rows.old.unknowns) (node_of rows.old.rows)) }
    ensures place { IfOk result (IsTurnAt rows.old.unknowns rows.old.rows rows.new.rows) }
{
    point_run::take_turn::<WideRows>(rows, true, work)
}

/// The tree of a problem without parameters over rows of 64 bits; none where a number has more, and nothing is counted
/// then.
pub fn tree_shortly(
    spares: &mut Spares,
    rows: &mut ShortTableau,
    problem: &PlainProblem,
    work: &mut Work,
) -> Option<Result<Quast, Refusal>>
    requires forms { IsContext problem.now.unknowns problem.now.forms.now }
    requires some { 1 ≤ problem.now.unknowns }
    requires few { problem.now.unknowns ≤ most_unknowns }
    ensures gives { IfSome result (λ r. IsCountedRun tree_in run_fault r work.old work.new
        (run_from (plain_setting problem.now.unknowns problem.now.integer)
        (node_of (start problem.now.unknowns 0 (map (widen_to problem.now.unknowns) problem.now.forms.now))))) }
    ensures none { IfNone result (work.new ≡ work.old) }
{
    plain_run::tree_shortly(spares, rows, problem, work)
}
