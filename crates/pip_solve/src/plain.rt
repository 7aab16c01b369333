ghost use Rattle.std.specs.Prelude.{◌≡◌, map, IfOk, IfSome, IfNone};
ghost use Rattle.pip_model.specs.Run.{first_node, run_from, setting};
ghost use Rattle.pip_problem.specs.Faults.{run_fault};
ghost use Rattle.quast.specs.Trees.{ScopedTree};
ghost use Rattle.pip_problem.specs.Counts.{IsCountedRun};
ghost use Rattle.node_turn.specs.Turns.{tree_in};
ghost use Rattle.pip_model.specs.Rows.{started};

use crate::starting::{are_tight, tighten_rows};
use affine_forms::Form;
use node_turn::{Work, are_read_off};
use pip_problem::{Problem, Refusal};
use plain_run::{PlainProblem, ShortTableau, Spares, tree_shortly};
use quast::Quast;

// The tree of a problem without parameters whose first rows are these, where all numbers on the way have 64 bits. None
// else, and nothing is counted then.
fn tree_of_rows(
    spares: &mut Spares,
    room: &mut ShortTableau,
    problem: &Problem,
    forms: &[Form],
    work: &mut Work,
) -> Option<Result<Quast, Refusal>>
    requires none { problem.now.params ≡ 0 }
    requires rows { forms.now ≡ started problem.now.integer problem.now.rows }
    ensures gives { IfSome result (λ r. IsCountedRun tree_in run_fault r work.old work.new
        (run_from (setting problem.now) (first_node problem.now))) }
    ensures width { IfSome result (λ r. IfOk r (λ tree. tree.width ≡ problem.now.params)) }
    ensures none { IfNone result (work.new ≡ work.old) }
{
    let plain = PlainProblem {
        unknowns: problem.unknowns(),
        forms,
        integer: problem.integer(),
    };
    tree_shortly(spares, room, &plain, work)
}

// The tree of a problem without parameters, where all numbers on the way have 64 bits; its rows are copied where they
// are tightened. None else, and where its rows are so many that they are read off faster; nothing is counted then.
pub(crate) fn plain_tree(
    spares: &mut Spares,
    room: &mut ShortTableau,
    problem: &Problem,
    work: &mut Work,
) -> Option<Result<Quast, Refusal>>
    requires none { problem.now.params ≡ 0 }
    ensures gives { IfSome result (λ r. IsCountedRun tree_in run_fault r work.old work.new
        (run_from (setting problem.now) (first_node problem.now))) }
    ensures width { IfSome result (λ r. IfOk r (λ tree. tree.width ≡ problem.now.params)) }
    ensures none { IfNone result (work.new ≡ work.old) }
{
    if are_read_off(problem.rows().len(), problem.unknowns()) {
        return None;
    }
    if problem.integer() && !are_tight(problem.rows()) {
        let Ok(forms) = tighten_rows(spares.allocator(), problem.rows()) else {
            return None;
        };
        return tree_of_rows(spares, room, problem, &forms, work);
    }
    tree_of_rows(spares, room, problem, problem.rows(), work)
}
