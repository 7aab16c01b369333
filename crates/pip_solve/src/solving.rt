ghost use Rattle.std.specs.Prelude.{◌≡◌, IfOk};
ghost use Rattle.pip_model.specs.Leaves.{IsReached};
ghost use Rattle.pip_model.specs.Right.{IsRight};
ghost use Rattle.pip_model.specs.Run as model;
ghost use Rattle.pip_model.specs.Run.{answered};
ghost use Rattle.pip_model.specs.Agreement.{Agrees, AgreesCounted};
ghost use Rattle.pip_model.specs.WellFormed.{IsWellFormedAnswer};
ghost use Rattle.pip_problem.specs.Faults.{run_fault};
ghost use Rattle.pip_problem.specs.Counts.{IsCountedRun};
ghost use Rattle.quast.specs.Answers.{answer_of, IsOver};

use crate::solver::Solver;
use node_turn::{Point, Work};
use pip_problem::{Limits, Problem, Refusal};
use quast::Answer;
use std::alloc::Global;

/// The point that the run finds for the context of a problem, before all else; None where there is none.
pub fn context_point(
    alloc: Global,
    problem: &Problem,
    work: &mut Work,
) -> Result<Option<Point>, Refusal>
    ensures gives { IsCountedRun (λ o. o) run_fault result work.old work.new
        (model.point problem.now.params problem.now.context) }
{
    let mut solver = Solver::new(alloc);
    let point = solver.context_point(problem, work);
    solver.discard();
    point
}

/// The answer of the run, after the point that it found for the context and what was counted for it.
pub fn answer_from(
    alloc: Global,
    problem: &Problem,
    point: &Option<Point>,
    limits: &Limits,
    work: &mut Work,
) -> Result<Answer, Refusal>
    requires budget { work.old.budget ≡ limits.now }
    ensures gives { AgreesCounted answer_of run_fault result work.new
        (model.answer_from problem.now point.now work.old) }
    ensures scope { IfOk result (IsOver problem.now.params) }
{
    let mut solver = Solver::new(alloc);
    let answer = solver.answer_from(problem, point, limits, work);
    solver.discard();
    answer
}

/// The answer of the written run (P. Feautrier, "Parametric integer programming", RAIRO 1988): `void` exactly where
/// no parameter vector satisfies the context, else a tree whose value at each of them is the lexicographic minimum,
/// or bottom where no point is feasible. It is refused exactly as the run is: by the first number that doesn't fit or
/// count that would pass its budget.
pub fn solve(alloc: Global, problem: &Problem, limits: &Limits) -> Result<Answer, Refusal>
    ensures gives { Agrees answer_of run_fault result (answered (model.solve limits.now problem.now)) }
    ensures right { IfOk result (λ a. IsRight problem.now (answer_of a)) }
    ensures reached { IfOk result (λ a. IsReached problem.now (answer_of a)) }
    ensures well_formed { IfOk result (λ a. IsWellFormedAnswer problem.now.params (answer_of a)) }
    ensures scope { IfOk result (IsOver problem.now.params) }
{
    let mut solver = Solver::new(alloc);
    let answer = solver.solve(problem, limits);
    solver.discard();
    answer
}
