ghost use Rattle.std.specs.Prelude.{◌≡◌, length, All, IfOk};
ghost use Rattle.pip_model.specs.Problem.{feasible, feasible_listed};
ghost use Rattle.pip_model.specs.Agreement.{Agrees, IsChecked};
ghost use Rattle.pip_model.specs.Leaves.{IsReached};
ghost use Rattle.pip_model.specs.Right.{IsRight};
ghost use Rattle.pip_model.specs.Run as model;
ghost use Rattle.pip_model.specs.Run.{answered};
ghost use Rattle.pip_model.specs.WellFormed.{IsWellFormedAnswer};
ghost use Rattle.affine_forms.specs.Checks.{Fits, is_overflow};
ghost use Rattle.pip_problem.specs.Faults.{run_fault};
ghost use Rattle.quast.specs.Answers.{answer_of, IsOver};

use affine_forms::Overflow;
use pip_problem::{Limits, Problem, Refusal};
use quast::Answer;
use std::alloc::Global;

/// Whether a point is feasible at a parameter vector.
pub fn is_feasible(p: &Problem, point: &[i128], params: &[i128]) -> Result<bool, Overflow>
    requires point { length point.now ≡ p.now.unknowns }
    requires params { length params.now ≡ p.now.params }
    requires point_fits { All Fits point.now }
    requires params_fit { All Fits params.now }
    ensures listed { IsChecked is_overflow (feasible_listed p.now params.now point.now) result }
    ensures value { IfOk result (λ b. b ≡ feasible p.now params.now point.now) }
{
    pip_problem::is_feasible(p, point, params)
}

/// The answer of a problem.
pub fn solve(alloc: Global, problem: &Problem, limits: &Limits) -> Result<Answer, Refusal>
    ensures gives { Agrees answer_of run_fault result (answered (model.solve limits.now problem.now)) }
    ensures right { IfOk result (λ a. IsRight problem.now (answer_of a)) }
    ensures reached { IfOk result (λ a. IsReached problem.now (answer_of a)) }
    ensures well_formed { IfOk result (λ a. IsWellFormedAnswer problem.now.params (answer_of a)) }
    ensures scope { IfOk result (IsOver problem.now.params) }
{
    pip_solve::solve(alloc, problem, limits)
}
