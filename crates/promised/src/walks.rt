ghost use Rattle.std.specs.Prelude.{IfOk, IfErr, IfSome};
ghost use Rattle.pip_model.specs.Agreement.{Agrees};
ghost use Rattle.pip_model.specs.Run.{start_work};
ghost use Rattle.pip_model.specs.ToolAgreement.{without_counts};
ghost use Rattle.pip_model.specs.ToolLaws.{IsRestriction, IsRestrictRefusal, IsSameness, IsSameRefusal, IsLeastAnswer, IsLeastRefusal};
ghost use Rattle.pip_model.specs.Tools as model;
ghost use Rattle.pip_model.specs.WellFormed.{IsWellFormedAnswer};
ghost use Rattle.quast.specs.Answers.{answer_of, IsOver};
ghost use Rattle.quast_walk.specs.Faults.{tool_fault};
ghost use Rattle.same.specs.Samenesses.{sameness_of, DiffersOver};
ghost use Rattle.least.specs.Kept.{IsWithinLimits};

use affine_forms::Forms;
use pip_problem::Limits;
use quast::Answer;
use quast_walk::ToolRefusal;
use same::Sameness;
use std::alloc::Global;

/// The answer at the vectors that satisfy the rows.
pub fn restrict(
    alloc: Global,
    rows: &Forms,
    answer: &Answer,
    limits: &Limits,
) -> Result<Answer, ToolRefusal>
    requires { IsOver rows.now.width answer.now }
    ensures gives { Agrees answer_of tool_fault result (without_counts
        (model.restrict rows.now.width rows.now.forms (answer_of answer.now) (start_work limits.now))) }
    ensures right { IfOk result
        (λ a. IsRestriction rows.now.width rows.now.forms (answer_of answer.now) (answer_of a)) }
    ensures refusal { IfErr result
        (λ e. IfSome (tool_fault e) (IsRestrictRefusal rows.now.width rows.now.forms (answer_of answer.now))) }
    ensures well_formed { IfOk result (λ a. IsWellFormedAnswer rows.now.width (answer_of a)) }
    ensures scope { IfOk result (IsOver rows.now.width) }
{
    restrict::restrict(alloc, rows, answer, limits)
}

/// Whether two answers have the same values at the vectors that satisfy the rows.
pub fn same(
    alloc: Global,
    rows: &Forms,
    first: &Answer,
    second: &Answer,
    limits: &Limits,
) -> Result<Sameness, ToolRefusal>
    requires first { IsOver rows.now.width first.now }
    requires second { IsOver rows.now.width second.now }
    ensures gives { Agrees sameness_of tool_fault result (without_counts (model.same rows.now.width rows.now.forms
        (answer_of first.now) (answer_of second.now) (start_work limits.now))) }
    ensures right { IfOk result (λ s.
        IsSameness rows.now.width rows.now.forms (answer_of first.now) (answer_of second.now) (sameness_of s)) }
    ensures refusal { IfErr result (λ e. IfSome (tool_fault e)
        (IsSameRefusal rows.now.width rows.now.forms (answer_of first.now) (answer_of second.now))) }
    ensures scope { IfOk result (DiffersOver rows.now.width) }
{
    same::same(alloc, rows, first, second, limits)
}

/// The lesser of two answers at the vectors that satisfy the rows.
pub fn least(
    alloc: Global,
    rows: &Forms,
    first: &Answer,
    second: &Answer,
    limits: &Limits,
) -> Result<Answer, ToolRefusal>
    requires first { IsOver rows.now.width first.now }
    requires second { IsOver rows.now.width second.now }
    ensures gives { Agrees answer_of tool_fault result (without_counts (model.least rows.now.width rows.now.forms
        (answer_of first.now) (answer_of second.now) (start_work limits.now))) }
    ensures right { IfOk result (λ a.
        IsLeastAnswer rows.now.width rows.now.forms (answer_of first.now) (answer_of second.now) (answer_of a)) }
    ensures refusal { IfErr result (λ e. IfSome (tool_fault e)
        (IsLeastRefusal rows.now.width rows.now.forms (answer_of first.now) (answer_of second.now))) }
    ensures made { IfOk result (IsWithinLimits rows.now.width limits.now.nesting) }
{
    least::least(alloc, rows, first, second, limits)
}
