ghost use Rattle.std.specs.Prelude.{◌+◌, ◌*◌, IfOk, IfErr, IfSome};
ghost use Rattle.pip_model.specs.Limits.{most_components};
ghost use Rattle.pip_model.specs.Agreement.{Agrees};
ghost use Rattle.pip_model.specs.Run.{start_work};
ghost use Rattle.pip_model.specs.ToolAgreement.{AgreesWalked, without_counts};
ghost use Rattle.pip_model.specs.ToolLaws.{IsLeastAnswer, IsLeastRefusal};
ghost use Rattle.pip_model.specs.Tools as model;
ghost use Rattle.quast.specs.Answers.{answer_of, IsOver};
ghost use Rattle.quast_walk.specs.Faults.{tool_fault};
ghost use Rattle.quast_walk.specs.Readings.{answer_nesting, HasRoom};
ghost use Rattle.quast_walk.specs.Nodes.{node_answer};
ghost use Rattle.least.specs.Kept.{IsWithinLimits};

use crate::choosing_walk::choose_answers;
use affine_forms::{Forms, MOST_COMPONENTS};
use pip_problem::Limits;
use quast::{Answer, Node};
use quast_walk::{Context, ToolRefusal, Work, as_answer, context_of, given, levels, point};
use std::alloc::Global;

// The lesser of two answers on the context, after what was counted; none is `void`.
fn chosen_on(
    alloc: Global,
    first: &Answer,
    second: &Answer,
    context: &mut Context,
    work: &mut Work,
) -> Result<Option<Node>, ToolRefusal>
    requires first { IsOver context.old.width first.now }
    requires second { IsOver context.old.width second.now }
    requires room { HasRoom (2 * answer_nesting first.now + 2 * answer_nesting second.now + 2 * most_components) 0 0
        context.old }
    ensures { AgreesWalked node_answer tool_fault result work.new (model.least context.old.width context.old.forms
        (answer_of first.now) (answer_of second.now) work.old) }
{
    if point(alloc, context, work)?.is_none() {
        return Ok(None);
    }
    let made = choose_answers(alloc, first, second, context, work)?;
    Ok(Some(made))
}

// The lesser of two answers on the rows, after what was counted; none is `void`.
fn chosen(
    alloc: Global,
    rows: &Forms,
    first: &Answer,
    second: &Answer,
    work: &mut Work,
) -> Result<Option<Node>, ToolRefusal>
    requires first { IsOver rows.now.width first.now }
    requires second { IsOver rows.now.width second.now }
    ensures { AgreesWalked node_answer tool_fault result work.new (model.least rows.now.width rows.now.forms
        (answer_of first.now) (answer_of second.now) work.old) }
{
    let room = levels(first) + levels(second) + MOST_COMPONENTS;
    let mut context = context_of(alloc, rows, room)?;
    let found = chosen_on(alloc, first, second, &mut context, work);
    context.discard();
    found
}

/// The answer whose value at each whole vector of numbers from 0 on that satisfies the rows is the lexicographically
/// lesser of the two answers' values; `void` and bottom count as above every point. It is `void` exactly where there is
/// no such vector. It is refused at the first place of the walk at which a point's run or the budget of splits or of
/// the nesting is, a number doesn't fit, a vector makes a new parameter's form negative, or lists of different lengths
/// meet.
pub fn least(
    alloc: Global,
    rows: &Forms,
    first: &Answer,
    second: &Answer,
    limits: &Limits,
) -> Result<Answer, ToolRefusal>
    requires first { IsOver rows.now.width first.now }
    requires second { IsOver rows.now.width second.now }
    ensures gives { Agrees answer_of tool_fault result (without_counts (model.least rows.now.width rows.now.forms
        (answer_of first.now) (answer_of second.now) (start_work limits.now))) }
    ensures right { IfOk result (λ a.
        IsLeastAnswer rows.now.width rows.now.forms (answer_of first.now) (answer_of second.now) (answer_of a)) }
    ensures refusal { IfErr result (λ e. IfSome (tool_fault e)
        (IsLeastRefusal rows.now.width rows.now.forms (answer_of first.now) (answer_of second.now))) }
    ensures made { IfOk result (IsWithinLimits rows.now.width limits.now.nesting) }
{
    given(rows, first);
    given(rows, second);
    let mut work = Work::start(limits);
    let made = chosen(alloc, rows, first, second, &mut work)?;
    Ok(as_answer(rows.width(), made))
}
