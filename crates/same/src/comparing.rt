ghost use Rattle.std.specs.Prelude.{◌+◌, ◌*◌, IfOk, IfErr, IfSome};
ghost use Rattle.pip_model.specs.Agreement.{Agrees};
ghost use Rattle.pip_model.specs.Run.{start_work};
ghost use Rattle.pip_model.specs.ToolAgreement.{AgreesWalked, without_counts};
ghost use Rattle.pip_model.specs.ToolLaws.{IsSameness, IsSameRefusal};
ghost use Rattle.pip_model.specs.Tools as model;
ghost use Rattle.quast.specs.Answers.{answer_of, IsOver};
ghost use Rattle.quast_walk.specs.Faults.{tool_fault};
ghost use Rattle.quast_walk.specs.Readings.{answer_nesting, HasRoom};
ghost use Rattle.same.specs.Samenesses.{sameness_of, DiffersOver};

use crate::sameness::Sameness;
use crate::searching::search_answers;
use affine_forms::Forms;
use pip_problem::Limits;
use quast::Answer;
use quast_walk::{Context, ToolRefusal, Work, context_of, given, levels, point};
use std::alloc::Global;

// Whether two answers agree on the context, after what was counted.
fn compared_on(
    alloc: Global,
    first: &Answer,
    second: &Answer,
    context: &mut Context,
    work: &mut Work,
) -> Result<Sameness, ToolRefusal>
    requires first { IsOver context.old.width first.now }
    requires second { IsOver context.old.width second.now }
    requires room { HasRoom (2 * answer_nesting first.now + 2 * answer_nesting second.now + 1) 0 0 context.old }
    ensures { AgreesWalked sameness_of tool_fault result work.new (model.same context.old.width context.old.forms
        (answer_of first.now) (answer_of second.now) work.old) }
{
    if point(alloc, context, work)?.is_none() {
        return Ok(Sameness::Same);
    }
    match search_answers(alloc, first, second, context, work)? {
        None => Ok(Sameness::Same),
        Some(point) => Ok(Sameness::Differ(point)),
    }
}

// Whether two answers agree on the rows, after what was counted.
fn compared(
    alloc: Global,
    rows: &Forms,
    first: &Answer,
    second: &Answer,
    work: &mut Work,
) -> Result<Sameness, ToolRefusal>
    requires first { IsOver rows.now.width first.now }
    requires second { IsOver rows.now.width second.now }
    ensures { AgreesWalked sameness_of tool_fault result work.new (model.same rows.now.width rows.now.forms
        (answer_of first.now) (answer_of second.now) work.old) }
{
    let mut context = context_of(alloc, rows, levels(first) + levels(second) + 1)?;
    let found = compared_on(alloc, first, second, &mut context, work);
    context.discard();
    found
}

/// Whether two answers have the same value at each whole vector of numbers from 0 on that satisfies the rows, fractions
/// compared by cross products; else the first such vector of the walk at which they differ. It is refused at the first
/// place of the walk at which a point's run or the budget of splits is, a number doesn't fit, or a vector makes a new
/// parameter's form negative.
pub fn same(
    alloc: Global,
    rows: &Forms,
    first: &Answer,
    second: &Answer,
    limits: &Limits,
) -> Result<Sameness, ToolRefusal>
    requires first { IsOver rows.now.width first.now }
    requires second { IsOver rows.now.width second.now }
    ensures gives { Agrees sameness_of tool_fault result (without_counts (model.same rows.now.width rows.now.forms
        (answer_of first.now) (answer_of second.now) (start_work limits.now))) }
    ensures right { IfOk result (λ s.
        IsSameness rows.now.width rows.now.forms (answer_of first.now) (answer_of second.now) (sameness_of s)) }
    ensures refusal { IfErr result (λ e. IfSome (tool_fault e)
        (IsSameRefusal rows.now.width rows.now.forms (answer_of first.now) (answer_of second.now))) }
    ensures scope { IfOk result (DiffersOver rows.now.width) }
{
    given(rows, first);
    given(rows, second);
    let mut work = Work::start(limits);
    let found = compared(alloc, rows, first, second, &mut work)?;
    Ok(found)
}
