ghost use Rattle.std.specs.Prelude.{◌≡◌, ℕ, ◌+◌, ◌*◌, ◌^◌, ◌<◌, ◌≤◌, [], length, IfOk, OnOk, IfSome};
ghost use Rattle.pip_model.specs.Limits.{most_components, most_nesting};
ghost use Rattle.pip_model.specs.Printed.{IsPrintableAnswer};
ghost use Rattle.pip_model.specs.Run.{point as point_of};
ghost use Rattle.pip_model.specs.ToolAgreement.{AgreesWalked};
ghost use Rattle.pip_model.specs.Walks.{by_run};
ghost use Rattle.quast.specs.Answers.{answer_of, IsOver};
ghost use Rattle.quast_walk.specs.Faults.{tool_fault};
ghost use Rattle.quast_walk.specs.Readings.{answer_nesting};

use crate::refusal::ToolRefusal;
use affine_forms::{Forms, WantOfMemory};
use quast::Answer;
use sign_split::{Context, Point, Work};
use std::alloc::Global;

// The rows' forms join a context of none, with room for two more at each of so many levels.
fn fill(
    alloc: Global,
    rows: &Forms,
    levels: usize,
    context: &mut Context,
) -> Result<(), WantOfMemory>
    requires levels { levels ≤ 2 * most_nesting + most_components }
    requires width { context.old.width ≡ rows.now.width }
    requires none { context.old.forms ≡ [] }
    ensures width { OnOk result (context.new.width ≡ rows.now.width) }
    ensures forms { OnOk result (context.new.forms ≡ rows.now.forms) }
    ensures room { OnOk result (2 * levels ≤ context.new.spare) }
{
    let forms = rows.as_slice();
    context.reserve(forms.len() + 2 * levels)?;
    for form in forms {
        let copy = form.try_clone(alloc)?;
        context.add(copy);
    }
    Ok(())
}

/// The context of the rows, with room for two more forms at each of so many levels: at most those of two trees, each
/// nested 200 deep, and of two lists.
pub fn context_of(alloc: Global, rows: &Forms, levels: usize) -> Result<Context, WantOfMemory>
    requires { levels ≤ 2 * most_nesting + most_components }
    ensures width { IfOk result (λ k. k.width ≡ rows.now.width) }
    ensures forms { IfOk result (λ k. k.forms ≡ rows.now.forms) }
    ensures room { IfOk result (λ k. 2 * levels ≤ k.spare) }
{
    let mut context = Context::new(alloc, rows.width());
    fill(alloc, rows, levels, &mut context)?;
    Ok(context)
}

/// The context's point, none where no whole vector of numbers from 0 on satisfies it. It is refused where the point's
/// run is: a number does not fit, or the budget of pivots or of cuts is spent.
#[tactic(auto, using(crate::proofs::Pointed::point_places))]
pub fn point(
    alloc: Global,
    context: &Context,
    work: &mut Work,
) -> Result<Option<Point>, ToolRefusal>
    ensures gives { AgreesWalked (λ o. o) tool_fault result work.new
        (by_run (point_of context.now.width context.now.forms) work.old) }
    ensures budget { work.new.budget ≡ work.old.budget }
    ensures width { IfOk result (λ o. IfSome o (λ p. length p ≡ context.now.width)) }
{
    let found = context.point(alloc, work)?;
    Ok(found)
}

/// The most nodes that choose or define on a path of the answer, at most 200. An answer over so many parameters is well
/// formed over them, and its numbers fit.
pub fn levels(answer: &Answer) -> usize
    ensures few { result ≤ most_nesting }
    ensures value { result ≡ answer_nesting answer.now }
    ensures sound { (w : ℕ) → IsOver w answer.now → w + most_nesting < 2 ^ 127
        → IsPrintableAnswer w (answer_of answer.now) }
{
    match answer {
        Answer::Void => 0,
        Answer::Tree(tree) => {
            let _ = tree.root();
            tree.nesting()
        }
    }
}
