ghost use Rattle.std.specs.Prelude.{◌≡◌, ℕ, ◌+◌, ◌^◌, ◌<◌, length, IsTrue};
ghost use Rattle.pip_model.specs.Run.{check_nesting, Work as Counts};
ghost use Rattle.pip_model.specs.ToolAgreement.{AgreesWalked};
ghost use Rattle.pip_model.specs.Tools.{count_if as count_of};
ghost use Rattle.pip_model.specs.Tree as model;
ghost use Rattle.pip_model.specs.Tree.{is_scoped};
ghost use Rattle.pip_model.specs.Walks.{by_run, make, walk_on, Walked};
ghost use Rattle.quast_walk.specs.Scoped.{ScopedForms, IsKeptContext};
ghost use Rattle.quast.specs.Trees.{tree_of};
ghost use Rattle.quast_walk.specs.Faults.{tool_fault};
ghost use Rattle.quast_walk.specs.Readings.{HasRoom};
ghost use Rattle.quast_walk.specs.Visits.{visit_of};
ghost use Rattle.least.specs.Choices.{chosen_by, left, rest_chosen, IsRest};

use crate::rest::{Asked, Rest};
use affine_forms::Form;
use quast::{Component, Node};
use quast_walk::{
    Class, Context, ToolRefusal, Work, choice, difference, enter, leave, list_again, mark, negated,
    sign,
};
use std::alloc::Global;

// Below one more node of the tree that is made: the nesting is raised.
pub(crate) fn raise(depth: u64, work: &Work) -> Result<(), ToolRefusal>
    requires { depth < 2 ^ 63 }
    ensures { AgreesWalked (λ x. tt) tool_fault result work.now (by_run (check_nesting (depth + 1)) work.now) }
{
    work.check_nesting(depth + 1)?;
    Ok(())
}

// Before the two trees of a node that chooses, of the tree that is made: it is counted, and then the nesting is raised.
pub(crate) fn count_if(depth: u64, work: &mut Work) -> Result<(), ToolRefusal>
    requires { depth < 2 ^ 63 }
    ensures { (k : ScopedForms) → AgreesWalked (λ x. tt) tool_fault result work.new
        (count_of (visit_of k depth) work.old) }
{
    work.count_split()?;
    raise(depth, work)
}

// A node that chooses by a form: what was made where it is at least 0, and elsewhere a list.
fn joined(
    alloc: Global,
    form: Form,
    made: Result<Node, ToolRefusal>,
    other: &[Component],
) -> Result<Node, ToolRefusal>
    requires { (w : ℕ) × IsTrue (is_scoped w (model.Leaf other.now)) }
    ensures { (part : Walked model.Tree) → (w : Counts) → AgreesWalked tree_of tool_fault made w part →
        AgreesWalked tree_of tool_fault result w
        (walk_on part (λ x. make (model.If form x (model.Leaf other.now)))) }
{
    let first = made?;
    let second = list_again(alloc, other)?;
    let node = choice(alloc, form, first, second)?;
    Ok(node)
}

// The lesser of two lists, by what is left of them: the first list, where it is below the second by the next
// component; the second, where it is above.
#[cycle(lesser)]
pub(crate) fn choose_rest(
    rest: &Rest,
    context: &mut Context,
    work: &mut Work,
) -> Result<Node, ToolRefusal>
    requires rest { IsRest context.old.width rest.now }
    requires room { HasRoom (left rest.now) rest.now.depth 0 context.old }
    ensures gives { AgreesWalked tree_of tool_fault result work.new
        (rest_chosen rest.now (visit_of context.old rest.now.depth) work.old) }
    ensures kept { IsKeptContext context.old context.new }
{
    match rest.asked {
        Asked::NotBelow(form) => {
            let opposite = negated(rest.alloc, form)?;
            let next = Rest {
                next: rest.next + 1,
                asked: Asked::Nothing,
                ..*rest
            };
            choose_by(&opposite, rest.second, &next, context, work)
        }
        Asked::Nothing => {
            if rest.next == rest.first.len() {
                return Ok(list_again(rest.alloc, rest.first)?);
            }
            let form = difference(rest.alloc, &rest.first[rest.next], &rest.second[rest.next])?;
            let asked = Asked::NotBelow(&form);
            let next = Rest {
                alloc: rest.alloc,
                first: rest.first,
                second: rest.second,
                next: rest.next,
                asked,
                depth: rest.depth,
            };
            choose_by(&form, rest.first, &next, context, work)
        }
    }
}

// What comes next where a form is at least 0, and elsewhere a list.
#[cycle(lesser)]
fn choose_by(
    form: &Form,
    other: &[Component],
    next: &Rest,
    context: &mut Context,
    work: &mut Work,
) -> Result<Node, ToolRefusal>
    requires form { length form.now ≡ context.old.width + 1 }
    requires other { IsTrue (is_scoped context.old.width (model.Leaf other.now)) }
    requires next { IsRest context.old.width next.now }
    requires room { HasRoom (left next.now + 1) next.now.depth 0 context.old }
    ensures gives { AgreesWalked tree_of tool_fault result work.new
        (chosen_by (visit_of context.old next.now.depth) form.now (rest_chosen next.now) (model.Leaf other.now)
        work.old) }
    ensures kept { IsKeptContext context.old context.new }
{
    match sign(next.alloc, form, context, work)? {
        Class::Plus => choose_rest(next, context, work),
        Class::Minus => Ok(list_again(next.alloc, other)?),
        Class::Unknown(condition) => {
            count_if(next.depth, work)?;
            let form = condition.try_clone(next.alloc)?;
            let start = mark(context);
            enter(context, condition);
            let deeper = Rest {
                depth: next.depth + 1,
                ..*next
            };
            let made = choose_rest(&deeper, context, work);
            leave(context, start);
            joined(next.alloc, form, made, other)
        }
    }
}
