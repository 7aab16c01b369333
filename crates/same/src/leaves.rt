ghost use Rattle.std.specs.Prelude.{ℕ, ◌≤◌};
ghost use Rattle.pip_model.specs.ToolAgreement.{AgreesWalked};
ghost use Rattle.pip_model.specs.Tools.{same_leaves, spread_tree};
ghost use Rattle.pip_model.specs.Tree as model;
ghost use Rattle.quast_walk.specs.Scoped.{IsKeptContext};
ghost use Rattle.quast_walk.specs.Faults.{tool_fault};
ghost use Rattle.quast_walk.specs.Readings.{leaf_answer, leaf_tree, spread_answer};
ghost use Rattle.quast_walk.specs.Visits.{visit_of};
ghost use Rattle.quast_walk.specs.Pairs.{AreMet};

use crate::finding::{find_here, find_in_lists};
use quast::Component;
use quast_walk::{Context, Point, Reading, ToolRefusal, TreeLeaf, Work, first_list, spread_list};

// The first point at which two lists differ: a list of the first tree, over no more places, and one of the second.
fn find_between(
    reading: &Reading,
    first: &[Component],
    second: &[Component],
    context: &mut Context,
    work: &mut Work,
) -> Result<Option<Point>, ToolRefusal>
    requires met { AreMet reading.now.parameters reading.now.between context.old.width (model.Leaf first.now)
        (model.Leaf second.now) }
    requires room { 1 ≤ context.old.spare }
    ensures gives { (depth : ℕ) → AgreesWalked (λ o. o) tool_fault result work.new
        (same_leaves reading.now.parameters (visit_of context.old depth) (model.Solved (model.Leaf first.now))
        (model.Solved (spread_tree reading.now.parameters reading.now.between (model.Leaf second.now))) work.old) }
    ensures kept { IsKeptContext context.old context.new }
{
    if first.len() != second.len() {
        return find_here(reading, context, work);
    }
    let wide = first_list(reading, first, context.mark().width)?;
    let other = spread_list(reading.alloc, second, reading.parameters, reading.between)?;
    find_in_lists(reading, &wide, &other, context, work)
}

// The first point at which two leaves differ. Two of different kinds differ everywhere.
pub(crate) fn find_at_leaves(
    reading: &Reading,
    first: TreeLeaf,
    second: TreeLeaf,
    context: &mut Context,
    work: &mut Work,
) -> Result<Option<Point>, ToolRefusal>
    requires met { AreMet reading.now.parameters reading.now.between context.old.width (leaf_tree first)
        (leaf_tree second) }
    requires room { 1 ≤ context.old.spare }
    ensures gives { (depth : ℕ) → AgreesWalked (λ o. o) tool_fault result work.new
        (same_leaves reading.now.parameters (visit_of context.old depth) (leaf_answer first.entry)
        (spread_answer reading.now.parameters reading.now.between (leaf_answer second.entry)) work.old) }
    ensures kept { IsKeptContext context.old context.new }
{
    match (first, second) {
        (TreeLeaf::Void, TreeLeaf::Void) => Ok(None),
        (TreeLeaf::Bottom, TreeLeaf::Bottom) => Ok(None),
        (TreeLeaf::List(first), TreeLeaf::List(second)) => find_between(
            reading, first, second, context, work,
        ),
        (TreeLeaf::Void, TreeLeaf::Bottom) => find_here(reading, context, work),
        (TreeLeaf::Void, TreeLeaf::List(_)) => find_here(reading, context, work),
        (TreeLeaf::Bottom, TreeLeaf::Void) => find_here(reading, context, work),
        (TreeLeaf::Bottom, TreeLeaf::List(_)) => find_here(reading, context, work),
        (TreeLeaf::List(_), TreeLeaf::Void) => find_here(reading, context, work),
        (TreeLeaf::List(_), TreeLeaf::Bottom) => find_here(reading, context, work),
    }
}
