ghost use Rattle.std.specs.Prelude.{◌≡◌, ◌+◌, ◌*◌, ◌≤◌, IsTrue, IfOk};
ghost use Rattle.pip_model.specs.Limits.{most_components};
ghost use Rattle.pip_model.specs.ToolAgreement.{AgreesWalked};
ghost use Rattle.pip_model.specs.Tools.{least_leaves, spread_tree, widened_components};
ghost use Rattle.pip_model.specs.Tree as model;
ghost use Rattle.pip_model.specs.Tree.{is_scoped};
ghost use Rattle.quast_walk.specs.Scoped.{IsKeptContext};
ghost use Rattle.quast.specs.Trees.{tree_of};
ghost use Rattle.quast_walk.specs.Faults.{tool_fault};
ghost use Rattle.quast_walk.specs.Readings.{leaf_tree, HasRoom};
ghost use Rattle.quast_walk.specs.Visits.{visit_of};
ghost use Rattle.quast_walk.specs.Pairs.{AreMet};

use crate::lesser_lists::choose_rest;
use crate::rest::{Asked, Rest};
use affine_forms::WantOfMemory;
use quast::{Component, Node};
use quast_walk::{
    Context, Reading, ToolRefusal, TreeLeaf, Work, first_list, leaf_node, list, spread_list,
};

// A list of the first tree as a node over so many places, of which its own are the first.
fn first_node(
    reading: &Reading,
    components: &[Component],
    places: usize,
) -> Result<Node, WantOfMemory>
    requires few { reading.now.parameters + reading.now.between ≤ places }
    requires scoped { IsTrue (is_scoped (reading.now.parameters + reading.now.between) (model.Leaf components.now)) }
    ensures { IfOk result (λ made. tree_of made ≡ model.Leaf (widened_components places components.now)) }
{
    let own = reading.parameters + reading.between;
    let made = list(reading.alloc, components, own, places - own)?;
    Ok(made)
}

// Two leaves that meet: of the first tree and of the second.
#[derive(Clone, Copy)]
pub(crate) struct Leaves<'t> {
    pub(crate) first: TreeLeaf<'t>,
    pub(crate) second: TreeLeaf<'t>,
}

// Two lists that meet: of the first tree, over no more places, and of the second.
#[derive(Clone, Copy)]
struct Lists<'t> {
    first: &'t [Component],
    second: &'t [Component],
}

// The lesser of two lists.
fn choose_between(
    reading: &Reading,
    lists: &Lists,
    depth: u64,
    context: &mut Context,
    work: &mut Work,
) -> Result<Node, ToolRefusal>
    requires met { AreMet reading.now.parameters reading.now.between context.old.width
        (model.Leaf lists.now.first.now) (model.Leaf lists.now.second.now) }
    requires room { HasRoom (2 * most_components) depth 0 context.old }
    ensures gives { AgreesWalked tree_of tool_fault result work.new
        (least_leaves (visit_of context.old depth) (model.Leaf lists.now.first.now)
        (spread_tree reading.now.parameters reading.now.between (model.Leaf lists.now.second.now)) work.old) }
    ensures kept { IsKeptContext context.old context.new }
{
    let Lists { first, second } = *lists;
    if first.len() != second.len() {
        return Err(ToolRefusal::Lengths(first.len(), second.len()));
    }
    let wide = first_list(reading, first, context.mark().width)?;
    let other = spread_list(reading.alloc, second, reading.parameters, reading.between)?;
    let asked = Asked::Nothing;
    let rest = Rest {
        alloc: reading.alloc,
        first: &wide,
        second: &other,
        next: 0,
        asked,
        depth,
    };
    choose_rest(&rest, context, work)
}

// The lesser of two leaves. Bottom is above every list.
pub(crate) fn choose_at_leaves(
    reading: &Reading,
    leaves: &Leaves,
    depth: u64,
    context: &mut Context,
    work: &mut Work,
) -> Result<Node, ToolRefusal>
    requires met { AreMet reading.now.parameters reading.now.between context.old.width
        (leaf_tree leaves.now.first) (leaf_tree leaves.now.second) }
    requires room { HasRoom (2 * most_components) depth 0 context.old }
    ensures gives { AgreesWalked tree_of tool_fault result work.new
        (least_leaves (visit_of context.old depth) (leaf_tree leaves.now.first)
        (spread_tree reading.now.parameters reading.now.between (leaf_tree leaves.now.second)) work.old) }
    ensures kept { IsKeptContext context.old context.new }
{
    let width = context.mark().width;
    match (leaves.first, leaves.second) {
        (TreeLeaf::List(first), TreeLeaf::List(second)) => {
            choose_between(reading, &Lists { first, second }, depth, context, work)
        }
        (TreeLeaf::List(first), TreeLeaf::Void) => Ok(first_node(reading, first, width)?),
        (TreeLeaf::List(first), TreeLeaf::Bottom) => Ok(first_node(reading, first, width)?),
        (TreeLeaf::Void, second) => Ok(leaf_node(reading, second)?),
        (TreeLeaf::Bottom, second) => Ok(leaf_node(reading, second)?),
    }
}
