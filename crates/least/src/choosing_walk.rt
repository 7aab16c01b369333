ghost use Rattle.std.specs.Prelude.{◌≡◌, ◌+◌, ◌*◌, ◌≤◌, false, IsTrue};
ghost use Rattle.pip_model.specs.Limits.{most_components};
ghost use Rattle.pip_model.specs.ToolAgreement.{AgreesWalked};
ghost use Rattle.pip_model.specs.Tools.{choosing, least_first, least_leaves, least_second, tree_or_bottom};
ghost use Rattle.pip_model.specs.Tree.{Tree, is_scoped};
ghost use Rattle.pip_model.specs.Walks.{start_visit};
ghost use Rattle.quast_walk.specs.Scoped.{IsKeptContext};
ghost use Rattle.quast.specs.Answers.{answer_of, IsOver};
ghost use Rattle.quast.specs.Trees.{tree_of};
ghost use Rattle.quast_walk.specs.Faults.{tool_fault};
ghost use Rattle.quast_walk.specs.Readings.{leaf_tree, answer_nesting, HasRoom};
ghost use Rattle.quast_walk.specs.Visits.{visit_of};

use crate::lesser_leaves::{Leaves, choose_at_leaves};
use crate::lesser_lists::{count_if, raise};
use affine_forms::{Form, WantOfMemory};
use quast::{Answer, Node};
use quast_walk::{Context, Reading, ToolRefusal, TreeLeaf, Walker, Work, choice, definition, walk};
use std::alloc::Global;

// The first answer's walk: the lesser is made along the second one's walk from each leaf.
#[derive(Drop)]
struct Choosing<'t> {
    reading: Reading,
    second: &'t Answer,
}

impl Walker for Choosing<'_> {
    type Made = Node;

    ghost Seen = { Tree };

    ghost seen = { tree_of };

    ghost walker = { λ s.
        choosing (λ h leaf. least_second s.reading.parameters leaf h (tree_or_bottom (answer_of s.second.now))) };

    ghost parameters = { λ s. s.reading.parameters };

    ghost between = { λ s. s.reading.between };

    ghost room = { λ s. 2 * answer_nesting s.second.now + 2 * most_components };

    ghost IsReady = { λ s. (s.reading.between ≡ 0) × IsOver s.reading.parameters s.second.now };

    ghost ends = { λ made. false };

    fn reading(&self) -> Reading {
        self.reading
    }

    fn at_split(&self, depth: u64, work: &mut Work) -> Result<(), ToolRefusal> {
        count_if(depth, work)
    }

    fn at_quotient(&self, depth: u64, work: &Work) -> Result<(), ToolRefusal> {
        raise(depth, work)
    }

    fn at_leaf(
        &self,
        leaf: TreeLeaf,
        depth: u64,
        context: &mut Context,
        work: &mut Work,
    ) -> Result<Node, ToolRefusal> {
        self.choose_second(leaf, depth, context, work)
    }

    fn is_end(&self, _first: &Node) -> bool {
        false
    }

    fn join(&self, form: Form, first: Node, second: Node) -> Result<Node, WantOfMemory> {
        choice(self.reading.alloc, form, first, second)
    }

    fn define(&self, form: Form, den: i128, below: Node) -> Result<Node, WantOfMemory> {
        definition(self.reading.alloc, form, den, below)
    }
}

// The second answer's walk from a leaf of the first.
#[derive(Drop)]
struct Lessening<'t> {
    reading: Reading,
    first: TreeLeaf<'t>,
}

impl Walker for Lessening<'_> {
    type Made = Node;

    ghost Seen = { Tree };

    ghost seen = { tree_of };

    ghost walker = { λ s. choosing (λ h other. least_leaves h (leaf_tree s.first) other) };

    ghost parameters = { λ s. s.reading.parameters };

    ghost between = { λ s. s.reading.between };

    ghost room = { λ s. 2 * most_components };

    ghost IsReady = { λ s. IsTrue (is_scoped (s.reading.parameters + s.reading.between) (leaf_tree s.first)) };

    ghost ends = { λ made. false };

    fn reading(&self) -> Reading {
        self.reading
    }

    fn at_split(&self, depth: u64, work: &mut Work) -> Result<(), ToolRefusal> {
        count_if(depth, work)
    }

    fn at_quotient(&self, depth: u64, work: &Work) -> Result<(), ToolRefusal> {
        raise(depth, work)
    }

    fn at_leaf(
        &self,
        leaf: TreeLeaf,
        depth: u64,
        context: &mut Context,
        work: &mut Work,
    ) -> Result<Node, ToolRefusal> {
        let leaves = Leaves {
            first: self.first,
            second: leaf,
        };
        choose_at_leaves(&self.reading, &leaves, depth, context, work)
    }

    fn is_end(&self, _first: &Node) -> bool {
        false
    }

    fn join(&self, form: Form, first: Node, second: Node) -> Result<Node, WantOfMemory> {
        choice(self.reading.alloc, form, first, second)
    }

    fn define(&self, form: Form, den: i128, below: Node) -> Result<Node, WantOfMemory> {
        definition(self.reading.alloc, form, den, below)
    }
}

impl Choosing<'_> {
    // The lesser of the answers along the second one's walk, from a leaf of the first.
    #[tactic(auto, using(quast_walk::proofs::Readied::second_ready))]
    fn choose_second(
        &self,
        leaf: TreeLeaf,
        depth: u64,
        context: &mut Context,
        work: &mut Work,
    ) -> Result<Node, ToolRefusal>
        requires few { self.now.reading.parameters ≤ context.old.width }
        requires leaf { IsTrue (is_scoped context.old.width (leaf_tree leaf)) }
        requires answer { IsOver self.now.reading.parameters self.now.second.now }
        requires room { HasRoom (2 * answer_nesting self.now.second.now + 2 * most_components) depth 0 context.old }
        ensures gives { AgreesWalked tree_of tool_fault result work.new
            (least_second self.now.reading.parameters (leaf_tree leaf.entry) (visit_of context.old depth)
            (tree_or_bottom (answer_of self.now.second.now)) work.old) }
        ensures kept { IsKeptContext context.old context.new }
    {
        let below = self.reading.below(context.mark().width);
        match self.second {
            Answer::Void => {
                let leaves = Leaves {
                    first: leaf,
                    second: TreeLeaf::Bottom,
                };
                choose_at_leaves(&below, &leaves, depth, context, work)
            }
            Answer::Tree(tree) => {
                let walker = Lessening {
                    reading: below,
                    first: leaf,
                };
                walk(&walker, tree.root(), depth, context, work)
            }
        }
    }
}

// The lesser of two answers on the rows' context, which has a point. A `void` answer counts as bottom.
#[tactic(auto, using(quast_walk::proofs::Readied::first_ready))]
pub(crate) fn choose_answers(
    alloc: Global,
    first: &Answer,
    second: &Answer,
    context: &mut Context,
    work: &mut Work,
) -> Result<Node, ToolRefusal>
    requires first { IsOver context.old.width first.now }
    requires second { IsOver context.old.width second.now }
    requires room { HasRoom (2 * answer_nesting first.now + 2 * answer_nesting second.now + 2 * most_components) 0 0
        context.old }
    ensures { AgreesWalked tree_of tool_fault result work.new
        (least_first context.old.width (start_visit context.old.width context.old.forms)
        (tree_or_bottom (answer_of first.now)) (tree_or_bottom (answer_of second.now)) work.old) }
{
    let reading = Reading {
        alloc,
        parameters: context.mark().width,
        between: 0,
    };
    let walker = Choosing { reading, second };
    match first {
        Answer::Void => walker.choose_second(TreeLeaf::Bottom, 0, context, work),
        Answer::Tree(tree) => walk(&walker, tree.root(), 0, context, work),
    }
}
