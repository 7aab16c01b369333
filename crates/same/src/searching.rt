ghost use Rattle.std.specs.Prelude.{◌≡◌, ◌+◌, ◌*◌, ◌≤◌, ℤ, List, Option, is_some, IsTrue};
ghost use Rattle.pip_model.specs.ToolAgreement.{AgreesWalked};
ghost use Rattle.pip_model.specs.Tools.{comparing, same_first, same_leaves, same_second};
ghost use Rattle.pip_model.specs.Tree.{Solved, is_scoped};
ghost use Rattle.pip_model.specs.Walks.{start_visit};
ghost use Rattle.quast_walk.specs.Scoped.{IsKeptContext};
ghost use Rattle.quast.specs.Answers.{answer_of, IsOver};
ghost use Rattle.quast_walk.specs.Faults.{tool_fault};
ghost use Rattle.quast_walk.specs.Readings.{leaf_answer, leaf_tree, answer_nesting, HasRoom};
ghost use Rattle.quast_walk.specs.Visits.{visit_of};

use crate::leaves::find_at_leaves;
use affine_forms::{Form, WantOfMemory};
use quast::Answer;
use quast_walk::{Context, Point, Reading, ToolRefusal, TreeLeaf, Walker, Work, walk};
use std::alloc::Global;

// A point at which two answers differ, if one was found.
type Found = Option<Point>;

// The first answer's walk: the second one is walked from each leaf.
#[derive(Drop)]
struct Searching<'t> {
    reading: Reading,
    second: &'t Answer,
}

impl Walker for Searching<'_> {
    type Made = Found;

    ghost Seen = { Option (List ℤ) };

    ghost seen = { λ found. found };

    ghost walker = { λ s. comparing (λ h leaf. same_second s.reading.parameters (Solved leaf) h (answer_of s.second.now)) };

    ghost parameters = { λ s. s.reading.parameters };

    ghost between = { λ s. s.reading.between };

    ghost room = { λ s. 2 * answer_nesting s.second.now + 1 };

    ghost IsReady = { λ s. (s.reading.between ≡ 0) × IsOver s.reading.parameters s.second.now };

    ghost ends = { is_some };

    fn reading(&self) -> Reading {
        self.reading
    }

    fn at_split(&self, _depth: u64, work: &mut Work) -> Result<(), ToolRefusal> {
        work.count_split()?;
        Ok(())
    }

    fn at_quotient(&self, _depth: u64, _work: &Work) -> Result<(), ToolRefusal> {
        Ok(())
    }

    fn at_leaf(
        &self,
        leaf: TreeLeaf,
        depth: u64,
        context: &mut Context,
        work: &mut Work,
    ) -> Result<Found, ToolRefusal> {
        self.search_second(leaf, depth, context, work)
    }

    fn is_end(&self, first: &Found) -> bool {
        first.is_some()
    }

    fn join(&self, _form: Form, _first: Found, second: Found) -> Result<Found, WantOfMemory> {
        Ok(second)
    }

    fn define(&self, _form: Form, _den: i128, below: Found) -> Result<Found, WantOfMemory> {
        Ok(below)
    }
}

// The second answer's walk from a leaf of the first.
#[derive(Drop)]
struct Meeting<'t> {
    reading: Reading,
    first: TreeLeaf<'t>,
}

impl Walker for Meeting<'_> {
    type Made = Found;

    ghost Seen = { Option (List ℤ) };

    ghost seen = { λ found. found };

    ghost walker = { λ s.
        comparing (λ h other. same_leaves s.reading.parameters h (leaf_answer s.first) (Solved other)) };

    ghost parameters = { λ s. s.reading.parameters };

    ghost between = { λ s. s.reading.between };

    ghost room = { λ s. 1 };

    ghost IsReady = { λ s. IsTrue (is_scoped (s.reading.parameters + s.reading.between) (leaf_tree s.first)) };

    ghost ends = { is_some };

    fn reading(&self) -> Reading {
        self.reading
    }

    fn at_split(&self, _depth: u64, work: &mut Work) -> Result<(), ToolRefusal> {
        work.count_split()?;
        Ok(())
    }

    fn at_quotient(&self, _depth: u64, _work: &Work) -> Result<(), ToolRefusal> {
        Ok(())
    }

    fn at_leaf(
        &self,
        leaf: TreeLeaf,
        _depth: u64,
        context: &mut Context,
        work: &mut Work,
    ) -> Result<Found, ToolRefusal> {
        find_at_leaves(&self.reading, self.first, leaf, context, work)
    }

    fn is_end(&self, first: &Found) -> bool {
        first.is_some()
    }

    fn join(&self, _form: Form, _first: Found, second: Found) -> Result<Found, WantOfMemory> {
        Ok(second)
    }

    fn define(&self, _form: Form, _den: i128, below: Found) -> Result<Found, WantOfMemory> {
        Ok(below)
    }
}

impl Searching<'_> {
    // The first point at which the answers differ in the order of the second one's walk, from a leaf of the first.
    #[tactic(auto, using(quast_walk::proofs::Readied::second_ready))]
    fn search_second(
        &self,
        leaf: TreeLeaf,
        depth: u64,
        context: &mut Context,
        work: &mut Work,
    ) -> Result<Found, ToolRefusal>
        requires few { self.now.reading.parameters ≤ context.old.width }
        requires leaf { IsTrue (is_scoped context.old.width (leaf_tree leaf)) }
        requires answer { IsOver self.now.reading.parameters self.now.second.now }
        requires room { HasRoom (2 * answer_nesting self.now.second.now + 1) depth 0 context.old }
        ensures gives { AgreesWalked (λ o. o) tool_fault result work.new
            (same_second self.now.reading.parameters (leaf_answer leaf.entry) (visit_of context.old depth)
            (answer_of self.now.second.now) work.old) }
        ensures kept { IsKeptContext context.old context.new }
    {
        let below = self.reading.below(context.mark().width);
        match self.second {
            Answer::Void => find_at_leaves(&below, leaf, TreeLeaf::Void, context, work),
            Answer::Tree(tree) => {
                let walker = Meeting {
                    reading: below,
                    first: leaf,
                };
                walk(&walker, tree.root(), depth, context, work)
            }
        }
    }
}

// The first point at which two answers differ on the rows' context, which has a point.
#[tactic(auto, using(quast_walk::proofs::Readied::first_ready))]
pub(crate) fn search_answers(
    alloc: Global,
    first: &Answer,
    second: &Answer,
    context: &mut Context,
    work: &mut Work,
) -> Result<Found, ToolRefusal>
    requires first { IsOver context.old.width first.now }
    requires second { IsOver context.old.width second.now }
    requires room { HasRoom (2 * answer_nesting first.now + 2 * answer_nesting second.now + 1) 0 0 context.old }
    ensures { AgreesWalked (λ o. o) tool_fault result work.new
        (same_first context.old.width (start_visit context.old.width context.old.forms) (answer_of first.now)
        (answer_of second.now) work.old) }
{
    let reading = Reading {
        alloc,
        parameters: context.mark().width,
        between: 0,
    };
    let walker = Searching { reading, second };
    match first {
        Answer::Void => walker.search_second(TreeLeaf::Void, 0, context, work),
        Answer::Tree(tree) => walk(&walker, tree.root(), 0, context, work),
    }
}
