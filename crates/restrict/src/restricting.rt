ghost use Rattle.std.specs.Prelude.{◌≡◌, ◌*◌, ◌≤◌, false, IfOk, IfErr, IfSome};
ghost use Rattle.pip_model.specs.Agreement.{Agrees};
ghost use Rattle.pip_model.specs.Run.{start_work};
ghost use Rattle.pip_model.specs.ToolAgreement.{AgreesWalked, without_counts};
ghost use Rattle.pip_model.specs.ToolLaws.{IsRestriction, IsRestrictRefusal};
ghost use Rattle.pip_model.specs.Tools as model;
ghost use Rattle.pip_model.specs.Tree.{Tree, nesting};
ghost use Rattle.pip_model.specs.Walks as walks;
ghost use Rattle.pip_model.specs.Walks.{start_visit};
ghost use Rattle.pip_model.specs.WellFormed.{IsWellFormedAnswer};
ghost use Rattle.quast.specs.Answers.{answer_of, IsOver};
ghost use Rattle.quast.specs.Trees.{tree_of};
ghost use Rattle.quast_walk.specs.Faults.{tool_fault};
ghost use Rattle.quast_walk.specs.Readings.{answer_nesting};
ghost use Rattle.quast_walk.specs.Nodes.{node_answer};

use affine_forms::{Form, Forms, WantOfMemory};
use pip_problem::Limits;
use quast::{Answer, Node, Quast};
use quast_walk::{
    Context, Reading, ToolRefusal, TreeLeaf, Walker, Work, as_answer, choice, context_of,
    definition, given, leaf_node, levels, point, walk,
};
use std::alloc::Global;

// A walk that keeps each node that chooses whose form has both signs, each new parameter and each leaf.
#[derive(Drop)]
struct Restricting {
    reading: Reading,
}

impl Walker for Restricting {
    type Made = Node;

    ghost Seen = { Tree };

    ghost seen = { tree_of };

    ghost walker = { λ s. model.restricting };

    ghost parameters = { λ s. s.reading.parameters };

    ghost between = { λ s. s.reading.between };

    ghost room = { λ s. 0 };

    ghost IsReady = { λ s. Unit {0} };

    ghost ends = { λ made. false };

    fn reading(&self) -> Reading {
        self.reading
    }

    fn at_split(&self, _depth: u64, _work: &mut Work) -> Result<(), ToolRefusal> {
        Ok(())
    }

    fn at_quotient(&self, _depth: u64, _work: &Work) -> Result<(), ToolRefusal> {
        Ok(())
    }

    fn at_leaf(
        &self,
        leaf: TreeLeaf,
        _depth: u64,
        _context: &mut Context,
        _work: &mut Work,
    ) -> Result<Node, ToolRefusal> {
        let made = leaf_node(&self.reading, leaf)?;
        Ok(made)
    }

    fn is_end(&self, _first: &Node) -> bool {
        false
    }

    fn join(&self, form: Form, first: Node, second: Node) -> Result<Node, WantOfMemory> {
        choice(self.reading.alloc, form, first, second)
    }

    fn define(&self, form: Form, den: i128, below: Node) -> Result<Node, WantOfMemory> {
        definition(self.reading.alloc, form, den, below)
    }
}

// What a tree is on the rows' context, which has a point.
#[tactic(auto, using(quast_walk::proofs::Readied::first_ready))]
fn restrict_tree(
    alloc: Global,
    tree: &Quast,
    context: &mut Context,
    work: &mut Work,
) -> Result<Node, ToolRefusal>
    requires width { tree.now.width ≡ context.old.width }
    requires room { 2 * nesting tree.now.tree ≤ context.old.spare }
    ensures { AgreesWalked tree_of tool_fault result work.new
        (walks.walk model.restricting (start_visit context.old.width context.old.forms) tree.now.tree work.old) }
{
    let reading = Reading {
        alloc,
        parameters: tree.width(),
        between: 0,
    };
    walk(&Restricting { reading }, tree.root(), 0, context, work)
}

// The answer on the context, after what was counted; none is `void`.
fn restricted_on(
    alloc: Global,
    answer: &Answer,
    context: &mut Context,
    work: &mut Work,
) -> Result<Option<Node>, ToolRefusal>
    requires answer { IsOver context.old.width answer.now }
    requires room { 2 * answer_nesting answer.now ≤ context.old.spare }
    ensures { AgreesWalked node_answer tool_fault result work.new
        (model.restrict context.old.width context.old.forms (answer_of answer.now) work.old) }
{
    if point(alloc, context, work)?.is_none() {
        return Ok(None);
    }
    match answer {
        Answer::Void => Ok(None),
        Answer::Tree(tree) => {
            let made = restrict_tree(alloc, tree, context, work)?;
            Ok(Some(made))
        }
    }
}

// The answer on the rows, after what was counted; none is `void`.
fn restricted(
    alloc: Global,
    rows: &Forms,
    answer: &Answer,
    work: &mut Work,
) -> Result<Option<Node>, ToolRefusal>
    requires { IsOver rows.now.width answer.now }
    ensures { AgreesWalked node_answer tool_fault result work.new
        (model.restrict rows.now.width rows.now.forms (answer_of answer.now) work.old) }
{
    let mut context = context_of(alloc, rows, levels(answer))?;
    let found = restricted_on(alloc, answer, &mut context, work);
    context.discard();
    found
}

/// The answer at the whole vectors of numbers from 0 on that satisfy the rows: `void` where it is void or there are
/// none, else the tree without what no such vector reaches. A node that chooses is kept, with its form, exactly where
/// both signs occur. It is refused at the first place of the walk at which a point's run is, a number of a new
/// parameter's bounds doesn't fit, or a vector makes a new parameter's form negative.
pub fn restrict(
    alloc: Global,
    rows: &Forms,
    answer: &Answer,
    limits: &Limits,
) -> Result<Answer, ToolRefusal>
    requires { IsOver rows.now.width answer.now }
    ensures gives { Agrees answer_of tool_fault result (without_counts
        (model.restrict rows.now.width rows.now.forms (answer_of answer.now) (start_work limits.now))) }
    ensures right { IfOk result
        (λ a. IsRestriction rows.now.width rows.now.forms (answer_of answer.now) (answer_of a)) }
    ensures refusal { IfErr result
        (λ e. IfSome (tool_fault e) (IsRestrictRefusal rows.now.width rows.now.forms (answer_of answer.now))) }
    ensures well_formed { IfOk result (λ a. IsWellFormedAnswer rows.now.width (answer_of a)) }
    ensures scope { IfOk result (IsOver rows.now.width) }
{
    given(rows, answer);
    let mut work = Work::start(limits);
    let made = restricted(alloc, rows, answer, &mut work)?;
    Ok(as_answer(rows.width(), made))
}
