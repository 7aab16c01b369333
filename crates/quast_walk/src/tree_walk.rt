ghost use Rattle.std.specs.Prelude.{◌≡◌, ℕ, ◌+◌, ◌^◌, ◌<◌, ◌≤◌, ◌≤ℤ◌, pos, ℤ, List, Bool, false, true, length, IfOk, MatchResult};
ghost use Rattle.pip_model.specs.Run as run;
ghost use Rattle.pip_model.specs.ToolAgreement.{AgreesWalked};
ghost use Rattle.pip_model.specs.Tools.{spread as spread_of, spread_tree};
ghost use Rattle.pip_model.specs.Tree.{nesting};
ghost use Rattle.pip_model.specs.Walks as model;
ghost use Rattle.pip_model.specs.Walks.{where_holds};
ghost use Rattle.affine_forms.specs.Checks.{Fits};
ghost use Rattle.sign_split.specs.Scoped.{ScopedForms, IsKeptContext};
ghost use Rattle.quast.specs.Trees.{tree_of};
ghost use Rattle.quast_walk.specs.Faults.{tool_fault};
ghost use Rattle.quast_walk.specs.Readings.{leaf_tree, IsTreeAt, IsLeafAt, AreBranches, HasRoom};
ghost use Rattle.quast_walk.specs.Visits.{visit_of, below_then, both_trees, IsBelow, IsCondition, PassesTo};

use crate::reading::{Reading, TreeLeaf};
use crate::refusal::ToolRefusal;
use crate::spreading::spread;
use crate::steps::{enter, go_below, leave, mark, opposite, sign};
use affine_forms::{Form, WantOfMemory};
use quast::Node;
use sign_split::{Class, Context, Work};

/// What is done on a walk of a tree: before the two trees of a node that chooses whose form has both signs, before the
/// tree of a new parameter, at a leaf, and what is made of what was made below such nodes.
pub trait Walker {
    type Made: Drop;

    ghost Seen: { Type 0 };

    /// What was made, as the definition has it.
    ghost seen: { Self.Made → Seen };

    /// The definition's walker.
    ghost walker: { Self → model.Walker Seen };

    /// How the tree is read.
    ghost parameters: { Self → ℕ };

    ghost between: { Self → ℕ };

    /// The room that a leaf needs in the context, and how much deeper it goes.
    ghost room: { Self → ℕ };

    /// What holds of what the walker has.
    ghost IsReady: { Self → Type 0 };

    /// What was made of the first tree is what is made of the node.
    ghost ends: { Self.Made → Bool };

    /// How the tree is read.
    fn reading(&self) -> Reading
        ensures parameters { result.parameters ≡ parameters self.now }
        ensures between { result.between ≡ between self.now };

    /// Before the two trees of a node that chooses.
    fn at_split(&self, depth: u64, work: &mut Work) -> Result<(), ToolRefusal>
        requires { depth < 2 ^ 63 }
        ensures { (k : ScopedForms) → AgreesWalked (λ x. tt) tool_fault result work.new
            ((walker self.now).at_split (visit_of k depth) work.old) };

    /// Before the tree of a new parameter. Nothing is counted.
    fn at_quotient(&self, depth: u64, work: &Work) -> Result<(), ToolRefusal>
        requires { depth < 2 ^ 63 }
        ensures { (k : ScopedForms) → AgreesWalked (λ x. tt) tool_fault result work.now
            ((walker self.now).at_quotient (visit_of k depth) work.now) };

    /// At a leaf. The context is given back as it was.
    fn at_leaf(
        &self,
        leaf: TreeLeaf,
        depth: u64,
        context: &mut Context,
        work: &mut Work,
    ) -> Result<Self::Made, ToolRefusal>
        requires ready { IsReady self.now }
        requires leaf { IsLeafAt (parameters self.now) (between self.now) context.old.width leaf }
        requires room { HasRoom (room self.now) depth 0 context.old }
        ensures gives { AgreesWalked seen tool_fault result work.new
            ((walker self.now).at_leaf (visit_of context.old depth)
            (spread_tree (parameters self.now) (between self.now) (leaf_tree leaf.entry)) work.old) }
        ensures kept { IsKeptContext context.old context.new };

    /// Whether what was made of the first tree of a node that chooses is what is made of the node.
    fn is_end(&self, first: &Self::Made) -> bool
        ensures value { result ≡ ends first.now }
        ensures ends { ends first.now ≡ true → (v : List ℤ) → (second : model.Walking Seen) → (w : run.Work) →
            (walker self.now).joined v (seen first.now) second w ≡ model.Made (seen first.now) w }
        ensures stops { ends first.now ≡ false → (v : List ℤ) → (second : model.Walking Seen) → (w x : run.Work) →
            (e : model.ToolRefusal) → second w ≡ model.Stopped e x →
            (walker self.now).joined v (seen first.now) second w ≡ model.Stopped e x };

    /// What is made of a node that chooses.
    fn join(
        &self,
        form: Form,
        first: Self::Made,
        second: Self::Made,
    ) -> Result<Self::Made, WantOfMemory>
        requires { ends first ≡ false }
        ensures { IfOk result (λ made. (other : model.Walking Seen) → (w x : run.Work) →
            other w ≡ model.Made (seen second) x →
            (walker self.now).joined form (seen first) other w ≡ model.Made (seen made) x) };

    /// What is made of a new parameter.
    fn define(&self, form: Form, den: i128, below: Self::Made) -> Result<Self::Made, WantOfMemory>
        ensures { IfOk result (λ made. seen made ≡ (walker self.now).defined form den (seen below)) };
}

// A form of the tree as it is read.
fn read<W: Walker>(walker: &W, form: &Form) -> Result<Form, WantOfMemory>
    ensures { IfOk result (λ made. made ≡ spread_of (W.parameters walker.now) (W.between walker.now) form.now) }
{
    let reading = walker.reading();
    spread(reading.alloc, form, reading.parameters, reading.between)
}

// A new parameter of the tree: the floor of a form, as it is read, over a divisor.
#[derive(Clone, Copy)]
struct NewParameter<'f> {
    form: &'f Form,
    den: i128,
}

// A node that chooses where its form, as it is read, has both signs: its trees, and the condition under which it takes
// the first.
#[derive(Drop)]
struct Split<'n> {
    form: Form,
    first: &'n Node,
    second: &'n Node,
    condition: Form,
}

// A node's tree, walked where a condition is at least 0.
#[derive(Drop)]
struct Branch<'n> {
    node: &'n Node,
    condition: Form,
}

// Goes below a new parameter, after the sign of its form. Where it is refused, the context is as before.
fn go_under<W: Walker>(
    walker: &W,
    parameter: &NewParameter,
    depth: u64,
    context: &mut Context,
    work: &mut Work,
) -> Result<(), ToolRefusal>
    requires wide { length parameter.now.form.now ≡ context.old.width + 1 }
    requires divisor { pos 1 ≤ℤ parameter.now.den }
    requires fits { Fits parameter.now.den }
    requires room { 2 ≤ context.old.spare }
    requires shallow { depth < 2 ^ 63 }
    ensures gives { (next : model.Walking W.Seen) → PassesTo result work.new (below_then (W.walker walker.now)
        (visit_of context.old depth) (record { form = parameter.now.form.now; den = parameter.now.den }) next work.old)
        next }
    ensures context { MatchResult result
        (λ x. IsBelow context.old (record { form = parameter.now.form.now; den = parameter.now.den }) context.new)
        (λ e. IsKeptContext context.old context.new) }
{
    let alloc = walker.reading().alloc;
    match sign(alloc, parameter.form, context, work)? {
        Class::Plus => {}
        Class::Minus => return Err(ToolRefusal::Negative),
        Class::Unknown(_) => return Err(ToolRefusal::Negative),
    }
    walker.at_quotient(depth, work)?;
    go_below(alloc, parameter.form, parameter.den, context)?;
    Ok(())
}

// What is made of a new parameter, from what the walk of its tree gave.
fn defined<W: Walker>(
    walker: &W,
    form: Form,
    den: i128,
    walked: Result<W::Made, ToolRefusal>,
) -> Result<W::Made, ToolRefusal>
    ensures { (part : model.Walked W.Seen) → (w : run.Work) → AgreesWalked W.seen tool_fault walked w part →
        AgreesWalked W.seen tool_fault result w
        (model.walk_on part (λ x. model.make ((W.walker walker.now).defined form den x))) }
{
    let below = walked?;
    let made = walker.define(form, den, below)?;
    Ok(made)
}

/// The walk of a node's tree. The context is given back as it was.
#[cycle(walk)]
pub fn walk<W: Walker>(
    walker: &W,
    node: &Node,
    depth: u64,
    context: &mut Context,
    work: &mut Work,
) -> Result<W::Made, ToolRefusal>
    requires ready { W.IsReady walker.now }
    requires tree { IsTreeAt (W.parameters walker.now) (W.between walker.now) context.old.width (tree_of node.now) }
    requires room { HasRoom (W.room walker.now) depth (nesting (tree_of node.now)) context.old }
    ensures gives { AgreesWalked W.seen tool_fault result work.new (model.walk (W.walker walker.now)
        (visit_of context.old depth)
        (spread_tree (W.parameters walker.now) (W.between walker.now) (tree_of node.now)) work.old) }
    ensures kept { IsKeptContext context.old context.new }
{
    match node {
        Node::Bottom => walker.at_leaf(TreeLeaf::Bottom, depth, context, work),
        Node::Leaf(list) => walker.at_leaf(TreeLeaf::List(list.as_slice()), depth, context, work),
        Node::Select(form, first, second) => {
            let form = read(walker, form)?;
            match sign(walker.reading().alloc, &form, context, work)? {
                Class::Plus => walk(walker, first, depth, context, work),
                Class::Minus => walk(walker, second, depth, context, work),
                Class::Unknown(condition) => {
                    let split = Split {
                        form,
                        first,
                        second,
                        condition,
                    };
                    walk_both(walker, split, depth, context, work)
                }
            }
        }
        Node::Define(form, den, tree) => {
            let form = read(walker, form)?;
            let start = mark(context);
            let parameter = NewParameter {
                form: &form,
                den: *den,
            };
            go_under(walker, &parameter, depth, context, work)?;
            let walked = walk(walker, tree, depth + 1, context, work);
            leave(context, start);
            defined(walker, form, *den, walked)
        }
    }
}

// The walks of both trees of a node that chooses: of the first where the condition is at least 0, of the second where
// it is below 0.
#[cycle(walk)]
fn walk_both<W: Walker>(
    walker: &W,
    split: Split,
    depth: u64,
    context: &mut Context,
    work: &mut Work,
) -> Result<W::Made, ToolRefusal>
    requires ready { W.IsReady walker.now }
    requires trees { AreBranches (W.parameters walker.now) (W.between walker.now) (W.room walker.now) depth
        context.old (tree_of split.first.now) (tree_of split.second.now) }
    requires condition { IsCondition context.old.width split.condition }
    ensures gives { AgreesWalked W.seen tool_fault result work.new (both_trees (W.walker walker.now)
        (visit_of context.old depth) split.entry.form
        (spread_tree (W.parameters walker.now) (W.between walker.now) (tree_of split.entry.first.now))
        (spread_tree (W.parameters walker.now) (W.between walker.now) (tree_of split.entry.second.now))
        split.entry.condition work.old) }
    ensures kept { IsKeptContext context.old context.new }
{
    let Split {
        form,
        first,
        second,
        condition,
    } = split;
    walker.at_split(depth, work)?;
    let fails = opposite(walker.reading().alloc, &condition)?;
    let holds = Branch {
        node: first,
        condition,
    };
    let made = walk_where(walker, holds, depth, context, work)?;
    if walker.is_end(&made) {
        return Ok(made);
    }
    let fails = Branch {
        node: second,
        condition: fails,
    };
    let other = walk_where(walker, fails, depth, context, work)?;
    let whole = walker.join(form, made, other)?;
    Ok(whole)
}

// The walk of a branch, below a node that chooses of what is made.
#[cycle(walk)]
fn walk_where<W: Walker>(
    walker: &W,
    branch: Branch,
    depth: u64,
    context: &mut Context,
    work: &mut Work,
) -> Result<W::Made, ToolRefusal>
    requires ready { W.IsReady walker.now }
    requires tree { IsTreeAt (W.parameters walker.now) (W.between walker.now) context.old.width
        (tree_of branch.node.now) }
    requires narrow { length branch.condition ≤ context.old.width + 1 }
    requires room { HasRoom (W.room walker.now + 1) depth (nesting (tree_of branch.node.now)) context.old }
    ensures gives { AgreesWalked W.seen tool_fault result work.new (model.walk (W.walker walker.now)
        (where_holds (visit_of context.old depth) branch.entry.condition)
        (spread_tree (W.parameters walker.now) (W.between walker.now) (tree_of branch.entry.node.now)) work.old) }
    ensures kept { IsKeptContext context.old context.new }
{
    let start = mark(context);
    enter(context, branch.condition);
    let made = walk(walker, branch.node, depth + 1, context, work);
    leave(context, start);
    made
}
