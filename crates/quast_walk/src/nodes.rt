ghost use Rattle.std.specs.Prelude.{◌≡◌, ℕ, IfOk, IfSome, IsTrue};
ghost use Rattle.pip_model.specs.Tools.{spread_tree};
ghost use Rattle.pip_model.specs.Tree as model;
ghost use Rattle.pip_model.specs.Tree.{is_scoped};
ghost use Rattle.pip_model.specs.WellFormed.{IsWellFormedAnswer};
ghost use Rattle.quast.specs.Answers.{answer_of, IsOver};
ghost use Rattle.quast.specs.Trees.{tree_of, IsQuast};
ghost use Rattle.quast_walk.specs.Readings.{leaf_tree};
ghost use Rattle.quast_walk.specs.Nodes.{node_answer, AreGiven};

use crate::reading::{Reading, TreeLeaf};
use crate::spreading::spread_list;
use crate::starting::levels;
use affine_forms::{Form, Forms, WantOfMemory};
use quast::{Answer, Component, Node, Quast};
use std::alloc::Global;

/// A node that chooses by the sign of a form.
pub fn choice(alloc: Global, form: Form, first: Node, second: Node) -> Result<Node, WantOfMemory>
    ensures { IfOk result (λ made. tree_of made ≡ model.If form (tree_of first) (tree_of second)) }
{
    let Ok(first) = Box::new(alloc, first) else {
        return Err(WantOfMemory);
    };
    let Ok(second) = Box::new(alloc, second) else {
        return Err(WantOfMemory);
    };
    Ok(Node::Select(form, first, second))
}

/// A new parameter, the floor of a form over a divisor.
pub fn definition(alloc: Global, form: Form, den: i128, below: Node) -> Result<Node, WantOfMemory>
    ensures { IfOk result (λ made. tree_of made ≡ model.NewParm form den (tree_of below)) }
{
    let Ok(below) = Box::new(alloc, below) else {
        return Err(WantOfMemory);
    };
    Ok(Node::Define(form, den, below))
}

/// The list of these components as they are read, with n zeros behind the first m coefficients of each.
pub fn list(
    alloc: Global,
    components: &[Component],
    m: usize,
    n: usize,
) -> Result<Node, WantOfMemory>
    requires { (w : ℕ) × IsTrue (is_scoped w (spread_tree m n (model.Leaf components.now))) }
    ensures { IfOk result (λ made. tree_of made ≡ spread_tree m n (model.Leaf components.now)) }
{
    let read = spread_list(alloc, components, m, n)?;
    Ok(Quast::list(read).into_node())
}

/// The list of these components.
pub fn list_again(alloc: Global, components: &[Component]) -> Result<Node, WantOfMemory>
    requires { (w : ℕ) × IsTrue (is_scoped w (model.Leaf components.now)) }
    ensures { IfOk result (λ made. tree_of made ≡ model.Leaf components.now) }
{
    let made = list(alloc, components, 0, 0)?;
    Ok(made)
}

/// A leaf as a node, as it is read.
pub fn leaf_node(reading: &Reading, leaf: TreeLeaf) -> Result<Node, WantOfMemory>
    requires { (w : ℕ) × IsTrue
        (is_scoped w (spread_tree reading.now.parameters reading.now.between (leaf_tree leaf))) }
    ensures { IfOk result (λ made. tree_of made
        ≡ spread_tree reading.now.parameters reading.now.between (leaf_tree leaf.entry)) }
{
    match leaf {
        TreeLeaf::Void => Ok(Node::Bottom),
        TreeLeaf::Bottom => Ok(Node::Bottom),
        TreeLeaf::List(components) => list(
            reading.alloc,
            components,
            reading.parameters,
            reading.between,
        ),
    }
}

/// The answer of a node over so many parameters; none is `void`.
pub fn as_answer(width: usize, made: Option<Node>) -> Answer
    requires { IfSome made (λ node. IsQuast (record { width = width; tree = tree_of node })) }
    ensures value { answer_of result ≡ node_answer made }
    ensures well_formed { IsWellFormedAnswer width (answer_of result) }
    ensures scope { IsOver width result }
{
    match made {
        None => Answer::Void,
        Some(node) => Answer::Tree(Quast::from_node(width, node)),
    }
}

/// What holds of the rows and of an answer over them.
pub fn given(rows: &Forms, answer: &Answer)
    requires { IsOver rows.now.width answer.now }
    ensures { AreGiven rows.now.width rows.now.forms (answer_of answer.now) }
{
    let _ = rows.width();
    let _ = rows.as_slice();
    let _ = levels(answer);
}
