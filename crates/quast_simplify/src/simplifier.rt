ghost use Rattle.std.specs.Prelude.{◌≡◌, ◌+◌, ◌≤◌, ℕ, IsTrue};
ghost use Rattle.std.specs.List.{list_all};
ghost use Rattle.pip_model.specs.Numbers.{is_zero};
ghost use Rattle.pip_model.specs.Forms.{coefficients, width};
ghost use Rattle.pip_model.specs.Tree.{is_scoped, nesting};
ghost use Rattle.pip_model.specs.Simplified.{simple_if, simple_new, simplified};
ghost use Rattle.pip_model.specs.Simpler.{IsSimpler};
ghost use Rattle.pip_model.specs.Values.{simplified_by};
ghost use Rattle.quast.specs.Trees.{tree_of};
ghost use Rattle.quast.specs.Answers.{answer_of, IsOver};

use crate::same::is_same_tree;
use crate::unused::{drop_place, is_unused};
use affine_forms::Form;
use quast::{Answer, Node, Quast};
use std::mem;

// Whether all coefficients are 0.
#[tactic(auto, using(crate::proofs::Comparisons::zeros_test))]
fn is_constant(form: &Form) -> bool
    ensures { result ≡ list_all is_zero (coefficients form.now) }
{
    form.as_slice()[..form.width()].iter().all(|c| *c == 0)
}

// The choice between two simplified trees: one of them where the form is constant, or where they are the same.
fn select(form: Form, first: Box<Node>, second: Box<Node>) -> Node
    ensures { tree_of result ≡ simple_if form (tree_of first.value) (tree_of second.value) }
{
    if is_constant(&form) {
        if form.at(form.width()) >= 0 {
            Box::into_inner(first)
        } else {
            Box::into_inner(second)
        }
    } else if is_same_tree(&first, &second) {
        Box::into_inner(first)
    } else {
        Node::Select(form, first, second)
    }
}

// The new parameter for a simplified tree, which stands alone where nothing in it uses the parameter.
fn define(form: Form, divisor: i128, below: Box<Node>) -> Node
    requires { IsTrue (is_scoped (width form + 1) (tree_of below.value)) }
    ensures { tree_of result ≡ simple_new form divisor (tree_of below.value) }
{
    let place = form.width();
    if is_unused(&below, place) {
        let mut node = Box::into_inner(below);
        drop_place(&mut node, place);
        node
    } else {
        Node::Define(form, divisor, below)
    }
}

fn simplify_node(node: &mut Node)
    requires { (w : ℕ) × IsTrue (is_scoped w (tree_of node.old)) }
    ensures { tree_of node.new ≡ simplified (tree_of node.old) }
{
    *node = match mem::replace(node, Node::Bottom) {
        Node::Bottom => Node::Bottom,
        Node::Leaf(components) => Node::Leaf(components),
        Node::Select(form, mut first, mut second) => {
            simplify_node(&mut first);
            simplify_node(&mut second);
            select(form, first, second)
        }
        Node::Define(form, divisor, mut below) => {
            simplify_node(&mut below);
            define(form, divisor, below)
        }
    };
}

/// The simplified tree: it has the tree's value at every vector, negative entries included, is no larger and no deeper,
/// and can't be simplified further. This takes no memory.
pub fn simplify(tree: Quast) -> Quast
    ensures gives { result ≡ record { width = tree.width; tree = simplified tree.tree } }
    ensures simpler { IsSimpler tree.width tree.tree result.tree }
    ensures nested { nesting result.tree ≤ nesting tree.tree }
{
    let width = tree.width();
    let mut node = tree.into_node();
    simplify_node(&mut node);
    Quast::from_node(width, node)
}

/// The answer with its tree simplified; `void` stays.
pub fn simplify_answer(answer: Answer) -> Answer
    ensures gives { answer_of result ≡ simplified_by simplified (answer_of answer) }
    ensures over { (w : ℕ) → IsOver w answer → IsOver w result }
{
    match answer {
        Answer::Void => Answer::Void,
        Answer::Tree(tree) => Answer::Tree(simplify(tree)),
    }
}
