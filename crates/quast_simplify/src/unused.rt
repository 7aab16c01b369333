ghost use Rattle.std.specs.Prelude.{◌≡◌};
ghost use Rattle.std.specs.List.{list_all};
ghost use Rattle.pip_model.specs.Numbers.{is_zero};
ghost use Rattle.pip_model.specs.Forms.{entry};
ghost use Rattle.pip_model.specs.Simplified.{is_unused, without};
ghost use Rattle.quast.specs.Trees.{tree_of};
ghost use Rattle.quast_simplify.specs.Components.{TreeLacksPlace};

use affine_forms::Form;
use quast::{Component, Node};
use std::mem;

// Whether the entry at place `i`, if there is one, is 0.
#[tactic(auto, using(crate::proofs::Comparisons::is_zero_test))]
fn is_zero_at(form: &Form, i: usize) -> bool
    ensures { result ≡ is_zero (entry form.now i) }
{
    match form.as_slice().get(i) {
        Some(coefficient) => *coefficient == 0,
        None => true,
    }
}

fn are_zero_at(components: &[Component], i: usize) -> bool
    ensures { result ≡ list_all (λ c. is_zero (entry c.form i)) components.now }
{
    components.iter().all(|c| is_zero_at(c.form(), i))
}

// Whether coefficient `i` is 0 in every form of the tree.
pub(crate) fn is_unused(node: &Node, i: usize) -> bool
    ensures { result ≡ is_unused i (tree_of node.now) }
{
    match node {
        Node::Bottom => true,
        Node::Leaf(components) => are_zero_at(components.as_slice(), i),
        Node::Select(form, first, second) => {
            is_zero_at(form, i) && is_unused(first, i) && is_unused(second, i)
        }
        Node::Define(form, _, below) => is_zero_at(form, i) && is_unused(below, i),
    }
}

// Drops coefficient `i`, which is 0 in every form of the tree; the later new parameters are numbered one lower.
pub(crate) fn drop_place(node: &mut Node, i: usize)
    requires { TreeLacksPlace i (tree_of node.old) }
    ensures { tree_of node.new ≡ without i (tree_of node.old) }
{
    *node = match mem::replace(node, Node::Bottom) {
        Node::Bottom => Node::Bottom,
        Node::Leaf(mut components) => {
            components.remove(i);
            Node::Leaf(components)
        }
        Node::Select(mut form, mut first, mut second) => {
            form.remove(i);
            drop_place(&mut first, i);
            drop_place(&mut second, i);
            Node::Select(form, first, second)
        }
        Node::Define(mut form, divisor, mut below) => {
            form.remove(i);
            drop_place(&mut below, i);
            Node::Define(form, divisor, below)
        }
    };
}
