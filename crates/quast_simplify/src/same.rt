ghost use Rattle.std.specs.Prelude.{◌≡◌};
ghost use Rattle.pip_model.specs.Forms.{same_form};
ghost use Rattle.pip_model.specs.Simplified.{same_components, same_tree};
ghost use Rattle.quast.specs.Trees.{tree_of};
ghost use Rattle.quast_simplify.specs.Components.{same_component};

use affine_forms::Form;
use quast::{Component, Node};

#[tactic(auto, using(crate::proofs::Comparisons::same_entries))]
fn is_same_form(a: &Form, b: &Form) -> bool
    ensures { result ≡ same_form a.now b.now }
{
    a.as_slice() == b.as_slice()
}

#[tactic(auto, using(crate::proofs::Comparisons::same_number_test))]
fn is_same_component(a: &Component, b: &Component) -> bool
    ensures { result ≡ same_component a.now b.now }
{
    a.den() == b.den() && is_same_form(a.form(), b.form())
}

#[tactic(auto, using(crate::proofs::Comparisons::other_lengths))]
fn are_same_components(a: &[Component], b: &[Component]) -> bool
    ensures { result ≡ same_components a.now b.now }
{
    if a.len() != b.len() {
        return false;
    }
    for i in 0..a.len() {
        if !is_same_component(&a[i], &b[i]) {
            return false;
        }
    }
    true
}

// Whether the trees are the same.
#[tactic(auto, using(crate::proofs::Comparisons::same_number_test))]
pub(crate) fn is_same_tree(a: &Node, b: &Node) -> bool
    ensures { result ≡ same_tree (tree_of a.now) (tree_of b.now) }
{
    match (a, b) {
        (Node::Bottom, Node::Bottom) => true,
        (Node::Leaf(c), Node::Leaf(d)) => are_same_components(c.as_slice(), d.as_slice()),
        (Node::Select(v, a, b), Node::Select(w, c, d)) => {
            is_same_form(v, w) && is_same_tree(a, c) && is_same_tree(b, d)
        }
        (Node::Define(v, d, a), Node::Define(w, e, b)) => {
            is_same_form(v, w) && d == e && is_same_tree(a, b)
        }
        _ => false,
    }
}
