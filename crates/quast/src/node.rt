use crate::component::Components;
use affine_forms::Form;

/// A node of a tree: no point; a list, the point of its components; the choice by the sign of a form, with the tree for
/// values of at least 0 first; or a new parameter, the floor of a form over a divisor, in scope in the tree below it.
#[derive(Drop)]
pub enum Node {
    Bottom,
    Leaf(Components),
    Select(Form, Box<Node>, Box<Node>),
    Define(Form, i128, Box<Node>),
}
