ghost use Rattle.std.specs.Prelude.{◌≡◌, ◌+◌, ◌<◌, ◌≤◌, ◌≤ℤ◌, ◌↔◌, pos, max, length, All, IfOk, IfErr, MatchResult};
ghost use Rattle.pip_model.specs.Limits.{most_components, most_nesting};
ghost use Rattle.pip_model.specs.Tree as model;
ghost use Rattle.affine_forms.specs.Checks.{Fits};
ghost use Rattle.quast.specs.Components.{IsComponent, width_of};
ghost use Rattle.quast.specs.Trees.{tree_of, IsQuast};

use crate::component::{Component, Components};
use crate::node::Node;
use affine_forms::{Form, MOST_NESTING, WantOfMemory};
use std::alloc::Global;
use std::marker::Model;

/// A selection tree over a number of parameters: each form has the width of its scope, a new parameter adds one to the
/// scope of the tree below it, each divisor is at least 1, and the lists and the nodes that choose or define on a path
/// are within their limits; a list has at least one component.
#[derive(Drop)]
pub struct Quast {
    width: usize,
    nesting: usize,
    node: Node,
}

impl Model for Quast {
    ghost use Rattle.std.specs.Prelude.{◌≡◌};
    ghost use Rattle.pip_model.specs.Tree as model;
    ghost use Rattle.quast.specs.Trees.{ScopedTree, scoped_code, tree_of, IsQuast};

    ghost Value = { ScopedTree };

    ghost coded = { scoped_code };

    ghost view = { λ q. record { width = q.width; tree = tree_of q.node } };

    ghost invariant = { λ q.
        IsQuast (record { width = q.width; tree = tree_of q.node })
        × (q.nesting ≡ model.nesting (tree_of q.node)) };
}

/// What could not be joined, as it was given.
#[derive(Drop)]
pub enum Parts {
    Select(Form, Quast, Quast),
    Define(Form, i128, Quast),
}

/// Why trees are not joined: one of them has the most nested nodes, or memory was refused.
#[derive(Clone, Copy, Debug, PartialEq, Eq)]
pub enum BuildRefusal {
    Nesting,
    WantOfMemory,
}

impl Quast {
    /// The tree that has no point anywhere.
    pub fn bottom(width: usize) -> Quast
        ensures { result ≡ record { width = width; tree = model.Bottom } }
    {
        Quast {
            width,
            nesting: 0,
            node: Node::Bottom,
        }
    }

    /// The list of these components, which are over the same places.
    pub fn list(c: Vec<Component>) -> Quast
        requires some { 0 < length c.items }
        requires few { length c.items ≤ most_components }
        requires components { All (IsComponent (width_of c.items)) c.items }
        ensures { result ≡ record { width = width_of c.items; tree = model.Leaf c.items } }
    {
        let width = c[0].form().width();
        Quast {
            width,
            nesting: 0,
            node: Node::Leaf(Components::new(c)),
        }
    }

    /// The tree that goes on with `a` where `v` is at least 0, and else with `b`. Answers Nesting exactly where one of
    /// them has the most nested nodes; a refusal hands the parts back.
    pub fn select(
        alloc: Global,
        v: Form,
        a: Quast,
        b: Quast,
    ) -> Result<Quast, (Parts, BuildRefusal)>
        requires same_width { a.width ≡ b.width }
        requires form_width { length v ≡ a.width + 1 }
        ensures ok { IfOk result (λ q. q ≡ record { width = a.width; tree = model.If v a.tree b.tree }) }
        ensures parts { IfErr result (λ e. e.0 ≡ Parts.Select v a b) }
        ensures nesting { MatchResult result
            (λ _. max (model.nesting a.tree) (model.nesting b.tree) < most_nesting)
            (λ e. (e.1 ≡ BuildRefusal.Nesting) ↔ (max (model.nesting a.tree) (model.nesting b.tree) ≡ most_nesting)) }
    {
        if a.nesting == MOST_NESTING || b.nesting == MOST_NESTING {
            return Err((Parts::Select(v, a, b), BuildRefusal::Nesting));
        }
        let width = form_width(&v);
        let (a_nesting, b_nesting) = (a.nesting, b.nesting);
        let left = match Box::new(alloc, a.node) {
            Ok(left) => left,
            Err(refused) => {
                let a = Quast {
                    width,
                    nesting: a_nesting,
                    node: refused.value,
                };
                return Err((Parts::Select(v, a, b), BuildRefusal::WantOfMemory));
            }
        };
        let right = match Box::new(alloc, b.node) {
            Ok(right) => right,
            Err(refused) => {
                let a = Quast {
                    width,
                    nesting: a_nesting,
                    node: Box::into_inner(left),
                };
                let b = Quast {
                    width,
                    nesting: b_nesting,
                    node: refused.value,
                };
                return Err((Parts::Select(v, a, b), BuildRefusal::WantOfMemory));
            }
        };
        Ok(Quast {
            width,
            nesting: a_nesting.max(b_nesting) + 1,
            node: Node::Select(v, left, right),
        })
    }

    /// The tree that defines a new parameter, the floor of `v` over `d`, for `a`. Answers Nesting exactly where `a` has
    /// the most nested nodes; a refusal hands the parts back.
    pub fn define(alloc: Global, v: Form, d: i128, a: Quast) -> Result<Quast, (Parts, BuildRefusal)>
        requires form_width { length v ≡ a.width }
        requires positive { pos 1 ≤ℤ d }
        requires fits { Fits d }
        ensures ok { IfOk result (λ q. (q.tree ≡ model.NewParm v d a.tree) × (q.width + 1 ≡ a.width)) }
        ensures parts { IfErr result (λ e. e.0 ≡ Parts.Define v d a) }
        ensures nesting { MatchResult result
            (λ _. model.nesting a.tree < most_nesting)
            (λ e. (e.1 ≡ BuildRefusal.Nesting) ↔ (model.nesting a.tree ≡ most_nesting)) }
    {
        if a.nesting == MOST_NESTING {
            return Err((Parts::Define(v, d, a), BuildRefusal::Nesting));
        }
        let width = form_width(&v);
        let (inner, nesting) = (a.width, a.nesting);
        match Box::new(alloc, a.node) {
            Ok(below) => Ok(Quast {
                width,
                nesting: nesting + 1,
                node: Node::Define(v, d, below),
            }),
            Err(refused) => {
                let a = Quast {
                    width: inner,
                    nesting,
                    node: refused.value,
                };
                Err((Parts::Define(v, d, a), BuildRefusal::WantOfMemory))
            }
        }
    }

    /// As `select`, for trees that have room for one more nested node.
    pub fn select_within(alloc: Global, v: Form, a: Quast, b: Quast) -> Result<Quast, WantOfMemory>
        requires same_width { a.width ≡ b.width }
        requires form_width { length v ≡ a.width + 1 }
        requires first { model.nesting a.tree < most_nesting }
        requires second { model.nesting b.tree < most_nesting }
        ensures { IfOk result (λ q. q ≡ record { width = a.width; tree = model.If v a.tree b.tree }) }
    {
        match Quast::select(alloc, v, a, b) {
            Ok(tree) => Ok(tree),
            Err((parts, refusal)) => {
                drop(parts);
                match refusal {
                    BuildRefusal::WantOfMemory => Err(WantOfMemory),
                    BuildRefusal::Nesting => unreachable!(),
                }
            }
        }
    }

    /// As `define`, for a tree that has room for one more nested node.
    pub fn define_within(alloc: Global, v: Form, d: i128, a: Quast) -> Result<Quast, WantOfMemory>
        requires form_width { length v ≡ a.width }
        requires positive { pos 1 ≤ℤ d }
        requires fits { Fits d }
        requires room { model.nesting a.tree < most_nesting }
        ensures { IfOk result (λ q. (q.tree ≡ model.NewParm v d a.tree) × (q.width + 1 ≡ a.width)) }
    {
        match Quast::define(alloc, v, d, a) {
            Ok(tree) => Ok(tree),
            Err((parts, refusal)) => {
                drop(parts);
                match refusal {
                    BuildRefusal::WantOfMemory => Err(WantOfMemory),
                    BuildRefusal::Nesting => unreachable!(),
                }
            }
        }
    }

    /// The number of parameters that the tree is over.
    pub fn width(&self) -> usize
        ensures { result ≡ self.now.width }
    {
        self.width
    }

    /// The most nodes that choose or define on one path.
    pub fn nesting(&self) -> usize
        ensures { result ≡ model.nesting self.now.tree }
    {
        self.nesting
    }

    /// The topmost node.
    pub fn root(&self) -> &Node
        ensures tree { tree_of result.now ≡ self.now.tree }
        ensures quast { IsQuast self.now }
    {
        &self.node
    }

    /// The topmost node, taken out.
    pub fn into_node(self) -> Node
        ensures tree { tree_of result ≡ self.tree }
        ensures quast { IsQuast self }
    {
        self.node
    }

    /// The tree of a node over `width` parameters.
    pub fn from_node(width: usize, node: Node) -> Quast
        requires { IsQuast (record { width = width; tree = tree_of node }) }
        ensures { result ≡ record { width = width; tree = tree_of node } }
    {
        let nesting = nesting(&node);
        Quast {
            width,
            nesting,
            node,
        }
    }
}

// The number of places that a form is over.
fn form_width(form: &Form) -> usize
    ensures width { result + 1 ≡ length form.now }
    ensures fits { All Fits form.now }
{
    form.as_slice().len() - 1
}

// The most nodes that choose or define on one path.
fn nesting(node: &Node) -> usize
    requires { model.nesting (tree_of node.now) ≤ most_nesting }
    ensures { result ≡ model.nesting (tree_of node.now) }
{
    match node {
        Node::Bottom => 0,
        Node::Leaf(_) => 0,
        Node::Select(_, a, b) => nesting(a).max(nesting(b)) + 1,
        Node::Define(_, _, a) => nesting(a) + 1,
    }
}
