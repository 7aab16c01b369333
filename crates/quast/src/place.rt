ghost use Rattle.std.specs.Prelude.{[], ◌≡◌, ◌+◌, ◌<◌, ◌≤ℤ◌, pos, ◌≤◌, length, All, vec_len, vec_capacity, IfOk, OnOk, IfSome, flat_map};
ghost use Rattle.std.specs.Option.{option_map};
ghost use Rattle.pip_model.specs.Numbers.{floor_div as floor_div_of};
ghost use Rattle.pip_model.specs.Listed.{value_listed};
ghost use Rattle.pip_model.specs.Limits.{most_params};
ghost use Rattle.pip_model.specs.Tree.{leaf_of};
ghost use Rattle.pip_model.specs.Values.{tree_value_listed};
ghost use Rattle.pip_model.specs.Agreement.{IsChecked};
ghost use Rattle.affine_forms.specs.Checks.{Fits, is_overflow};
ghost use Rattle.quast.specs.Components.{IsComponent};
ghost use Rattle.quast.specs.Trees.{tree_of};
ghost use Rattle.quast.specs.Places.{landing_of, landed, path_listed, IsAppended, IsLanding, IsListOver, IsOnPath, AreNumerators};

use crate::component::{Component, Components};
use crate::node::Node;
use crate::quast::Quast;
use affine_forms::{
    MOST_COMPONENTS, MOST_NESTING, MOST_PARAMETERS, Overflow, WantOfMemory, floor_div,
};
use std::alloc::Global;
use std::marker::Model;

// The most parameters with the new parameters of a path.
const MOST_SCOPE: usize = MOST_PARAMETERS + MOST_NESTING;

/// Where a parameter vector leads: to a bottom, or to a list, with the values of its components' forms, the numerators.
#[derive(Clone, Copy)]
pub enum Place<'t> {
    Bottom,
    At(&'t [Component], &'t [i128]),
}

/// Room for the vector of a path and for the numerators of a list.
#[derive(Drop)]
pub struct Scratch {
    vector: Vec<i128>,
    numerators: Vec<i128>,
}

impl Model for Scratch {
    ghost use Rattle.std.specs.Prelude.{ℤ, ◌+◌, ◌≤◌, List, vec_capacity};
    ghost use Rattle.pip_model.specs.Limits.{most_params, most_nesting, most_components};

    ghost Value = { List ℤ × List ℤ };

    ghost view = { λ s. (s.vector.items, s.numerators.items) };

    ghost invariant = { λ s.
        (most_params + most_nesting ≤ vec_capacity s.vector)
        × (most_components ≤ vec_capacity s.numerators) };
}

impl Scratch {
    /// Room for any path of a tree over parameters within their limit.
    pub fn reserve(alloc: Global) -> Result<Scratch, WantOfMemory>
        ensures { IfOk result (λ s. s ≡ ([], [])) }
    {
        let vector = Vec::with_capacity(alloc, MOST_SCOPE)?;
        let numerators = Vec::with_capacity(alloc, MOST_COMPONENTS)?;
        Ok(Scratch { vector, numerators })
    }
}

impl Quast {
    /// Where `params` leads: at a node that chooses to the first tree where its form is at least 0, and past one that
    /// defines with the floor of its form's value over the divisor as one more parameter. Answers Overflow exactly
    /// where a number of a form's value on the path does not fit. Takes no memory.
    pub fn value_at<'t>(
        &'t self,
        params: &[i128],
        s: &'t mut Scratch,
    ) -> Result<Place<'t>, Overflow>
        requires width { length params.now ≡ self.now.width }
        requires few { self.now.width ≤ most_params }
        requires fits { All Fits params.now }
        ensures listed { IsChecked is_overflow (tree_value_listed self.now.tree params.now) result }
        ensures value { IfOk result (λ place. landing_of place ≡ landed (leaf_of self.now.tree params.now)) }
        ensures landing { IfOk result IsLanding }
    {
        s.vector.clear();
        s.numerators.clear();
        if s.vector.extend_from_slice(params).is_err() {
            unreachable!();
        }
        match find_leaf(self.root(), &mut s.vector)? {
            None => Ok(Place::Bottom),
            Some(c) => {
                put_numerators(c.as_slice(), s.vector.as_slice(), &mut s.numerators)?;
                Ok(Place::At(c.as_slice(), s.numerators.as_slice()))
            }
        }
    }
}

// The list that the vector leads to; the values of the new parameters on the path are appended to the vector.
fn find_leaf<'t>(node: &'t Node, vector: &mut Vec<i128>) -> Result<Option<&'t Components>, Overflow>
    requires { IsOnPath (tree_of node.now) vector.old.items (vec_capacity vector.old) }
    ensures listed { IsChecked is_overflow (path_listed (tree_of node.now) vector.old.items) result }
    ensures leaf { IfOk result
        (λ o. option_map (λ c. (c.now, vector.new.items)) o ≡ leaf_of (tree_of node.now) vector.old.items) }
    ensures list { IfOk result (λ o. IfSome o (λ c. IsListOver (vec_len vector.new) c.now)) }
    ensures fits { All Fits vector.new.items }
    ensures room { vec_capacity vector.old ≤ vec_capacity vector.new }
{
    match node {
        Node::Bottom => Ok(None),
        Node::Leaf(c) => Ok(Some(c)),
        Node::Select(v, a, b) => {
            let x = v.value_at(vector.as_slice())?;
            if x >= 0 {
                find_leaf(a, vector)
            } else {
                find_leaf(b, vector)
            }
        }
        Node::Define(v, d, a) => {
            let x = v.value_at(vector.as_slice())?;
            append_floor(vector, x, *d);
            find_leaf(a, vector)
        }
    }
}

// Appends the floor of x over d.
fn append_floor(vector: &mut Vec<i128>, x: i128, d: i128)
    requires positive { pos 1 ≤ℤ d }
    requires number { Fits x }
    requires fits { All Fits vector.old.items }
    requires room { vec_len vector.old < vec_capacity vector.old }
    ensures appended { IsAppended vector.old.items (floor_div_of x d) vector.new.items }
    ensures fits { All Fits vector.new.items }
    ensures room { vec_capacity vector.old ≤ vec_capacity vector.new }
{
    if vector.push(floor_div(x, d)).is_err() {
        unreachable!();
    }
}

// Appends the values of the components' forms.
fn put_numerators(
    components: &[Component],
    vector: &[i128],
    out: &mut Vec<i128>,
) -> Result<(), Overflow>
    requires components { All (IsComponent (length vector.now)) components.now }
    requires fits { All Fits vector.now }
    requires empty { out.old.items ≡ [] }
    requires room { vec_len out.old + length components.now ≤ vec_capacity out.old }
    ensures listed { IsChecked is_overflow (flat_map (λ c. value_listed c.form vector.now) components.now) result }
    ensures numbers { OnOk result (AreNumerators components.now vector.now out.new.items) }
    ensures room { vec_capacity out.old ≤ vec_capacity out.new }
{
    for c in components {
        let number = c.form().value_at(vector)?;
        match out.push(number) {
            Ok(()) => {}
            Err(_) => unreachable!(),
        }
    }
    Ok(())
}
