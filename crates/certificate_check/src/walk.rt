ghost use Rattle.std.specs.Prelude.{◌≡◌, ◌^◌, ◌+◌, ◌<◌, ◌≤◌, Some, None, length, slice_index_or, option_copied, IfOk, OnOk, MatchOption, if◌then◌else◌};
ghost use Rattle.pip_model.specs.Tree as tree;
ghost use Rattle.pip_model.specs.Agreement.{Agrees};
ghost use Rattle.affine_forms.specs.Checks.{is_form_overflow};
ghost use Rattle.quast.specs.Trees.{tree_of};
ghost use Rattle.leaf_check.specs.Faults.{fault_of};
ghost use Rattle.certificate_check.specs.Paths.{first_list as first_list_of, no_proofs, path_fault};
ghost use Rattle.certificate_check.specs.Walks.{below, leaf_tree, IsAt};

use crate::path::NodePath;
use affine_forms::FormRefusal;
use certificate_parts::LeafProofs;
use leaf_check::{Fault, GoalForms, Leaf, Spot, has_shape};
use pip_problem::Problem;
use quast::{Component, Node};
use std::alloc::Global;

// The check of a tree's leaves: whence its memory comes, the problem, whether the certificate's format is 2, and the
// proofs of the leaves.
#[derive(Drop)]
pub(crate) struct TreeCheck<'a> {
    pub(crate) alloc: Global,
    pub(crate) problem: &'a Problem,
    pub(crate) shares: bool,
    pub(crate) proofs: &'a [LeafProofs],
}

// The number of leaves, none where it is 2^64 or more.
pub(crate) fn leaves(node: &Node) -> Option<usize>
    ensures { MatchOption result (2 ^ 64 ≤ tree.leaves (tree_of node.now)) (λ n. n ≡ tree.leaves (tree_of node.now)) }
{
    match node {
        Node::Bottom => Some(1),
        Node::Leaf(_) => Some(1),
        Node::Select(_, a, b) => leaves(a)?.checked_add(leaves(b)?),
        Node::Define(_, _, a) => leaves(a),
    }
}

// The components of the first leaf below a node, none of a bottom.
fn first_list(node: &Node) -> Option<&[Component]>
    ensures { option_copied result ≡ first_list_of (tree_of node.now) }
{
    match node {
        Node::Bottom => None,
        Node::Leaf(components) => Some(components.as_slice()),
        Node::Select(_, a, _) => first_list(a),
        Node::Define(_, _, a) => first_list(a),
    }
}

impl TreeCheck<'_> {
    // Checks leaf l, from 0, which ends the path, and answers the place of the next. Its forms are made in the rooms of
    // those of others.
    fn check_leaf(
        &self,
        forms: &mut GoalForms,
        path: &NodePath,
        l: usize,
        list: Option<&[Component]>,
    ) -> Result<usize, Fault>
        requires at { IsAt self.now l path.now.scope (leaf_tree (option_copied list)) }
        ensures gives { Agrees (λ _. tt) fault_of result
            (below self.now l path.now (leaf_tree (option_copied list.entry))) }
        ensures next { IfOk result (λ n. n ≡ l + 1) }
    {
        let leaf = Leaf {
            number: l + 1,
            problem: self.problem,
            scope: path.scope(),
            path: path.as_slice(),
            list,
        };
        leaf.check(self.alloc, forms, &self.proofs[l])?;
        Ok(l + 1)
    }

    // Why the walk ends at a node, the first of whose leaves is l, where the path to it is refused.
    fn refusal_at(&self, refusal: FormRefusal, node: &Node, l: usize) -> Fault
        requires { l < length self.now.proofs.now }
        ensures { fault_of result ≡ (if is_form_overflow refusal then Some (path_fault self.now.problem.now
            self.now.shares (l + 1) (first_list_of (tree_of node.now)) (slice_index_or self.now.proofs.now l no_proofs))
            else None) }
    {
        match refusal {
            FormRefusal::Overflow => {
                let fits = has_shape(self.problem, first_list(node), &self.proofs[l]);
                let refutation = if fits && !self.shares { 1 } else { 0 };
                let at = Spot {
                    leaf: l + 1,
                    refutation,
                    step: 0,
                };
                if fits {
                    Fault::Overflow(at)
                } else {
                    Fault::Rejected(at)
                }
            }
            FormRefusal::WantOfMemory => Fault::WantOfMemory,
        }
    }

    // Checks the leaves below the node at the path's end, of which the first is l, from 0, and answers the place of the
    // next.
    pub(crate) fn check_node(
        &self,
        forms: &mut GoalForms,
        path: &mut NodePath,
        node: &Node,
        l: usize,
    ) -> Result<usize, Fault>
        requires { IsAt self.now l path.old.scope (tree_of node.now) }
        ensures gives { Agrees (λ _. tt) fault_of result (below self.now l path.old (tree_of node.now)) }
        ensures next { IfOk result (λ n. n ≡ l + tree.leaves (tree_of node.now)) }
        ensures path { OnOk result (path.new ≡ path.old) }
    {
        match node {
            Node::Bottom => self.check_leaf(forms, path, l, None),
            Node::Leaf(components) => {
                self.check_leaf(forms, path, l, Some(components.as_slice()))
            }
            Node::Select(v, a, b) => {
                let (scope, n) = (path.scope(), path.len());
                path.push(self.alloc, v)?;
                let second = self.check_node(forms, path, a, l)?;
                path.go_back(scope, n);
                if let Err(refusal) = path.push_opposite(self.alloc, v) {
                    return Err(self.refusal_at(refusal, b, second));
                }
                let next = self.check_node(forms, path, b, second)?;
                path.go_back(scope, n);
                Ok(next)
            }
            Node::Define(v, d, a) => {
                let (scope, n) = (path.scope(), path.len());
                if let Err(refusal) = path.push_bounds(self.alloc, v, *d) {
                    return Err(self.refusal_at(refusal, a, l));
                }
                let next = self.check_node(forms, path, a, l)?;
                path.go_back(scope, n);
                Ok(next)
            }
        }
    }
}
