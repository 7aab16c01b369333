ghost use Rattle.std.specs.Prelude.{◌≡◌, ◌+◌, ◌*◌, ◌<◌, ◌≤◌, ◌^◌, ◌++◌, true, false, Some, length, map, drop, replicate, option_copied, IfOk, OnOk};
ghost use Rattle.pip_model.specs.Tree.{nesting};
ghost use Rattle.pip_model.specs.Check.{Accepted};
ghost use Rattle.pip_model.specs.Share as model;
ghost use Rattle.quast.specs.Answers.{answer_of};
ghost use Rattle.quast.specs.Trees.{tree_of};
ghost use Rattle.certificate_check.specs.Sharing.{counts_from, own_sizes as own_sizes_of, share_sized, share_at, share_below, IsCounted, IsCountedAt};

use crate::common::shared_steps;
use crate::numbering::{Numbering, Renumbering};
use crate::renumbered::{refutation, renumbered_steps};
use affine_forms::WantOfMemory;
use certificate_parts::{Certificate, LeafProofs, Refutation};
use pip_problem::Problem;
use quast::{Answer, Component, Node};
use std::alloc::Global;

// A copy of the proofs of a leaf.
fn copied_proofs(alloc: Global, proofs: &LeafProofs) -> Result<LeafProofs, WantOfMemory>
    ensures { IfOk result (λ made. made ≡ proofs.now) }
{
    let mut made = LeafProofs::with_shared(alloc, proofs.shared().try_clone(alloc)?);
    let refutations = proofs.as_slice();
    for steps in refutations {
        made.push(steps.try_clone(alloc)?)?;
    }
    Ok(made)
}

// A copy of a certificate of format 2.
fn copied_certificate(alloc: Global, certificate: &Certificate) -> Result<Certificate, WantOfMemory>
    requires { certificate.now.shares ≡ true }
    ensures { IfOk result (λ made. made ≡ certificate.now) }
{
    let mut made = Certificate::try_new_shared(alloc, certificate.vector())?;
    let leaves = certificate.as_slice();
    for proofs in leaves {
        made.push(copied_proofs(alloc, proofs)?)?;
    }
    Ok(made)
}

// The steps behind the first n, which stand before the refutation's own forms now.
fn moved_rest(
    alloc: Global,
    numbering: Numbering,
    n: usize,
    steps: &Refutation,
) -> Result<Refutation, WantOfMemory>
    requires { n ≤ length steps.now }
    ensures { IfOk result (λ made. made
        ≡ map (model.renumbered (model.moved_index numbering.leaf numbering.own n)) (drop n steps.now)) }
{
    let rest = renumbered_steps(
        alloc,
        &steps.as_slice()[n..],
        Renumbering::Moved(numbering, n),
    )?;
    let made = refutation(alloc, rest)?;
    Ok(made)
}

// The proofs of a leaf that has so many forms, and refutations with so many of their own.
fn share_proofs(
    alloc: Global,
    leaf: usize,
    sizes: &[usize],
    proofs: &LeafProofs,
) -> Result<LeafProofs, WantOfMemory>
    requires { length proofs.now.refutations ≡ length sizes.now }
    ensures { IfOk result (λ made. made ≡ share_sized leaf sizes.now proofs.now) }
{
    let refutations = proofs.as_slice();
    let shared = shared_steps(alloc, leaf, sizes, refutations)?;
    let n = shared.len();
    let front = refutation(alloc, shared)?;
    let mut made = LeafProofs::with_shared(alloc, front);
    for r in 0..refutations.len() {
        let numbering = Numbering {
            leaf,
            own: sizes[r],
        };
        let rest = moved_rest(alloc, numbering, n, &refutations[r])?;
        made.push(rest)?;
    }
    Ok(made)
}

// So many ones, and then n numbers from the first on.
fn list_sizes(
    alloc: Global,
    ones: usize,
    first: usize,
    n: usize,
) -> Result<Vec<usize>, WantOfMemory>
    requires { first + n < 2 ^ 64 }
    ensures { IfOk result (λ made. made.items ≡ replicate ones 1 ++ counts_from first n) }
{
    let mut made = Vec::new(alloc);
    made.resize(ones, 1)?;
    for i in 0..n {
        made.push(first + i)?;
    }
    Ok(made)
}

// How many forms each refutation of a leaf has of its own.
fn own_sizes(
    alloc: Global,
    problem: &Problem,
    list: Option<&[Component]>,
) -> Result<Vec<usize>, WantOfMemory>
    ensures { IfOk result (λ made. made.items ≡ own_sizes_of problem.now (option_copied list.entry)) }
{
    let unknowns = problem.unknowns() + problem.rows().len();
    match list {
        None => Ok(Vec::from_slice(alloc, &[unknowns])?),
        Some(components) => {
            let n = components.len();
            match (
                problem.rows().len().checked_add(n),
                (unknowns + 1).checked_add(n),
            ) {
                (Some(ones), Some(_)) => list_sizes(alloc, ones, unknowns + 1, n),
                _ => Err(WantOfMemory),
            }
        }
    }
}

// The leaves of an accepted certificate of format 1, and the problem.
#[derive(Drop)]
struct Leaves<'a> {
    problem: &'a Problem,
    proofs: &'a [LeafProofs],
}

impl Leaves<'_> {
    // The shared proofs of leaf l, from 0, whose path has so many forms.
    #[tactic(auto, using(crate::proofs::Shares::length_sizes))]
    fn share_leaf(
        &self,
        alloc: Global,
        path: usize,
        l: usize,
        list: Option<&[Component]>,
    ) -> Result<LeafProofs, WantOfMemory>
        requires room { path < 2 ^ 32 }
        requires counted { IsCountedAt self.now.problem.now self.now.proofs.now l (option_copied list) }
        ensures { IfOk result (λ made. made
            ≡ share_at self.now.problem.now self.now.proofs.now path l (option_copied list.entry)) }
    {
        let sizes = own_sizes(alloc, self.problem, list)?;
        let forms = self.problem.params() + self.problem.context().len() + path;
        share_proofs(alloc, forms, &sizes, &self.proofs[l])
    }

    // Puts the shared proofs of the leaves below a node, whose path has so many forms, behind those of the leaves
    // before.
    fn share_node(
        &self,
        alloc: Global,
        made: &mut Certificate,
        node: &Node,
        path: usize,
    ) -> Result<(), WantOfMemory>
        requires shares { made.old.shares ≡ true }
        requires room { path + 2 * nesting (tree_of node.now) < 2 ^ 32 }
        requires counted { IsCounted self.now.problem.now self.now.proofs.now (length made.old.leaves)
            (tree_of node.now) }
        ensures { OnOk result (made.new ≡ record made.old {
          leaves = made.old.leaves
              ++ share_below self.now.problem.now self.now.proofs.now path (length made.old.leaves) (tree_of node.now);
        }) }
    {
        let l = made.as_slice().len();
        match node {
            Node::Bottom => made.push(self.share_leaf(alloc, path, l, None)?),
            Node::Leaf(components) => {
                made.push(self.share_leaf(alloc, path, l, Some(components.as_slice()))?)
            }
            Node::Select(_, a, b) => {
                self.share_node(alloc, made, a, path + 1)?;
                self.share_node(alloc, made, b, path + 1)
            }
            Node::Define(_, _, a) => self.share_node(alloc, made, a, path + 2),
        }
    }
}

// The shared certificate of an accepted one of format 1.
fn shared_certificate(
    alloc: Global,
    problem: &Problem,
    answer: &Answer,
    certificate: &Certificate,
) -> Result<Certificate, WantOfMemory>
    requires format { certificate.now.shares ≡ false }
    requires accepted { Accepted problem.now (answer_of answer.now) certificate.now }
    ensures { IfOk result (λ c. c ≡ record {
      shares = true;
      vector = certificate.now.vector;
      leaves = model.shared_leaves problem.now (answer_of answer.now) certificate.now.leaves;
    }) }
{
    let mut made = Certificate::try_new_shared(alloc, certificate.vector())?;
    let proofs = certificate.as_slice();
    match answer {
        Answer::Void => {
            let forms = problem.params() + problem.context().len();
            made.push(share_proofs(alloc, forms, &[0], &proofs[0])?)?;
        }
        Answer::Tree(tree) => {
            let leaves = Leaves { problem, proofs };
            leaves.share_node(alloc, &mut made, tree.root(), 0)?;
        }
    }
    Ok(made)
}

/// The accepted certificate in format 2, in which the steps that the refutations of a leaf have in common are written
/// once; one of format 2 is copied. The check accepts it too.
pub fn share(
    alloc: Global,
    problem: &Problem,
    answer: &Answer,
    certificate: &Certificate,
) -> Result<Certificate, WantOfMemory>
    requires { Accepted problem.now (answer_of answer.now) certificate.now }
    ensures gives { IfOk result (λ c. c ≡ model.share problem.now (answer_of answer.now) certificate.now) }
    ensures accepted { IfOk result (λ c. Accepted problem.now (answer_of answer.now) c) }
    ensures format { IfOk result (λ c. c.shares ≡ true) }
{
    // Reading them tells that the problem is within the limits and the certificate's numbers fit.
    let (_unknowns, _leaves) = (problem.unknowns(), certificate.as_slice());
    if certificate.shares() {
        copied_certificate(alloc, certificate)
    } else {
        shared_certificate(alloc, problem, answer, certificate)
    }
}
