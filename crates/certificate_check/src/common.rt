ghost use Rattle.std.specs.Prelude.{◌≡◌, ◌≤◌, length, map, take, IfOk};
ghost use Rattle.pip_model.specs.Share as model;
ghost use Rattle.certificate_check.specs.Sharing.{sized};

use crate::numbering::{Numbering, Renumbering};
use crate::renumbered::renumbered_steps;
use affine_forms::WantOfMemory;
use certificate_parts::{Refutation, Step};
use std::alloc::Global;

// Whether the step names no form of its refutation's own.
fn is_shareable(numbering: Numbering, step: &Step) -> bool
    ensures { result ≡ model.is_shareable numbering.leaf numbering.own step.now }
{
    step.terms
        .as_slice()
        .iter()
        .all(|term| !numbering.is_own(term.0))
}

// How many of its first steps a refutation can share: not the last.
fn shareable_len(numbering: Numbering, steps: &[Step]) -> usize
    ensures value { model.shareable numbering.leaf numbering.own steps.now
        ≡ map (model.renumbered (model.lowered numbering.leaf numbering.own)) (take result steps.now) }
    ensures within { result ≤ length steps.now }
{
    let most = steps.len().saturating_sub(1);
    for i in 0..most {
        if !is_shareable(numbering, &steps[i]) {
            return i;
        }
    }
    most
}

// The steps that a refutation can share, with their indices lowered, where so many forms of its own stand behind those
// of the leaf.
fn shareable(
    alloc: Global,
    leaf: usize,
    own: usize,
    steps: &Refutation,
) -> Result<Vec<Step>, WantOfMemory>
    ensures { IfOk result (λ made. made.items ≡ model.shareable leaf own steps.now) }
{
    let numbering = Numbering { leaf, own };
    let steps = steps.as_slice();
    let n = shareable_len(numbering, steps);
    renumbered_steps(alloc, &steps[..n], Renumbering::Lowered(numbering))
}

// Whether the pairs are the same.
#[tactic(auto, using(crate::proofs::Commons::other_lengths, crate::proofs::Commons::terms_same, crate::proofs::Commons::index_differs, crate::proofs::Commons::multiplier_differs))]
fn are_same_terms(terms: &[(i128, i128)], other: &[(i128, i128)]) -> bool
    ensures { result ≡ model.same_terms terms.now other.now }
{
    if terms.len() != other.len() {
        return false;
    }
    for i in 0..terms.len() {
        if terms[i].0 != other[i].0 || terms[i].1 != other[i].1 {
            return false;
        }
    }
    true
}

// Whether the steps are the same.
#[tactic(auto, using(pip_model::proofs::Tests::same_number_yes, pip_model::proofs::Tests::same_number_no))]
fn is_same_step(step: &Step, other: &Step) -> bool
    ensures { result ≡ model.same_step step.now other.now }
{
    if step.divisor != other.divisor {
        return false;
    }
    are_same_terms(step.terms.as_slice(), other.terms.as_slice())
}

// With how many of the same steps the lists begin.
fn common_len(steps: &[Step], other: &[Step]) -> usize
    ensures { take result steps.now ≡ model.common_front steps.now other.now }
{
    let most = steps.len().min(other.len());
    for i in 0..most {
        if !is_same_step(&steps[i], &other[i]) {
            return i;
        }
    }
    most
}

// What all refutations of a leaf can share, where each has so many forms of its own behind those of the leaf.
#[tactic(auto, using(crate::proofs::Commons::nothing_shared))]
pub(crate) fn shared_steps(
    alloc: Global,
    leaf: usize,
    sizes: &[usize],
    refutations: &[Refutation],
) -> Result<Vec<Step>, WantOfMemory>
    requires { length sizes.now ≡ length refutations.now }
    ensures { IfOk result (λ made. made.items ≡ model.shared_by leaf (map sized sizes.now) refutations.now) }
{
    if refutations.is_empty() {
        return Ok(Vec::new(alloc));
    }
    let mut r = refutations.len() - 1;
    let mut shared = shareable(alloc, leaf, sizes[r], &refutations[r])?;
    while r > 0 {
        r -= 1;
        let mut own = shareable(alloc, leaf, sizes[r], &refutations[r])?;
        let n = common_len(&own, &shared);
        own.truncate(n);
        shared = own;
    }
    Ok(shared)
}
