ghost use Rattle.std.specs.Prelude.{◌≡◌, ◌≤◌, ◌<◌, [], false, length, IfOk};
ghost use Rattle.pip_model.specs.Certificate as model;
ghost use Rattle.text_reading.specs.Steps.{fault_of, AreRead, IsRead};
ghost use Rattle.leaf_certificate.specs.Sequences.{refutations_to_end, leaves_to_end};

use crate::closing::behind_close;
use crate::read_step::read_refutation;
use certificate_parts::{Certificate, LeafProofs, Refutation, SpareSteps};
use std::alloc::Global;
use text_reading::{Reads, TextFault, expect};
use text_tokens::Kind;

// The shared steps, which format 2 alone spells, and the place behind them.
fn read_shared(
    alloc: Global,
    spare: &mut SpareSteps,
    bytes: &[u8],
    shares: bool,
    place: usize,
) -> Reads<Refutation, TextFault>
    requires { place ≤ length bytes.now }
    ensures reads { AreRead (λ r. r) fault_of bytes.now place result (model.shared_steps bytes.now shares place) }
    ensures none { shares ≡ false → IfOk result (λ x. x.0 ≡ []) }
{
    if shares {
        read_refutation(spare, bytes, place)
    } else {
        Ok((Refutation::new(alloc), place))
    }
}

// The refutations up to the `)`, behind these shared steps, and the place behind that.
fn read_refutations(
    alloc: Global,
    spare: &mut SpareSteps,
    bytes: &[u8],
    shared: Refutation,
    place: usize,
) -> Reads<LeafProofs, TextFault>
    requires some { 0 < place }
    requires place { place ≤ length bytes.now }
    ensures reads { AreRead (λ p. p.refutations) fault_of bytes.now place result
        (refutations_to_end bytes.now place) }
    ensures shared { IfOk result (λ x. x.0.shared ≡ shared) }
{
    let mut read = LeafProofs::with_shared(alloc, shared);
    let mut at = place;
    loop {
        if let Some(after) = behind_close(bytes, at) {
            return Ok((read, after));
        }
        let (refutation, after) = read_refutation(spare, bytes, at)?;
        read.push(refutation)?;
        at = after;
    }
}

// The proofs of a leaf between brackets, and the place behind them.
fn read_leaf(
    alloc: Global,
    spare: &mut SpareSteps,
    bytes: &[u8],
    shares: bool,
    place: usize,
) -> Reads<LeafProofs, TextFault>
    requires { place ≤ length bytes.now }
    ensures reads { IsRead (λ p. p) fault_of bytes.now place result (model.leaf_proofs bytes.now shares place) }
    ensures shared { shares ≡ false → IfOk result (λ x. x.0.shared ≡ []) }
{
    let first = expect(bytes, Kind::LeftParen, place)?;
    let (shared, at) = read_shared(alloc, spare, bytes, shares, first)?;
    let (proofs, after) = read_refutations(alloc, spare, bytes, shared, at)?;
    Ok((proofs, after))
}

// The leaves up to the `)` behind a certificate that has none, and the place behind that.
pub(crate) fn read_leaves(
    alloc: Global,
    spare: &mut SpareSteps,
    bytes: &[u8],
    start: Certificate,
    place: usize,
) -> Reads<Certificate, TextFault>
    requires none { start.leaves ≡ [] }
    requires some { 0 < place }
    requires place { place ≤ length bytes.now }
    ensures reads { AreRead (λ c. c.leaves) fault_of bytes.now place result
        (leaves_to_end bytes.now start.shares place) }
    ensures shares { IfOk result (λ x. x.0.shares ≡ start.shares) }
    ensures vector { IfOk result (λ x. x.0.vector ≡ start.vector) }
{
    let mut read = start;
    let shares = read.shares();
    let mut at = place;
    loop {
        if let Some(after) = behind_close(bytes, at) {
            return Ok((read, after));
        }
        let (leaf, after) = read_leaf(alloc, spare, bytes, shares, at)?;
        read.push(leaf)?;
        at = after;
    }
}
