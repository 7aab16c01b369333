ghost use Rattle.std.specs.Prelude.{◌≡◌, true, IfOk};
ghost use Rattle.pip_model.specs.Agreement.{Agrees};
ghost use Rattle.pip_model.specs.Check as model;
ghost use Rattle.derivation_steps.specs.Faults.{fault_of};

use crate::derivation::Derivation;
use crate::known::Known;
use affine_forms::WantOfMemory;
use certificate_parts::LeafProofs;
use derivation_steps::{Fault, Spot};
use pip_problem::Problem;
use std::alloc::Global;

/// The forms that the refutation of `void` starts from: the parameters, the context rows.
pub fn void_forms(alloc: Global, problem: &Problem) -> Result<Known, WantOfMemory>
    ensures { IfOk result (λ k. k ≡ record {
      width = problem.now.params;
      forms = (model.void_forms problem.now).known;
    }) }
{
    let mut known = Known::new(alloc, problem.params());
    known.push_places(0, problem.params())?;
    known.push_widened(problem.context())?;
    Ok(known)
}

// Checks the proofs of `void`: they have one refutation, with the steps that stand before it.
fn check_void_proofs(alloc: Global, problem: &Problem, proofs: &LeafProofs) -> Result<(), Fault>
    ensures { Agrees (λ _. tt) fault_of result (model.check_proofs true 1 problem.now.params
        (model.void_forms problem.now) model.void_premises proofs.now) }
{
    if proofs.as_slice().len() != 1 {
        return Err(Fault::Rejected(Spot {
            leaf: 1,
            refutation: 0,
            step: 0,
        }));
    }
    let mut start = void_forms(alloc, problem)?;
    let mut known = Derivation::new(alloc, start.width());
    known.put_all(&mut start)?;
    known.add_steps(alloc, 1, 0, proofs.shared().as_slice())?;
    known.refute(alloc, 1, 1, proofs.as_slice()[0].as_slice())
}

/// Checks the answer `void`: the certificate has one leaf, whose proofs are checked. Both formats are checked alike.
pub fn check_void(alloc: Global, problem: &Problem, leaves: &[LeafProofs]) -> Result<(), Fault>
    ensures { Agrees (λ _. tt) fault_of result (model.check_void problem.now true leaves.now) }
{
    if leaves.len() != 1 {
        return Err(Fault::Rejected(Spot {
            leaf: 0,
            refutation: 0,
            step: 0,
        }));
    }
    check_void_proofs(alloc, problem, &leaves[0])
}
