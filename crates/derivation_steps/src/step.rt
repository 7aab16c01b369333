ghost use Rattle.std.specs.Prelude.{◌≡◌, ◌+◌, ◌≤ℤ◌, ◌≤◌, ◌++◌, [], ◌∷◌, pos, length, All, IfOk};
ghost use Rattle.pip_model.specs.Agreement.{Agrees};
ghost use Rattle.pip_model.specs.Forms.{widen_to};
ghost use Rattle.pip_model.specs.Check as model;
ghost use Rattle.derivation_steps.specs.Faults.{fault_of, fault_at, spot_of};
ghost use Rattle.derivation_steps.specs.Steps.{absurd_after, derived_from, read_over};
ghost use Rattle.derivation_steps.specs.Sums.{total, EndsAtItsLast};

use crate::fault::{Fault, Spot, StepRefusal};
use crate::step_sum::StepSum;
use affine_forms::Form;
use certificate_parts::Step;
use std::alloc::Global;

// Adds a step's multiples of the known forms to the sum, and divides it by the step's divisor.
#[tactic(auto, using(crate::proofs::Spreading::spread_divided))]
fn derive_in(known: &[Form], sum: &mut StepSum, step: &Step) -> Result<(), StepRefusal>
    requires positive { pos 1 ≤ℤ step.now.divisor }
    requires widths { All (λ c. length c ≤ sum.old.width + 1) known.now }
    ensures gives { (at : model.Spot) → Agrees (λ _. total sum.new) (fault_at at) result
        (derived_from at (read_over sum.old.width known.now) (total sum.old) step.now) }
    ensures width { sum.new.width ≡ sum.old.width }
{
    sum.add_terms(known, step.terms.as_slice())?;
    if step.divisor == 1 {
        return Ok(());
    }
    if !sum.is_divisible(step.divisor) {
        return Err(StepRefusal::Rejected);
    }
    sum.divide(step.divisor);
    Ok(())
}

// Makes the sum that of the form that a step derives from the known forms, each over the first of the sum's places.
fn derive_sum(known: &[Form], sum: &mut StepSum, step: &Step) -> Result<(), StepRefusal>
    requires { All (λ c. length c ≤ sum.old.width + 1) known.now }
    ensures gives { (at : model.Spot) → let w = sum.old.width in
        Agrees (λ _. read_over w known.now ++ total sum.new ∷ []) (fault_at at) result
        (model.after_step at w (read_over w known.now) step.now) }
    ensures width { sum.new.width ≡ sum.old.width }
{
    if step.divisor < 1 {
        return Err(StepRefusal::Rejected);
    }
    sum.clear();
    derive_in(known, sum, step)?;
    Ok(())
}

/// The form that a step derives from the known forms, each over the first of the sum's places: it ends at its last
/// coefficient that is not 0. What the sum holds before is lost.
pub fn derive(
    alloc: Global,
    at: Spot,
    known: &[Form],
    sum: &mut StepSum,
    step: &Step,
) -> Result<Form, Fault>
    requires { All (λ c. length c ≤ sum.old.width + 1) known.now }
    ensures gives { let w = sum.old.width in Agrees (λ form. read_over w known.now ++ widen_to w form ∷ []) fault_of
        result (model.after_step (spot_of at) w (read_over w known.now) step.now) }
    ensures within { IfOk result (λ form. length form ≤ sum.old.width + 1) }
    ensures ends { IfOk result EndsAtItsLast }
    ensures width { sum.new.width ≡ sum.old.width }
{
    if let Err(refusal) = derive_sum(known, sum, step) {
        return Err(refusal.at(at));
    }
    let form = sum.form(alloc)?;
    Ok(form)
}

/// Whether the form that a step derives from the known forms is below 0 everywhere. No form is made, and so no memory is
/// taken for one; what the sum holds before is lost.
pub fn derives_absurd(
    at: Spot,
    known: &[Form],
    sum: &mut StepSum,
    step: &Step,
) -> Result<bool, Fault>
    requires { All (λ c. length c ≤ sum.old.width + 1) known.now }
    ensures gives { let w = sum.old.width in Agrees (λ absurd. absurd) fault_of
        result (absurd_after (spot_of at) w (read_over w known.now) step.now) }
    ensures width { sum.new.width ≡ sum.old.width }
{
    if let Err(refusal) = derive_sum(known, sum, step) {
        return Err(refusal.at(at));
    }
    Ok(sum.is_absurd())
}
