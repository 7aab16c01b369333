ghost use Rattle.std.specs.Prelude.{◌+◌, ◌≤◌, ◌++◌, [], ◌∷◌, length, All};
ghost use Rattle.pip_model.specs.Agreement.{Agrees};
ghost use Rattle.pip_model.specs.Check as model;
ghost use Rattle.pip_model.specs.Forms.{widen_to};
ghost use Rattle.derivation_steps.specs.Faults.{fault_of, spot_of};
ghost use Rattle.derivation_steps.specs.Steps.{read_over};

use affine_forms::Form;
use certificate_parts::Step;
use derivation_steps::{Fault, Spot, StepSum};
use std::alloc::Global;

/// The form that a step derives from the known forms.
pub fn derive(
    alloc: Global,
    at: Spot,
    known: &[Form],
    sum: &mut StepSum,
    step: &Step,
) -> Result<Form, Fault>
    requires { All (λ c. length c ≤ sum.old.width + 1) known.now }
    ensures { let w = sum.old.width in Agrees (λ form. read_over w known.now ++ widen_to w form ∷ []) fault_of
        result (model.after_step (spot_of at) w (read_over w known.now) step.now) }
{
    derivation_steps::derive(alloc, at, known, sum, step)
}
