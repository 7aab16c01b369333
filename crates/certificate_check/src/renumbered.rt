ghost use Rattle.std.specs.Prelude.{◌≡◌, map, IsTrue, IfOk};
ghost use Rattle.pip_model.specs.Share as model;
ghost use Rattle.certificate_parts.specs.Fitting.{terms_fit};
ghost use Rattle.certificate_check.specs.Sharing.{index_of};

use crate::numbering::Renumbering;
use affine_forms::WantOfMemory;
use certificate_parts::{Refutation, Step, Terms};
use std::alloc::Global;

// The pairs with other indices.
fn renumbered_terms(
    alloc: Global,
    terms: &[(i128, i128)],
    by: Renumbering,
) -> Result<Terms, WantOfMemory>
    requires { IsTrue (terms_fit terms.now) }
    ensures { IfOk result (λ made. made ≡ map (λ t. (index_of by t.0, t.1)) terms.now) }
{
    let mut made = Terms::new(alloc);
    for term in terms {
        let (index, multiplier) = *term;
        made.push((by.index(index), multiplier))?;
    }
    Ok(made)
}

// The step with other indices.
fn renumbered_step(alloc: Global, step: &Step, by: Renumbering) -> Result<Step, WantOfMemory>
    ensures { IfOk result (λ made. made ≡ model.renumbered (index_of by) step.now) }
{
    let terms = renumbered_terms(alloc, step.terms.as_slice(), by)?;
    Ok(Step {
        divisor: step.divisor,
        terms,
    })
}

// The steps with other indices.
pub(crate) fn renumbered_steps(
    alloc: Global,
    steps: &[Step],
    by: Renumbering,
) -> Result<Vec<Step>, WantOfMemory>
    ensures { IfOk result (λ made. made.items ≡ map (model.renumbered (index_of by)) steps.now) }
{
    let mut made = Vec::new(alloc);
    for step in steps {
        made.push(renumbered_step(alloc, step, by)?)?;
    }
    Ok(made)
}

// The refutation of these steps.
pub(crate) fn refutation(alloc: Global, steps: Vec<Step>) -> Result<Refutation, WantOfMemory>
    ensures { IfOk result (λ made. made ≡ steps.items) }
{
    let mut made = Refutation::new(alloc);
    for step in steps {
        made.push(step)?;
    }
    Ok(made)
}
