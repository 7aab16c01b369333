ghost use Rattle.std.specs.Prelude.{◌≡◌, ◌+◌, ◌≤◌, length, All, IfOk};
ghost use Rattle.pip_model.specs.Made as model;
ghost use Rattle.affine_forms.specs.Checks.{Fits};
ghost use Rattle.solve_certified.specs.Quotients.{steps_from, ReadsPlaces};

use affine_forms::{Form, WantOfMemory};
use certificate_parts::{Refutation, Step, Terms};
use refuter::push_positive;
use std::alloc::Global;
use std::marker::Model;

// A quotient of a path, and the place among the path's forms of the second of its bounds.
#[derive(Drop)]
pub(crate) struct PathQuotient {
    form: Form,
    den: i128,
    bound: usize,
}

impl Model for PathQuotient {
    ghost use Rattle.pip_model.specs.Made as model;
    ghost use Rattle.affine_forms.specs.Checks.{Fits};

    ghost Value = { model.PathQuotient };

    ghost view = { λ k. record { quotient = record { form = k.form; den = k.den }; bound = k.bound } };

    ghost invariant = { λ k. Fits k.den };
}

impl PathQuotient {
    pub(crate) fn try_new(
        alloc: Global,
        form: &Form,
        den: i128,
        bound: usize,
    ) -> Result<PathQuotient, WantOfMemory>
        requires { Fits den }
        ensures { IfOk result (λ k. k ≡ record { quotient = record { form = form.now; den = den }; bound = bound }) }
    {
        Ok(PathQuotient {
            form: form.try_clone(alloc)?,
            den,
            bound,
        })
    }

    // The step that gives the form of the quotient from those of the places that it reads and of its second bound. The
    // path's forms begin at this index.
    fn step(&self, alloc: Global, front: usize, places: &[i128]) -> Result<Step, WantOfMemory>
        requires places { All Fits places.now }
        requires reads { length self.now.quotient.form ≡ length places.now + 1 }
        ensures { IfOk result (λ step. step ≡ model.quotient_step front places.now self.now) }
    {
        let mut terms = Terms::with_capacity(alloc, places.len().saturating_add(1))?;
        terms.push((front as i128 + self.bound as i128, 1))?;
        let (coefficients, _) = self.form.as_slice().split_at(self.form.width());
        push_positive(&mut terms, places, coefficients)?;
        Ok(Step {
            divisor: self.den,
            terms,
        })
    }
}

// The steps of the quotients, in order. The places are the parameters, of which there are so many, and then theirs.
pub(crate) fn quotient_steps(
    alloc: Global,
    front: usize,
    params: usize,
    places: &[i128],
    quotients: &[PathQuotient],
) -> Result<Refutation, WantOfMemory>
    requires fits { All Fits places.now }
    requires reads { ReadsPlaces params quotients.now }
    requires number { params + length quotients.now ≤ length places.now }
    ensures { IfOk result (λ steps. steps ≡ steps_from front params places.now quotients.now) }
{
    let mut steps = Refutation::new(alloc);
    for j in 0..quotients.len() {
        let step = quotients[j].step(alloc, front, &places[..params + j])?;
        steps.push(step)?;
    }
    Ok(steps)
}
