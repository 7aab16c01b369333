ghost use Rattle.std.specs.Prelude.{◌≡◌, ◌<◌, pos, IfOk};
ghost use Rattle.pip_model.specs.Forms.{entry, width as width_of};
ghost use Rattle.pip_model.specs.Cuts as model;
ghost use Rattle.new_parameters.specs.Scopes.{IsQuotient};

use crate::quotient::Quotient;
use affine_forms::{Form, FormRefusal, WantOfMemory};
use std::alloc::Global;

/// The form `-g + d*q` over so many places, where q is a new parameter at a place at which g is 0.
pub fn rounding(
    alloc: Global,
    width: usize,
    place: usize,
    k: &Quotient,
) -> Result<Form, WantOfMemory>
    requires quotient { IsQuotient width k.now }
    requires place { place < width }
    requires free { place < width_of k.now.form → entry k.now.form place ≡ pos 0 }
    ensures { IfOk result (λ form. form ≡ model.rounding width place k.now) }
{
    affine_forms::rounding(alloc, width, place, k.form.as_slice(), k.den)
}

// The form `d*q + d - 1 - g`: its constant fits, since that of g lies in 0 .. d - 1.
#[tactic(auto, using(crate::proofs::RoundingLaws::some_divisor))]
pub(crate) fn upper_bound(
    alloc: Global,
    width: usize,
    place: usize,
    k: &Quotient,
) -> Result<Form, WantOfMemory>
    requires quotient { IsQuotient width k.now }
    requires place { place < width }
    requires free { place < width_of k.now.form → entry k.now.form place ≡ pos 0 }
    ensures { IfOk result (λ form. form ≡ model.upper_bound width place k.now) }
{
    match affine_forms::upper_bound(alloc, width, place, k.form.as_slice(), k.den) {
        Ok(form) => Ok(form),
        Err(FormRefusal::WantOfMemory) => Err(WantOfMemory),
        Err(FormRefusal::Overflow) => unreachable!(),
    }
}
