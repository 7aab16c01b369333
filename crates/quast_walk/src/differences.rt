ghost use Rattle.std.specs.Prelude.{◌≡◌, ◌+◌, ◌-ℤ◌, pos, negsuc, [], ◌∷◌, length, IfOk};
ghost use Rattle.pip_model.specs.Agreement.{IsChecked};
ghost use Rattle.pip_model.specs.Forms as forms;
ghost use Rattle.pip_model.specs.Forms.{constant, plus};
ghost use Rattle.pip_model.specs.Listed.{opposite_listed};
ghost use Rattle.pip_model.specs.Tools as model;
ghost use Rattle.affine_forms.specs.Checks.{is_form_overflow};

use affine_forms::{Form, FormRefusal, WantOfMemory, negate_all};
use quast::Component;
use std::alloc::Global;

/// The first component less the second, times both denominators. They are over the same places. It overflows exactly
/// where a number of the calculation does not fit.
pub fn difference(alloc: Global, first: &Component, second: &Component) -> Result<Form, FormRefusal>
    requires { length first.now.form ≡ length second.now.form }
    ensures listed { IsChecked is_form_overflow (model.difference_listed first.now second.now) result }
    ensures value { IfOk result (λ e. e ≡ model.difference first.now second.now) }
    ensures length { IfOk result (λ e. length e ≡ length first.now.form) }
{
    let made = Form::combine(
        alloc,
        second.den(),
        first.form(),
        first.den(),
        second.form(),
    )?;
    Ok(made)
}

/// The form's opposite, entry by entry.
pub fn negated(alloc: Global, form: &Form) -> Result<Form, WantOfMemory>
    ensures value { IfOk result (λ made. made ≡ forms.negate form.now) }
    ensures length { IfOk result (λ made. length made ≡ length form.now) }
{
    let mut entries = Vec::from_slice(alloc, form.as_slice())?;
    negate_all(&mut entries);
    Ok(Form::from_entries(entries))
}

/// -e - 1: at least 0 just where e is below 0. It overflows exactly where that constant does not fit.
#[tactic(auto, using(crate::proofs::Placing::length_lemmas))]
pub fn below(alloc: Global, form: &Form) -> Result<Form, FormRefusal>
    ensures listed { IsChecked is_form_overflow (opposite_listed form.now) result }
    ensures value { IfOk result (λ made. made ≡ forms.opposite form.now) }
    ensures length { IfOk result (λ made. length made ≡ length form.now) }
{
    let mut made = form.try_clone(alloc)?;
    made.opposite()?;
    Ok(made)
}

/// e - 1: at least 0 just where e is above 0. It overflows exactly where that constant does not fit.
pub fn above(alloc: Global, form: &Form) -> Result<Form, FormRefusal>
    ensures listed { IsChecked is_form_overflow ((constant form.now -ℤ pos 1) ∷ []) result }
    ensures value { IfOk result (λ made. made ≡ plus form.now (negsuc 0)) }
    ensures length { IfOk result (λ made. length made ≡ length form.now) }
{
    let opposite = negated(alloc, form)?;
    let made = below(alloc, &opposite)?;
    Ok(made)
}
