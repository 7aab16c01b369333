ghost use Rattle.std.specs.Prelude.{◌≡◌};
ghost use Rattle.std.specs.List.{list_all};
ghost use Rattle.pip_model.specs.Forms.{constant};
ghost use Rattle.pip_model.specs.Numbers.{is_nonneg};

use affine_forms::{Form, nonnegative};

// Whether the form's constant is at least 0.
fn is_nonnegative(form: &Form) -> bool
    ensures { result ≡ is_nonneg (constant form.now) }
{
    nonnegative(form.at(form.width()))
}

// Whether all constants are at least 0.
pub(crate) fn are_nonnegative(forms: &[Form]) -> bool
    ensures { result ≡ list_all (λ c. is_nonneg (constant c)) forms.now }
{
    forms.iter().all(|form| is_nonnegative(form))
}
