ghost use Rattle.std.specs.Prelude.{◌≡◌, ◌+◌, ◌+ℤ◌, ◌*ℤ◌, length, [], ◌∷◌, All, IfOk};
ghost use Rattle.pip_model.specs.Forms.{value};
ghost use Rattle.pip_model.specs.Listed.{value_listed};
ghost use Rattle.pip_model.specs.Agreement.{IsChecked};
ghost use Rattle.affine_forms.specs.Checks.{Fits, is_overflow};

use crate::numbers::{Overflow, plus, times};

// The next partial sum, `sum + c*x`.
fn add_product(sum: i128, c: i128, x: i128) -> Result<i128, Overflow>
    ensures listed { IsChecked is_overflow ((c *ℤ x) ∷ (sum +ℤ c *ℤ x) ∷ []) result }
    ensures value { IfOk result (λ z. z ≡ sum +ℤ c *ℤ x) }
    ensures fits { IfOk result Fits }
{
    let next = plus(sum, times(c, x)?)?;
    Ok(next)
}

// The value of a form at v: the products are added in order, and then the constant.
pub(crate) fn evaluate(form: &[i128], v: &[i128]) -> Result<i128, Overflow>
    requires lengths { length v.now + 1 ≡ length form.now }
    requires fits { All Fits form.now }
    ensures listed { IsChecked is_overflow (value_listed form.now v.now) result }
    ensures value { IfOk result (λ z. z ≡ value form.now v.now) }
    ensures fits { IfOk result Fits }
{
    let mut sum = 0;
    for i in 0..v.len() {
        sum = add_product(sum, form[i], v[i])?;
    }
    let whole = plus(sum, form[v.len()])?;
    Ok(whole)
}
