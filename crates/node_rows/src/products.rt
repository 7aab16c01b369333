ghost use Rattle.std.specs.Prelude.{◌≡◌, ◌≤◌, All, IfSome};
ghost use Rattle.pip_model.specs.Forms as model;
ghost use Rattle.form_laws.specs.Bounds as bounds;
ghost use Rattle.form_laws.specs.Columns.{IsSummable};

use affine_forms::Form;
use form_basis::{add_product, greater};
use short_numbers::narrow;

// The sum of the products of a form's first entries and the numbers of a column.
pub(crate) fn dot(form: &[i128], column: &[i64]) -> i64
    requires { IsSummable form.now column.now }
    ensures { result ≡ model.dot form.now column.now }
{
    let mut sum = 0;
    for i in 0..column.len() {
        sum = add_product(sum, narrow(form[i]), column[i]);
    }
    sum
}

// The sum of the sizes of the entries, none where it is too great.
fn norm(entries: &[i128]) -> Option<u64>
    ensures { IfSome result (λ k. k ≡ bounds.norm entries.now) }
{
    let mut sum: u64 = 0;
    for entry in entries {
        let size = entry.unsigned_abs();
        if size >= 9223372036854775808 {
            return None;
        }
        sum = sum.checked_add(size as u64)?;
    }
    Some(sum)
}

// A number that is no less than the norms of all forms, none where one is too great.
pub(crate) fn greatest_norm(forms: &[Form]) -> Option<u64>
    ensures { IfSome result (λ m. All (λ f. bounds.norm f ≤ m) forms.now) }
{
    let mut greatest: u64 = 0;
    for form in forms {
        let one = norm(form.as_slice())?;
        greatest = greater(greatest, one);
    }
    Some(greatest)
}
