ghost use Rattle.std.specs.Prelude.{◌≡◌, ◌+◌, ◌-◌, ◌≤◌, ◌<◌, ℕ, ◌++◌, pos, length, take, drop, replicate, All, IfOk, IsTrue, IsFalse};
ghost use Rattle.pip_model.specs.Numbers.{is_zero};
ghost use Rattle.pip_model.specs.Forms.{entry, widen_to};
ghost use Rattle.affine_forms.specs.Checks.{Fits};
ghost use Rattle.derivation_steps.specs.Sums.{spread, EndsAtItsLast};

use affine_forms::{Form, WantOfMemory};
use std::alloc::Global;

// Whether the four numbers before this place are 0. All four are read, so that they are looked at together.
fn are_zeros_before(numbers: &[i128], count: usize) -> bool
    requires four { 4 ≤ count }
    requires within { count ≤ length numbers.now }
    ensures { IsTrue result → drop (count - 4) numbers.now ≡ replicate 4 (pos 0) ++ drop count numbers.now }
{
    (numbers[count - 1] == 0)
        & (numbers[count - 2] == 0)
        & (numbers[count - 3] == 0)
        & (numbers[count - 4] == 0)
}

// How many numbers are left of which the last four are not all 0, or fewer than four, where fours of zeros are left out
// at the end.
fn without_fours(numbers: &[i128]) -> usize
    ensures zeros { drop result numbers.now ≡ replicate (length numbers.now - result) (pos 0) }
    ensures within { result ≤ length numbers.now }
{
    let mut count = numbers.len();
    while count >= 4 && are_zeros_before(numbers, count) {
        count -= 4;
    }
    count
}

// How many numbers there are up to the last that is not 0.
pub(crate) fn trimmed_len(numbers: &[i128]) -> usize
    ensures zeros { numbers.now ≡ take result numbers.now ++ replicate (length numbers.now - result) (pos 0) }
    ensures within { result ≤ length numbers.now }
    ensures ends { 0 < result → IsFalse (is_zero (entry numbers.now (result - 1))) }
{
    let mut count = without_fours(numbers);
    while count > 0 && numbers[count - 1] == 0 {
        count -= 1;
    }
    count
}

// The form of these coefficients and this constant, which ends at its last coefficient that is not 0.
pub(crate) fn trimmed_form(
    alloc: Global,
    coefficients: &[i128],
    constant: i128,
) -> Result<Form, WantOfMemory>
    requires fits { All Fits coefficients.now }
    requires constant { Fits constant }
    ensures value { IfOk result (λ form. (w : ℕ) → length coefficients.now ≤ w
        → widen_to w form ≡ spread w coefficients.now constant) }
    ensures within { IfOk result (λ form. length form ≤ length coefficients.now + 1) }
    ensures ends { IfOk result EndsAtItsLast }
{
    let n = trimmed_len(coefficients);
    let (front, _) = coefficients.split_at(n);
    let mut made = Vec::with_capacity(alloc, n.saturating_add(1))?;
    made.extend_from_slice(front)?;
    made.push(constant)?;
    Ok(Form::from_entries(made))
}
