ghost use Rattle.std.specs.Prelude.{◌≡◌, ◌^◌, ◌<◌, unsigned_abs, IsTrue, ◌-ℤ◌, ◌*ℤ◌, length, [], ◌∷◌, ◌++◌, All, IfOk, OnOk, OnErr, take, vec_len};
ghost use Rattle.pip_model.specs.Forms.{combine};
ghost use Rattle.pip_model.specs.Listed.{all_fit, combine_listed};
ghost use Rattle.pip_model.specs.Agreement.{IsChecked};
ghost use Rattle.affine_forms.specs.Checks.{Fits, is_overflow, is_form_overflow};

use crate::memory::FormRefusal;
use crate::numbers::{Overflow, exact_difference, is_short, minus, short_product, times};

// `a*x - b*y` for short numbers: it fits, and so do the products.
fn short_difference(a: i128, x: i128, b: i128, y: i128) -> i128
    requires a { unsigned_abs a < 2 ^ 63 }
    requires x { unsigned_abs x < 2 ^ 63 }
    requires b { unsigned_abs b < 2 ^ 63 }
    requires y { unsigned_abs y < 2 ^ 63 }
    ensures value { result ≡ a *ℤ x -ℤ b *ℤ y }
    ensures listed { IsTrue (all_fit ((a *ℤ x) ∷ (b *ℤ y) ∷ (a *ℤ x -ℤ b *ℤ y) ∷ [])) }
    ensures fits { Fits result }
{
    exact_difference(short_product(a, x), short_product(b, y))
}

// `a*x - b*y`, each step checked.
fn checked_difference(a: i128, x: i128, b: i128, y: i128) -> Result<i128, Overflow>
    ensures listed { IsChecked is_overflow ((a *ℤ x) ∷ (b *ℤ y) ∷ (a *ℤ x -ℤ b *ℤ y) ∷ []) result }
    ensures value { IfOk result (λ z. z ≡ a *ℤ x -ℤ b *ℤ y) }
    ensures fits { IfOk result Fits }
{
    let difference = minus(times(a, x)?, times(b, y)?)?;
    Ok(difference)
}

/// `a*x - b*y`. It overflows exactly where a product or the difference does not fit.
pub fn difference(a: i128, x: i128, b: i128, y: i128) -> Result<i128, Overflow>
    ensures listed { IsChecked is_overflow ((a *ℤ x) ∷ (b *ℤ y) ∷ (a *ℤ x -ℤ b *ℤ y) ∷ []) result }
    ensures value { IfOk result (λ z. z ≡ a *ℤ x -ℤ b *ℤ y) }
    ensures fits { IfOk result Fits }
{
    if is_short(a) && is_short(x) && is_short(b) && is_short(y) {
        return Ok(short_difference(a, x, b, y));
    }
    checked_difference(a, x, b, y)
}

// Appends `a*r - b*s` up to the first number that does not fit.
fn push_combined(
    out: &mut Vec<i128>,
    a: i128,
    r: &[i128],
    b: i128,
    s: &[i128],
) -> Result<(), FormRefusal>
    requires lengths { length r.now ≡ length s.now }
    requires fits { All Fits out.old.items }
    ensures listed { IsChecked is_form_overflow (combine_listed a r.now b s.now) result }
    ensures value { OnOk result (out.new.items ≡ out.old.items ++ combine a r.now b s.now) }
    ensures front { take (vec_len out.old) out.new.items ≡ out.old.items }
    ensures fits { All Fits out.new.items }
{
    for i in 0..r.len() {
        let entry = difference(a, r[i], b, s[i])?;
        out.push(entry)?;
    }
    Ok(())
}

/// Appends `a*r - b*s`, entry by entry. It overflows exactly where a product or a difference does not fit. A refusal
/// leaves `out` as it was.
pub fn add_combined(
    out: &mut Vec<i128>,
    a: i128,
    r: &[i128],
    b: i128,
    s: &[i128],
) -> Result<(), FormRefusal>
    requires lengths { length r.now ≡ length s.now }
    requires fits { All Fits out.old.items }
    ensures listed { IsChecked is_form_overflow (combine_listed a r.now b s.now) result }
    ensures value { OnOk result (out.new.items ≡ out.old.items ++ combine a r.now b s.now) }
    ensures err { OnErr result (out.new.items ≡ out.old.items) }
    ensures fits { All Fits out.new.items }
{
    let before = out.len();
    let pushed = push_combined(out, a, r, b, s);
    if pushed.is_err() {
        out.truncate(before);
    }
    pushed
}
