ghost use Rattle.std.specs.Prelude.{◌≡◌, ◌+◌, ◌+ℤ◌, ◌*ℤ◌, ◌≤◌, ◌^◌, [], ◌∷◌, ◌++◌, pos, length, take, drop, unsigned_abs, IsTrue, All, FitsSigned, IfOk, OnOk};
ghost use Rattle.std.specs.Int.{w64};
ghost use Rattle.pip_model.specs.Agreement.{IsChecked};
ghost use Rattle.pip_model.specs.Check as model;
ghost use Rattle.affine_forms.specs.Checks.{Fits, is_overflow};

use affine_forms::{Overflow, plus, times};

// 2^125.
const SUMMAND_END: i128 = 0x2000_0000_0000_0000_0000_0000_0000_0000;

// Whether a number has 64 bits.
fn has_64_bits(z: i128) -> bool
    ensures { IsTrue result → FitsSigned w64 z }
{
    -0x8000_0000_0000_0000 <= z && z < 0x8000_0000_0000_0000
}

// The next entry, `sum + m*c`, of numbers of 64 bits.
fn short_sum(sum: i128, m: i128, c: i128) -> i128
    requires sum { FitsSigned w64 sum }
    requires m { FitsSigned w64 m }
    requires c { FitsSigned w64 c }
    ensures value { result ≡ sum +ℤ m *ℤ c }
    ensures product { Fits (m *ℤ c) }
    ensures fits { Fits (sum +ℤ m *ℤ c) }
{
    sum + m * c
}

// Whether a number has 126 bits, so that the sum of two such fits.
fn is_summand(z: i128) -> bool
    ensures { IsTrue result → unsigned_abs z ≤ 2 ^ 125 }
{
    -SUMMAND_END <= z && z < SUMMAND_END
}

// The next entry where m is 1, of numbers of 126 bits.
fn unit_sum(sum: i128, c: i128) -> i128
    requires sum { unsigned_abs sum ≤ 2 ^ 125 }
    requires c { unsigned_abs c ≤ 2 ^ 125 }
    ensures value { result ≡ sum +ℤ pos 1 *ℤ c }
    ensures product { Fits (pos 1 *ℤ c) }
    ensures fits { Fits (sum +ℤ pos 1 *ℤ c) }
{
    sum + c
}

// The next entry of any numbers.
#[inline(never)]
fn long_sum(sum: i128, m: i128, c: i128) -> Result<i128, Overflow>
    ensures listed { IsChecked is_overflow ((m *ℤ c) ∷ (sum +ℤ m *ℤ c) ∷ []) result }
    ensures value { IfOk result (λ z. z ≡ sum +ℤ m *ℤ c) }
    ensures fits { IfOk result Fits }
{
    let next = plus(sum, times(m, c)?)?;
    Ok(next)
}

// The next entry, `sum + m*c`. Mostly m is 1, and then nothing is multiplied.
#[inline(always)]
pub(crate) fn add_product(sum: i128, m: i128, c: i128) -> Result<i128, Overflow>
    ensures listed { IsChecked is_overflow ((m *ℤ c) ∷ (sum +ℤ m *ℤ c) ∷ []) result }
    ensures value { IfOk result (λ z. z ≡ sum +ℤ m *ℤ c) }
    ensures fits { IfOk result Fits }
{
    if m == 1 && is_summand(sum) && is_summand(c) {
        return Ok(unit_sum(sum, c));
    }
    if has_64_bits(sum) && has_64_bits(m) && has_64_bits(c) {
        return Ok(short_sum(sum, m, c));
    }
    // Part by part, so that the result above need not stand in memory.
    match long_sum(sum, m, c) {
        Ok(next) => Ok(next),
        Err(overflow) => Err(overflow),
    }
}

/// Adds m times a form to the sum, entry by entry. It overflows exactly where a product or a sum does not fit.
pub fn add_multiple(sum: &mut [i128], m: i128, c: &[i128]) -> Result<(), Overflow>
    requires lengths { length sum.old ≡ length c.now }
    requires fits { All Fits sum.old }
    ensures listed { IsChecked is_overflow (model.plus_term_listed sum.old m c.now) result }
    ensures ok { OnOk result (sum.new ≡ model.plus_term sum.old m c.now) }
    ensures fits { All Fits sum.new }
{
    for i in 0..c.len() {
        if c[i] == 0 {
            continue;
        }
        sum[i] = add_product(sum[i], m, c[i])?;
    }
    Ok(())
}

// Adds m times the numbers to the sum's first ones.
pub(crate) fn add_front(sum: &mut Vec<i128>, m: i128, c: &[i128]) -> Result<(), Overflow>
    requires lengths { length c.now ≤ length sum.old.items }
    requires fits { All Fits sum.old.items }
    ensures listed { IsChecked is_overflow
        (model.plus_term_listed (take (length c.now) sum.old.items) m c.now) result }
    ensures ok { OnOk result (sum.new.items
        ≡ model.plus_term (take (length c.now) sum.old.items) m c.now ++ drop (length c.now) sum.old.items) }
    ensures fits { All Fits sum.new.items }
    ensures same { length sum.new.items ≡ length sum.old.items }
{
    let (head, _) = sum.split_at_mut(c.len());
    add_multiple(head, m, c)?;
    Ok(())
}
