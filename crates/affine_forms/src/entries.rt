ghost use Rattle.std.specs.Prelude.{◌≡◌, ◌↔◌, ◌≤ℤ◌, pos, All, IsTrue, IfOk, OnOk, OnErr};
ghost use Rattle.std.specs.List.{list_all};
ghost use Rattle.pip_model.specs.Numbers.{divides, gcd_of, is_nonneg};
ghost use Rattle.pip_model.specs.Forms.{coefficients, floor_divided, negate, opposite, scale, tighten};
ghost use Rattle.pip_model.specs.Listed.{opposite_listed};
ghost use Rattle.pip_model.specs.Agreement.{IsChecked};
ghost use Rattle.affine_forms.specs.Checks.{Fits, is_overflow};
ghost use Rattle.affine_forms.specs.Forms.{IsForm};

use crate::division::{divide_all, divisor};
use crate::memory::WantOfMemory;
use crate::numbers::{Overflow, minus, nonnegative};
use std::alloc::Global;

/// Whether each number is at least 0.
pub fn are_nonnegative(numbers: &[i128]) -> bool
    ensures { result ≡ list_all is_nonneg numbers.now }
{
    numbers.iter().all(|number| nonnegative(*number))
}

/// The opposite of each entry.
pub fn negate_all(entries: &mut [i128])
    requires { All Fits entries.old }
    ensures value { entries.new ≡ negate entries.old }
    ensures fits { All Fits entries.new }
{
    for entry in entries.iter_mut() {
        *entry = -*entry;
    }
}

/// The opposite of each entry, in new room.
pub fn negated(alloc: Global, entries: &[i128]) -> Result<Vec<i128>, WantOfMemory>
    requires { All Fits entries.now }
    ensures value { IfOk result (λ made. made.items ≡ negate entries.now) }
    ensures fits { IfOk result (λ made. All Fits made.items) }
{
    let mut made = Vec::from_slice(alloc, entries)?;
    negate_all(&mut made);
    Ok(made)
}

// `-c - 1`. A refusal leaves all as it was.
pub(crate) fn make_opposite(entries: &mut [i128]) -> Result<(), Overflow>
    requires { IsForm entries.old }
    ensures listed { IsChecked is_overflow (opposite_listed entries.old) result }
    ensures ok { OnOk result (entries.new ≡ opposite entries.old) }
    ensures err { OnErr result (entries.new ≡ entries.old) }
    ensures form { IsForm entries.new }
{
    let width = entries.len() - 1;
    let constant = minus(-entries[width], 1)?;
    negate_all(entries);
    entries[width] = constant;
    Ok(())
}

// The gcd of the coefficients, 0 where all are 0.
fn coefficient_divisor(entries: &[i128]) -> i128
    requires { IsForm entries.now }
    ensures value { result ≡ gcd_of (coefficients entries.now) }
    ensures low { pos 0 ≤ℤ result }
    ensures fits { Fits result }
{
    let (coefficients, _) = entries.split_at(entries.len() - 1);
    divisor(coefficients)
}

// Whether the gcd of the coefficients is at most 1.
#[tactic(auto, using(crate::proofs::Tightening::tighten_kept))]
pub(crate) fn is_tight(entries: &[i128]) -> bool
    requires { IsForm entries.now }
    ensures value { IsTrue result ↔ (gcd_of (coefficients entries.now) ≤ℤ pos 1) }
    ensures kept { IsTrue result → tighten entries.now ≡ entries.now }
{
    coefficient_divisor(entries) <= 1
}

// Divides by the gcd of the coefficients and rounds the constant down.
#[tactic(auto, using(crate::proofs::Tightening::tighten_divided, crate::proofs::Tightening::tighten_kept))]
pub(crate) fn make_tight(entries: &mut [i128])
    requires { IsForm entries.old }
    ensures value { entries.new ≡ tighten entries.old }
    ensures form { IsForm entries.new }
{
    let e = coefficient_divisor(entries);
    if e > 1 {
        divide_all(entries, e);
    }
}

// Divides by a divisor of each entry.
#[tactic(auto, using(pip_model::proofs::Gcd::floor_divided_one, crate::proofs::Divisors::scale_divided, pip_model::proofs::Forms::scale_one))]
pub(crate) fn divide_evenly(entries: &mut [i128], d: i128)
    requires positive { pos 1 ≤ℤ d }
    requires divides { All (λ x. IsTrue (divides d x)) entries.old }
    requires fits { All Fits entries.old }
    ensures value { entries.new ≡ floor_divided d entries.old }
    ensures exact { scale d entries.new ≡ entries.old }
    ensures fits { All Fits entries.new }
{
    if d > 1 {
        divide_all(entries, d);
    }
}
