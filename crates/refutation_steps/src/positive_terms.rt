ghost use Rattle.std.specs.Prelude.{◌≡◌, ◌≤◌, ◌++◌, length, take, All, OnOk, OnErr};
ghost use Rattle.pip_model.specs.Forms.{negate};
ghost use Rattle.pip_model.specs.Refuting as model;
ghost use Rattle.affine_forms.specs.Checks.{Fits};

use affine_forms::{WantOfMemory, positive};
use certificate_parts::Terms;

/// Puts the indices whose multipliers are above 0 behind the pairs, each with its multiplier, in order. After a refusal
/// some of them may stand there, behind the pairs that were there before.
pub fn push_positive(
    terms: &mut Terms,
    indices: &[i128],
    multipliers: &[i128],
) -> Result<(), WantOfMemory>
    requires number { length multipliers.now ≡ length indices.now }
    requires indices { All Fits indices.now }
    requires multipliers { All Fits multipliers.now }
    ensures ok { OnOk result (terms.new ≡ terms.old ++ model.positive_terms indices.now multipliers.now) }
    ensures err { OnErr result (take (length terms.old) terms.new ≡ terms.old) }
{
    for i in 0..indices.len() {
        if positive(multipliers[i]) {
            terms.push((indices[i], multipliers[i]))?;
        }
    }
    Ok(())
}

// How many of the numbers are below 0.
pub(crate) fn count_negative(numbers: &[i64]) -> usize
    ensures { result ≤ length numbers.now }
{
    let mut count = 0;
    for number in numbers {
        if *number < 0 {
            count += 1;
        }
    }
    count
}

// Puts the indices whose numbers are below 0 behind the pairs, each with the opposite number, in order.
pub(crate) fn push_opposites(
    terms: &mut Terms,
    indices: &[i128],
    numbers: &[i64],
) -> Result<(), WantOfMemory>
    requires number { length numbers.now ≡ length indices.now }
    requires indices { All Fits indices.now }
    ensures { OnOk result (terms.new ≡ terms.old ++ model.positive_terms indices.now (negate numbers.now)) }
{
    for i in 0..indices.len() {
        if numbers[i] < 0 {
            terms.push((indices[i], -(numbers[i] as i128)))?;
        }
    }
    Ok(())
}
