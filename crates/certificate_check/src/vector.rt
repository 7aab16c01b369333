ghost use Rattle.std.specs.Prelude.{◌≡◌, ◌+◌, [], ◌∷◌, length, All};
ghost use Rattle.pip_model.specs.Problem.{is_vector as is_vector_of};
ghost use Rattle.pip_model.specs.Agreement.{Agrees};
ghost use Rattle.pip_model.specs.Check as model;
ghost use Rattle.affine_forms.specs.Checks.{Fits};
ghost use Rattle.leaf_check.specs.Faults.{fault_of};

use affine_forms::{Form, Overflow, are_nonnegative};
use leaf_check::{Fault, Spot};

// The place of what stands before the first leaf.
pub(crate) const START: Spot = Spot {
    leaf: 0,
    refutation: 0,
    step: 0,
};

// Whether these are n numbers of at least 0.
pub(crate) fn is_vector(n: usize, vector: &[i128]) -> bool
    ensures { result ≡ is_vector_of n vector.now }
{
    vector.len() == n && are_nonnegative(vector)
}

// Checks that a context row is at least 0 at the vector.
fn check_row(row: &Form, vector: &[i128]) -> Result<(), Fault>
    requires width { length vector.now + 1 ≡ length row.now }
    requires fits { All Fits vector.now }
    ensures { Agrees (λ _. tt) fault_of result (model.check_context (row.now ∷ []) vector.now) }
{
    match row.value_at(vector) {
        Ok(value) => {
            if value < 0 {
                Err(Fault::Rejected(START))
            } else {
                Ok(())
            }
        }
        Err(Overflow) => Err(Fault::Overflow(START)),
    }
}

// Checks that each context row is at least 0 at the vector, in order.
pub(crate) fn check_context(rows: &[Form], vector: &[i128]) -> Result<(), Fault>
    requires widths { All (λ row. length vector.now + 1 ≡ length row) rows.now }
    requires fits { All Fits vector.now }
    ensures { Agrees (λ _. tt) fault_of result (model.check_context rows.now vector.now) }
{
    for row in rows {
        check_row(row, vector)?;
    }
    Ok(())
}
