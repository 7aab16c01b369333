ghost use Rattle.std.specs.Prelude.{◌≡◌, ◌++◌};
ghost use Rattle.std.proofs.Common.{rules};
ghost use Rattle.std.specs.Hash as fed;
ghost use Rattle.std.specs.Cmp.Rules.{comparing, hashing};
ghost use Rattle.std.specs.Cmp.Lexicographic.{pointwise};
ghost use Rattle.std.specs.Ordering.{int_eq, on, eq_of_both};
ghost use Rattle.pip_model.specs.Forms.{coefficients, constant};
ghost use Rattle.new_parameters.specs.Keys.{trimmed as trimmed_of};

use affine_forms::Form;
use std::hash::{Hash, Hasher};
use std::marker::Model;

/// The floor of a form g over a divisor d. Two quotients are equal where their divisors are and their forms are equal
/// over the wider scope of the two.
#[derive(Drop)]
pub struct Quotient {
    /// g
    pub form: Form,
    /// d
    pub den: i128,
}

impl Model for Quotient {
    ghost use Rattle.pip_model.specs.Cuts as model;

    ghost Value = { model.Quotient };

    ghost view = { λ k. record { form = k.form; den = k.den } };
}

// The numbers up to the last that is not 0.
fn trim_zeros(numbers: &[i128]) -> &[i128]
    ensures { result.now ≡ trimmed_of numbers.now }
{
    let mut count = numbers.len();
    while count > 0 && numbers[count - 1] == 0 {
        count -= 1;
    }
    &numbers[..count]
}

impl Quotient {
    // The coefficients up to the last that is not 0, which a wider scope leaves as they are.
    fn coefficients(&self) -> &[i128]
        ensures { result.now ≡ trimmed_of (coefficients self.now.form) }
    {
        let entries = self.form.as_slice();
        trim_zeros(&entries[..entries.len() - 1])
    }

    fn constant(&self) -> i128
        ensures { result ≡ constant self.now.form }
    {
        let entries = self.form.as_slice();
        entries[entries.len() - 1]
    }
}

impl PartialEq for Quotient {
    ghost eq = { eq_of_both (on (λ k. trimmed_of (coefficients k.form)) (pointwise int_eq))
        (eq_of_both (on (λ k. constant k.form) int_eq) (on (λ k. k.den) int_eq)) };

    ghost laws = { Prim.search (comparing, rules) depth 9 };

    fn eq(&self, other: &Quotient) -> bool {
        self.coefficients() == other.coefficients()
            && self.constant() == other.constant()
            && self.den == other.den
    }
}

impl Eq for Quotient {
    ghost laws = { Prim.search (comparing, rules) depth 9 };
}

impl Hash for Quotient {
    ghost hash_input = { λ k.
        fed.slice fed.i128 (trimmed_of (coefficients k.form)) ++ fed.i128 (constant k.form) ++ fed.i128 k.den };

    ghost respects_eq = { Prim.search (hashing, rules) depth 9 };

    fn hash<H: Hasher>(&self, state: &mut H) {
        self.coefficients().hash(state);
        self.constant().hash(state);
        self.den.hash(state);
    }
}
