ghost use Rattle.std.specs.Prelude.{◌≡◌, [], ◌∷◌, ◌++◌, IsTrue, IfOk, OnOk, OnErr};
ghost use Rattle.affine_forms.specs.Checks.{Fits};
ghost use Rattle.certificate_parts.specs.Fitting.{terms_fit};

use affine_forms::WantOfMemory;
use std::alloc::Global;
use std::marker::Model;

/// Pairs of the index of a known form and its multiplier, in the order in which they were pushed. Both fit
/// `-(2^127 - 1) .. 2^127 - 1`.
#[derive(Drop)]
pub struct Terms {
    items: Vec<(i128, i128)>,
}

impl Model for Terms {
    ghost use Rattle.std.specs.Prelude.{List, ℤ, IsTrue};
    ghost use Rattle.certificate_parts.specs.Fitting.{terms_fit};

    ghost Value = { List (ℤ × ℤ) };

    ghost view = { λ terms. terms.items.items };

    ghost invariant = { λ terms. IsTrue (terms_fit terms.items.items) };
}

impl Terms {
    /// No pairs. It takes no memory.
    pub fn new(alloc: Global) -> Terms
        ensures { result ≡ [] }
    {
        Terms {
            items: Vec::new(alloc),
        }
    }

    /// No pairs, with room for so many.
    pub fn with_capacity(alloc: Global, pairs: usize) -> Result<Terms, WantOfMemory>
        ensures { IfOk result (λ made. made ≡ []) }
    {
        let items = Vec::with_capacity(alloc, pairs)?;
        Ok(Terms { items })
    }

    /// Makes room for so many more pairs. All stays as it was.
    pub fn reserve(&mut self, pairs: usize) -> Result<(), WantOfMemory>
        ensures { self.new ≡ self.old }
    {
        self.items.reserve(pairs)?;
        Ok(())
    }

    // No pairs, in the room of these.
    pub(crate) fn cleared(self) -> Terms
        ensures { result ≡ [] }
    {
        let mut items = self.items;
        items.clear();
        Terms { items }
    }

    /// Puts a pair of index and multiplier behind the others. A refusal leaves them as they were.
    pub fn push(&mut self, item: (i128, i128)) -> Result<(), WantOfMemory>
        requires index { Fits item.0 }
        requires multiplier { Fits item.1 }
        ensures ok { OnOk result (self.new ≡ self.old ++ item ∷ []) }
        ensures err { OnErr result (self.new ≡ self.old) }
    {
        self.items.push(item)?;
        Ok(())
    }

    /// The same pairs.
    pub fn try_clone(&self, alloc: Global) -> Result<Terms, WantOfMemory>
        ensures { IfOk result (λ made. made ≡ self.now) }
    {
        let items = Vec::from_slice(alloc, &self.items)?;
        Ok(Terms { items })
    }

    /// The pairs in order.
    pub fn as_slice(&self) -> &[(i128, i128)]
        ensures value { result.now ≡ self.now }
        ensures fits { IsTrue (terms_fit self.now) }
    {
        &self.items
    }
}

/// A step of a derivation: the sum of multiplier times known form over the pairs, divided by the divisor, which fits
/// `-(2^127 - 1) .. 2^127 - 1`. Whether the step is allowed is for a check to decide.
#[derive(Drop)]
pub struct Step {
    /// What each coefficient of the sum is divided by.
    pub divisor: i128,
    /// What is added up.
    pub terms: Terms,
}

impl Model for Step {
    ghost use Rattle.std.specs.Prelude.{IsTrue};
    ghost use Rattle.pip_model.specs.Certificate as model;
    ghost use Rattle.pip_model.specs.Printed.{step_fits};

    ghost Value = { model.Step };

    ghost view = { λ s. record { divisor = s.divisor; terms = s.terms } };

    ghost invariant = { λ s. IsTrue (step_fits (record { divisor = s.divisor; terms = s.terms })) };
}

impl Step {
    /// The same step.
    pub fn try_clone(&self, alloc: Global) -> Result<Step, WantOfMemory>
        ensures { IfOk result (λ made. made ≡ self.now) }
    {
        let terms = self.terms.try_clone(alloc)?;
        Ok(Step {
            divisor: self.divisor,
            terms,
        })
    }
}
