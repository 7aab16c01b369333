ghost use Rattle.std.specs.Prelude.{◌≡◌, [], ◌∷◌, ◌++◌, true, false, All, IsTrue, IfOk, IfSome, OnOk, OnErr, option_copied};
ghost use Rattle.pip_model.specs.Certificate as model;
ghost use Rattle.pip_model.specs.Printed.{certificate_fits};
ghost use Rattle.affine_forms.specs.Checks.{Fits};
ghost use Rattle.certificate_parts.specs.Vectors.{numbers_of};

use crate::leaf::LeafProofs;
use affine_forms::WantOfMemory;
use std::alloc::Global;
use std::marker::Model;

/// A parameter vector, whose numbers fit `-(2^127 - 1) .. 2^127 - 1`, or void, and for each leaf of a tree its
/// refutations, in the order in which they were pushed. Only a certificate of format 2 has shared steps.
#[derive(Drop)]
pub struct Certificate {
    shares: bool,
    vector: Option<Vec<i128>>,
    leaves: Vec<LeafProofs>,
}

impl Model for Certificate {
    ghost use Rattle.std.specs.Prelude.{IsTrue};
    ghost use Rattle.pip_model.specs.Certificate as model;
    ghost use Rattle.pip_model.specs.Printed.{certificate_fits};
    ghost use Rattle.certificate_parts.specs.Vectors.{numbers_of};

    ghost Value = { model.Certificate };

    ghost view = { λ c. record { shares = c.shares; vector = numbers_of c.vector; leaves = c.leaves.items } };

    ghost invariant = { λ c. IsTrue (certificate_fits
        (record { shares = c.shares; vector = numbers_of c.vector; leaves = c.leaves.items })) };
}

// A copy of the numbers, where there are some.
fn copied(alloc: Global, vector: Option<&[i128]>) -> Result<Option<Vec<i128>>, WantOfMemory>
    ensures { IfOk result (λ v. numbers_of v ≡ option_copied vector.entry) }
{
    match vector {
        Some(numbers) => Ok(Some(Vec::from_slice(alloc, numbers)?)),
        None => Ok(None),
    }
}

impl Certificate {
    /// A certificate without leaves, of format 2 where steps are shared, else of format 1; it takes the parameter
    /// vector over, none where it is void.
    #[tactic(auto, using(crate::proofs::Fitting::vector_fits_from))]
    pub fn with_vector(alloc: Global, shares: bool, vector: Option<Vec<i128>>) -> Certificate
        requires fits { IfSome (numbers_of vector) (All Fits) }
        ensures value { result ≡ record { shares = shares; vector = numbers_of vector; leaves = [] } }
    {
        Certificate {
            shares,
            vector,
            leaves: Vec::new(alloc),
        }
    }

    /// A certificate of format 1 without leaves, of a parameter vector, which is copied, or void.
    pub fn try_new(alloc: Global, vector: Option<&[i128]>) -> Result<Certificate, WantOfMemory>
        requires { IfSome (option_copied vector) (All Fits) }
        ensures { IfOk result (λ c. c ≡ record { shares = false; vector = option_copied vector.entry; leaves = [] }) }
    {
        let vector = copied(alloc, vector)?;
        Ok(Certificate::with_vector(alloc, false, vector))
    }

    /// The same of format 2.
    pub fn try_new_shared(
        alloc: Global,
        vector: Option<&[i128]>,
    ) -> Result<Certificate, WantOfMemory>
        requires { IfSome (option_copied vector) (All Fits) }
        ensures { IfOk result (λ c. c ≡ record { shares = true; vector = option_copied vector.entry; leaves = [] }) }
    {
        let vector = copied(alloc, vector)?;
        Ok(Certificate::with_vector(alloc, true, vector))
    }

    /// Puts the proofs of the next leaf behind the others: in format 1 they have no shared steps. A refusal leaves the
    /// certificate as it was.
    pub fn push(&mut self, item: LeafProofs) -> Result<(), WantOfMemory>
        requires shared { self.old.shares ≡ false → item.shared ≡ [] }
        ensures ok { OnOk result (self.new ≡ record self.old { leaves = self.old.leaves ++ item ∷ [] }) }
        ensures err { OnErr result (self.new ≡ self.old) }
    {
        // Reading them tells that their numbers fit.
        let _refutations = item.as_slice();
        self.leaves.push(item)?;
        Ok(())
    }

    // The leaves, taken out.
    pub(crate) fn into_leaves(self) -> Vec<LeafProofs> {
        self.leaves
    }

    /// The leaves in order.
    pub fn as_slice(&self) -> &[LeafProofs]
        ensures value { result.now ≡ self.now.leaves }
        ensures fits { IsTrue (certificate_fits self.now) }
    {
        &self.leaves
    }

    /// The parameter vector, none where it is void.
    pub fn vector(&self) -> Option<&[i128]>
        ensures value { option_copied result ≡ self.now.vector }
        ensures fits { IfSome self.now.vector (All Fits) }
    {
        match &self.vector {
            Some(numbers) => Some(numbers.as_slice()),
            None => None,
        }
    }

    /// Whether the leaves may have shared steps: the format is 2.
    pub fn shares(&self) -> bool
        ensures { result ≡ self.now.shares }
    {
        self.shares
    }

    /// The format, 1 or 2.
    pub fn format(&self) -> i128
        ensures { result ≡ model.format self.now.shares }
    {
        if self.shares { 2 } else { 1 }
    }
}
