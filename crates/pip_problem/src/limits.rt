ghost use Rattle.std.specs.Prelude.{◌≡◌};
ghost use Rattle.affine_forms.specs.Run.{IsBudget, standard_budget};

use affine_forms::MOST_NESTING;
use std::marker::Model;

/// The budgets of a run: how many pivots, cuts and splits a problem may take, and how deep its tree may be nested.
#[derive(Drop)]
pub struct Limits {
    pivots: u64,
    cuts: u64,
    splits: u64,
    nesting: u64,
}

impl Model for Limits {
    ghost use Rattle.affine_forms.specs.Run.{Budget, IsBudget};

    ghost Value = { Budget };

    ghost view = { λ l. record { pivots = l.pivots; cuts = l.cuts; splits = l.splits; nesting = l.nesting } };

    ghost invariant = { λ l.
        IsBudget (record { pivots = l.pivots; cuts = l.cuts; splits = l.splits; nesting = l.nesting }) };
}

impl Limits {
    /// Budgets, each at most the most that it may be.
    pub fn new(pivots: u64, cuts: u64, splits: u64, nesting: u64) -> Limits
        requires { IsBudget (record { pivots = pivots; cuts = cuts; splits = splits; nesting = nesting }) }
        ensures { result ≡ record { pivots = pivots; cuts = cuts; splits = splits; nesting = nesting } }
    {
        Limits {
            pivots,
            cuts,
            splits,
            nesting,
        }
    }

    /// The budgets of a run for which none are asked.
    pub fn standard() -> Limits
        ensures { result ≡ standard_budget }
    {
        Limits::new(1_000_000, 100_000, 10_000, MOST_NESTING as u64)
    }

    /// The most pivots.
    pub fn pivots(&self) -> u64
        ensures value { result ≡ self.now.pivots }
        ensures budget { IsBudget self.now }
    {
        self.pivots
    }

    /// The most cuts.
    pub fn cuts(&self) -> u64
        ensures value { result ≡ self.now.cuts }
        ensures budget { IsBudget self.now }
    {
        self.cuts
    }

    /// The most splits.
    pub fn splits(&self) -> u64
        ensures value { result ≡ self.now.splits }
        ensures budget { IsBudget self.now }
    {
        self.splits
    }

    /// The most nested nodes.
    pub fn nesting(&self) -> u64
        ensures value { result ≡ self.now.nesting }
        ensures budget { IsBudget self.now }
    {
        self.nesting
    }
}
