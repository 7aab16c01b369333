ghost use Rattle.std.specs.Prelude.{◌≡◌};
ghost use Rattle.derivation_steps.specs.declared.fault.Fault.TheVariants as fault;
ghost use Rattle.derivation_steps.specs.Faults.{fault_of, fault_at, spot_of, of_form};

use affine_forms::{FormRefusal, WantOfMemory};
use std::fmt;

/// A place in a certificate: a leaf, a refutation of it and a step of that, each counted from 1. 0 stands for what
/// comes before the first; refutation 0 has the shared steps.
#[derive(Clone, Copy, Debug, PartialEq, Eq)]
pub struct Spot {
    pub leaf: usize,
    pub refutation: usize,
    pub step: usize,
}

impl fmt::Display for Spot {
    fn fmt<W: fmt::Write>(&self, f: &mut fmt::Formatter<W>) -> fmt::Result {
        let Spot {
            leaf,
            refutation,
            step,
        } = *self;
        write!(f, "leaf {leaf} refutation {refutation} step {step}")
    }
}

/// Why a check ends before all conditions are met.
#[derive(Clone, Copy, Debug, PartialEq, Eq)]
pub enum Fault {
    /// The condition at this place is false.
    Rejected(Spot),
    /// A number at this place does not fit.
    Overflow(Spot),
    /// An allocation was refused.
    WantOfMemory,
}

impl From<WantOfMemory> for Fault {
    ghost from_gives = { λ _ e. e ≡ fault.WantOfMemory };

    fn from(_: WantOfMemory) -> Fault {
        Fault::WantOfMemory
    }
}

// Why a step derives nothing. Its place is told where the step is known.
#[derive(Clone, Copy, Debug, PartialEq, Eq)]
pub(crate) enum StepRefusal {
    Rejected,
    Overflow,
    WantOfMemory,
}

impl StepRefusal {
    // The fault at this place.
    pub(crate) fn at(self, spot: Spot) -> Fault
        ensures { fault_of result ≡ fault_at (spot_of spot) self }
    {
        match self {
            StepRefusal::Rejected => Fault::Rejected(spot),
            StepRefusal::Overflow => Fault::Overflow(spot),
            StepRefusal::WantOfMemory => Fault::WantOfMemory,
        }
    }
}

impl From<FormRefusal> for StepRefusal {
    ghost from_gives = { λ refusal e. e ≡ of_form refusal };

    fn from(refusal: FormRefusal) -> StepRefusal {
        match refusal {
            FormRefusal::Overflow => StepRefusal::Overflow,
            FormRefusal::WantOfMemory => StepRefusal::WantOfMemory,
        }
    }
}
