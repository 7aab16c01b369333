ghost use Rattle.std.specs.Prelude.{◌≡◌};
ghost use Rattle.pip_problem.specs.declared.refusal.Refusal.TheVariants as run;
ghost use Rattle.pip_problem.specs.declared.refusal.ReadRefusal.TheVariants as read;

use affine_forms::{FormRefusal, LimitKind, Option_, Overflow, WantOfMemory};
use std::alloc::{AllocError, AllocFailed};
use thiserror::Error;

/// Why a problem is not solved. The number in a budget's refusal is the limit.
#[derive(Clone, Copy, Debug, PartialEq, Eq, Error)]
pub enum Refusal {
    #[error("a number does not fit")]
    Overflow,
    #[error("more than {0} pivots")]
    Pivots(u64),
    #[error("more than {0} cuts")]
    Cuts(u64),
    #[error("more than {0} splits")]
    Splits(u64),
    #[error("a nesting of more than {0}")]
    Nesting(u64),
    #[error("want of memory")]
    WantOfMemory,
}

impl From<Overflow> for Refusal {
    ghost from_gives = { λ _ e. e ≡ run.Overflow };

    fn from(_: Overflow) -> Refusal {
        Refusal::Overflow
    }
}

impl From<WantOfMemory> for Refusal {
    ghost from_gives = { λ _ e. e ≡ run.WantOfMemory };

    fn from(_: WantOfMemory) -> Refusal {
        Refusal::WantOfMemory
    }
}

impl From<FormRefusal> for Refusal {
    ghost use Rattle.pip_problem.specs.Faults.{of_form};

    ghost from_gives = { λ form e. e ≡ of_form form };

    fn from(form: FormRefusal) -> Refusal {
        match form {
            FormRefusal::Overflow => Refusal::Overflow,
            FormRefusal::WantOfMemory => Refusal::WantOfMemory,
        }
    }
}

/// Why a problem's text is not read: the place of the token that differs, the number read, or the option word.
#[derive(Clone, Copy, Debug, PartialEq, Eq, Error)]
pub enum ReadRefusal {
    #[error("syntax at byte {0}")]
    Syntax(usize),
    #[error("the number at byte {0} is too wide")]
    Wide(usize),
    #[error("{1} is past the limit of {0:?}")]
    Limit(LimitKind, i128),
    #[error("the big parameter {0}")]
    BigParameter(i128),
    #[error("the option {0:?}")]
    OptionWord(Option_),
    #[error("want of memory")]
    WantOfMemory,
}

impl From<WantOfMemory> for ReadRefusal {
    ghost from_gives = { λ _ e. e ≡ read.WantOfMemory };

    fn from(_: WantOfMemory) -> ReadRefusal {
        ReadRefusal::WantOfMemory
    }
}

impl From<AllocError> for ReadRefusal {
    ghost from_gives = { λ _ e. e ≡ read.WantOfMemory };

    fn from(_: AllocError) -> ReadRefusal {
        ReadRefusal::WantOfMemory
    }
}

impl<T: Drop> From<AllocFailed<T>> for ReadRefusal {
    ghost from_gives = { λ _ e. e ≡ read.WantOfMemory };

    fn from(_: AllocFailed<T>) -> ReadRefusal {
        ReadRefusal::WantOfMemory
    }
}
