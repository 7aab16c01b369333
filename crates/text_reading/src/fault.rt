ghost use Rattle.std.specs.Prelude.{◌≡◌};
ghost use Rattle.text_reading.specs.declared.fault.TextFault.TheVariants as fault;

use affine_forms::WantOfMemory;
use pip_problem::ReadRefusal;
use std::alloc::{AllocError, AllocFailed};

/// What is read and the place behind it, or why it is not read.
pub type Reads<T, E> = Result<(T, usize), E>;

/// Why a step reads nothing: the place of the token that differs (the number of bytes at their end), or of a number
/// that is too wide.
#[derive(Clone, Copy, Debug, PartialEq, Eq)]
pub enum TextFault {
    Syntax(usize),
    Wide(usize),
    WantOfMemory,
}

impl From<WantOfMemory> for TextFault {
    ghost from_gives = { λ _ e. e ≡ fault.WantOfMemory };

    fn from(_: WantOfMemory) -> TextFault {
        TextFault::WantOfMemory
    }
}

impl From<AllocError> for TextFault {
    ghost from_gives = { λ _ e. e ≡ fault.WantOfMemory };

    fn from(_: AllocError) -> TextFault {
        TextFault::WantOfMemory
    }
}

impl<T: Drop> From<AllocFailed<T>> for TextFault {
    ghost from_gives = { λ _ e. e ≡ fault.WantOfMemory };

    fn from(_: AllocFailed<T>) -> TextFault {
        TextFault::WantOfMemory
    }
}

impl From<TextFault> for ReadRefusal {
    ghost use Rattle.text_reading.specs.Steps.{fault_of};
    ghost use Rattle.pip_problem.specs.Faults.{read_fault};

    ghost from_gives = { λ fault e. read_fault e ≡ fault_of fault };

    fn from(fault: TextFault) -> ReadRefusal {
        match fault {
            TextFault::Syntax(place) => ReadRefusal::Syntax(place),
            TextFault::Wide(place) => ReadRefusal::Wide(place),
            TextFault::WantOfMemory => ReadRefusal::WantOfMemory,
        }
    }
}
