ghost use Rattle.std.specs.Prelude.{◌≡◌};
ghost use Rattle.affine_forms.specs.declared.memory.FormRefusal.TheVariants as refusal;

use crate::numbers::Overflow;
use std::alloc::{AllocError, AllocFailed};

/// The refusal of a call that found no memory.
#[derive(Clone, Copy, Debug, PartialEq, Eq)]
pub struct WantOfMemory;

impl From<AllocError> for WantOfMemory {
    fn from(_: AllocError) -> WantOfMemory {
        WantOfMemory
    }
}

impl<T: Drop> From<AllocFailed<T>> for WantOfMemory {
    fn from(_: AllocFailed<T>) -> WantOfMemory {
        WantOfMemory
    }
}

/// Why a calculation that takes memory is refused.
#[derive(Clone, Copy, Debug, PartialEq, Eq)]
pub enum FormRefusal {
    Overflow,
    WantOfMemory,
}

impl From<Overflow> for FormRefusal {
    ghost from_gives = { λ _ e. e ≡ refusal.Overflow };

    fn from(_: Overflow) -> FormRefusal {
        FormRefusal::Overflow
    }
}

impl From<AllocError> for FormRefusal {
    ghost from_gives = { λ _ e. e ≡ refusal.WantOfMemory };

    fn from(_: AllocError) -> FormRefusal {
        FormRefusal::WantOfMemory
    }
}

impl<T: Drop> From<AllocFailed<T>> for FormRefusal {
    ghost from_gives = { λ _ e. e ≡ refusal.WantOfMemory };

    fn from(_: AllocFailed<T>) -> FormRefusal {
        FormRefusal::WantOfMemory
    }
}

impl From<WantOfMemory> for FormRefusal {
    ghost from_gives = { λ _ e. e ≡ refusal.WantOfMemory };

    fn from(_: WantOfMemory) -> FormRefusal {
        FormRefusal::WantOfMemory
    }
}
