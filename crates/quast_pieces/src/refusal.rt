ghost use Rattle.std.specs.Prelude.{◌≡◌};
ghost use Rattle.quast_pieces.specs.declared.refusal.PiecesRefusal.TheVariants as refusal;

use affine_forms::{Overflow, WantOfMemory};
use std::alloc::AllocError;
use thiserror::Error;

/// Why an answer's pieces are not written.
#[derive(Clone, Copy, Debug, PartialEq, Eq, Error)]
pub enum PiecesRefusal {
    #[error("a number does not fit")]
    Overflow,
    #[error("want of memory")]
    WantOfMemory,
}

impl From<Overflow> for PiecesRefusal {
    ghost from_gives = { λ _ e. e ≡ refusal.Overflow };

    fn from(_: Overflow) -> PiecesRefusal {
        PiecesRefusal::Overflow
    }
}

impl From<WantOfMemory> for PiecesRefusal {
    ghost from_gives = { λ _ e. e ≡ refusal.WantOfMemory };

    fn from(_: WantOfMemory) -> PiecesRefusal {
        PiecesRefusal::WantOfMemory
    }
}

impl From<AllocError> for PiecesRefusal {
    ghost from_gives = { λ _ e. e ≡ refusal.WantOfMemory };

    fn from(_: AllocError) -> PiecesRefusal {
        PiecesRefusal::WantOfMemory
    }
}
