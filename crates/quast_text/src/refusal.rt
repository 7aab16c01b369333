ghost use Rattle.std.specs.Prelude.{◌≡◌};
ghost use Rattle.quast_text.specs.declared.refusal.TextRefusal.TheVariants as refusal;

use affine_forms::WantOfMemory;
use std::alloc::{AllocError, AllocFailed};
use text_reading::TextFault;
use thiserror::Error;

/// Why an answer's text is not read: the place of the token that differs, or of one whose numbers do not fit; more
/// than the most nested nodes; the number of components from which on a list has too many.
#[derive(Clone, Copy, Debug, PartialEq, Eq, Error)]
pub enum TextRefusal {
    #[error("syntax at byte {0}")]
    Syntax(usize),
    #[error("the number at byte {0} is too wide")]
    Wide(usize),
    #[error("too deep a nesting")]
    Nesting,
    #[error("a list of {0} components")]
    Components(i128),
    #[error("want of memory")]
    WantOfMemory,
}

impl From<WantOfMemory> for TextRefusal {
    ghost from_gives = { λ _ e. e ≡ refusal.WantOfMemory };

    fn from(_: WantOfMemory) -> TextRefusal {
        TextRefusal::WantOfMemory
    }
}

impl From<AllocError> for TextRefusal {
    ghost from_gives = { λ _ e. e ≡ refusal.WantOfMemory };

    fn from(_: AllocError) -> TextRefusal {
        TextRefusal::WantOfMemory
    }
}

impl<T: Drop> From<AllocFailed<T>> for TextRefusal {
    ghost from_gives = { λ _ e. e ≡ refusal.WantOfMemory };

    fn from(_: AllocFailed<T>) -> TextRefusal {
        TextRefusal::WantOfMemory
    }
}

impl From<TextFault> for TextRefusal {
    ghost use Rattle.text_reading.specs.Steps.{fault_of};
    ghost use Rattle.quast_text.specs.Faults.{text_fault};

    ghost from_gives = { λ fault e. text_fault e ≡ fault_of fault };

    fn from(fault: TextFault) -> TextRefusal {
        match fault {
            TextFault::Syntax(place) => TextRefusal::Syntax(place),
            TextFault::Wide(place) => TextRefusal::Wide(place),
            TextFault::WantOfMemory => TextRefusal::WantOfMemory,
        }
    }
}
