ghost use Rattle.std.specs.Prelude.{◌≡◌};
ghost use Rattle.pip_words.specs.declared.refusal.WordsRefusal.TheVariants as refusal;

use std::alloc::{AllocError, AllocFailed};

/// Why the words are refused.
#[derive(Clone, Copy, Debug, PartialEq, Eq)]
pub enum WordsRefusal {
    /// The words are no command.
    Usage,
    WantOfMemory,
}

impl From<AllocError> for WordsRefusal {
    ghost from_gives = { λ _ e. e ≡ refusal.WantOfMemory };

    fn from(_: AllocError) -> WordsRefusal {
        WordsRefusal::WantOfMemory
    }
}

impl<T: Drop> From<AllocFailed<T>> for WordsRefusal {
    ghost from_gives = { λ _ e. e ≡ refusal.WantOfMemory };

    fn from(_: AllocFailed<T>) -> WordsRefusal {
        WordsRefusal::WantOfMemory
    }
}
