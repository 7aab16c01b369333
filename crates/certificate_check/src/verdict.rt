use leaf_check::Spot;
use thiserror::Error;

/// What a check answers: the certificate is accepted, or the place of its first condition that is false.
#[derive(Clone, Copy, Debug, PartialEq, Eq)]
pub enum Verdict {
    Accepted,
    Rejected(Spot),
}

/// Why a check gives no verdict: before a condition is false, a number at this place does not fit
/// `-(2^127 - 1) .. 2^127 - 1`; or memory was refused.
#[derive(Clone, Copy, Debug, PartialEq, Eq, Error)]
pub enum CheckRefusal {
    #[error("a number at {0} does not fit")]
    Overflow(Spot),
    #[error("want of memory")]
    WantOfMemory,
}
