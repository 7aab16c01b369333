//! The step of a derivation: a sum of multiples of known forms, divided by a number, its constant rounded down.
#![tactic(auto)]

mod absurd;
mod fault;
mod step;
mod step_sum;
mod sum;
mod trimming;

pub use absurd::is_absurd;
pub use fault::{Fault, Spot};
pub use step::{derive, derives_absurd};
pub use step_sum::StepSum;
pub use sum::add_multiple;
