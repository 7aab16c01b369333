//! Refutations of known forms, one after the other, from a run that is kept.
#![tactic(auto)]

mod closing;
mod kept_front;
mod narrowed;
mod places;
mod refuter;

pub use places::{PlaceRuns, Places};
pub use point_run::Point;
pub use refutation_steps::push_positive;
pub use refuter::Refuter;
