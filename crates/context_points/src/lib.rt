//! Contexts, which are lists of forms, and their whole points. `context` hands them on.
#![tactic(auto)]

mod asking;
mod constants;
mod context;

pub use context::{Context, ContextMark};
pub use lane_questions::{LaneSign, Lanes, tightened};
pub use pip_problem::{Counts, Work};
pub use point_run::Point;
