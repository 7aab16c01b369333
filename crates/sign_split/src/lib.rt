//! The sign of a form on a context: at least 0, below 0, or both, by the signs of its entries or by whole points.
#![tactic(auto)]

mod classes;
mod classify;
mod signs;

pub use classes::Class;
pub use classify::{class, class_of_entries};
pub use context_points::{Context, ContextMark, Counts, Point, Work};
pub use signs::is_nowhere_below;
