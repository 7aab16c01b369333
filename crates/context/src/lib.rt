//! Contexts, which are lists of forms, their whole points, and the steps by which a context has none.
#![tactic(auto)]

mod refute;

pub use context_points::{Context, ContextMark, Point, Work};
pub use refute::Refute;
