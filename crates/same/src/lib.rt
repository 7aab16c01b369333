//! Whether two selection trees have the same values under a context, or the first vector of the walk at which they
//! differ.
#![tactic(auto)]

mod comparing;
mod finding;
mod leaves;
mod sameness;
mod searching;

pub use comparing::same;
pub use quast_walk::ToolRefusal;
pub use sameness::Sameness;
