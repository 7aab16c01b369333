//! The lesser of two selection trees under a context.
#![tactic(auto)]

mod choosing;
mod choosing_walk;
mod lesser_leaves;
mod lesser_lists;
mod rest;

pub use choosing::least;
pub use quast_walk::ToolRefusal;
