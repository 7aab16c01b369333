//! A selection tree under a further context: what no vector of the context reaches is left out.
#![tactic(auto)]

mod restricting;

pub use quast_walk::ToolRefusal;
pub use restricting::restrict;
