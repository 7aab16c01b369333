//! The written run of a problem: its answer, or the refusal of a number that does not fit or of a budget.
#![tactic(auto)]

mod closing;
mod keeping;
mod node;
mod pending;
mod plain;
mod rooms;
mod solver;
mod solving;
mod starting;

pub use node_turn::{Context, Work};
pub use pending::{Frame, Pending};
pub use solver::Solver;
pub use solving::{answer_from, context_point, solve};
