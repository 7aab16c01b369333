//! The rows of a problem's nodes: those of the forms are read off the unknowns' rows where they are many.
#![tactic(auto)]

mod basis;
mod node_rows;
mod products;
mod reading;
mod rooms;
mod shared_forms;
mod stepping;
mod steps;

pub use node_rows::{NodeRows, are_read_off};
pub use point_run::count_and_cut;
pub use stepping::enter_and_pivot;
