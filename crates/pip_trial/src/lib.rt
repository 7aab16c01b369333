//! Trials: problems drawn from a number, solved, and the count of what their answers hold.
#![tactic(auto)]

mod draw;
mod generator;
mod line;
mod tally;
mod trial;

pub use draw::draw_problem;
pub use generator::Generator;
pub use tally::Tally;
pub use trial::{print_trial, run_trial};
