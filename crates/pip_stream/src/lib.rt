//! Native problems of an input, one after the other: each is read as soon as its group has ended.
#![tactic(auto)]

mod end;
mod more;
mod next;
mod open;
mod refusal;

pub use next::{MOST_INPUT_BYTES, next_problem, next_problem_in};
pub use pip_reader::SpareRows;
pub use refusal::NextRefusal;
