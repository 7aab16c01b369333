//! The program: the words of the command line, and then the command over the input.
#![tactic(auto)]

mod output;
mod program;

pub use item_writing::Ending;
pub use program::{pip_main, refuse_words};
pub use solve_items::{Generator, answer_next, draw_problem};
