//! The commands that solve: problems that are read, one by one or from PolyLib's matrices, and problems that are drawn.
#![tactic(auto)]

mod certified;
mod kept;
mod problems;
mod solve;
mod trial;

pub use pip_trial::{Generator, draw_problem};
pub use problems::{answer_next, write_problems};
pub use solve::Matrices;
pub use trial::Trial;
