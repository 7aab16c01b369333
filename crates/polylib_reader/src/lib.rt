//! Reads PolyLib problem texts: the context matrix, the big parameter's column, the constraint matrix, option words
//! (the PIP/PipLib user's guide).
#![tactic(auto)]

mod matrix;
mod number;
mod option;
mod problem;
mod row;
mod word;

pub use problem::read_matrices;
