//! The words of the command line.
#![tactic(auto)]

mod arguments;
mod command;
mod commands;
mod names;
mod number;
mod parameter_vector;
mod reading;
mod refusal;
mod values;

pub use command::{
    Command, PiecesOptions, SimplifyOptions, SolveOptions, TrialOptions, WalkOptions,
};
pub use parameter_vector::ParameterVector;
pub use reading::read_words;
pub use refusal::WordsRefusal;
