//! The pieces of an answer: each leaf with the conditions and new parameters of its path.
#![tactic(auto)]

mod print;
mod refusal;

pub use print::print_pieces;
pub use refusal::PiecesRefusal;
