//! The tokens of texts, and the groups that brackets make of their bytes.
#![tactic(auto)]

mod groups;
mod spaced;
mod tokens;

pub use groups::{group_end, next_open, open_after};
pub use spaced::{skip_space, spaced_number};
pub use tokens::{
    Kind, Lexeme, blank, digits, ends_number, integer, plain_number, skip_blanks, small_number,
    token, unsigned_part,
};
