//! Eight numbers of 32 bits, and what rows of so many are made by.
#![tactic(auto)]

mod lanes;
mod numbers;
mod rows;

pub use lanes::Lanes;
pub use numbers::with_bits;
