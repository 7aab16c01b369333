//! The steps by which texts are read. A step goes from a place to what it reads and the place behind that, or to the
//! fault of the first token that differs.
#![tactic(auto)]

mod fault;
mod groups;
mod header;
mod lists;
mod spare;
mod steps;

pub use fault::{Reads, TextFault};
pub use groups::group;
pub use header::{no_big_parameter, within};
pub use lists::{block_in, numbers, row, row_in};
pub use spare::SpareRows;
pub use steps::{expect, expect_word, number, same_bracket, same_bytes, spells};
