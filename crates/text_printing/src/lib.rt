//! The parts that all printed texts are made of: bytes, numbers, rows of numbers. Each is put behind what stands there.
#![tactic(auto)]

mod parts;

pub use parts::{put, put_entry, put_mark, put_number, put_row};
