//! A row of a tableau whose numbers have 64 bits, and what a pivot makes of it.
#![tactic(auto)]

mod begun;
mod halves;
mod numbers;
mod put;
mod row;
mod turning;
mod whole;
mod wide;

pub use numbers::{floor_mod, narrow, product, wide_entry};
pub use row::{ShortRow, divide_parts, make_unit, put_unit, view_of};
pub use short_numbers::{Nonzeros, nonzeros_of};
pub use turning::turn;
pub use wide::widen_numbers;
