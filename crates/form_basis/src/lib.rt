//! The numbers of the unknowns' rows over one scale (`Basis`): what a form makes of them, and the test whether that is a
//! row.
#![tactic(auto)]

mod basis;
mod columns;
mod products;
mod reading;
mod row_test;
mod scales;

pub use basis::{Basis, no_basis};
pub use columns::{column, push};
pub use products::{add_product, are_short, greater, norm, wide_product, with_size};
pub use reading::{coefficient, value};
pub use row_test::checked_norm;
pub use scales::{factor, multiple};
