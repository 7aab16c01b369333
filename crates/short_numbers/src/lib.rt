//! Arithmetic on numbers of 64 bits: what rows whose numbers are so short are made by.
#![tactic(auto)]

mod division;
mod divisors;
mod nonzeros;
mod pairs;
mod products;

pub use division::{short_floor_div, short_gcd};
pub use divisors::gcd;
pub use nonzeros::{Nonzeros, nonzeros_of};
pub use pairs::{are_narrow, two_differences};
pub use products::{half_difference, half_product, is_half, narrow, short_difference};
