//! The new parameters of a path: each is the floor of a form over a divisor, and takes the place in the vector behind
//! the parameters and the ones before it (P. Feautrier, "Parametric integer programming", RAIRO 1988).
#![tactic(auto)]

mod bounds;
mod quotient;
mod quotients;

pub use bounds::rounding;
pub use quotient::Quotient;
pub use quotients::Quotients;
