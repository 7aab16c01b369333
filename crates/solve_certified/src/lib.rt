//! The answer of a problem's run, and the certificate by which it is checked without a solver.
#![tactic(auto)]

mod certified;
mod leaf;
mod quotients;
mod refutation;
mod trail;
mod walk;

pub use certified::{Certifier, solve_with_certificate};
pub use pip_solve::Solver;
