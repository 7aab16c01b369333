//! Certificates of answers to parametric integer programs: for each leaf of an answer the derivations by which it is
//! checked without a solver.
#![tactic(auto)]

mod certificate;
mod leaf;
mod spare_steps;
mod step;

pub use certificate::Certificate;
pub use leaf::{LeafProofs, Refutation};
pub use spare_steps::SpareSteps;
pub use step::{Step, Terms};
