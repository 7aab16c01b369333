//! Problems without parameters and points of contexts, run over rows of 64 bits to their tree or point.
#![tactic(auto)]

mod point;
mod tree;

pub use point::point_shortly;
pub use point_turns::ShortTableau;
pub use spare_forms::Spares;
pub use tree::{PlainProblem, tree_shortly};
