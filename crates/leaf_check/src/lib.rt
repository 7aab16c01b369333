//! The check of a leaf by its proofs: the forms that a refutation starts from, and those that its steps derive.
#![tactic(auto)]

mod derivation;
mod forms;
mod goal_forms;
mod goals;
mod known;
mod leaf;
mod void;

pub use derivation_steps::{Fault, Spot};
pub use goal_forms::GoalForms;
pub use known::Known;
pub use leaf::{Leaf, has_shape, refutation_count};
pub use void::{check_void, void_forms};
