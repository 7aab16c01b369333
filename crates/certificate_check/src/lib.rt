//! The check of an answer to a parametric integer program by its certificate. It stands on no solver.
#![tactic(auto)]

mod checking;
mod common;
mod numbering;
mod path;
mod renumbered;
mod sharing;
mod vector;
mod verdict;
mod walk;

pub use checking::{check, check_in};
pub use leaf_check::{GoalForms, Known, Leaf, Spot, refutation_count, void_forms};
pub use path::NodePath;
pub use sharing::share;
pub use verdict::{CheckRefusal, Verdict};
