//! The walk of a selection tree under a context: where it starts, its steps at a node, how a second tree is read where
//! it stands at a leaf of a first, the nodes of a tree that is made, and what refuses it.
#![tactic(auto)]

mod differences;
mod first_lists;
mod nodes;
mod reading;
mod refusal;
mod spreading;
mod starting;
mod steps;
mod tree_walk;

pub use differences::{above, below, difference, negated};
pub use first_lists::first_list;
pub use nodes::{as_answer, choice, definition, given, leaf_node, list, list_again};
pub use reading::{Reading, TreeLeaf};
pub use refusal::ToolRefusal;
pub use sign_split::{Class, Context, Point, Work};
pub use spreading::{spread, spread_list};
pub use starting::{context_of, levels, point};
pub use steps::{enter, leave, mark, sign};
pub use tree_walk::{Walker, walk};
