//! Selection trees under a context: a tree restricted to it, whether two trees agree on it, the lesser of two. Each is
//! made in a crate of its own, which is handed on here.
#![tactic(auto)]

pub use least::least;
pub use restrict::{ToolRefusal, restrict};
pub use same::{Sameness, same};
