//! One turn of a node of the run: its rows' signs on the context of its path, and then a pivot, a cut, an if, a new
//! parameter, a list or bottom.
#![tactic(auto)]

mod cut;
mod known;
mod path;
mod scan;
mod turn;

pub use known::NonnegativeForms;
pub use node_rows::{NodeRows, are_read_off};
pub use path::Path;
pub use sign_split::{Context, ContextMark, Point, Work};
pub use turn::{Turn, take_turn};
