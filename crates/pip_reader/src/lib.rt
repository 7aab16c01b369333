//! Reads native problem texts, `( (comment) Nn Np Nl Nm Bg Nq ( tableau ) ( context ) )` (the PIP/PipLib user's
//! guide), and contexts that stand alone.
#![tactic(auto)]

mod block;
mod context;
mod header;
mod problem;
mod row;
mod scan;

pub use context::read_context;
pub use problem::{keep_rows, read_problem, read_problem_in};
pub use scan::GroupScan;
pub use text_reading::SpareRows;
