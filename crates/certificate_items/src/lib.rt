//! The commands over certificates: whether each is accepted, and each with its steps shared.
#![tactic(auto)]

mod check;
mod needed;
mod share;
mod triple;

pub use check::Check;
pub use share::Share;
