//! Simplifies selection trees in place: drops choices that choose nothing, and new parameters that nothing uses.
#![tactic(auto)]

mod same;
mod simplifier;
mod unused;

pub use simplifier::{simplify, simplify_answer};
