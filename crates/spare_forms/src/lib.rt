//! Forms that are done with, kept as room for others.
#![tactic(auto)]

mod spares;

pub use spares::Spares;
