//! Promises of the calls that input and output, the solver, the check and the walks are made of, each a call with its
//! clauses, repeated, as in `promised`. Nothing stands on this crate, and it stands on no more than those calls, so that a
//! wrong result is tried at the least cost.
#![tactic(auto)]

mod asking;
mod contexts;
mod derivations;
mod outside;
mod readings;
mod signs;
mod windows;
