//! Promises of the steps of the runs: numbers, counts, rows, columns, cuts, quotients, turns, and what is kept in lanes;
//! each a call with its clauses, repeated, as in `promised`. Nothing stands on this crate, and it stands on no context, no
//! reader and no walk, so that a wrong result is tried at the least cost.
#![tactic(auto)]

mod bases;
mod laned;
mod numbers;
mod questions;
mod quotients;
mod rows;
mod turns;
