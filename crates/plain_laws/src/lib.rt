//! The run of a problem without parameters is that of a point of its rows.
#![tactic(auto)]
