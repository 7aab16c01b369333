//! The program's promises, each a call with its clauses, repeated over the crates that keep them. Nothing stands on this
//! crate, and it hands nothing on: of what a crate hands on, all that its types can do is loaded. A wrong result is tried
//! here, since a body that only calls is proved and refused at little cost: were the clauses of what it calls so weak that
//! they let a wrong result through, it would be proved here too.
#![tactic(auto)]

mod certificates;
mod faults;
mod problems;
mod program;
mod time;
mod walks;
