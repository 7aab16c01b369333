//! Selection trees (quasts): the answers to parametric integer programs (Feautrier, RAIRO 1988; the PIP/PipLib user's
//! guide).
#![tactic(auto)]

mod answer;
mod component;
mod node;
mod place;
mod quast;

pub use answer::Answer;
pub use component::{Component, Components};
pub use node::Node;
pub use place::{Place, Scratch};
pub use quast::{BuildRefusal, Parts, Quast};
