//! The commands over answers: their values, their simpler forms and their pieces, and what is made of them under a
//! context.
#![tactic(auto)]

mod choosing;
mod comparing;
mod eval;
mod pieces;
mod restricting;
mod simplify;
mod trio;
mod value;

pub use choosing::Least;
pub use comparing::Same;
pub use eval::Eval;
pub use pieces::Pieces;
pub use restricting::Restrict;
pub use simplify::Simplify;
