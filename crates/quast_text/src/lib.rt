//! The text of answers to parametric integer programs: selection trees in the notation of PIP (Feautrier, RAIRO 1988;
//! the PIP/PipLib user's guide).
#![tactic(auto)]

mod component;
mod definition;
mod fraction;
mod list;
mod print;
mod read;
mod refusal;
mod row;
mod tree;

pub use print::{print_answer, print_tree, put_comment, put_definition, put_form, put_node};
pub use read::{Spoken, read_answer};
pub use refusal::TextRefusal;
