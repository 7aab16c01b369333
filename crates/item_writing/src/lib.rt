//! The items of an input: how a command reads each, that its text is written, one after the other, and how a run ends:
//! why, its status, and its line on the notes.
#![tactic(auto)]

mod ending;
mod input;
mod items;
mod line;
mod needed;
mod status;
mod told;
mod whole;

pub use ending::Ending;
pub use items::{Items, write_items};
pub use needed::needed_answer;
pub use status::Status;
pub use whole::write_over_input;
