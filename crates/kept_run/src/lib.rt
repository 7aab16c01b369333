//! The run of some forms that is kept: how it goes on where forms are added, and what it answers of further ones.
#![tactic(auto)]

mod asking;
mod behind;
mod further;
mod question;
mod remembered;

pub use asking::ask_shortly;
pub use behind::{put_behind, rows_behind};
pub use further::{go_further, goes_further};
pub use question::Question;
pub use remembered::{Remembered, Replay, remember};
pub use spare_forms::Spares;
