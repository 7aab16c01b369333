//! The run of a point in rows that are read off their forms, those of its cuts too: the rows of the places alone are
//! kept.
#![tactic(auto)]

mod asking;
mod cutting;
mod flat_lists;
mod form_rows;
mod looking;
mod marked_forms;
mod marks;
mod measuring;
mod pivoting;
mod room;
mod run;
mod starting;

pub use asking::ask_by_forms;
pub use form_rows::FormRows;
pub use room::RowRoom;
pub use run::ReadRows;
pub use starting::start_by_forms;
