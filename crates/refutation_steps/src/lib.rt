//! The steps by which forms have no whole point, along the run that finds none.
#![tactic(auto)]

mod constants;
mod form_refute;
mod positive_terms;
mod refute;
mod room;
mod short_refute;
mod trace;
mod traced_rows;

pub use positive_terms::push_positive;
pub use refute::refute_forms;
pub use room::RefutationRoom;
pub use short_refute::refute_on;
pub use trace::Trace;
