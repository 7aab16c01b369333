//! The run of a context's forms in lanes that is kept, and what it answers: whether the forms have a point, alone and with
//! one form more, and the sign of that form.
#![tactic(auto)]

mod forms;
mod kept;
mod questions;
mod sign;

pub use forms::{LaneForms, in_lanes, small_norm, tightened, write_form};
pub use kept::KeptLanes;
pub use lanes::Lanes;
pub use questions::LaneQuestions;
pub use sign::LaneSign;
