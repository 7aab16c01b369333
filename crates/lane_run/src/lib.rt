//! The run of a point over rows of 32 bits over one denominator: those of the columns and of the cuts stand in a table,
//! those of forms are read off it.
#![tactic(auto)]

mod pivots;
mod read_forms;
mod run;
mod turn;

pub use lane_rows::LaneRows;
pub use pivots::{entering_at, pivot_at};
pub use read_forms::ReadForms;
pub use run::run_in_lanes;
pub use short_run::Stop;
pub use turn::row_below;
