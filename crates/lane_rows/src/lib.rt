//! Rows over at most seven columns, whose numbers have 32 bits and stand over one denominator: the row that a form makes,
//! the column that enters, the pivot, the cut.
#![tactic(auto)]

mod choice;
mod lane_rows;
mod reading;
mod starting;
mod turning;

pub use lane_rows::LaneRows;
