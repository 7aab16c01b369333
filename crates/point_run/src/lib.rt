//! The run without parameters, which finds a whole point of forms: its steps, its turns and its end.
#![tactic(auto)]

mod point;
mod point_run;
mod point_turn;
mod rows;
mod steps;

pub use gomory_cut::{RowView, Tableau, view_of};
pub use point::{Point, reduced_constant};
pub use point_run::find_point;
pub use point_turn::WideRows;
pub use point_turns::{PointTurn, run_on, take_turn};
pub use rows::{push_form, start_rows};
pub use steps::{count_and_cut, enter_and_pivot};
