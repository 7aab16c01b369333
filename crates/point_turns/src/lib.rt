//! The run without parameters, which finds a whole point of forms: the rows that it works on, however they are kept, its
//! turns, and where it ends.
#![tactic(auto)]

mod rows;
mod run;
mod turns;

pub use pip_problem::Work;
pub use rows::PointRows;
pub use run::{run_on, take_turn};
pub use short_tableau::ShortTableau;
pub use turns::PointTurn;
