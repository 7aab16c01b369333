//! The run without parameters over rows of 64 bits.
#![tactic(auto)]

mod point_rows;
mod short_rows;
mod short_run;
mod stop;

pub use point_rows::ShortRows;
pub use point_turns::ShortTableau;
pub use short_rows::{push_short, start_short};
pub use short_run::run_short;
pub use stop::Stop;
