//! The steps of the lexicographic dual simplex with a parametric constant: the column that enters at a row, and the
//! pivot (P. Feautrier, "Parametric integer programming", RAIRO 1988).
#![tactic(auto)]

mod choice;
mod elimination;

pub use choice::entering;
pub use elimination::pivot;
pub use tableau::StepRefusal;
