//! The tableau of the dual simplex: rows of whole numbers over a common denominator, each with a constant form
//! over the parameters (P. Feautrier, "Parametric integer programming", RAIRO 1988).
#![tactic(auto)]

mod appending;
mod copying;
mod exchange;
mod flat_rows;
mod kept;
mod pushing;
mod row_rounding;
mod sealing;
mod tableau;
mod unit_run;
mod widening;

pub use affine_forms::FormRefusal as StepRefusal;
pub use tableau::Tableau;
pub use tableau_row::{RowView, view_of};
