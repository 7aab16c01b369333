//! The tableau of the dual simplex without parameters, whose numbers have 64 bits: its rows, the column that enters,
//! the pivot and the cut (P. Feautrier, "Parametric integer programming", RAIRO 1988).
#![tactic(auto)]

mod choice;
mod cuts;
mod ending;
mod fractions;
mod pushing;
mod rows;
mod short_table;

pub use short_table::ShortTableau;
