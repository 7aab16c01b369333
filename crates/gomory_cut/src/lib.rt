//! Gomory cuts of a tableau whose constant forms are not whole, by constants and by quotients, the new parameters
//! (P. Feautrier, "Parametric integer programming", RAIRO 1988).
#![tactic(auto)]

mod cuts;
mod fractions;

pub use cuts::{constant_cut, parametric_cut, parametric_cut_by, rewrite};
pub use fractions::{FractionRow, find_fraction, first_fraction, residue_of};
pub use tableau::{RowView, StepRefusal, Tableau, view_of};
