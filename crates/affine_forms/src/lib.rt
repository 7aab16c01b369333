//! Affine forms over whole numbers of 128 bits, and the checked arithmetic under them.
#![tactic(auto)]

mod bounds;
mod bytes;
mod combination;
mod division;
mod entries;
mod evaluation;
mod form;
mod forms;
mod limits;
mod memory;
mod multiples;
mod numbers;

pub use bounds::{lower_bound, negate_around, rounding, upper_bound};
pub use bytes::Bytes;
pub use combination::{add_combined, difference};
pub use division::{divide_all, gcd_with, is_whole, remainders, residues};
pub use entries::{are_nonnegative, negate_all, negated};
pub use form::Form;
pub use forms::Forms;
pub use limits::{
    MOST_COMPONENTS, MOST_CONTEXT_ROWS, MOST_NESTING, MOST_PARAMETERS, MOST_ROWS, MOST_UNKNOWNS,
};
pub use memory::{FormRefusal, WantOfMemory};
pub use multiples::round_form;
pub use numbers::{
    Overflow, divides, exact_difference, floor_div, floor_mod, gcd, minus, nonnegative, plus,
    positive, short_product, times,
};
pub use pip_model::{LimitKind, Option_};
