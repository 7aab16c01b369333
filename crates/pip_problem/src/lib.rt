//! A problem within the limits, the budgets of a run and what it counts, and the refusals of reading and of solving.
#![tactic(auto)]

mod feasible;
mod forms;
mod limits;
mod problem;
mod refusal;
mod work;

pub use affine_forms::{Bytes, LimitKind, MOST_PARAMETERS, Option_};
pub use feasible::is_feasible;
pub use limits::Limits;
pub use problem::Problem;
pub use refusal::{ReadRefusal, Refusal};
pub use work::{Counts, Work};
