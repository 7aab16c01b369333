//! A row of a tableau by its numbers: as it is lent, and what a step makes of it, in 64 bits where the numbers allow.
#![tactic(auto)]

mod append;
mod elimination;
mod narrow;
mod row;
mod short;
mod step;
mod view;

pub use affine_forms::WantOfMemory;
pub use append::{
    append_divided, append_eliminated, append_entries, append_rounded, append_row, append_solved,
    append_widened,
};
pub use elimination::check_eliminated;
pub use row::{unit_column, view_of};
pub use short::is_short_row;
pub use view::RowView;
