ghost use Rattle.std.specs.Prelude.{◌≡◌, ◌+◌, ◌<◌, ◌≤◌, [], ◌∷◌, ◌++◌, length, take, drop, vec_len, vec_capacity};
ghost use Rattle.row_laws.specs.Flat.{row_of_numbers};
ghost use Rattle.tableau.specs.Places.{IsFlat, IsUnsealed, rows_kept};

use crate::appending::append_kept;
use crate::kept::{Kept, RowPlace};
use tableau_row::{unit_column, view_of};

// Keeps the row whose numbers stand last, from the place on: the row of a column as the column.
#[inline(always)]
pub(crate) fn seal(
    kept: &mut Vec<Kept>,
    numbers: &mut Vec<i128>,
    last: RowPlace,
    unknowns: usize,
    width: usize,
)
    requires unsealed { IsUnsealed unknowns width last numbers.old.items kept.old.items }
    requires room { vec_len kept.old < vec_capacity kept.old }
    ensures flat { IsFlat unknowns width numbers.new.items kept.new.items }
    ensures rows { rows_kept unknowns width numbers.new.items kept.new.items
        ≡ rows_kept unknowns width (take last.first numbers.old.items) kept.old.items
        ++ row_of_numbers unknowns (drop last.first numbers.old.items) ∷ [] }
    ensures count { length kept.new.items ≡ length kept.old.items + 1 }
    ensures kept_room { vec_capacity kept.old ≤ vec_capacity kept.new }
    ensures numbers_room { vec_capacity numbers.new ≡ vec_capacity numbers.old }
{
    let (_, row) = numbers.as_slice().split_at(last.first);
    match unit_column(&view_of(row, unknowns, last.short)) {
        Some(c) => {
            numbers.truncate(last.first);
            append_kept(kept, Kept::Unit(c));
        }
        None => append_kept(kept, Kept::At(last)),
    }
}
