ghost use Rattle.std.specs.Prelude.{◌≡◌, ◌+◌, ◌<◌, ◌≤◌, pos, ◌≤ℤ◌, length, map, All, IfSome};
ghost use Rattle.form_basis.specs.ByForm.{over, place};
ghost use Rattle.form_basis.specs.ReadRows.{IsMeasured, IsRead, read};
ghost use Rattle.point_turns.specs.Turns.{negative_from};
ghost use Rattle.form_run.specs.Held.{IsAbove, behind};
ghost use Rattle.form_run.specs.Marks.{IsSeen};

use crate::flat_lists::FlatLists;
use crate::marked_forms::MarkedForms;
use form_basis::{Basis, column, value};
use short_run::ShortTableau;

// What is seen of some forms: the first below 0, or a number that none is less than, which is not below 0.
pub(crate) enum Seen {
    Below(usize),
    Above(i64),
}

// The numbers of the vertex over the scale: the constants of the places' rows.
fn vertex_of<'b>(places: &ShortTableau, basis: &'b Basis) -> &'b [i64]
    requires { IsMeasured places.now basis.now }
    ensures value { result.now ≡ over basis.now.scale (place 0) places.now.rows }
    ensures length { length result.now ≡ places.now.unknowns }
{
    let n = places.unknowns();
    column(basis.columns.as_slice(), n, n)
}

// Where the block from `at` on ends, or all forms.
fn block_end(at: usize, count: usize) -> usize
    requires { at ≤ count }
    ensures count { result ≤ count }
    ensures block { result ≤ at + 64 }
    ensures some { at < count → at < result }
    ensures whole { result < count → result ≡ at + 64 }
{
    if count - at < 64 { count } else { at + 64 }
}

// Looks at the forms from `at` to the end.
fn look(places: &ShortTableau, basis: &Basis, forms: &FlatLists, at: usize, end: usize) -> Seen
    requires read { All (IsRead places.now basis.now) forms.now.lists }
    requires at { at ≤ end }
    requires end { end ≤ length forms.now.lists }
    ensures { IsSeen places.now basis.now forms.now.lists at end result }
{
    let mut least: i64 = 9223372036854775807;
    for i in at..end {
        let value = value(places, basis, forms.at(i));
        if value < 0 {
            return Seen::Below(i);
        }
        if value < least {
            least = value;
        }
    }
    Seen::Above(least)
}

// The first of the forms whose row is below 0; so many first ones are known not to be. Blocks of which a mark tells that
// none is are passed over, and those that were looked at are marked.
pub(crate) fn form_below(
    places: &ShortTableau,
    basis: &Basis,
    forms: &mut MarkedForms,
    above: usize,
) -> Option<usize>
    requires measured { IsMeasured places.now basis.now }
    requires size { forms.old.size ≡ places.now.unknowns + 1 }
    requires read { All (IsRead places.now basis.now) forms.old.lists }
    requires above { IsAbove places.now basis.now forms.old.lists above }
    ensures forms { forms.new ≡ forms.old }
    ensures value { behind (length places.now.rows) result
        ≡ negative_from (length places.now.rows) (map (read places.now basis.now) forms.old.lists) }
    ensures above { IfSome result (IsAbove places.now basis.now forms.old.lists) }
    ensures bound { IfSome result (λ i. i < length forms.old.lists) }
{
    let vertex = vertex_of(places, basis);
    let count = forms.lists().len();
    let mut at = above;
    while at < count {
        let end = block_end(at, count);
        if !forms.stay_above(at, vertex, basis.scale) {
            match look(places, basis, forms.lists(), at, end) {
                Seen::Below(i) => return Some(i),
                Seen::Above(least) => forms.mark(at, least, vertex, basis.scale),
            }
        }
        at = end;
    }
    None
}
