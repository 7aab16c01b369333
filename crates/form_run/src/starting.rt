ghost use Rattle.std.specs.Prelude.{◌≡◌, ◌+◌, ◌*◌, ◌^◌, ◌<◌, ◌≤◌, None, [], ◌∷◌, ◌++◌, length, map, All, IfErr, IfOk, IfSome, OnOk};
ghost use Rattle.pip_model.specs.Contexts.{IsContext};
ghost use Rattle.pip_model.specs.Forms.{widen_to};
ghost use Rattle.form_basis.specs.Bounds.{norm as norm_of};
ghost use Rattle.pip_model.specs.Rows.{start as start_of};
ghost use Rattle.point_turns.specs.Points.{first_rows};
ghost use Rattle.short_run.specs.Stops.{stop_fault};

use crate::flat_lists::FlatLists;
use crate::form_rows::FormRows;
use crate::marked_forms::MarkedForms;
use crate::measuring::measure;
use crate::room::RowRoom;
use affine_forms::{Form, WantOfMemory};
use form_basis::{are_short, greater, no_basis, norm};
use short_run::{ShortTableau, Stop, push_short, start_short};
use std::alloc::Global;

// Adds a form, which is read over all columns.
fn push_form(all: &mut FlatLists, n: usize, form: &Form, room: &mut RowRoom) -> Result<(), Stop>
    requires narrow { length form.now ≤ n + 1 }
    requires size { all.old.size ≡ n + 1 }
    ensures ok { OnOk result (all.new ≡ record all.old { lists = all.old.lists ++ widen_to n form.now ∷ [] }) }
    ensures free { IfErr result (λ e. stop_fault e ≡ None) }
{
    room.row.restart(n);
    push_short(&mut room.row, form)?;
    let (_, numbers) = room.row.row_numbers(0).split_at(1);
    all.push(numbers)?;
    Ok(())
}

// Adds forms, which are read over all columns.
fn push_forms(all: &mut FlatLists, n: usize, forms: &[Form], room: &mut RowRoom) -> Result<(), Stop>
    requires context { IsContext n forms.now }
    requires size { all.old.size ≡ n + 1 }
    ensures ok { OnOk result (all.new ≡ record all.old { lists = all.old.lists ++ map (widen_to n) forms.now }) }
    ensures free { IfErr result (λ e. stop_fault e ≡ None) }
{
    for form in forms {
        push_form(all, n, form, room)?;
    }
    Ok(())
}

// A number that is no less than the norms of all forms.
fn greatest_norm(all: &FlatLists) -> Option<u64>
    ensures { IfSome result (λ m. All (λ f. norm_of f ≤ m) all.now.lists) }
{
    let mut greatest = 0;
    for i in 0..all.len() {
        greatest = greater(greatest, norm(all.at(i))?);
    }
    Some(greatest)
}

// The forms of the columns at the start: each is a place's own.
fn unit_forms(alloc: Global, n: usize, room: &mut RowRoom) -> Result<FlatLists, Stop>
    requires { n + 1 < 2 ^ 64 }
    ensures size { IfOk result (λ t. t.size ≡ n + 1) }
    ensures lists { IfOk result (λ t. length t.lists ≡ n) }
    ensures free { IfErr result (λ e. stop_fault e ≡ None) }
{
    let mut columns = FlatLists::new(alloc, n + 1);
    room.row.restart(n);
    for c in 0..n {
        room.row.push_unit(c)?;
        let (_, numbers) = room.row.row_numbers(c).split_at(1);
        columns.push(numbers)?;
    }
    Ok(columns)
}

// The rows of these places and forms, where all numbers are short.
fn measured(
    alloc: Global,
    places: ShortTableau,
    forms: FlatLists,
    columns: FlatLists,
) -> Result<FormRows, Stop>
    requires places { length places.rows ≡ places.unknowns }
    requires first { places.rows ≡ start_of places.unknowns 0 [] }
    requires size { forms.size ≡ places.unknowns + 1 }
    requires wide { All (λ f. length f ≡ places.unknowns + 1) forms.lists }
    requires columns_size { columns.size ≡ places.unknowns + 1 }
    requires columns { length columns.lists ≡ places.unknowns }
    ensures value { IfOk result (λ t. t
        ≡ record { unknowns = places.unknowns; width = 0; rows = start_of places.unknowns 0 forms.lists }) }
    ensures free { IfErr result (λ e. stop_fault e ≡ None) }
{
    let mut basis = no_basis(alloc);
    let Some(norm) = greatest_norm(&forms) else {
        return Err(Stop::Long);
    };
    if !measure(&mut basis, &places) || !are_short(norm, basis.most) {
        return Err(Stop::Long);
    }
    Ok(FormRows {
        places,
        basis,
        forms: MarkedForms::new(alloc, forms),
        columns,
        norm,
        above: 0,
    })
}

/// The first rows of the run of these forms, which are those of a context and further ones, where all numbers are short.
pub fn start_by_forms(
    alloc: Global,
    n: usize,
    forms: &[Form],
    further: &[Form],
    room: &mut RowRoom,
) -> Result<FormRows, Stop>
    requires forms { IsContext n forms.now }
    requires further { IsContext n further.now }
    ensures value { IfOk result (λ t. t
        ≡ record { unknowns = n; width = 0; rows = first_rows n (forms.now ++ further.now) }) }
    ensures free { IfErr result (λ e. stop_fault e ≡ None) }
{
    let Some(size) = n.checked_add(1) else {
        return Err(Stop::Long);
    };
    let columns = unit_forms(alloc, n, room)?;
    let mut all = FlatLists::new(alloc, size);
    push_forms(&mut all, n, forms, room)?;
    push_forms(&mut all, n, further, room)?;
    let mut places = ShortTableau::new(alloc, n);
    start_short(&mut places, n, &[])?;
    measured(alloc, places, all, columns)
}
