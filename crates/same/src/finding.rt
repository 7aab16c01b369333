ghost use Rattle.std.specs.Prelude.{◌≡◌, ℕ, ◌+◌, ◌≤◌, ℤ, List, Option, length, IfOk};
ghost use Rattle.pip_model.specs.Agreement.{IsChecked};
ghost use Rattle.pip_model.specs.ToolAgreement.{AgreesWalked};
ghost use Rattle.pip_model.specs.Tools.{differ_here, same_lists};
ghost use Rattle.pip_model.specs.Walks.{Walking};
ghost use Rattle.affine_forms.specs.Checks.{is_form_overflow};
ghost use Rattle.quast_walk.specs.Scoped.{IsKeptContext};
ghost use Rattle.quast_walk.specs.Faults.{tool_fault};
ghost use Rattle.quast_walk.specs.Visits.{visit_of};
ghost use Rattle.quast_walk.specs.Pairs.{AreLists};
ghost use Rattle.same.specs.Searches.{point_or, component_or, Finds};

use affine_forms::{Form, FormRefusal};
use quast::Component;
use quast_walk::{
    Context, Point, Reading, ToolRefusal, Work, above, below, difference, enter, leave, mark, point,
};

// The context's point, cut to its parameters.
pub(crate) fn find_here(
    reading: &Reading,
    context: &Context,
    work: &mut Work,
) -> Result<Option<Point>, ToolRefusal>
    requires { reading.now.parameters ≤ context.now.width }
    ensures { AgreesWalked (λ o. o) tool_fault result work.new
        (differ_here reading.now.parameters (visit_of context.now 0) work.old) }
{
    match point(reading.alloc, context, work)? {
        None => Ok(None),
        Some(mut found) => {
            found.keep_first(reading.parameters);
            Ok(Some(found))
        }
    }
}

// The context's point where a condition that was calculated is at least 0, cut to its parameters.
fn find_where(
    reading: &Reading,
    condition: Result<Form, FormRefusal>,
    context: &mut Context,
    work: &mut Work,
) -> Result<Option<Point>, ToolRefusal>
    requires few { reading.now.parameters ≤ context.old.width }
    requires narrow { IfOk condition (λ c. length c ≤ context.old.width + 1) }
    requires room { 1 ≤ context.old.spare }
    ensures finds { (zs c : List ℤ) → (next : Walking (Option (List ℤ))) → IsChecked is_form_overflow zs condition →
        IfOk condition (λ x. x ≡ c) → Finds result work.new
        (point_or reading.now.parameters (visit_of context.old 0) zs c next work.old) next }
    ensures kept { IsKeptContext context.old context.new }
{
    let condition = condition?;
    let start = mark(context);
    enter(context, condition);
    let found = find_here(reading, context, work);
    leave(context, start);
    found
}

// The first point of the context at which two components differ: the first is above the second there, or below it.
fn find_unequal(
    reading: &Reading,
    first: &Component,
    second: &Component,
    context: &mut Context,
    work: &mut Work,
) -> Result<Option<Point>, ToolRefusal>
    requires few { reading.now.parameters ≤ context.old.width }
    requires first { length first.now.form ≡ context.old.width + 1 }
    requires second { length second.now.form ≡ context.old.width + 1 }
    requires room { 1 ≤ context.old.spare }
    ensures finds { (next : Walking (Option (List ℤ))) → Finds result work.new
        (component_or reading.now.parameters (visit_of context.old 0) first.now second.now next work.old) next }
    ensures kept { IsKeptContext context.old context.new }
{
    let form = difference(reading.alloc, first, second)?;
    let over = above(reading.alloc, &form);
    match find_where(reading, over, context, work)? {
        Some(point) => Ok(Some(point)),
        None => {
            let under = below(reading.alloc, &form);
            find_where(reading, under, context, work)
        }
    }
}

// The first point at which two lists differ.
pub(crate) fn find_in_lists(
    reading: &Reading,
    first: &[Component],
    second: &[Component],
    context: &mut Context,
    work: &mut Work,
) -> Result<Option<Point>, ToolRefusal>
    requires few { reading.now.parameters ≤ context.old.width }
    requires lists { AreLists context.old.width first.now second.now }
    requires room { 1 ≤ context.old.spare }
    ensures gives { (depth : ℕ) → AgreesWalked (λ o. o) tool_fault result work.new
        (same_lists reading.now.parameters (visit_of context.old depth) first.now second.now work.old) }
    ensures kept { IsKeptContext context.old context.new }
{
    for i in 0..first.len() {
        match find_unequal(reading, &first[i], &second[i], context, work)? {
            Some(point) => return Ok(Some(point)),
            None => {}
        }
    }
    Ok(None)
}
