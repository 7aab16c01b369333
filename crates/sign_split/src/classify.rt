ghost use Rattle.std.specs.Prelude.{◌≡◌, ◌+◌, ◌≤◌, None, length, IfOk, IfErr, IfSome, IfNone, IsTrue};
ghost use Rattle.pip_model.specs.Contexts.{ClassTells, IsPointRefusal};
ghost use Rattle.pip_model.specs.Forms.{widen_to, opposite, tighten};
ghost use Rattle.pip_model.specs.Listed.{all_fit, opposite_listed};
ghost use Rattle.pip_model.specs.Run as model;
ghost use Rattle.affine_forms.specs.Forms.{IsForm};
ghost use Rattle.pip_problem.specs.Faults.{run_fault};
ghost use Rattle.pip_problem.specs.Counts.{IsCountedRun};
ghost use Rattle.context_points.specs.Scoped.{IsKeptContext};
ghost use Rattle.context_points.specs.InLanes.{form_in};
ghost use Rattle.context_points.specs.Signs.{class_of_sign};
ghost use Rattle.sign_split.specs.Classes.{class_of, class_if_below, widened_class, ConditionIs};

use crate::classes::Class;
use crate::signs::{is_everywhere_below, is_nowhere_below};
use affine_forms::Form;
use context_points::{Context, LaneSign, Lanes, Work, tightened};
use pip_problem::Refusal;
use std::alloc::Global;

// The opposite of a form, whose listed number fits.
fn take_opposite(form: Form) -> Form
    requires { IsTrue (all_fit (opposite_listed form)) }
    ensures { result ≡ opposite form }
{
    let mut form = form;
    match form.opposite() {
        Ok(()) => form,
        Err(_) => unreachable!(),
    }
}

// The class of a tightened form that is below 0 at some point, by a point at which it is not.
fn class_above(
    alloc: Global,
    context: &mut Context,
    form: Form,
    work: &mut Work,
) -> Result<Class, Refusal>
    requires narrow { length form ≤ context.old.width + 1 }
    requires opposite_fits { IsTrue (all_fit (opposite_listed form)) }
    ensures gives { IsCountedRun class_of run_fault result work.old work.new
        (class_if_below context.old.width context.old.forms form) }
    ensures kept { IsKeptContext context.old context.new }
    ensures condition { IfOk result (ConditionIs (length form)) }
{
    if !context.point_with(alloc, &form, work)? {
        context.keep_room(form);
        return Ok(Class::Minus);
    }
    Ok(Class::Unknown(form))
}

// The class of a form in lanes of this sign, whose opposite's listed number fits. The form is made where it is unknown.
fn class_by_sign(
    context: &mut Context,
    form: Lanes,
    places: usize,
    sign: LaneSign,
) -> Result<Class, Refusal>
    requires few { places ≤ 7 }
    requires opposite_fits { IsTrue (all_fit (opposite_listed (form_in places form))) }
    ensures class { IfOk result (λ c. class_of c ≡ class_of_sign (form_in places form) sign) }
    ensures refused { IfErr result (λ e. run_fault e ≡ None) }
    ensures kept { IsKeptContext context.old context.new }
    ensures condition { IfOk result (ConditionIs (length (form_in places form))) }
{
    match sign {
        LaneSign::Unknown => Ok(Class::Unknown(context.form_of_lanes(form, places)?)),
        LaneSign::Plus => Ok(Class::Plus),
        LaneSign::Minus => Ok(Class::Minus),
    }
}

// The class of the tightened form of these entries by the run in lanes; none where that does not tell it, and nothing is
// counted then.
fn class_in_lanes(
    context: &mut Context,
    entries: &[i128],
    work: &mut Work,
) -> Option<Result<Class, Refusal>>
    requires form { IsForm entries.now }
    requires narrow { length entries.now ≤ context.old.width + 1 }
    ensures gives { IfSome result (λ r. IsCountedRun class_of run_fault r work.old work.new
        (model.class_by_points context.old.width context.old.forms (tighten entries.now))) }
    ensures none { IfNone result (work.new ≡ work.old) }
    ensures kept { IsKeptContext context.old context.new }
    ensures condition { IfSome result (λ r. IfOk r (ConditionIs (length entries.now))) }
{
    let form = tightened(entries)?;
    match context.sign_in_lanes(form, work)? {
        Ok(sign) => Some(class_by_sign(context, form, entries.len() - 1, sign)),
        Err(refusal) => Some(Err(refusal)),
    }
}

// The class of a tightened form by points: with its opposite, which is then turned back, and with itself.
fn class_by_points(
    alloc: Global,
    context: &mut Context,
    form: Form,
    work: &mut Work,
) -> Result<Class, Refusal>
    requires { length form ≤ context.old.width + 1 }
    ensures gives { IsCountedRun class_of run_fault result work.old work.new
        (model.class_by_points context.old.width context.old.forms form) }
    ensures kept { IsKeptContext context.old context.new }
    ensures condition { IfOk result (ConditionIs (length form)) }
{
    let _ = form.as_slice();
    let mut below = form;
    below.opposite()?;
    if !context.point_with(alloc, &below, work)? {
        context.keep_room(below);
        return Ok(Class::Plus);
    }
    class_above(alloc, context, take_opposite(below), work)
}

// The class of the form with these entries: by their signs where they tell it, else by points.
fn class_at(
    alloc: Global,
    context: &mut Context,
    entries: &[i128],
    work: &mut Work,
) -> Result<Class, Refusal>
    requires form { IsForm entries.now }
    requires narrow { length entries.now ≤ context.old.width + 1 }
    ensures gives { IsCountedRun class_of run_fault result work.old work.new
        (model.class context.old.forms context.old.width entries.now) }
    ensures kept { IsKeptContext context.old context.new }
    ensures condition { IfOk result (ConditionIs (length entries.now)) }
{
    if is_nowhere_below(entries) {
        return Ok(Class::Plus);
    }
    if is_everywhere_below(entries) {
        return Ok(Class::Minus);
    }
    if let Some(class) = class_in_lanes(context, entries, work) {
        return class;
    }
    let mut form = context.copy_form(entries)?;
    form.tighten();
    class_by_points(alloc, context, form, work)
}

/// The class of a form on a context: by the signs of its entries where they tell it, else by two points: one of the
/// context at which the tightened form is below 0, one at which it is at least 0. The form is no wider than the
/// context, which is as it was after each answer. It overflows where the constant of the tightened form's opposite
/// `-c - 1` does not fit, or in a point's run; its budgets are those of pivots and cuts. The counts stay at what was
/// counted.
pub fn class(
    alloc: Global,
    context: &mut Context,
    form: &Form,
    work: &mut Work,
) -> Result<Class, Refusal>
    requires narrow { length form.now ≤ context.old.width + 1 }
    ensures gives { IsCountedRun class_of run_fault result work.old work.new
        (model.class context.old.forms context.old.width form.now) }
    ensures kept { IsKeptContext context.old context.new }
    ensures condition { IfOk result (ConditionIs (length form.now)) }
    ensures tells { IfOk result (λ c. ClassTells context.old.width context.old.forms
        (widen_to context.old.width form.now) (widened_class context.old.width (class_of c))) }
    ensures refusal { IfErr result (λ e. IfSome (run_fault e) IsPointRefusal) }
{
    class_of_entries(alloc, context, form.as_slice(), work)
}

/// The class of the form with these entries, as `class` gives it: coefficients, and then the constant.
pub fn class_of_entries(
    alloc: Global,
    context: &mut Context,
    entries: &[i128],
    work: &mut Work,
) -> Result<Class, Refusal>
    requires form { IsForm entries.now }
    requires narrow { length entries.now ≤ context.old.width + 1 }
    ensures gives { IsCountedRun class_of run_fault result work.old work.new
        (model.class context.old.forms context.old.width entries.now) }
    ensures kept { IsKeptContext context.old context.new }
    ensures condition { IfOk result (ConditionIs (length entries.now)) }
    ensures tells { IfOk result (λ c. ClassTells context.old.width context.old.forms
        (widen_to context.old.width entries.now) (widened_class context.old.width (class_of c))) }
    ensures refusal { IfErr result (λ e. IfSome (run_fault e) IsPointRefusal) }
{
    let _ = context.mark();
    class_at(alloc, context, entries, work)
}
