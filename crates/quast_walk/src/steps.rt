ghost use Rattle.std.specs.Prelude.{◌≡◌, ℕ, ◌+◌, ◌≤◌, ◌≤ℤ◌, pos, length, IfOk, OnOk, IfErr, IsTrue};
ghost use Rattle.pip_model.specs.Agreement.{IsChecked};
ghost use Rattle.pip_model.specs.Forms as model;
ghost use Rattle.pip_model.specs.Listed.{all_fit, opposite_listed};
ghost use Rattle.pip_model.specs.Run.{class as class_in};
ghost use Rattle.pip_model.specs.ToolAgreement.{AgreesWalked};
ghost use Rattle.pip_model.specs.Walks.{by_run, below_listed};
ghost use Rattle.affine_forms.specs.Checks.{Fits, is_form_overflow};
ghost use Rattle.sign_split.specs.Scoped.{ScopedForms, IsKeptContext};
ghost use Rattle.sign_split.specs.Classes.{class_of, ConditionIs};
ghost use Rattle.quast_walk.specs.Faults.{tool_fault};
ghost use Rattle.quast_walk.specs.Visits.{visit_of, IsUnder, IsBelow, IsGrown, IsMarked};

use crate::refusal::ToolRefusal;
use affine_forms::{Form, FormRefusal, WantOfMemory, lower_bound, upper_bound};
use sign_split::{Class, Context, ContextMark, Work, class};
use std::alloc::Global;

/// The class of a node's form, which is no wider than the context: that of `sign_split`. The context stays as it was,
/// with no less room. It is refused as that is: a number does not fit, or the budget of pivots or of cuts is spent.
pub fn sign(
    alloc: Global,
    form: &Form,
    context: &mut Context,
    work: &mut Work,
) -> Result<Class, ToolRefusal>
    requires { length form.now ≤ context.old.width + 1 }
    ensures gives { AgreesWalked class_of tool_fault result work.new
        (by_run (class_in context.old.forms context.old.width form.now) work.old) }
    ensures kept { IsKeptContext context.old context.new }
    ensures budget { work.new.budget ≡ work.old.budget }
    ensures condition { IfOk result (ConditionIs (length form.now)) }
{
    let found = class(alloc, context, form, work)?;
    Ok(found)
}

/// The opposite of a condition, -c - 1: at least 0 just where the condition is below 0. Its numbers are known to fit.
#[tactic(auto, using(crate::proofs::Placing::length_lemmas))]
pub(crate) fn opposite(alloc: Global, condition: &Form) -> Result<Form, WantOfMemory>
    requires some { 1 ≤ length condition.now }
    requires fits { IsTrue (all_fit (opposite_listed condition.now)) }
    ensures value { IfOk result (λ form. form ≡ model.opposite condition.now) }
    ensures length { IfOk result (λ form. length form ≡ length condition.now) }
{
    let mut form = condition.try_clone(alloc)?;
    match form.opposite() {
        Ok(()) => Ok(form),
        Err(_) => unreachable!(),
    }
}

/// Goes where a condition is at least 0: it joins the context, which has room for it and is no narrower.
pub fn enter(context: &mut Context, condition: Form)
    requires room { 1 ≤ context.old.spare }
    requires narrow { length condition ≤ context.old.width + 1 }
    ensures { IsUnder context.old condition context.new }
{
    context.add(condition);
}

/// Goes below a new parameter, the floor of a form over a divisor: it gets a place, and its two bounds join the
/// context, which has room for both. The form is over the context's places, the divisor fits and is at least 1. It
/// overflows exactly where a number of the bounds does not fit; the context is as before then.
pub(crate) fn go_below(
    alloc: Global,
    form: &Form,
    den: i128,
    context: &mut Context,
) -> Result<(), FormRefusal>
    requires wide { length form.now ≡ context.old.width + 1 }
    requires divisor { pos 1 ≤ℤ den }
    requires fits { Fits den }
    requires room { 2 ≤ context.old.spare }
    ensures listed { (depth : ℕ) → IsChecked is_form_overflow
        (below_listed (visit_of context.old depth) (record { form = form.now; den = den })) result }
    ensures below { OnOk result (IsBelow context.old (record { form = form.now; den = den }) context.new) }
    ensures kept { IfErr result (λ e. IsKeptContext context.old context.new) }
{
    let entries = form.as_slice();
    let width = entries.len();
    let upper = upper_bound(alloc, width, width - 1, entries, den)?;
    let lower = lower_bound(alloc, width, width - 1, entries, den)?;
    context.widen();
    context.add(lower);
    context.add(upper);
    Ok(())
}

/// Marks where the walk stands, for `leave`.
pub fn mark(context: &Context) -> ContextMark
    ensures { IsMarked context.now result }
{
    context.mark()
}

/// Goes back to where the walk stood: its context at the mark is still in front of the forms that joined it since.
pub fn leave(context: &mut Context, mark: ContextMark)
    requires { (k : ScopedForms) × IsMarked k mark × IsGrown k context.old }
    ensures { (k : ScopedForms) → IsMarked k mark → IsGrown k context.old → IsKeptContext k context.new }
{
    context.back_to(mark);
}
