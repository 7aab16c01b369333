ghost use Rattle.std.specs.Prelude.{◌≡◌, ◌+◌, ◌-◌, ◌≤◌, ◌<◌, ◌++◌, [], ◌∷◌, pos, negsuc, slice_index_or, length, drop, All, IfOk, OnOk};
ghost use Rattle.pip_model.specs.Forms.{widen_to, opposite, constant, plus as plus_of};
ghost use Rattle.pip_model.specs.Cuts.{rounding as rounding_of};
ghost use Rattle.pip_model.specs.Listed.{opposite_listed};
ghost use Rattle.pip_model.specs.Tree.{Component};
ghost use Rattle.pip_model.specs.Agreement.{IsChecked};
ghost use Rattle.pip_model.specs.Check as model;
ghost use Rattle.affine_forms.specs.Checks.{Fits, is_overflow, is_form_overflow};
ghost use Rattle.affine_forms.specs.Forms.{IsForm};
ghost use Rattle.leaf_check.specs.Known.{ArePushed};

use crate::forms::widened_entries;
use crate::known::Known;
use affine_forms::{Form, FormRefusal, Overflow, WantOfMemory, plus};
use derivation_steps::add_multiple;
use quast::Component;

// Adds a multiple of a component's form to the sum.
fn add_component(sum: &mut [i128], a: i128, component: &Component) -> Result<(), Overflow>
    requires width { length component.now.form ≡ length sum.old }
    requires fits { All Fits sum.old }
    ensures listed { IsChecked is_overflow (model.plus_term_listed sum.old a component.now.form) result }
    ensures ok { OnOk result (sum.new ≡ model.plus_term sum.old a component.now.form) }
    ensures fits { All Fits sum.new }
{
    if a == 0 {
        return Ok(());
    }
    add_multiple(sum, a, component.form().as_slice())
}

// Adds each unknown's coefficient times its component to the sum.
fn put_in(sum: &mut [i128], row: &[i128], components: &[Component]) -> Result<(), Overflow>
    requires widths { All (λ (c : Component). length c.form ≡ length sum.old) components.now }
    requires row { length components.now ≤ length row.now }
    requires fits { All Fits sum.old }
    ensures listed { IsChecked is_overflow (model.put_in_listed sum.old row.now components.now) result }
    ensures ok { OnOk result (sum.new ≡ model.put_in sum.old row.now components.now) }
    ensures fits { All Fits sum.new }
{
    for i in 0..components.len() {
        add_component(sum, row[i], &components[i])?;
    }
    Ok(())
}

// The opposite of the form, over so many places.
fn opposite_over(width: usize, form: Form) -> Result<Form, FormRefusal>
    requires { length form ≤ width + 1 }
    ensures listed { IsChecked is_form_overflow (opposite_listed form) result }
    ensures value { IfOk result (λ made. made ≡ widen_to width (opposite form)) }
    ensures long { IfOk result (λ made. length made ≡ width + 1) }
{
    let mut form = form;
    form.opposite()?;
    let more = width - form.width();
    form.widen(more)?;
    Ok(form)
}

// The row over the scope, with the components put for the unknowns, in a room.
fn row_at(
    room: Vec<i128>,
    unknowns: usize,
    scope: usize,
    row: &Form,
    components: &[Component],
) -> Result<Form, FormRefusal>
    requires empty { room.items ≡ [] }
    requires some { unknowns < length row.now }
    requires within { length row.now ≤ unknowns + scope + 1 }
    requires count { length components.now ≤ unknowns }
    requires widths { All (λ (c : Component). length c.form ≡ scope + 1) components.now }
    ensures listed { IsChecked is_form_overflow
        (model.put_in_listed (widen_to scope (drop unknowns row.now)) row.now components.now) result }
    ensures value { IfOk result (λ r. r
        ≡ model.put_in (widen_to scope (drop unknowns row.now)) row.now components.now) }
    ensures long { IfOk result (λ r. length r ≡ scope + 1) }
{
    let (_, rest) = row.as_slice().split_at(unknowns);
    let mut sum = widened_entries(room, scope, rest, scope.saturating_add(unknowns))?;
    put_in(&mut sum, row.as_slice(), components)?;
    Ok(Form::from_entries(sum))
}

// The goal of the refutation of a tableau row, over the scope and then the unknowns: the row with the components put
// for the unknowns is below 0. It is made in a room.
pub(crate) fn row_goal(
    room: Vec<i128>,
    unknowns: usize,
    scope: usize,
    row: &Form,
    components: &[Component],
) -> Result<Form, FormRefusal>
    requires empty { room.items ≡ [] }
    requires some { unknowns < length row.now }
    requires within { length row.now ≤ unknowns + scope + 1 }
    requires count { length components.now ≤ unknowns }
    requires widths { All (λ (c : Component). length c.form ≡ scope + 1) components.now }
    ensures listed { let first = widen_to scope (drop unknowns row.now) in IsChecked is_form_overflow
        (model.put_in_listed first row.now components.now
        ++ opposite_listed (model.put_in first row.now components.now)) result }
    ensures value { IfOk result (λ made. made ≡ widen_to (scope + unknowns) (opposite
        (model.put_in (widen_to scope (drop unknowns row.now)) row.now components.now))) }
    ensures long { IfOk result (λ made. length made ≡ scope + unknowns + 1) }
{
    let width = match scope.checked_add(unknowns) {
        Some(width) => width,
        None => return Err(FormRefusal::WantOfMemory),
    };
    let r = row_at(room, unknowns, scope, row, components)?;
    opposite_over(width, r)
}

// The goal of the refutation of a component's sign: it is below 0. It is made in a room.
pub(crate) fn sign_goal(
    room: Vec<i128>,
    width: usize,
    component: &Component,
) -> Result<Form, FormRefusal>
    requires empty { room.items ≡ [] }
    requires narrow { length component.now.form ≤ width + 1 }
    ensures listed { IsChecked is_form_overflow (opposite_listed component.now.form) result }
    ensures value { IfOk result (λ made. made ≡ widen_to width (opposite component.now.form)) }
    ensures long { IfOk result (λ made. length made ≡ width + 1) }
{
    let form = component.form();
    let entries = widened_entries(room, form.width(), form.as_slice(), width)?;
    opposite_over(width, Form::from_entries(entries))
}

// The entries of that the unknown at a place is not above a component, in a room.
fn not_above(
    room: Vec<i128>,
    width: usize,
    place: usize,
    component: &Component,
) -> Result<Vec<i128>, WantOfMemory>
    requires empty { room.items ≡ [] }
    requires place { place < width }
    requires within { length component.now.form ≤ place + 1 }
    ensures value { IfOk result (λ made. made.items ≡ model.not_above width place component.now) }
    ensures long { IfOk result (λ made. length made.items ≡ width + 1) }
    ensures fits { IfOk result (λ made. All Fits made.items) }
{
    let mut made = widened_entries(room, width, component.form().as_slice(), width)?;
    made[place] = -1;
    Ok(made)
}

// The form less 1.
fn less_one(entries: &mut [i128]) -> Result<(), Overflow>
    requires form { IsForm entries.old }
    ensures listed { IsChecked is_overflow (constant (plus_of entries.old (negsuc 0)) ∷ []) result }
    ensures ok { OnOk result (entries.new ≡ plus_of entries.old (negsuc 0)) }
    ensures form { IsForm entries.new }
{
    let last = entries.len() - 1;
    let constant = plus(entries[last], -1)?;
    entries[last] = constant;
    Ok(())
}

// That the unknown at a place is below a component, in a room.
fn form_below(
    room: Vec<i128>,
    width: usize,
    place: usize,
    component: &Component,
) -> Result<Form, FormRefusal>
    requires empty { room.items ≡ [] }
    requires place { place < width }
    requires within { length component.now.form ≤ place + 1 }
    ensures listed { IsChecked is_form_overflow
        (constant (plus_of (model.not_above width place component.now) (negsuc 0)) ∷ []) result }
    ensures value { IfOk result (λ form. form ≡ plus_of (model.not_above width place component.now) (negsuc 0)) }
    ensures long { IfOk result (λ form. length form ≡ width + 1) }
{
    let mut made = not_above(room, width, place, component)?;
    less_one(&mut made)?;
    Ok(Form::from_entries(made))
}

impl Known {
    // Puts behind the forms that the unknowns from a place on agree with the components but for the last, which is
    // smaller: all of these forms from so many on.
    pub(crate) fn push_smaller(
        &mut self,
        scope: usize,
        front: &[Component],
        first: usize,
    ) -> Result<(), FormRefusal>
        requires some { first < length front.now }
        requires places { scope + length front.now ≤ self.old.width }
        requires widths { All (λ (c : Component). length c.form ≡ scope + 1) front.now }
        ensures listed { let goal = model.smaller_from self.old.width scope front.now in
            IsChecked is_form_overflow (constant (slice_index_or goal (length goal - 1) []) ∷ []) result }
        ensures pushed { ArePushed result
            (drop first (model.smaller_from self.old.width scope front.now)) self.old self.new }
    {
        let width = self.width();
        let last = front.len() - 1;
        for i in first..last {
            let made = not_above(self.room(), width, scope + i, &front[i])?;
            self.push(Form::from_entries(made))?;
        }
        let form = form_below(self.room(), width, scope + last, &front[last])?;
        self.push(form)?;
        Ok(())
    }
}
