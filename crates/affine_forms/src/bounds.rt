ghost use Rattle.std.specs.Prelude.{◌≡◌, ◌+◌, ◌<◌, ◌≤◌, pos, ◌-ℤ◌, ◌≤ℤ◌, [], ◌∷◌, length, All, IfOk, OnOk, slice_set};
ghost use Rattle.pip_model.specs.Forms.{entry, constant, negate, plus as plus_of, widen_to, width as width_of};
ghost use Rattle.pip_model.specs.Cuts as model;
ghost use Rattle.pip_model.specs.Agreement.{IsChecked};
ghost use Rattle.affine_forms.specs.Checks.{Fits, is_overflow, is_form_overflow};
ghost use Rattle.affine_forms.specs.Forms.{IsForm};

use crate::entries::negate_all;
use crate::form::Form;
use crate::memory::{FormRefusal, WantOfMemory};
use crate::numbers::{Overflow, plus};
use std::alloc::Global;

// The entries of the form read over so many places.
fn widen_entries(alloc: Global, width: usize, form: &[i128]) -> Result<Vec<i128>, WantOfMemory>
    requires some { 0 < length form.now }
    requires within { length form.now ≤ width + 1 }
    requires fits { All Fits form.now }
    ensures value { IfOk result (λ v. v.items ≡ widen_to width form.now) }
    ensures fits { IfOk result (λ v. All Fits v.items) }
{
    let (coefficients, constant) = form.split_at(form.len() - 1);
    let mut made = Vec::with_capacity(alloc, width.saturating_add(1))?;
    made.extend_from_slice(coefficients)?;
    made.resize(width, 0)?;
    made.extend_from_slice(constant)?;
    Ok(made)
}

/// The opposite of each entry, and then d at place q.
pub fn negate_around(entries: &mut [i128], q: usize, d: i128)
    requires place { q < length entries.old }
    requires d { Fits d }
    requires fits { All Fits entries.old }
    ensures value { entries.new ≡ slice_set (negate entries.old) q d }
    ensures fits { All Fits entries.new }
{
    negate_all(entries);
    entries[q] = d;
}

// The entries of `-g + d*q` over so many places.
fn rounding_entries(
    alloc: Global,
    width: usize,
    place: usize,
    g: &[i128],
    d: i128,
) -> Result<Vec<i128>, WantOfMemory>
    requires form { IsForm g.now }
    requires within { length g.now ≤ width + 1 }
    requires place { place < width }
    requires free { place < width_of g.now → entry g.now place ≡ pos 0 }
    requires d { Fits d }
    ensures value { IfOk result (λ v. v.items ≡ model.rounding width place (record { form = g.now; den = d })) }
    ensures form { IfOk result (λ v. IsForm v.items) }
{
    let mut made = widen_entries(alloc, width, g)?;
    negate_around(&mut made, place, d);
    Ok(made)
}

/// The form `-g + d*q` over so many places, where q stands at a place at which g is 0.
pub fn rounding(
    alloc: Global,
    width: usize,
    place: usize,
    g: &[i128],
    d: i128,
) -> Result<Form, WantOfMemory>
    requires form { IsForm g.now }
    requires within { length g.now ≤ width + 1 }
    requires place { place < width }
    requires free { place < width_of g.now → entry g.now place ≡ pos 0 }
    requires d { Fits d }
    ensures { IfOk result (λ form. form ≡ model.rounding width place (record { form = g.now; den = d })) }
{
    let entries = rounding_entries(alloc, width, place, g, d)?;
    Ok(Form::from_entries(entries))
}

/// The form `g - d*q` over so many places, where q stands at a place at which g is 0: at least 0 where q is at most the
/// floor of g over d.
pub fn lower_bound(
    alloc: Global,
    width: usize,
    place: usize,
    g: &[i128],
    d: i128,
) -> Result<Form, WantOfMemory>
    requires form { IsForm g.now }
    requires within { length g.now ≤ width + 1 }
    requires place { place < width }
    requires free { place < width_of g.now → entry g.now place ≡ pos 0 }
    requires d { Fits d }
    ensures { IfOk result (λ form. form ≡ model.lower_bound width place (record { form = g.now; den = d })) }
{
    let mut entries = rounding_entries(alloc, width, place, g, d)?;
    negate_all(&mut entries);
    Ok(Form::from_entries(entries))
}

// The form and d - 1.
fn add_below(entries: &mut [i128], d: i128) -> Result<(), Overflow>
    requires form { IsForm entries.old }
    requires divisor { pos 1 ≤ℤ d }
    ensures listed { IsChecked is_overflow (constant (plus_of entries.old (d -ℤ pos 1)) ∷ []) result }
    ensures ok { OnOk result (entries.new ≡ plus_of entries.old (d -ℤ pos 1)) }
    ensures form { IsForm entries.new }
{
    let last = entries.len() - 1;
    let constant = plus(entries[last], d - 1)?;
    entries[last] = constant;
    Ok(())
}

/// The form `d*q + d - 1 - g` over so many places, where q stands at a place at which g is 0: at least 0 where q is at
/// least the floor of g over d. It overflows exactly where its constant does not fit.
pub fn upper_bound(
    alloc: Global,
    width: usize,
    place: usize,
    g: &[i128],
    d: i128,
) -> Result<Form, FormRefusal>
    requires form { IsForm g.now }
    requires within { length g.now ≤ width + 1 }
    requires place { place < width }
    requires free { place < width_of g.now → entry g.now place ≡ pos 0 }
    requires divisor { pos 1 ≤ℤ d }
    ensures listed { IsChecked is_form_overflow
        (constant (model.upper_bound width place (record { form = g.now; den = d })) ∷ []) result }
    ensures value { IfOk result (λ form. form ≡ model.upper_bound width place (record { form = g.now; den = d })) }
{
    let mut entries = rounding_entries(alloc, width, place, g, d)?;
    add_below(&mut entries, d)?;
    Ok(Form::from_entries(entries))
}
