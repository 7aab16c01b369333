ghost use Rattle.std.specs.Prelude.{◌≡◌, ℕ, ◌≤◌, ◌<◌, length, map, IfOk, IsTrue};
ghost use Rattle.pip_model.specs.Tools as model;
ghost use Rattle.pip_model.specs.Tree.{Leaf, is_scoped};
ghost use Rattle.quast.specs.Places.{IsListOver};
ghost use Rattle.quast_walk.specs.Readings.{spread_reduced, IsOwnComponent};

use affine_forms::{Form, WantOfMemory};
use quast::Component;
use std::alloc::Global;

// The entries with n zeros behind the first m.
fn spread_entries(
    alloc: Global,
    entries: &[i128],
    m: usize,
    n: usize,
) -> Result<Vec<i128>, WantOfMemory>
    ensures { IfOk result (λ v. v.items ≡ model.spread m n entries.now) }
{
    let (front, back) = entries.split_at(m.min(entries.len()));
    let Some(middle) = front.len().checked_add(n) else {
        return Err(WantOfMemory);
    };
    let mut made = Vec::with_capacity(alloc, middle.saturating_add(back.len()))?;
    made.extend_from_slice(front)?;
    made.resize(middle, 0)?;
    made.extend_from_slice(back)?;
    Ok(made)
}

/// The form with n zeros behind its first m coefficients, or behind all its entries where these are fewer.
pub fn spread(alloc: Global, form: &Form, m: usize, n: usize) -> Result<Form, WantOfMemory>
    ensures { IfOk result (λ made. made ≡ model.spread m n form.now) }
{
    let entries = spread_entries(alloc, form.as_slice(), m, n)?;
    Ok(Form::from_entries(entries))
}

// The component with n zeros behind the first m coefficients.
fn spread_component(
    alloc: Global,
    component: &Component,
    m: usize,
    n: usize,
) -> Result<Component, WantOfMemory>
    ensures value { IfOk result (λ made. made ≡ spread_reduced m n component.now) }
    ensures component { IfOk result IsOwnComponent }
{
    let form = spread(alloc, component.form(), m, n)?;
    let made = Component::reduced(component.den(), form);
    let _ = made.den();
    Ok(made)
}

/// The components with n zeros behind the first m coefficients of each, in lowest terms.
pub fn spread_list(
    alloc: Global,
    components: &[Component],
    m: usize,
    n: usize,
) -> Result<Vec<Component>, WantOfMemory>
    ensures value { IfOk result (λ v. (w : ℕ) → IsTrue (is_scoped w (model.spread_tree m n (Leaf components.now)))
        → v.items ≡ map (model.spread_component m n) components.now) }
    ensures list { IfOk result (λ v. (w : ℕ) → IsTrue (is_scoped w (Leaf v.items)) → IsListOver w v.items) }
{
    let mut made = Vec::with_capacity(alloc, components.len())?;
    for i in 0..components.len() {
        let component = spread_component(alloc, &components[i], m, n)?;
        made.push(component)?;
    }
    Ok(made)
}
