ghost use Rattle.std.specs.Prelude.{◌≡◌, ◌≤◌, ◌<◌, ◌+◌, length, All, IfOk, IfSome};
ghost use Rattle.pip_model.specs.Limits.{most_params, most_components, most_nesting};
ghost use Rattle.pip_model.specs.Tree.{nesting};
ghost use Rattle.pip_model.specs.Agreement.{Agrees};
ghost use Rattle.quast.specs.Components.{IsComponent};
ghost use Rattle.text_reading.specs.Steps.{AreRead, IsRead};
ghost use Rattle.quast_text.specs.Faults.{text_fault};
ghost use Rattle.quast_text.specs.Trees.{next_component as next_component_of, components_behind, list_at};

use crate::component::read_component;
use crate::refusal::TextRefusal;
use affine_forms::MOST_COMPONENTS;
use quast::{Component, Quast};
use std::alloc::Global;
use text_reading::{Reads, expect, same_bracket};
use text_tokens::{Kind, token};

// The next component of a list of which so many may follow, and the place behind it; none at its `)`.
fn next_component(
    alloc: Global,
    bytes: &[u8],
    width: usize,
    left: usize,
    place: usize,
) -> Result<Option<(Component, usize)>, TextRefusal>
    requires place { place ≤ length bytes.now }
    requires width { width ≤ most_params + most_nesting }
    ensures agrees { Agrees (λ o. o) text_fault result (next_component_of bytes.now width left place) }
    ensures left { IfOk result (λ o. IfSome o (λ x. 0 < left)) }
    ensures component { IfOk result (λ o. IfSome o (λ x. IsComponent width x.0)) }
    ensures order { IfOk result (λ o. IfSome o (λ x. (place ≤ x.1) × (x.1 ≤ length bytes.now))) }
{
    if same_bracket(token(bytes, place).kind, Kind::RightParen) {
        return Ok(None);
    }
    if left == 0 {
        expect(bytes, Kind::LeftRow, place)?;
        return Err(TextRefusal::Components(MOST_COMPONENTS as i128 + 1));
    }
    let (component, after) = read_component(alloc, bytes, width, place)?;
    Ok(Some((component, after)))
}

// The components behind the first one, up to the `)`, and the place behind that.
fn read_components(
    alloc: Global,
    bytes: &[u8],
    width: usize,
    first: Component,
    place: usize,
) -> Reads<Vec<Component>, TextRefusal>
    requires place { place ≤ length bytes.now }
    requires width { width ≤ most_params + most_nesting }
    requires first { IsComponent width first }
    ensures reads { AreRead (λ v. v.items) text_fault bytes.now place result
        (components_behind bytes.now width first place) }
    ensures components { IfOk result (λ x. All (IsComponent width) x.0.items) }
    ensures some { IfOk result (λ x. 0 < length x.0.items) }
    ensures few { IfOk result (λ x. length x.0.items ≤ most_components) }
{
    let mut read = Vec::new(alloc);
    read.push(first)?;
    let mut at = place;
    let mut left = MOST_COMPONENTS - 1;
    while let Some((component, after)) = next_component(alloc, bytes, width, left, at)? {
        read.push(component)?;
        at = after;
        left -= 1;
    }
    Ok((read, token(bytes, at).after))
}

// A list over so many places behind its word, and the place behind it.
#[tactic(auto, unfolding(crate::specs::Trees::list_at))]
pub(crate) fn read_list(
    alloc: Global,
    bytes: &[u8],
    width: usize,
    place: usize,
) -> Reads<Quast, TextRefusal>
    requires place { place ≤ length bytes.now }
    requires width { width ≤ most_params + most_nesting }
    ensures reads { IsRead (λ q. q.tree) text_fault bytes.now place result (list_at bytes.now width place) }
    ensures width { IfOk result (λ x. x.0.width ≡ width) }
    ensures nested { IfOk result (λ x. nesting x.0.tree ≡ 0) }
{
    let (first, at) = read_component(alloc, bytes, width, place)?;
    let (components, after) = read_components(alloc, bytes, width, first, at)?;
    Ok((Quast::list(components), after))
}
