ghost use Rattle.std.specs.Prelude.{◌≡◌, ◌≤◌, ◌<◌, ◌+◌, ◌≤ℤ◌, pos, length, All, IfOk};
ghost use Rattle.pip_model.specs.Limits.{most_params, most_nesting};
ghost use Rattle.pip_model.specs.TreeText.{component_of, component as component_at};
ghost use Rattle.pip_model.specs.Agreement.{Agrees};
ghost use Rattle.affine_forms.specs.Checks.{Fits};
ghost use Rattle.quast.specs.Components.{IsComponent};
ghost use Rattle.text_reading.specs.Steps.{IsRead};
ghost use Rattle.quast_text.specs.Faults.{text_fault};
ghost use Rattle.quast_text.specs.Components.{component_of_parts};
ghost use Rattle.quast_text.specs.Fractions.{bracketed_fractions as bracketed_fractions_of};

use crate::fraction::{Fraction, common_denominator, numerators, read_fractions};
use crate::refusal::TextRefusal;
use affine_forms::{Form, FormRefusal};
use quast::Component;
use std::alloc::Global;
use text_reading::{Reads, expect, row};
use text_tokens::{Kind, token};

// The fractions over their common denominator; Wide, at the place of the component, where that or a numerator does not
// fit.
fn over_one_denominator(
    alloc: Global,
    start: usize,
    fractions: &[Fraction],
) -> Result<(i128, Vec<i128>), TextRefusal>
    ensures agrees { Agrees component_of_parts text_fault result (component_of start fractions.now) }
    ensures positive { IfOk result (λ x. pos 1 ≤ℤ x.0) }
    ensures denominator { IfOk result (λ x. Fits x.0) }
    ensures numerators { IfOk result (λ x. All Fits x.1.items) }
    ensures count { IfOk result (λ x. length x.1.items ≡ length fractions.now) }
{
    let Ok(denominator) = common_denominator(fractions) else {
        return Err(TextRefusal::Wide(start));
    };
    match numerators(alloc, fractions, denominator) {
        Ok(entries) => Ok((denominator, entries)),
        Err(FormRefusal::Overflow) => Err(TextRefusal::Wide(start)),
        Err(FormRefusal::WantOfMemory) => Err(TextRefusal::WantOfMemory),
    }
}

// So many fractions between row brackets, and the place behind them.
#[tactic(auto, unfolding(crate::specs::Fractions::bracketed_fractions))]
fn bracketed_fractions(
    alloc: Global,
    bytes: &[u8],
    count: usize,
    place: usize,
) -> Reads<Vec<Fraction>, TextRefusal>
    requires { place ≤ length bytes.now }
    ensures reads { IsRead (λ v. v.items) text_fault bytes.now place result
        (bracketed_fractions_of bytes.now count place) }
    ensures count { IfOk result (λ x. length x.0.items ≡ count) }
{
    let first = expect(bytes, Kind::LeftRow, place)?;
    let (fractions, at) = read_fractions(alloc, bytes, count, first)?;
    let after = expect(bytes, Kind::RightRow, at)?;
    Ok((fractions, after))
}

// A component over so many places between row brackets, of numbers or fractions, and the place behind it.
#[inline(never)]
fn fractional_component(
    alloc: Global,
    bytes: &[u8],
    width: usize,
    place: usize,
) -> Reads<Component, TextRefusal>
    requires place { place ≤ length bytes.now }
    requires width { width ≤ most_params + most_nesting }
    ensures reads { IsRead (λ c. c) text_fault bytes.now place result (component_at bytes.now width place) }
    ensures component { IfOk result (λ x. IsComponent width x.0) }
{
    let (fractions, after) = bracketed_fractions(alloc, bytes, width + 1, place)?;
    let start = token(bytes, place).start;
    let (denominator, entries) = over_one_denominator(alloc, start, &fractions)?;
    let component = Component::reduced(denominator, Form::from_entries(entries));
    Ok((component, after))
}

// A component over so many places between row brackets, and the place behind it: first it is read as a row of numbers,
// as most are.
pub(crate) fn read_component(
    alloc: Global,
    bytes: &[u8],
    width: usize,
    place: usize,
) -> Reads<Component, TextRefusal>
    requires place { place ≤ length bytes.now }
    requires width { width ≤ most_params + most_nesting }
    ensures reads { IsRead (λ c. c) text_fault bytes.now place result (component_at bytes.now width place) }
    ensures component { IfOk result (λ x. IsComponent width x.0) }
{
    match row(alloc, bytes, width + 1, place) {
        Ok((entries, after)) => Ok((Component::reduced(1, Form::from_entries(entries)), after)),
        Err(_) => fractional_component(alloc, bytes, width, place),
    }
}
