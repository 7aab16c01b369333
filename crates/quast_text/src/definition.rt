ghost use Rattle.std.specs.Prelude.{◌≡◌, ◌≤◌, ◌<◌, ◌+◌, ◌≤ℤ◌, pos, length, IfOk};
ghost use Rattle.pip_model.specs.Limits.{most_params, most_nesting};
ghost use Rattle.pip_model.specs.TreeText as model;
ghost use Rattle.affine_forms.specs.Checks.{Fits};
ghost use Rattle.text_reading.specs.Steps.{IsPassed, IsRead};
ghost use Rattle.quast_text.specs.Faults.{text_fault};
ghost use Rattle.quast_text.specs.Trees.{quotient_opening as quotient_opening_of, closed_divisor as closed_divisor_of, definition_at};

use crate::refusal::TextRefusal;
use crate::row::read_form;
use affine_forms::Form;
use std::alloc::Global;
use text_reading::{Reads, expect, expect_word, number};
use text_tokens::{Kind, token};

// A form over a divisor, whose floor a new parameter is.
#[derive(Drop)]
pub(crate) struct Definition {
    pub form: Form,
    pub divisor: i128,
}

// The place behind the next token, which is the number of the scope.
fn scope_number(bytes: &[u8], width: usize, place: usize) -> Result<usize, TextRefusal>
    requires { place ≤ length bytes.now }
    ensures { IsPassed text_fault bytes.now place result (model.scope_number bytes.now width place) }
{
    let (number, after) = number(bytes, place)?;
    if number == width as i128 {
        Ok(after)
    } else {
        Err(TextRefusal::Syntax(token(bytes, place).start))
    }
}

// A number of at least 1, and the place behind it.
fn divisor(bytes: &[u8], place: usize) -> Reads<i128, TextRefusal>
    requires { place ≤ length bytes.now }
    ensures reads { IsRead (λ d. d) text_fault bytes.now place result (model.divisor bytes.now place) }
    ensures positive { IfOk result (λ x. pos 1 ≤ℤ x.0) }
    ensures fits { IfOk result (λ x. Fits x.0) }
{
    let (number, after) = number(bytes, place)?;
    if number >= 1 {
        Ok((number, after))
    } else {
        Err(TextRefusal::Syntax(token(bytes, place).start))
    }
}

// The place behind the number of the scope, a `(` and the word `div`.
#[tactic(auto, unfolding(crate::specs::Trees::quotient_opening))]
fn quotient_opening(bytes: &[u8], width: usize, place: usize) -> Result<usize, TextRefusal>
    requires { place ≤ length bytes.now }
    ensures { IsPassed text_fault bytes.now place result (quotient_opening_of bytes.now width place) }
{
    let at = scope_number(bytes, width, place)?;
    let at = expect(bytes, Kind::LeftParen, at)?;
    Ok(expect_word(bytes, b"div", at)?)
}

// A divisor with two `)` behind it, and the place behind these.
#[tactic(auto, unfolding(crate::specs::Trees::closed_divisor))]
fn closed_divisor(bytes: &[u8], place: usize) -> Reads<i128, TextRefusal>
    requires { place ≤ length bytes.now }
    ensures reads { IsRead (λ d. d) text_fault bytes.now place result (closed_divisor_of bytes.now place) }
    ensures positive { IfOk result (λ x. pos 1 ≤ℤ x.0) }
    ensures fits { IfOk result (λ x. Fits x.0) }
{
    let (divisor, at) = divisor(bytes, place)?;
    let at = expect(bytes, Kind::RightParen, at)?;
    let after = expect(bytes, Kind::RightParen, at)?;
    Ok((divisor, after))
}

// The number of the scope, a form over so many places and its divisor behind the word `newparm`, and the place behind
// them.
#[tactic(auto, unfolding(crate::specs::Trees::definition_at))]
pub(crate) fn read_definition(
    alloc: Global,
    bytes: &[u8],
    width: usize,
    place: usize,
) -> Reads<Definition, TextRefusal>
    requires place { place ≤ length bytes.now }
    requires width { width ≤ most_params + most_nesting }
    ensures reads { IsRead (λ q. (q.form, q.divisor)) text_fault bytes.now place result
        (definition_at bytes.now width place) }
    ensures width { IfOk result (λ x. length x.0.form ≡ width + 1) }
    ensures positive { IfOk result (λ x. pos 1 ≤ℤ x.0.divisor) }
    ensures fits { IfOk result (λ x. Fits x.0.divisor) }
{
    let at = quotient_opening(bytes, width, place)?;
    let (form, at) = read_form(alloc, bytes, width, at)?;
    let (divisor, after) = closed_divisor(bytes, at)?;
    Ok((Definition { form, divisor }, after))
}
