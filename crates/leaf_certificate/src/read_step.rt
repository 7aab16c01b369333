ghost use Rattle.std.specs.Prelude.{◌≡◌, ◌≤◌, ◌<◌, length, All, IfOk};
ghost use Rattle.pip_model.specs.Certificate as model;
ghost use Rattle.affine_forms.specs.Checks.{Fits};
ghost use Rattle.text_reading.specs.Steps.{fault_of, AreRead, IsRead};
ghost use Rattle.leaf_certificate.specs.Sequences.{terms_to_end, steps_to_end};

use crate::closing::behind_close;
use crate::next_number::next_number;
use certificate_parts::{Refutation, SpareSteps, Step, Terms};
use text_reading::{Reads, TextFault, expect};
use text_tokens::Kind;

// An index and its multiplier, and the place behind them.
fn read_term(bytes: &[u8], place: usize) -> Reads<(i128, i128), TextFault>
    requires { place ≤ length bytes.now }
    ensures reads { IsRead (λ t. t) fault_of bytes.now place result (model.term bytes.now place) }
    ensures index { IfOk result (λ x. Fits x.0.0) }
    ensures multiplier { IfOk result (λ x. Fits x.0.1) }
{
    let (index, at) = next_number(bytes, place)?;
    let (multiplier, after) = next_number(bytes, at)?;
    Ok(((index, multiplier), after))
}

// The terms up to the `)`, in the room of others where one is kept, and the place behind that.
fn read_terms(spare: &mut SpareSteps, bytes: &[u8], place: usize) -> Reads<Terms, TextFault>
    requires some { 0 < place }
    requires place { place ≤ length bytes.now }
    ensures { AreRead (λ t. t) fault_of bytes.now place result (terms_to_end bytes.now place) }
{
    let mut read = spare.take_terms();
    let mut at = place;
    loop {
        if let Some(after) = behind_close(bytes, at) {
            return Ok((read, after));
        }
        let (term, after) = read_term(bytes, at)?;
        read.push(term)?;
        at = after;
    }
}

// A divisor and terms between brackets, and the place behind them.
fn read_step(spare: &mut SpareSteps, bytes: &[u8], place: usize) -> Reads<Step, TextFault>
    requires { place ≤ length bytes.now }
    ensures { IsRead (λ s. s) fault_of bytes.now place result (model.step bytes.now place) }
{
    let first = expect(bytes, Kind::LeftParen, place)?;
    let (divisor, at) = next_number(bytes, first)?;
    let (terms, after) = read_terms(spare, bytes, at)?;
    Ok((Step { divisor, terms }, after))
}

// The steps up to the `)`, in the room of others where one is kept, and the place behind that.
fn read_steps(spare: &mut SpareSteps, bytes: &[u8], place: usize) -> Reads<Refutation, TextFault>
    requires some { 0 < place }
    requires place { place ≤ length bytes.now }
    ensures { AreRead (λ r. r) fault_of bytes.now place result (steps_to_end bytes.now place) }
{
    let mut read = spare.take_steps();
    let mut at = place;
    loop {
        if let Some(after) = behind_close(bytes, at) {
            return Ok((read, after));
        }
        let (step, after) = read_step(spare, bytes, at)?;
        read.push(step)?;
        at = after;
    }
}

// Steps between brackets, and the place behind them.
pub(crate) fn read_refutation(
    spare: &mut SpareSteps,
    bytes: &[u8],
    place: usize,
) -> Reads<Refutation, TextFault>
    requires { place ≤ length bytes.now }
    ensures { IsRead (λ r. r) fault_of bytes.now place result
        (model.list_of bytes.now (model.step bytes.now) place) }
{
    let first = expect(bytes, Kind::LeftParen, place)?;
    let (steps, after) = read_steps(spare, bytes, first)?;
    Ok((steps, after))
}
