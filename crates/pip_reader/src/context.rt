ghost use Rattle.std.specs.Prelude.{◌≡◌, ◌≤◌, ◌<◌, ◌+◌, ◌↔◌, length, drop, IsTrue, None, IfOk, IfSome};
ghost use Rattle.std.specs.List.{list_all};
ghost use Rattle.pip_model.specs.Limits.{most_params, most_context_rows};
ghost use Rattle.pip_model.specs.Moved.{is_closed};
ghost use Rattle.pip_model.specs.Agreement.{Agrees};
ghost use Rattle.pip_model.specs.ContextText as model;
ghost use Rattle.text_reading.specs.Steps.{AreRead, IsRead};
ghost use Rattle.pip_problem.specs.Faults.{read_fault};
ghost use Rattle.pip_reader.specs.Contexts.{next_row as next_row_of, context_found};

use affine_forms::{Form, Forms, MOST_CONTEXT_ROWS};
use pip_problem::{LimitKind, ReadRefusal};
use std::alloc::Global;
use text_reading::{Reads, expect, row, same_bracket};
use text_tokens::{Kind, next_open, token};

// The next row over so many parameters of a context in which so many may follow, and the place behind it; none at its
// `)`.
fn next_row(
    alloc: Global,
    bytes: &[u8],
    np: usize,
    left: usize,
    place: usize,
) -> Result<Option<(Form, usize)>, ReadRefusal>
    requires place { place ≤ length bytes.now }
    requires np { np ≤ most_params }
    ensures agrees { Agrees (λ o. o) read_fault result (next_row_of bytes.now (np + 1) left place) }
    ensures left { IfOk result (λ o. IfSome o (λ x. 0 < left)) }
    ensures width { IfOk result (λ o. IfSome o (λ x. length x.0 ≡ np + 1)) }
    ensures order { IfOk result (λ o. IfSome o (λ x. (place ≤ x.1) × (x.1 ≤ length bytes.now))) }
{
    if same_bracket(token(bytes, place).kind, Kind::RightParen) {
        return Ok(None);
    }
    if left == 0 {
        expect(bytes, Kind::LeftRow, place)?;
        return Err(ReadRefusal::Limit(LimitKind::ContextRows, MOST_CONTEXT_ROWS as i128 + 1));
    }
    let (entries, after) = row(alloc, bytes, np + 1, place)?;
    Ok(Some((Form::from_entries(entries), after)))
}

// The rows over so many parameters up to the `)`, and the place behind that.
fn context_rows(alloc: Global, bytes: &[u8], np: usize, place: usize) -> Reads<Forms, ReadRefusal>
    requires place { place ≤ length bytes.now }
    requires np { np ≤ most_params }
    ensures reads { AreRead (λ f. f.forms) read_fault bytes.now place result
        (model.context_rows bytes.now (np + 1) most_context_rows place) }
    ensures width { IfOk result (λ x. x.0.width ≡ np) }
{
    let mut read = Forms::new(alloc, np);
    let mut at = place;
    let mut left = MOST_CONTEXT_ROWS;
    while let Some((form, after)) = next_row(alloc, bytes, np, left, at)? {
        read.push(form)?;
        at = after;
        left -= 1;
    }
    Ok((read, token(bytes, at).after))
}

// The context that begins at a place, and the place behind its `)`.
fn context_at(alloc: Global, bytes: &[u8], np: usize, place: usize) -> Reads<Forms, ReadRefusal>
    requires place { place ≤ length bytes.now }
    requires np { np ≤ most_params }
    ensures reads { IsRead (λ f. f.forms) read_fault bytes.now place result (model.context_at bytes.now np place) }
    ensures width { IfOk result (λ x. x.0.width ≡ np) }
{
    let first = expect(bytes, Kind::LeftParen, place)?;
    let (rows, after) = context_rows(alloc, bytes, np, first)?;
    Ok((rows, after))
}

/// The rows over `np` parameters, within their limit, of the context `( #[ .. ] .. )` that begins with the first `(` at
/// or behind `start`, and the place behind its `)`; none exactly where there is no `(`.
///
/// The first token that differs from the format decides the refusal, which keeps the place of that token's first byte
/// (the number of bytes at their end). A number of more than 127 bits where one is expected is `Wide`, and the `#[` of
/// the first row too many `Limit` with the row's number. `start` is at most the number of bytes.
pub fn read_context(
    alloc: Global,
    bytes: &[u8],
    start: usize,
    np: usize,
) -> Result<Option<(Forms, usize)>, ReadRefusal>
    requires start { start ≤ length bytes.now }
    requires np { np ≤ most_params }
    ensures agrees { Agrees context_found read_fault result (model.read_context bytes.now start np) }
    ensures none { IfOk result (λ o. (o ≡ None) ↔ IsTrue (list_all is_closed (drop start bytes.now))) }
    ensures place { IfOk result (λ o. IfSome o (λ x. (start < x.1) × (x.1 ≤ length bytes.now))) }
    ensures width { IfOk result (λ o. IfSome o (λ x. x.0.width ≡ np)) }
{
    match next_open(bytes, start) {
        None => Ok(None),
        Some(place) => Ok(Some(context_at(alloc, bytes, np, place)?)),
    }
}
