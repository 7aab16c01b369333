ghost use Rattle.std.specs.Prelude.{◌≡◌, ◌≤◌, ◌<◌, ◌↔◌, length, drop, None, IsTrue, IfOk, IfSome};
ghost use Rattle.std.specs.List.{list_all};
ghost use Rattle.pip_model.specs.Limits.{most_params};
ghost use Rattle.pip_model.specs.Moved.{is_closed};
ghost use Rattle.pip_model.specs.TreeText.{tree_or_void as tree_or_void_of, commented_at as spoken_at_of, read_answer as read_answer_of};
ghost use Rattle.pip_model.specs.Printed.{IsCommented};
ghost use Rattle.pip_model.specs.Agreement.{Agrees};
ghost use Rattle.quast.specs.Answers.{answer_of, IsOver};
ghost use Rattle.text_reading.specs.Steps.{IsRead};
ghost use Rattle.quast_text.specs.Faults.{text_fault};
ghost use Rattle.quast_text.specs.Spoken.{spoken_of, found_of};

use crate::refusal::TextRefusal;
use crate::tree::read_tree;
use affine_forms::{Bytes, MOST_NESTING};
use quast::Answer;
use std::alloc::Global;
use text_reading::{Reads, expect, group, spells};
use text_tokens::{Kind, next_open, token};

/// An answer with its comment, a group with its brackets.
#[derive(Drop)]
pub struct Spoken {
    pub comment: Bytes,
    pub answer: Answer,
}

// The word `void` or a tree, and the place behind it.
fn tree_or_void(alloc: Global, bytes: &[u8], np: usize, place: usize) -> Reads<Answer, TextRefusal>
    requires place { place ≤ length bytes.now }
    requires few { np ≤ most_params }
    ensures reads { IsRead answer_of text_fault bytes.now place result (tree_or_void_of bytes.now np place) }
    ensures scope { IfOk result (λ x. IsOver np x.0) }
{
    let token = token(bytes, place);
    if spells(bytes, token, b"void") {
        return Ok((Answer::Void, token.after));
    }
    let (tree, after) = read_tree(alloc, bytes, np, MOST_NESTING, place)?;
    Ok((Answer::Tree(tree), after))
}

// The answer with its comment that begins at a place, and the place behind its last `)`.
fn spoken_at(alloc: Global, bytes: &[u8], np: usize, place: usize) -> Reads<Spoken, TextRefusal>
    requires place { place ≤ length bytes.now }
    requires few { np ≤ most_params }
    ensures reads { IsRead spoken_of text_fault bytes.now place result (spoken_at_of bytes.now np place) }
    ensures scope { IfOk result (λ x. IsOver np x.0.answer) }
{
    let first = expect(bytes, Kind::LeftParen, place)?;
    let (comment, at) = group(alloc, bytes, first)?;
    let (answer, at) = tree_or_void(alloc, bytes, np, at)?;
    let after = expect(bytes, Kind::RightParen, at)?;
    Ok((Spoken { comment, answer }, after))
}

// The answer that begins with the first `(` at or behind `start`, and the place behind its last `)`.
fn first_spoken(
    alloc: Global,
    bytes: &[u8],
    start: usize,
    np: usize,
) -> Result<Option<(Spoken, usize)>, TextRefusal>
    requires start { start ≤ length bytes.now }
    requires few { np ≤ most_params }
    ensures agrees { Agrees found_of text_fault result (read_answer_of bytes.now start np) }
    ensures scope { IfOk result (λ o. IfSome o (λ x. IsOver np x.0.answer)) }
    ensures place { IfOk result (λ o. IfSome o (λ x. (start < x.1) × (x.1 ≤ length bytes.now))) }
{
    match next_open(bytes, start) {
        None => Ok(None),
        Some(place) => Ok(Some(spoken_at(alloc, bytes, np, place)?)),
    }
}

/// The answer over `np` parameters, within their limit, that begins with the first `(` at or behind `start`, and the
/// place behind its last `)`; none exactly where there is no `(`. What is read is well formed, its components are
/// brought to lowest terms, and its numbers fit.
///
/// The first token that differs from the format decides the refusal, which keeps the place of that token's first byte
/// (the number of bytes at their end). A number of more than 127 bits where one is expected is `Wide`, and so is a
/// component whose common denominator or a numerator over it does not fit, at its `#[`. The first component too many is
/// `Components` with its number, and the first nested node too many `Nesting`.
pub fn read_answer(
    alloc: Global,
    bytes: &[u8],
    start: usize,
    np: usize,
) -> Result<Option<(Spoken, usize)>, TextRefusal>
    requires start { start ≤ length bytes.now }
    requires few { np ≤ most_params }
    ensures agrees { Agrees found_of text_fault result (read_answer_of bytes.now start np) }
    ensures none { IfOk result (λ o. (o ≡ None) ↔ IsTrue (list_all is_closed (drop start bytes.now))) }
    ensures scope { IfOk result (λ o. IfSome o (λ x. IsOver np x.0.answer)) }
    ensures place { IfOk result (λ o. IfSome o (λ x. (start < x.1) × (x.1 ≤ length bytes.now))) }
    ensures spoken { IfOk result (λ o. IfSome o (λ x. IsCommented np (spoken_of x.0))) }
{
    first_spoken(alloc, bytes, start, np)
}
