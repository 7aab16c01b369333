ghost use Rattle.std.specs.Prelude.{◌≡◌, ◌≤◌, ◌<◌, ◌+◌, length, IfOk};
ghost use Rattle.pip_model.specs.Limits.{most_params, most_nesting};
ghost use Rattle.pip_model.specs.Tree.{nesting};
ghost use Rattle.pip_model.specs.TreeText.{head as head_at, tree as tree_at};
ghost use Rattle.text_reading.specs.Steps.{IsRead};
ghost use Rattle.quast_text.specs.Faults.{text_fault};
ghost use Rattle.quast_text.specs.Trees.{head_of, opening as opening_of, choice_at, define_at};

use crate::definition::read_definition;
use crate::list::read_list;
use crate::refusal::TextRefusal;
use crate::row::read_form;
use quast::Quast;
use std::alloc::Global;
use text_reading::{Reads, expect, same_bracket, spells};
use text_tokens::{Kind, token};

// Which tree begins behind a `(`.
#[derive(Clone, Copy)]
pub(crate) enum TreeHead {
    Ends,
    Lists,
    Chooses,
    Defines,
}

// Which tree begins with the next token, and the place behind that.
fn read_head(bytes: &[u8], place: usize) -> Reads<TreeHead, TextRefusal>
    requires { place ≤ length bytes.now }
    ensures { IsRead head_of text_fault bytes.now place result (head_at bytes.now place) }
{
    let token = token(bytes, place);
    if same_bracket(token.kind, Kind::RightParen) {
        Ok((TreeHead::Ends, token.after))
    } else if spells(bytes, token, b"list") {
        Ok((TreeHead::Lists, token.after))
    } else if spells(bytes, token, b"if") {
        Ok((TreeHead::Chooses, token.after))
    } else if spells(bytes, token, b"newparm") {
        Ok((TreeHead::Defines, token.after))
    } else {
        Err(TextRefusal::Syntax(token.start))
    }
}

// The `(` of a tree, which tree begins behind it, and the place behind that.
fn opening(bytes: &[u8], place: usize) -> Reads<TreeHead, TextRefusal>
    requires { place ≤ length bytes.now }
    ensures { IsRead head_of text_fault bytes.now place result (opening_of bytes.now place) }
{
    let first = expect(bytes, Kind::LeftParen, place)?;
    read_head(bytes, first)
}

// A tree over so many places, on whose paths so many nodes that choose or define may stand, and the place behind it.
#[cycle(tree)]
pub(crate) fn read_tree(
    alloc: Global,
    bytes: &[u8],
    width: usize,
    room: usize,
    place: usize,
) -> Reads<Quast, TextRefusal>
    requires place { place ≤ length bytes.now }
    requires scope { width + room ≤ most_params + most_nesting }
    requires room { room ≤ most_nesting }
    ensures reads { IsRead (λ q. q.tree) text_fault bytes.now place result (tree_at bytes.now room width place) }
    ensures width { IfOk result (λ x. x.0.width ≡ width) }
    ensures nested { IfOk result (λ x. nesting x.0.tree ≤ room) }
{
    let (head, at) = opening(bytes, place)?;
    match head {
        TreeHead::Ends => Ok((Quast::bottom(width), at)),
        TreeHead::Lists => read_list(alloc, bytes, width, at),
        TreeHead::Chooses => {
            if room == 0 {
                return Err(TextRefusal::Nesting);
            }
            read_choice(alloc, bytes, width, room - 1, at)
        }
        TreeHead::Defines => {
            if room == 0 {
                return Err(TextRefusal::Nesting);
            }
            read_new_parameter(alloc, bytes, width, room - 1, at)
        }
    }
}

// A form and two trees behind the word `if`, and the place behind their `)`.
#[cycle(tree)]
#[tactic(auto, unfolding(crate::specs::Trees::choice_at))]
fn read_choice(
    alloc: Global,
    bytes: &[u8],
    width: usize,
    room: usize,
    place: usize,
) -> Reads<Quast, TextRefusal>
    requires place { place ≤ length bytes.now }
    requires scope { width + room + 1 ≤ most_params + most_nesting }
    requires room { room < most_nesting }
    ensures reads { IsRead (λ q. q.tree) text_fault bytes.now place result (choice_at bytes.now room width place) }
    ensures width { IfOk result (λ x. x.0.width ≡ width) }
    ensures nested { IfOk result (λ x. nesting x.0.tree ≤ room + 1) }
{
    let (v, at) = read_form(alloc, bytes, width, place)?;
    let (a, at) = read_tree(alloc, bytes, width, room, at)?;
    let (b, at) = read_tree(alloc, bytes, width, room, at)?;
    let after = expect(bytes, Kind::RightParen, at)?;
    let tree = Quast::select_within(alloc, v, a, b)?;
    Ok((tree, after))
}

// A form over its divisor and a tree behind the word `newparm`, and the place behind them.
#[cycle(tree)]
#[tactic(auto, unfolding(crate::specs::Trees::define_at))]
fn read_new_parameter(
    alloc: Global,
    bytes: &[u8],
    width: usize,
    room: usize,
    place: usize,
) -> Reads<Quast, TextRefusal>
    requires place { place ≤ length bytes.now }
    requires scope { width + room + 1 ≤ most_params + most_nesting }
    requires room { room < most_nesting }
    ensures reads { IsRead (λ q. q.tree) text_fault bytes.now place result (define_at bytes.now room width place) }
    ensures width { IfOk result (λ x. x.0.width ≡ width) }
    ensures nested { IfOk result (λ x. nesting x.0.tree ≤ room + 1) }
{
    let (quotient, at) = read_definition(alloc, bytes, width, place)?;
    let (a, after) = read_tree(alloc, bytes, width + 1, room, at)?;
    let tree = Quast::define_within(alloc, quotient.form, quotient.divisor, a)?;
    Ok((tree, after))
}
