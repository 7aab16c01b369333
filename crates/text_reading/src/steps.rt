ghost use Rattle.std.specs.Prelude.{◌≡◌, ℕ, ◌+◌, ◌<◌, ◌≤◌, true, false, length, IfOk, IfNone, IfSome};
ghost use Rattle.pip_model.specs.Reading as model;
ghost use Rattle.pip_model.specs.Tokens as tokens;
ghost use Rattle.pip_model.specs.TreeText as words;
ghost use Rattle.affine_forms.specs.Checks.{Fits};
ghost use Rattle.text_reading.specs.Steps.{fault_of, IsPassed, IsRead};

use crate::fault::{Reads, TextFault};
use text_tokens::{Kind, Lexeme, plain_number, skip_blanks, small_number, token};

/// Whether the kind is the wanted bracket.
pub fn same_bracket(kind: Kind, wanted: Kind) -> bool
    ensures { result ≡ model.same_bracket kind wanted }
{
    matches!(
        (kind, wanted),
        (Kind::LeftParen, Kind::LeftParen)
            | (Kind::RightParen, Kind::RightParen)
            | (Kind::LeftRow, Kind::LeftRow)
            | (Kind::RightRow, Kind::RightRow)
    )
}

// How many bytes the wanted bracket takes at the front; none where it does not stand there.
#[inline(always)]
fn bracket_len(bytes: &[u8], wanted: Kind) -> Option<usize>
    ensures bracket { IfSome result (λ len. model.same_bracket wanted wanted ≡ true) }
    ensures value { IfSome result
        (λ len. (place : ℕ) → tokens.token_here place bytes.now ≡ tokens.lexeme place wanted len) }
    ensures none { IfNone result
        ((place : ℕ) → model.same_bracket (tokens.token_here place bytes.now).kind wanted ≡ false) }
    ensures order { IfSome result (λ len. (0 < len) × (len ≤ length bytes.now)) }
{
    match (wanted, bytes) {
        (Kind::LeftParen, [b'(', ..]) => Some(1),
        (Kind::RightParen, [b')', ..]) => Some(1),
        (Kind::RightRow, [b']', ..]) => Some(1),
        (Kind::LeftRow, [b'#', b'[', ..]) => Some(2),
        _ => None,
    }
}

/// The place behind the wanted bracket, which is the next token.
#[inline(always)]
pub fn expect(bytes: &[u8], wanted: Kind, place: usize) -> Result<usize, TextFault>
    requires { place ≤ length bytes.now }
    ensures { IsPassed fault_of bytes.now place result (model.expect bytes.now wanted place) }
{
    let start = skip_blanks(bytes, place);
    let (_, rest) = bytes.split_at(start);
    match bracket_len(rest, wanted) {
        Some(len) => Ok(start + len),
        None => Err(TextFault::Syntax(start)),
    }
}

/// Whether the bytes are the same.
#[tactic(auto, using(crate::proofs::Words::same_bytes_is))]
pub fn same_bytes(x: &[u8], y: &[u8]) -> bool
    ensures { result ≡ tokens.same_bytes x.now y.now }
{
    x == y
}

/// Whether the token is this word.
pub fn spells(bytes: &[u8], token: Lexeme, wanted: &[u8]) -> bool
    requires order { token.start ≤ token.after }
    requires within { token.after ≤ length bytes.now }
    ensures { result ≡ tokens.spells bytes.now token wanted.now }
{
    matches!(token.kind, Kind::Word) && same_bytes(&bytes[token.start..token.after], wanted)
}

/// The place behind the wanted word, which is the next token.
pub fn expect_word(bytes: &[u8], wanted: &[u8], place: usize) -> Result<usize, TextFault>
    requires { place ≤ length bytes.now }
    ensures { IsPassed fault_of bytes.now place result (words.expect_word bytes.now wanted.now place) }
{
    let token = token(bytes, place);
    if spells(bytes, token, wanted) {
        Ok(token.after)
    } else {
        Err(TextFault::Syntax(token.start))
    }
}

// The number that is the next token, and the place behind it, where it is not read at one go.
#[inline(never)]
fn number_token(bytes: &[u8], place: usize) -> Reads<i128, TextFault>
    requires { place ≤ length bytes.now }
    ensures reads { IsRead (λ z. z) fault_of bytes.now place result (model.number bytes.now place) }
    ensures fits { IfOk result (λ x. Fits x.0) }
{
    let token = token(bytes, place);
    match token.kind {
        Kind::Number(number) => Ok((number, token.after)),
        Kind::WideNumber => Err(TextFault::Wide(token.start)),
        _ => Err(TextFault::Syntax(token.start)),
    }
}

// The number that is the next token, and the place behind it.
#[inline(never)]
pub(crate) fn long_number(bytes: &[u8], place: usize) -> Reads<i128, TextFault>
    requires { place ≤ length bytes.now }
    ensures reads { IsRead (λ z. z) fault_of bytes.now place result (model.number bytes.now place) }
    ensures fits { IfOk result (λ x. Fits x.0) }
{
    match plain_number(bytes, place) {
        Some((number, after)) => Ok((number, after)),
        // Part by part, so that the result above need not stand in memory.
        None => match number_token(bytes, place) {
            Ok((number, after)) => Ok((number, after)),
            Err(fault) => Err(fault),
        },
    }
}

// The same, a number of one digit at once.
#[inline(always)]
pub(crate) fn next_number(bytes: &[u8], place: usize) -> Reads<i128, TextFault>
    requires { place ≤ length bytes.now }
    ensures reads { IsRead (λ z. z) fault_of bytes.now place result (model.number bytes.now place) }
    ensures fits { IfOk result (λ x. Fits x.0) }
{
    let (_, rest) = bytes.split_at(place);
    match small_number(rest) {
        Some((number, len)) => Ok((number, place + len)),
        None => long_number(bytes, place),
    }
}

/// The number that is the next token, and the place behind it.
#[inline(never)]
pub fn number(bytes: &[u8], place: usize) -> Reads<i128, TextFault>
    requires { place ≤ length bytes.now }
    ensures reads { IsRead (λ z. z) fault_of bytes.now place result (model.number bytes.now place) }
    ensures fits { IfOk result (λ x. Fits x.0) }
{
    next_number(bytes, place)
}
