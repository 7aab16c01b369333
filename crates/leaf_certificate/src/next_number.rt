ghost use Rattle.std.specs.Prelude.{◌≡◌, ℕ, ◌+◌, ◌-◌, ◌*◌, ◌<◌, ◌≤◌, pos, length, IfOk, IfSome};
ghost use Rattle.pip_model.specs.declared.Kind.TheVariants.{Number};
ghost use Rattle.pip_model.specs.Reading as model;
ghost use Rattle.pip_model.specs.Tokens.{is_digit, token_in};
ghost use Rattle.affine_forms.specs.Checks.{Fits};
ghost use Rattle.text_reading.specs.Steps.{fault_of, IsRead};

use text_reading::{Reads, TextFault, number};
use text_tokens::{ends_number, small_number};

fn digit(byte: u8) -> bool
    ensures { result ≡ is_digit byte }
{
    byte.is_ascii_digit()
}

// The number that two digits spell.
fn spelled(first: u8, second: u8) -> i128
    ensures { result ≡ pos ((first - 48) * 10 + (second - 48)) }
{
    let tens = u64::from(first.saturating_sub(b'0'));
    let ones = u64::from(second.saturating_sub(b'0'));
    i128::from(tens * 10 + ones)
}

// The number of two digits that is the next token, behind one space; none where there is no such number at the front.
#[inline(always)]
fn two_digits(bytes: &[u8]) -> Option<i128>
    ensures value { IfSome result (λ z. (place : ℕ) → ((token_in place bytes.now).kind ≡ Number z)
        × ((token_in place bytes.now).after ≡ place + 3)) }
    ensures fits { IfSome result Fits }
    ensures order { IfSome result (λ z. 3 < length bytes.now) }
{
    match bytes {
        [b' ', first, second, next, ..] if digit(*first) && digit(*second) && ends_number(*next) =>
            { Some(spelled(*first, *second)) }
        _ => None,
    }
}

// The number that is the next token, and the place behind it: one of one digit or two at once.
#[inline(always)]
pub(crate) fn next_number(bytes: &[u8], place: usize) -> Reads<i128, TextFault>
    requires { place ≤ length bytes.now }
    ensures reads { IsRead (λ z. z) fault_of bytes.now place result (model.number bytes.now place) }
    ensures fits { IfOk result (λ x. Fits x.0) }
{
    let (_, rest) = bytes.split_at(place);
    if let Some((number, len)) = small_number(rest) {
        return Ok((number, place + len));
    }
    match two_digits(rest) {
        Some(number) => Ok((number, place + 3)),
        None => number(bytes, place),
    }
}
