ghost use Rattle.std.specs.Prelude.{◌≡◌, ◌≤◌, length, IfSome};
ghost use Rattle.pip_model.specs.Tokens.{token as token_of};
ghost use Rattle.affine_forms.specs.Checks.{Fits};
ghost use Rattle.text_tokens.specs.Spaced.{IsSpaced};

use crate::tokens::digit;

/// The number of one digit at the front, behind a `-` or none, and the bytes behind the space that follows it; none
/// where no such number stands there, or another byte follows it.
#[inline(always)]
pub fn spaced_number(bytes: &[u8]) -> Option<(i128, &[u8])>
    ensures value { IfSome result (λ x. IsSpaced bytes.now x.0 x.1.now) }
    ensures fits { IfSome result (λ x. Fits x.0) }
{
    match bytes {
        [first, b' ', rest @ ..] if digit(*first) => {
            Some((i128::from(first.saturating_sub(b'0')), rest))
        }
        [b'-', first, b' ', rest @ ..] if digit(*first) => {
            Some((-i128::from(first.saturating_sub(b'0')), rest))
        }
        _ => None,
    }
}

/// The place behind the space at `start`, or `start` where none stands there: the next token is the same. `start` is at
/// most the number of bytes.
#[inline(always)]
pub fn skip_space(bytes: &[u8], start: usize) -> usize
    requires { start ≤ length bytes.now }
    ensures value { token_of bytes.now result ≡ token_of bytes.now start }
    ensures order { (start ≤ result) × (result ≤ length bytes.now) }
{
    let (_, rest) = bytes.split_at(start);
    match rest {
        [b' ', ..] => start + 1,
        _ => start,
    }
}
