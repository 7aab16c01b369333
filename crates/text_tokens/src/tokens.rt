ghost use Rattle.std.specs.Prelude.{◌≡◌, ℕ, ◌+◌, ◌<◌, ◌≤◌, ◌^◌, ◌-◌, ◌||◌, nat_lt, false, pos, min, length, take, drop, slice_index, IfSome};
ghost use Rattle.std.specs.List.{prefix_len, take_while};
ghost use Rattle.pip_model.specs.Numbers.{fits};
ghost use Rattle.pip_model.specs.declared.Kind.TheVariants.{Number};
ghost use Rattle.pip_model.specs.Tokens.{is_blank, is_digit, is_letter, is_sign, natural_of, unsigned_part as unsigned_part_of, digits_at, integer_of, number_kind as number_kind_of, fraction_kind as fraction_kind_of, lexeme as lexeme_of, behind_stroke as behind_stroke_of, numeral_at, token_here as token_here_of, token_in, token as token_of};
ghost use Rattle.affine_forms.specs.Checks.{Fits};
ghost use Rattle.text_tokens.specs.Tokens.{fitting, signed_as, IsFittingKind, TakesBytes};

pub use pip_model::{Kind, Lexeme};

/// Whether the byte is a tab, newline, form feed, carriage return or space.
pub fn blank(byte: u8) -> bool
    ensures { result ≡ is_blank byte }
{
    byte <= b' ' && matches!(byte, b'\t' | b'\n' | 12 | b'\r' | b' ')
}

pub(crate) fn digit(byte: u8) -> bool
    ensures { result ≡ is_digit byte }
{
    byte.is_ascii_digit()
}

fn letter(byte: u8) -> bool
    ensures { result ≡ is_letter byte }
{
    byte.is_ascii_alphabetic()
}

// How many of the bytes from the front on are blanks.
fn blanks(bytes: &[u8]) -> usize
    ensures value { result ≡ length (take_while is_blank bytes.now) }
    ensures bound { result ≤ length bytes.now }
{
    bytes.iter().take_while(|byte| blank(**byte)).count()
}

// How many of the bytes from the front on are letters.
fn letters(bytes: &[u8]) -> usize
    ensures value { result ≡ length (take_while is_letter bytes.now) }
    ensures bound { result ≤ length bytes.now }
{
    bytes.iter().take_while(|byte| letter(**byte)).count()
}

// How many of the bytes from the front on are digits.
fn digit_count(bytes: &[u8]) -> usize
    ensures value { result ≡ prefix_len is_digit bytes.now }
    ensures bound { result ≤ length bytes.now }
{
    bytes.iter().take_while(|byte| digit(**byte)).count()
}

// How many digits stand at the front, and the number that they spell, or the greatest `u64` where it is greater.
fn leading(bytes: &[u8]) -> (usize, u64)
    ensures len { result.0 ≡ length (digits_at bytes.now) }
    ensures bound { result.0 ≤ length bytes.now }
    ensures value { result.1 ≡ min (natural_of (digits_at bytes.now)) (2 ^ 64 - 1) }
{
    let mut value: u64 = 0;
    for (i, byte) in bytes.iter().enumerate() {
        if !digit(*byte) {
            return (i, value);
        }
        value = value
            .saturating_mul(10)
            .saturating_add(u64::from(byte.saturating_sub(b'0')));
    }
    (bytes.len(), value)
}

/// The digits at the front.
pub fn digits(bytes: &[u8]) -> &[u8]
    ensures value { result.now ≡ digits_at bytes.now }
    ensures bound { length result.now ≤ length bytes.now }
{
    let (front, _) = bytes.split_at(digit_count(bytes));
    front
}

// The number that digits spell, or the greatest `u128` where it is greater.
fn natural(digits: &[u8]) -> u128
    ensures { result ≡ min (natural_of digits.now) (2 ^ 128 - 1) }
{
    let mut value: u128 = 0;
    for byte in digits {
        value = value
            .saturating_mul(10)
            .saturating_add(u128::from(byte.saturating_sub(b'0')));
    }
    value
}

const TOO_WIDE: u128 = 1 << 127;

// The number that digits spell, where it fits.
fn magnitude(digits: &[u8]) -> Option<i128>
    ensures value { result ≡ fitting (pos (natural_of digits.now)) }
{
    let n = natural(digits);
    if n < TOO_WIDE { Some(n as i128) } else { None }
}

/// The bytes after a sign, if there is one.
pub fn unsigned_part(bytes: &[u8]) -> &[u8]
    ensures value { result.now ≡ unsigned_part_of bytes.now }
    ensures bound { length result.now ≤ length bytes.now }
{
    match bytes {
        [b'+' | b'-', rest @ ..] => rest,
        _ => bytes,
    }
}

/// The number that an optional sign and digits spell, where it fits.
pub fn integer(bytes: &[u8]) -> Option<i128>
    ensures value { result ≡ fitting (integer_of bytes.now) }
    ensures fits { IfSome result Fits }
{
    let magnitude = magnitude(digits(unsigned_part(bytes)));
    match bytes {
        [b'-', ..] => magnitude.map(|n| -n),
        _ => magnitude,
    }
}

// What stands behind a `/`.
fn behind_stroke(bytes: &[u8]) -> &[u8]
    ensures value { result.now ≡ behind_stroke_of bytes.now }
    ensures bound { length result.now ≤ length bytes.now - 1 }
{
    match bytes {
        [b'/', rest @ ..] => rest,
        _ => &[],
    }
}

// The token of a kind and a length at a place.
fn lexeme(place: usize, kind: Kind, len: usize) -> Lexeme
    requires { place + len < 2 ^ 64 }
    ensures { result ≡ lexeme_of place kind len }
{
    Lexeme {
        kind,
        start: place,
        after: place + len,
    }
}

fn number_kind(bytes: &[u8]) -> Kind
    ensures value { result ≡ number_kind_of (integer_of bytes.now) }
    ensures fits { IsFittingKind result }
{
    match integer(bytes) {
        Some(number) => Kind::Number(number),
        None => Kind::WideNumber,
    }
}

fn fraction_kind(above: &[u8], below: &[u8]) -> Kind
    ensures value { result ≡ fraction_kind_of (integer_of above.now) (pos (natural_of below.now)) }
    ensures fits { IsFittingKind result }
{
    match (integer(above), magnitude(below)) {
        (Some(numerator), Some(denominator)) => Kind::Fraction(numerator, denominator),
        _ => Kind::WideFraction,
    }
}

// The number or fraction at the front; a sign or another byte alone is bad.
fn numeral(place: usize, bytes: &[u8]) -> Lexeme
    requires some { 0 < length bytes.now }
    requires room { place + length bytes.now < 2 ^ 64 }
    ensures value { result ≡ numeral_at place bytes.now }
    ensures fits { IsFittingKind result.kind }
    ensures order { (result.start ≡ place) × (place < result.after) × (result.after ≤ place + length bytes.now) }
{
    let rest = unsigned_part(bytes);
    let digit_len = digits(rest).len();
    let len = bytes.len() - rest.len() + digit_len;
    let (_, behind) = bytes.split_at(len);
    let over = digits(behind_stroke(behind));
    if digit_len == 0 {
        lexeme(place, Kind::Bad, 1)
    } else if over.len() == 0 {
        lexeme(place, number_kind(bytes), len)
    } else {
        lexeme(place, fraction_kind(bytes, over), len + 1 + over.len())
    }
}

// The number, with the sign that stands at the front.
fn number_with_sign(bytes: &[u8], number: u64) -> i128
    ensures value { result ≡ signed_as bytes.now number }
    ensures fits { Fits result }
{
    match bytes {
        [b'-', ..] => -(number as i128),
        _ => number as i128,
    }
}

// The number at the front and how many bytes spell it; none where it is a fraction's, or its digits spell no less than
// the greatest `u64`.
fn short_number(bytes: &[u8]) -> Option<(i128, usize)>
    ensures value { IfSome result
        (λ x. (place : ℕ) → token_here_of place bytes.now ≡ lexeme_of place (Number x.0) x.1) }
    ensures fits { IfSome result (λ x. Fits x.0) }
    ensures order { IfSome result (λ x. (0 < x.1) × (x.1 ≤ length bytes.now)) }
{
    let rest = unsigned_part(bytes);
    let (digit_len, value) = leading(rest);
    let len = bytes.len() - rest.len() + digit_len;
    let (_, behind) = bytes.split_at(len);
    if digit_len == 0 || value == u64::MAX || digits(behind_stroke(behind)).len() != 0 {
        return None;
    }
    Some((number_with_sign(bytes, value), len))
}

// The token whose first byte is the first of these.
fn token_here(place: usize, bytes: &[u8]) -> Lexeme
    requires { place + length bytes.now < 2 ^ 64 }
    ensures value { result ≡ token_here_of place bytes.now }
    ensures fits { IsFittingKind result.kind }
    ensures takes { TakesBytes result.kind result.start result.after }
    ensures order { (result.start ≡ place) × (place ≤ result.after) × (result.after ≤ place + length bytes.now) }
{
    match bytes {
        [] => lexeme(place, Kind::Finish, 0),
        [b'(', ..] => lexeme(place, Kind::LeftParen, 1),
        [b')', ..] => lexeme(place, Kind::RightParen, 1),
        [b']', ..] => lexeme(place, Kind::RightRow, 1),
        [b'#', b'[', ..] => lexeme(place, Kind::LeftRow, 2),
        [first, ..] if letter(*first) => lexeme(place, Kind::Word, letters(bytes)),
        _ => numeral(place, bytes),
    }
}

/// The place of the first byte at or behind `start` that is no blank, or the number of bytes.
#[inline(always)]
pub fn skip_blanks(bytes: &[u8], start: usize) -> usize
    requires { start ≤ length bytes.now }
    ensures value { result ≡ start + length (take_while is_blank (drop start bytes.now)) }
    ensures order { (start ≤ result) × (result ≤ length bytes.now) }
{
    let (_, rest) = bytes.split_at(start);
    start + blanks(rest)
}

/// Whether the byte is neither a digit nor a `/`, so that a number ends before it.
pub fn ends_number(byte: u8) -> bool
    ensures { result ≡ (nat_lt byte 47 || nat_lt 57 byte) }
{
    byte < b'/' || b'9' < byte
}

// The number of one digit at the front, behind a `-` or none, and how many bytes spell it; none where there is no such
// number, or no space, newline, `]` or `)` stands behind it.
#[inline(always)]
fn digit_number(bytes: &[u8]) -> Option<(i128, usize)>
    ensures value { IfSome result
        (λ x. (place : ℕ) → token_here_of place bytes.now ≡ lexeme_of place (Number x.0) x.1) }
    ensures front { IfSome result (λ x. is_blank (slice_index bytes.now 0) ≡ false) }
    ensures fits { IfSome result (λ x. Fits x.0) }
    ensures order { IfSome result (λ x. (0 < x.1) × (x.1 ≤ length bytes.now)) }
{
    match bytes {
        [first, next, ..] if digit(*first) && ends_number(*next) => {
            Some((i128::from(first.saturating_sub(b'0')), 1))
        }
        [b'-', first, next, ..] if digit(*first) && ends_number(*next) => {
            Some((-i128::from(first.saturating_sub(b'0')), 2))
        }
        _ => None,
    }
}

/// The number of one digit that is the next token, behind one space or none, and how many bytes they take; none where
/// there is no such number at the front.
#[inline(always)]
pub fn small_number(bytes: &[u8]) -> Option<(i128, usize)>
    ensures value { IfSome result (λ x. (place : ℕ) → ((token_in place bytes.now).kind ≡ Number x.0)
        × ((token_in place bytes.now).after ≡ place + x.1)) }
    ensures fits { IfSome result (λ x. Fits x.0) }
    ensures order { IfSome result (λ x. (0 < x.1) × (x.1 ≤ length bytes.now)) }
{
    match bytes {
        [b' ', rest @ ..] => match digit_number(rest) {
            Some((number, len)) => Some((number, len + 1)),
            None => None,
        },
        _ => digit_number(bytes),
    }
}

/// The number that is the next token at or behind `start`, which is at most the number of bytes, and the place behind
/// it; none where `token` has to be asked.
#[inline(always)]
pub fn plain_number(bytes: &[u8], start: usize) -> Option<(i128, usize)>
    requires { start ≤ length bytes.now }
    ensures value { IfSome result (λ x. ((token_of bytes.now start).kind ≡ Number x.0)
        × ((token_of bytes.now start).after ≡ x.1)) }
    ensures fits { IfSome result (λ x. Fits x.0) }
    ensures order { IfSome result (λ x. (start < x.1) × (x.1 ≤ length bytes.now)) }
{
    let place = skip_blanks(bytes, start);
    let (_, rest) = bytes.split_at(place);
    let (number, len) = short_number(rest)?;
    Some((number, place + len))
}

/// The next token at or behind `start`, which is at most the number of bytes: blanks are skipped, and the token is the
/// longest that begins there. Behind the last one comes `Finish`.
pub fn token(bytes: &[u8], start: usize) -> Lexeme
    requires { start ≤ length bytes.now }
    ensures value { result ≡ token_of bytes.now start }
    ensures fits { IsFittingKind result.kind }
    ensures takes { TakesBytes result.kind result.start result.after }
    ensures order { (start ≤ result.start) × (result.start ≤ result.after) × (result.after ≤ length bytes.now) }
{
    let place = skip_blanks(bytes, start);
    let (_, rest) = bytes.split_at(place);
    token_here(place, rest)
}
