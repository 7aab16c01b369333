ghost use Rattle.std.specs.Prelude.{◌≡◌, ◌≤◌, IfSome, IsTrue};
ghost use Rattle.pip_model.specs.Numbers.{fits, is_nonneg};
ghost use Rattle.pip_words.specs.Numbers.{number_of, parameter_of};

// The number that one or more decimal digits spell, if it is at most `most`.
pub(crate) fn number(text: &[u8], most: u128) -> Option<u128>
    ensures value { result ≡ number_of most text.now }
    ensures within { IfSome result (λ n. n ≤ most) }
{
    if text.is_empty() {
        return None;
    }
    let mut value: u128 = 0;
    for byte in text {
        if !byte.is_ascii_digit() {
            return None;
        }
        let digit = u128::from(*byte - b'0');
        if digit > most || value > (most - digit) / 10 {
            return None;
        }
        value = value * 10 + digit;
    }
    Some(value)
}

// The same for the size of a budget.
pub(crate) fn short_number(text: &[u8], most: u64) -> Option<u64>
    ensures value { result ≡ number_of most text.now }
    ensures within { IfSome result (λ n. n ≤ most) }
{
    let value = number(text, u128::from(most))?;
    Some(value as u64)
}

// The value of a parameter: a number that fits.
pub(crate) fn parameter(text: &[u8]) -> Option<i128>
    ensures value { result ≡ parameter_of text.now }
    ensures fitting { IfSome result (λ z. IsTrue (fits z)) }
    ensures nonnegative { IfSome result (λ z. IsTrue (is_nonneg z)) }
{
    let value = number(text, i128::MAX as u128)?;
    Some(value as i128)
}
