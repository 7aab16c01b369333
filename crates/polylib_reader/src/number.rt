ghost use Rattle.std.specs.Prelude.{◌≡◌, ◌≤◌, ◌<◌, length, All, IfOk};
ghost use Rattle.pip_model.specs.MatrixText.{number_word as number_word_of, matrix_number, matrix_numbers};
ghost use Rattle.pip_model.specs.Agreement.{Agrees};
ghost use Rattle.affine_forms.specs.Checks.{Fits};
ghost use Rattle.text_reading.specs.Steps.{AreRead, IsRead};
ghost use Rattle.pip_problem.specs.Faults.{read_fault};
ghost use Rattle.polylib_reader.specs.Words.{word_of};

use crate::word::{Word, next_word};
use pip_problem::ReadRefusal;
use std::alloc::Global;
use text_reading::Reads;
use text_tokens::{digits, integer, unsigned_part};

// The number that a word spells, and the place behind it.
pub(crate) fn number_word(word: &Word<'_>) -> Reads<i128, ReadRefusal>
    ensures agrees { Agrees (λ x. x) read_fault result (number_word_of (word_of word.now)) }
    ensures fits { IfOk result (λ x. Fits x.0) }
    ensures place { IfOk result (λ x. x.1 ≡ word.now.after) }
    ensures some { IfOk result (λ x. 0 < length word.now.text.now) }
{
    let unsigned = unsigned_part(word.text);
    if unsigned.is_empty() || digits(unsigned).len() != unsigned.len() {
        return Err(ReadRefusal::Syntax(word.start));
    }
    match integer(word.text) {
        Some(number) => Ok((number, word.after)),
        None => Err(ReadRefusal::Wide(word.start)),
    }
}

// The number that is the next word, and the place behind it.
pub(crate) fn number(bytes: &[u8], place: usize) -> Reads<i128, ReadRefusal>
    requires { place ≤ length bytes.now }
    ensures reads { IsRead (λ z. z) read_fault bytes.now place result (matrix_number bytes.now place) }
    ensures fits { IfOk result (λ x. Fits x.0) }
{
    number_word(&next_word(bytes, place))
}

// So many numbers, and the place behind them.
pub(crate) fn numbers(
    alloc: Global,
    bytes: &[u8],
    count: usize,
    place: usize,
) -> Reads<Vec<i128>, ReadRefusal>
    requires { place ≤ length bytes.now }
    ensures reads { AreRead (λ v. v.items) read_fault bytes.now place result (matrix_numbers bytes.now count place) }
    ensures count { IfOk result (λ x. length x.0.items ≡ count) }
    ensures fits { IfOk result (λ x. All Fits x.0.items) }
{
    let mut read = Vec::with_capacity(alloc, count)?;
    let mut at = place;
    for _ in 0..count {
        let (entry, after) = number(bytes, at)?;
        read.push(entry)?;
        at = after;
    }
    Ok((read, at))
}
