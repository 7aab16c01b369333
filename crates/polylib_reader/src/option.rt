ghost use Rattle.std.specs.Prelude.{◌≡◌, ◌≤◌, length, true, IfOk};
ghost use Rattle.pip_model.specs.MatrixText.{accepted_option as accepted_option_of, options as options_of};
ghost use Rattle.pip_model.specs.Agreement.{Agrees};
ghost use Rattle.pip_problem.specs.Faults.{read_fault};
ghost use Rattle.polylib_reader.specs.Words.{word_of};

use crate::word::{Word, next_word};
use pip_problem::{Option_, ReadRefusal};
use text_reading::same_bytes;

// The place behind the one option that is taken, `Rational`.
fn accepted_option(word: &Word<'_>) -> Result<usize, ReadRefusal>
    ensures agrees { Agrees (λ x. x) read_fault result (accepted_option_of (word_of word.now)) }
    ensures place { IfOk result (λ place. place ≡ word.now.after) }
{
    if same_bytes(word.text, b"Rational") {
        Ok(word.after)
    } else if same_bytes(word.text, b"Maximize") {
        Err(ReadRefusal::OptionWord(Option_::Maximize))
    } else if same_bytes(word.text, b"Urs_parms") {
        Err(ReadRefusal::OptionWord(Option_::UrsParms))
    } else if same_bytes(word.text, b"Urs_unknowns") {
        Err(ReadRefusal::OptionWord(Option_::UrsUnknowns))
    } else if same_bytes(word.text, b"Dual") {
        Err(ReadRefusal::OptionWord(Option_::Dual))
    } else {
        Err(ReadRefusal::Syntax(word.start))
    }
}

// Whether whole points are asked for, by the option words to the end.
pub(crate) fn options(bytes: &[u8], place: usize) -> Result<bool, ReadRefusal>
    requires { place ≤ length bytes.now }
    ensures { Agrees (λ x. x) read_fault result (options_of bytes.now (length bytes.now) true place) }
{
    let mut integer = true;
    let mut at = place;
    // Each word has a byte at least, so there are no more words than bytes.
    for _ in 0..bytes.len() {
        let word = next_word(bytes, at);
        if word.text.is_empty() {
            return Ok(integer);
        }
        at = accepted_option(&word)?;
        integer = false;
    }
    Ok(integer)
}
