ghost use Rattle.std.specs.Prelude.{◌≡◌, ◌≤◌, ◌+◌, false, length};
ghost use Rattle.std.specs.List.{prefix_len, take_while};
ghost use Rattle.pip_model.specs.MatrixText.{skipped as skipped_of, word as word_at};
ghost use Rattle.polylib_reader.specs.Words.{is_word_byte, word_of};

use text_tokens::blank;

// A longest run of bytes that are neither blanks nor `#`; it is empty at the end of the bytes.
#[derive(Clone, Copy)]
pub(crate) struct Word<'a> {
    pub text: &'a [u8],
    pub start: usize,
    pub after: usize,
}

// The bytes behind blanks and comments; a comment runs from `#` to the end of its line.
fn skip_blanks(bytes: &[u8]) -> &[u8]
    ensures value { result.now ≡ skipped_of false bytes.now }
    ensures bound { length result.now ≤ length bytes.now }
{
    let mut comment = false;
    for (place, byte) in bytes.iter().enumerate() {
        comment = (comment || *byte == b'#') && *byte != b'\n';
        if !comment && !blank(*byte) {
            let (_, rest) = bytes.split_at(place);
            return rest;
        }
    }
    &[]
}

fn word_byte(byte: u8) -> bool
    ensures { result ≡ is_word_byte byte }
{
    !blank(byte) && byte != b'#'
}

// How many of the bytes from the front on belong to a word.
fn word_len(bytes: &[u8]) -> usize
    ensures value { result ≡ prefix_len is_word_byte bytes.now }
    ensures bound { result ≤ length bytes.now }
{
    bytes.iter().take_while(|byte| word_byte(**byte)).count()
}

// The word at the front.
fn word_text(bytes: &[u8]) -> &[u8]
    ensures value { result.now ≡ take_while is_word_byte bytes.now }
    ensures bound { length result.now ≤ length bytes.now }
{
    let (text, _) = bytes.split_at(word_len(bytes));
    text
}

// The next word at or behind a place.
pub(crate) fn next_word(bytes: &[u8], place: usize) -> Word<'_>
    requires { place ≤ length bytes.now }
    ensures value { word_of result ≡ word_at bytes.now place }
    ensures sized { result.after ≡ result.start + length result.text.now }
    ensures order { (place ≤ result.start) × (result.start ≤ result.after) × (result.after ≤ length bytes.now) }
{
    let (_, rest) = bytes.split_at(place);
    let rest = skip_blanks(rest);
    let text = word_text(rest);
    let start = bytes.len() - rest.len();
    Word {
        text,
        start,
        after: start + text.len(),
    }
}
