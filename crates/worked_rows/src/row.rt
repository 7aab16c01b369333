ghost use Rattle.std.specs.Prelude.{◌<◌};

use pip_cli::pip_main;
use pip_outside::{MemorySink, MemorySource};
use std::alloc::{AllocError, Global};
use std::process::Abort;
use std::test::Fail;

// The source, the sink and the notes of a run, all in memory.
#[derive(Drop)]
pub(crate) struct Ends {
    pub source: MemorySource,
    pub sink: MemorySink,
    pub notes: MemorySink,
}

// What a run is to write and to tell, and its status.
#[derive(Drop)]
pub(crate) struct Wanted<'t> {
    pub output: &'t [u8],
    pub notes: &'t str,
    pub status: u8,
}

// Ends over an input that move at most so many bytes a call. None of their calls fails.
pub(crate) fn ends_over(alloc: Global, input: Vec<u8>, piece: usize) -> Ends
    requires { 0 < piece }
{
    Ends {
        source: MemorySource::new(input, piece, Vec::new(alloc)),
        sink: MemorySink::new(Vec::new(alloc), piece, Vec::new(alloc)),
        notes: MemorySink::new(Vec::new(alloc), piece, Vec::new(alloc)),
    }
}

// The words of a line.
pub(crate) fn words_of(alloc: Global, line: &str) -> Result<Vec<String>, AllocError> {
    let mut words = Vec::new(alloc);
    for word in line.split(' ') {
        words.push(String::from_str(alloc, word)?)?;
    }
    Ok(words)
}

// Runs these words, and gives the status.
pub(crate) fn run_words(alloc: Global, words: &Vec<String>, ends: &mut Ends) -> u8 {
    pip_main(
        alloc,
        words,
        &mut ends.source,
        &mut ends.sink,
        &mut ends.notes,
    )
}

// Whether a run that is over ended as wanted.
fn is_ended(ends: &Ends, status: u8, wanted: &Wanted<'_>) -> bool {
    ends.sink.written() == wanted.output
        && ends.notes.written() == wanted.notes.as_bytes()
        && status == wanted.status
}

// Whether these words end as wanted over these ends, which are owned here, where nothing is refused: a drop of them is
// proved at each exit.
pub(crate) fn ends_so(alloc: Global, words: &Vec<String>, ends: Ends, wanted: &Wanted<'_>) -> bool {
    let mut ends = ends;
    let status = run_words(alloc, words, &mut ends);
    let is_so = is_ended(&ends, status, wanted);
    drop(ends);
    is_so
}

// Whether the words of a line end as wanted over this input, in pieces of so many bytes.
pub(crate) fn line_ends_so(
    alloc: Global,
    line: &str,
    input: Vec<u8>,
    piece: usize,
    wanted: &Wanted<'_>,
) -> Result<bool, AllocError>
    requires { 0 < piece }
{
    let words = words_of(alloc, line)?;
    Ok(ends_so(alloc, &words, ends_over(alloc, input, piece), wanted))
}

// The same of an input in pieces of seven bytes.
fn text_ends_so(
    alloc: Global,
    line: &str,
    input: &str,
    wanted: &Wanted<'_>,
) -> Result<bool, AllocError> {
    line_ends_so(alloc, line, input.as_bytes().to_vec(alloc)?, 7, wanted)
}

// The text before the next double bar, with what stands behind that; all of it where there is none.
pub(crate) fn field(row: &str) -> (&str, &str) {
    match row.split_once(" || ") {
        Some(parts) => parts,
        None => (row, ""),
    }
}

// Whether a row holds: its name, the words with a blank between two of them, the input, and what the sink gains; where a
// run is refused also the status, and what the notes gain. Else the notes gain nothing, and the status is 0.
fn holds(alloc: Global, row: &str) -> Result<bool, AllocError> {
    let (_, row) = field(row);
    let (words, row) = field(row);
    let (input, row) = field(row);
    let (output, row) = field(row);
    let (status, notes) = field(row);
    let wanted = Wanted {
        output: output.as_bytes(),
        notes,
        status: status.parse().unwrap_or(0),
    };
    text_ends_so(alloc, words, input, &wanted)
}

// Asserts that each row holds.
pub(crate) fn all_hold(rt: &impl Abort, alloc: Global, rows: &[&str]) -> Result<(), Fail> {
    for row in rows {
        assert!(rt; holds(alloc, row)?, "{row}");
    }
    Ok(())
}
