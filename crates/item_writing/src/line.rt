ghost use Rattle.std.specs.Prelude.{◌<◌, length};
ghost use Rattle.item_writing.specs.LineWords.{words_of};

use crate::status::Status;
use certificate_check::Spot;

// What is told of an ending: its status and its line.
#[derive(Drop)]
pub(crate) struct Told {
    pub(crate) status: Status,
    pub(crate) line: Line,
    ghost some: { 0 < length (words_of line) },
}

// A line as the words that it begins with, and numbers behind them.
#[derive(Clone, Copy)]
pub(crate) enum Line {
    /// A number, if there is one.
    Words(&'static str, Option<i128>),
    /// A place in a certificate.
    Place(&'static str, Spot),
    /// The lengths of two lists, with words between them and behind them.
    Lengths(usize, usize),
}

// A part of a line.
#[derive(Clone, Copy)]
pub(crate) enum Part<'a> {
    Words(&'a str),
    Count(usize),
    Number(i128),
}
