ghost use Rattle.std.specs.Prelude.{◌≡◌, ◌++◌, ◌<◌, Some, None, pos, length, codes};
ghost use Rattle.pip_outside.specs.Bytes.{WritesBytes};
ghost use Rattle.program_model.specs.Endings.{ending, budget_spent, spot_text, memory_ending, kind_name, option_name, fault_ending, notes_of};
ghost use Rattle.pip_model.specs.Reading.{Syntax, Wide};
ghost use Rattle.item_writing.specs.Statuses.{number_of};
ghost use Rattle.item_writing.specs.Endings.{walk_ending, or_memory, read_ending, text_ending, certificate_ending, run_ending, ending_of};
ghost use Rattle.certificate_check.specs.Faults.{spot_of};
ghost use Rattle.item_writing.specs.Lines.{part_text, parts_text, numbered, ending_told};

use crate::ending::Ending;
use crate::line::{Line, Part, Told};
use crate::status::Status;
use affine_forms::MOST_NESTING;
use certificate_check::Spot;
use itoa::Buffer;
use leaf_certificate::CertificateRefusal;
use pip_outside::{Failed, Sink, write_all};
use pip_problem::{LimitKind, Option_, ReadRefusal, Refusal};
use pip_stream::MOST_INPUT_BYTES;
use quast_text::TextRefusal;
use quast_walk::ToolRefusal;

// Writes a part of a line.
fn write_part<N: Sink>(notes: &mut N, part: &Part) -> Result<(), Failed>
    ensures { WritesBytes N.written N.faults notes.old notes.new result (part_text part.now) }
{
    match part {
        Part::Words(words) => write_all(notes, words.as_bytes()),
        Part::Count(count) => write_all(notes, Buffer::new().format(*count).as_bytes()),
        Part::Number(number) => write_all(notes, Buffer::new().format(*number).as_bytes()),
    }
}

// Writes parts of a line, one behind the other.
fn write_parts<N: Sink>(notes: &mut N, parts: &[Part]) -> Result<(), Failed>
    ensures { WritesBytes N.written N.faults notes.old notes.new result (parts_text parts.now) }
{
    match parts {
        [] => Ok(()),
        [part, rest @ ..] => {
            write_part(notes, part)?;
            write_parts(notes, rest)
        }
    }
}

// Writes the line to the notes. It takes no memory.
pub(crate) fn write_line<N: Sink>(notes: &mut N, told: &Told) -> Result<(), Failed>
    ensures { WritesBytes N.written N.faults notes.old notes.new result (notes_of (ending_told told.now)) }
{
    let front = Part::Words("pip: ");
    let end = Part::Words("\n");
    match told.line {
        Line::Words(words, None) => write_parts(notes, &[front, Part::Words(words), end]),
        Line::Words(words, Some(number)) => write_parts(
            notes,
            &[front, Part::Words(words), Part::Number(number), end],
        ),
        Line::Place(words, spot) => write_parts(
            notes,
            &[
                front,
                Part::Words(words),
                Part::Words(" at leaf "),
                Part::Count(spot.leaf),
                Part::Words(" refutation "),
                Part::Count(spot.refutation),
                Part::Words(" step "),
                Part::Count(spot.step),
                end,
            ],
        ),
        Line::Lengths(first, second) => write_parts(
            notes,
            &[
                front,
                Part::Words("lists of "),
                Part::Count(first),
                Part::Words(" and "),
                Part::Count(second),
                Part::Words(" components"),
                end,
            ],
        ),
    }
}

// Words alone.
fn tell_words(status: Status, words: &'static str) -> Told
    requires { 0 < length words.now }
    ensures { ending_told result ≡ ending (number_of status) (numbered words.now None) }
{
    tell_number(status, words, None)
}

// Words and a number behind them.
fn tell_number(status: Status, words: &'static str, number: Option<i128>) -> Told
    requires { 0 < length words.now }
    ensures { ending_told result ≡ ending (number_of status) (numbered words.now number) }
{
    Told {
        status,
        line: Line::Words(words, number),
    }
}

// Words and a place in a certificate.
fn tell_place(status: Status, words: &'static str, spot: Spot) -> Told
    requires { 0 < length words.now }
    ensures { ending_told result ≡ ending (number_of status) (words.now ++ spot_text (spot_of spot)) }
{
    Told {
        status,
        line: Line::Place(words, spot),
    }
}

// What is told of an ending.
pub(crate) fn tell(ending: Ending) -> Told
    ensures { ending_told result ≡ ending_of ending }
{
    match ending {
        Ending::Usage => tell_words(Status::WrongWords, "usage"),
        Ending::ReadFault => tell_words(Status::ReadFailed, "read fault"),
        Ending::WriteFault => tell_words(Status::WriteFailed, "write fault"),
        Ending::WantOfMemory => tell_want_of_memory(),
        Ending::InputTooLong => tell_number(
            Status::PastLimit,
            "limit of input bytes ",
            Some(MOST_INPUT_BYTES as i128),
        ),
        Ending::Problem(refusal) => tell_problem(refusal),
        Ending::Answer(refusal) => tell_answer(refusal),
        Ending::Certificate(refusal) => tell_certificate(refusal),
        Ending::RationalCertificate => tell_words(
            Status::NotSupported,
            "unsupported rational certificate",
        ),
        Ending::Rejected(spot) => tell_place(Status::NotAccepted, "rejected", spot),
        Ending::OverflowAt(spot) => tell_place(Status::NumberTooLarge, "overflow", spot),
        Ending::Run(refusal) => tell_run(refusal),
        Ending::Walk(refusal) => tell_walk(refusal),
    }
}

fn tell_want_of_memory() -> Told
    ensures { ending_told result ≡ memory_ending }
{
    tell_words(Status::MemoryRefused, "want of memory")
}

fn tell_syntax(place: usize) -> Told
    ensures { ending_told result ≡ fault_ending (Syntax place) }
{
    tell_number(Status::WrongText, "syntax at byte ", Some(place as i128))
}

fn tell_wide(place: usize) -> Told
    ensures { ending_told result ≡ fault_ending (Wide place) }
{
    tell_number(
        Status::PastLimit,
        "number too wide at byte ",
        Some(place as i128),
    )
}

fn tell_problem(refusal: ReadRefusal) -> Told
    ensures { ending_told result ≡ or_memory (read_ending refusal) }
{
    match refusal {
        ReadRefusal::Syntax(place) => tell_syntax(place),
        ReadRefusal::Wide(place) => tell_wide(place),
        ReadRefusal::Limit(kind, value) => tell_number(
            Status::PastLimit,
            limit_words(kind),
            Some(value),
        ),
        ReadRefusal::BigParameter(value) => tell_number(
            Status::NotSupported,
            "unsupported big parameter ",
            Some(value),
        ),
        ReadRefusal::OptionWord(word) => tell_words(Status::NotSupported, option_words(word)),
        ReadRefusal::WantOfMemory => tell_want_of_memory(),
    }
}

fn tell_answer(refusal: TextRefusal) -> Told
    ensures { ending_told result ≡ or_memory (text_ending refusal) }
{
    match refusal {
        TextRefusal::Syntax(place) => tell_syntax(place),
        TextRefusal::Wide(place) => tell_wide(place),
        TextRefusal::Nesting => tell_number(
            Status::PastLimit,
            "limit of nesting ",
            Some(MOST_NESTING as i128),
        ),
        TextRefusal::Components(count) => tell_number(
            Status::PastLimit,
            "limit of components ",
            Some(count),
        ),
        TextRefusal::WantOfMemory => tell_want_of_memory(),
    }
}

fn tell_certificate(refusal: CertificateRefusal) -> Told
    ensures { ending_told result ≡ or_memory (certificate_ending refusal) }
{
    match refusal {
        CertificateRefusal::Syntax(place) => tell_syntax(place),
        CertificateRefusal::Wide(place) => tell_wide(place),
        CertificateRefusal::Version(version) => tell_number(
            Status::NotSupported,
            "unsupported certificate ",
            Some(version),
        ),
        CertificateRefusal::WantOfMemory => tell_want_of_memory(),
    }
}

fn tell_walk(refusal: ToolRefusal) -> Told
    ensures { ending_told result ≡ or_memory (walk_ending refusal) }
{
    match refusal {
        ToolRefusal::Run(refusal) => tell_run(refusal),
        ToolRefusal::Negative => tell_words(Status::QuotientNegative, "negative quotient"),
        ToolRefusal::Lengths(first, second) => Told {
            status: Status::LengthsDiffer,
            line: Line::Lengths(first, second),
        },
    }
}

fn limit_words(kind: LimitKind) -> &'static str
    ensures words { result.now ≡ codes "limit of " ++ kind_name kind ++ codes " " }
    ensures some { 0 < length result.now }
{
    match kind {
        LimitKind::Unknowns => "limit of unknowns ",
        LimitKind::Parameters => "limit of parameters ",
        LimitKind::Rows => "limit of rows ",
        LimitKind::ContextRows => "limit of context rows ",
        LimitKind::Columns => "limit of columns ",
        LimitKind::ContextColumns => "limit of context columns ",
    }
}

fn option_words(word: Option_) -> &'static str
    ensures words { result.now ≡ codes "unsupported option " ++ option_name word }
    ensures some { 0 < length result.now }
{
    match word {
        Option_::Maximize => "unsupported option Maximize",
        Option_::UrsParms => "unsupported option Urs_parms",
        Option_::UrsUnknowns => "unsupported option Urs_unknowns",
        Option_::Dual => "unsupported option Dual",
    }
}

fn tell_run(refusal: Refusal) -> Told
    ensures { ending_told result ≡ or_memory (run_ending refusal) }
{
    match refusal {
        Refusal::Overflow => tell_words(Status::NumberTooLarge, "overflow"),
        Refusal::Pivots(limit) => tell_budget("budget of pivots ", limit),
        Refusal::Cuts(limit) => tell_budget("budget of cuts ", limit),
        Refusal::Splits(limit) => tell_budget("budget of splits ", limit),
        Refusal::Nesting(limit) => tell_budget("budget of nesting ", limit),
        Refusal::WantOfMemory => tell_want_of_memory(),
    }
}

fn tell_budget(words: &'static str, limit: u64) -> Told
    requires { 0 < length words.now }
    ensures { ending_told result ≡ ending budget_spent (numbered words.now (Some (pos limit))) }
{
    tell_number(Status::BudgetSpent, words, Some(i128::from(limit)))
}
