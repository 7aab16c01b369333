ghost use Rattle.std.specs.Prelude.{◌≡◌};
ghost use Rattle.item_writing.specs.Statuses.{number_of};
ghost use Rattle.pip_outside.specs.Bytes.{WritesBytes};
ghost use Rattle.program_model.specs.Endings.{notes_of};
ghost use Rattle.item_writing.specs.Endings.{ending_of, pieces_ending};
ghost use Rattle.pip_problem.specs.declared.refusal.Refusal.TheVariants as run;
ghost use Rattle.item_writing.specs.declared.ending.Ending.TheVariants as ending;
ghost use Rattle.item_writing.specs.InputEndings.{words_ending, next_ending};
ghost use Rattle.pip_stream.specs.Refusals.{not_filled};

use crate::status::Status;
use crate::told::{tell, write_line};
use affine_forms::Overflow;
use certificate_check::Spot;
use leaf_certificate::CertificateRefusal;
use pip_outside::{Failed, FillRefusal, Sink};
use pip_problem::{ReadRefusal, Refusal};
use pip_stream::NextRefusal;
use pip_words::WordsRefusal;
use quast_pieces::PiecesRefusal;
use quast_text::TextRefusal;
use quast_walk::ToolRefusal;
use std::alloc::AllocError;

/// Why a run of the program ends before all is done.
#[derive(Clone, Copy)]
pub enum Ending {
    /// The words give no command.
    Usage,
    ReadFault,
    WriteFault,
    WantOfMemory,
    /// The input has more bytes than its limit.
    InputTooLong,
    /// A problem is not read.
    Problem(ReadRefusal),
    /// An answer is not read.
    Answer(TextRefusal),
    /// A certificate is not read.
    Certificate(CertificateRefusal),
    /// A certificate is of a rational problem.
    RationalCertificate,
    /// A certificate is not accepted, for a condition at this place.
    Rejected(Spot),
    /// A number of a check does not fit, at this place.
    OverflowAt(Spot),
    /// The calculation of an item is refused.
    Run(Refusal),
    /// A walk under a context is refused.
    Walk(ToolRefusal),
}

impl Ending {
    /// The status of the process.
    pub fn status(self) -> Status
        ensures { number_of result ≡ (ending_of self).status }
    {
        tell(self).status
    }

    /// Writes the line of this ending to the notes. It takes no memory.
    pub fn write_line<N: Sink>(self, notes: &mut N) -> Result<(), Failed>
        ensures { WritesBytes N.written N.faults notes.old notes.new result (notes_of (ending_of self)) }
    {
        write_line(notes, &tell(self))
    }
}

impl From<WordsRefusal> for Ending {
    ghost from_gives = { λ e r. r ≡ words_ending e };

    fn from(refusal: WordsRefusal) -> Ending {
        match refusal {
            WordsRefusal::Usage => Ending::Usage,
            WordsRefusal::WantOfMemory => Ending::WantOfMemory,
        }
    }
}

impl From<ReadRefusal> for Ending {
    ghost from_gives = { λ e r. r ≡ ending.Problem e };

    fn from(refusal: ReadRefusal) -> Ending {
        Ending::Problem(refusal)
    }
}

impl From<NextRefusal> for Ending {
    ghost from_gives = { λ e r. r ≡ next_ending e };

    fn from(refusal: NextRefusal) -> Ending {
        match refusal {
            NextRefusal::Read(refusal) => Ending::Problem(refusal),
            NextRefusal::Failed => Ending::ReadFault,
            NextRefusal::InputBytes => Ending::InputTooLong,
            NextRefusal::WantOfMemory => Ending::WantOfMemory,
        }
    }
}

/// A window is not made, or not filled.
impl From<FillRefusal> for Ending {
    ghost from_gives = { λ e r. r ≡ next_ending (not_filled e) };

    fn from(refusal: FillRefusal) -> Ending {
        Ending::from(NextRefusal::from(refusal))
    }
}

impl From<TextRefusal> for Ending {
    ghost from_gives = { λ e r. r ≡ ending.Answer e };

    fn from(refusal: TextRefusal) -> Ending {
        Ending::Answer(refusal)
    }
}

impl From<CertificateRefusal> for Ending {
    ghost from_gives = { λ e r. r ≡ ending.Certificate e };

    fn from(refusal: CertificateRefusal) -> Ending {
        Ending::Certificate(refusal)
    }
}

impl From<Refusal> for Ending {
    ghost from_gives = { λ e r. r ≡ ending.Run e };

    fn from(refusal: Refusal) -> Ending {
        Ending::Run(refusal)
    }
}

impl From<PiecesRefusal> for Ending {
    ghost from_gives = { λ e r. r ≡ pieces_ending e };

    fn from(refusal: PiecesRefusal) -> Ending {
        match refusal {
            PiecesRefusal::Overflow => Ending::Run(Refusal::Overflow),
            PiecesRefusal::WantOfMemory => Ending::WantOfMemory,
        }
    }
}

impl From<ToolRefusal> for Ending {
    ghost from_gives = { λ e r. r ≡ ending.Walk e };

    fn from(refusal: ToolRefusal) -> Ending {
        Ending::Walk(refusal)
    }
}

impl From<Overflow> for Ending {
    ghost from_gives = { λ _ r. r ≡ ending.Run run.Overflow };

    fn from(_: Overflow) -> Ending {
        Ending::Run(Refusal::Overflow)
    }
}

/// A write failed; a read that fails is no such error.
impl From<Failed> for Ending {
    ghost from_gives = { λ _ r. r ≡ ending.WriteFault };

    fn from(_: Failed) -> Ending {
        Ending::WriteFault
    }
}

impl From<affine_forms::WantOfMemory> for Ending {
    ghost from_gives = { λ _ r. r ≡ ending.WantOfMemory };

    fn from(_: affine_forms::WantOfMemory) -> Ending {
        Ending::WantOfMemory
    }
}

impl From<AllocError> for Ending {
    ghost from_gives = { λ _ e. e ≡ ending.WantOfMemory };

    fn from(_: AllocError) -> Ending {
        Ending::WantOfMemory
    }
}
