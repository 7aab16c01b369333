ghost use Rattle.std.specs.Prelude.{◌≡◌};
ghost use Rattle.item_writing.specs.Statuses.{number_of};

/// The statuses of the program.
#[derive(Clone, Copy)]
pub enum Status {
    AllDone,
    WrongWords,
    WrongText,
    NotSupported,
    NumberTooLarge,
    BudgetSpent,
    ReadFailed,
    WriteFailed,
    MemoryRefused,
    PastLimit,
    NotAccepted,
    QuotientNegative,
    LengthsDiffer,
}

impl Status {
    /// The number that the process ends with.
    pub fn number(self) -> u8
        ensures { result ≡ number_of self }
    {
        match self {
            Status::AllDone => 0,
            Status::WrongWords => 1,
            Status::WrongText => 2,
            Status::NotSupported => 3,
            Status::NumberTooLarge => 4,
            Status::BudgetSpent => 5,
            Status::ReadFailed => 6,
            Status::WriteFailed => 7,
            Status::MemoryRefused => 8,
            Status::PastLimit => 9,
            Status::NotAccepted => 10,
            Status::QuotientNegative => 11,
            Status::LengthsDiffer => 12,
        }
    }
}
