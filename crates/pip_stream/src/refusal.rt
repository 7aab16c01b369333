ghost use Rattle.std.specs.Prelude.{◌≡◌, ◌+◌, ◌<◌, ◌^◌};
ghost use Rattle.pip_stream.specs.Refusals.{place_told, refused_behind};

use pip_outside::FillRefusal;
use pip_problem::ReadRefusal;

/// Why the next problem is not read.
#[derive(Clone, Copy, Debug, PartialEq, Eq)]
pub enum NextRefusal {
    /// Its text is refused; the places count from the input's first byte.
    Read(ReadRefusal),
    /// The source failed.
    Failed,
    /// The input has more bytes than its limit.
    InputBytes,
    WantOfMemory,
}

impl From<FillRefusal> for NextRefusal {
    ghost use Rattle.std.specs.Prelude.{◌≡◌};
    ghost use Rattle.pip_stream.specs.Refusals.{not_filled};

    ghost from_gives = { λ fill e. e ≡ not_filled fill };

    fn from(refusal: FillRefusal) -> NextRefusal {
        match refusal {
            FillRefusal::Failed => NextRefusal::Failed,
            FillRefusal::WantOfMemory => NextRefusal::WantOfMemory,
        }
    }
}

// The refusal of a text that stands behind so many bytes of the input.
pub(crate) fn behind(before: usize, refusal: ReadRefusal) -> NextRefusal
    requires { before + place_told refusal < 2 ^ 64 }
    ensures { result ≡ refused_behind before refusal }
{
    match refusal {
        ReadRefusal::Syntax(place) => NextRefusal::Read(ReadRefusal::Syntax(before + place)),
        ReadRefusal::Wide(place) => NextRefusal::Read(ReadRefusal::Wide(before + place)),
        ReadRefusal::WantOfMemory => NextRefusal::WantOfMemory,
        ReadRefusal::Limit(_, _) | ReadRefusal::BigParameter(_) | ReadRefusal::OptionWord(_) => {
            NextRefusal::Read(refusal)
        }
    }
}
