ghost use Rattle.std.specs.Prelude.{◌≡◌, None, Ok, length};
ghost use Rattle.pip_outside.specs.Bytes.{IsUnwritten};

use crate::failed::Failed;
use crate::sink::Sink;

/// A sink that takes each piece whole, keeps none and never fails: its count of faults is 0 for good.
#[derive(Drop)]
pub struct SteadySink {}

impl SteadySink {
    /// A sink that tells nothing of what it takes.
    pub fn new() -> SteadySink
        ensures { IsUnwritten ⟦<SteadySink as Sink>⟧.written ⟦<SteadySink as Sink>⟧.faults result None }
    {
        SteadySink {}
    }
}

impl Sink for SteadySink {
    ghost written = { λ _. None };

    ghost faults = { λ _. 0 };

    fn write(&mut self, piece: &[u8]) -> Result<usize, Failed>
        ensures whole { result ≡ Ok (length piece.now) }
    {
        Ok(piece.len())
    }
}
