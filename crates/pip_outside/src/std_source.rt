ghost use Rattle.std.specs.Prelude.{◌≡◌, None, IsErr};
ghost use Rattle.std.specs.Io.{ReadsAtMost};
ghost use Rattle.std.specs.Io.KnownBytes.{ReadConsumes};
ghost use Rattle.pip_outside.specs.Faults.{CountsFaults};
ghost use Rattle.pip_outside.specs.Bytes.{IsUnread};

use crate::failed::Failed;
use crate::source::Source;
use std::io::Read;
use std::marker::Model;

/// A source over a reader of std. It tells no content, and any error of the reader is a fault.
///
/// Contracts see what the reader tells that is left in it (`remaining`), and the count of faults.
#[derive(Drop)]
pub struct StdSource<R: Read> {
    reader: R,
    faults: u64,
}

impl<R: Read> Model for StdSource<R> {
    ghost use Rattle.pip_outside.specs.Views.{ReaderInput};

    ghost Value = { ReaderInput };

    ghost view = { λ s. record { remaining = R.remaining s.reader; faults = s.faults } };
}

impl<R: Read> StdSource<R> {
    /// A source of what the reader gives.
    pub fn new(reader: R) -> StdSource<R>
        ensures unread { IsUnread ⟦<StdSource<R> as Source>⟧.left ⟦<StdSource<R> as Source>⟧.taken
            ⟦<StdSource<R> as Source>⟧.faults result None }
        ensures reader { result.remaining ≡ R.remaining reader }
    {
        StdSource { reader, faults: 0 }
    }
}

impl<R: Read> Source for StdSource<R> {
    ghost left = { λ _. None };

    ghost taken = { λ _. 0 };

    ghost faults = { λ s. s.faults };

    fn read(&mut self, buf: &mut [u8]) -> Result<usize, Failed>
        ensures bound { ReadsAtMost result buf.new }
        ensures reader { ReadConsumes self.old.remaining self.new.remaining result buf.new }
        ensures faults { CountsFaults (IsErr result) self.old.faults self.new.faults }
    {
        match self.reader.read(buf) {
            Ok(count) => Ok(count),
            Err(_) => {
                self.faults = self.faults.saturating_add(1);
                Err(Failed)
            }
        }
    }
}
