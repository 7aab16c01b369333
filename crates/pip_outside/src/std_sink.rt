ghost use Rattle.std.specs.Prelude.{◌≡◌, None, IsErr};
ghost use Rattle.pip_outside.specs.Faults.{CountsFaults};
ghost use Rattle.pip_outside.specs.Bytes.{TakesPiece, WriterTakes, IsUnwritten};

use crate::failed::Failed;
use crate::sink::Sink;
use std::io::Write;
use std::marker::Model;

/// A sink over a writer of std, flushed at each write. It tells no content.
///
/// A fault is any error of the writer or of its flush, and a write that takes nothing of a piece that is not empty.
/// Contracts see what the writer tells that it holds (`contents`), and the count of faults.
#[derive(Drop)]
pub struct StdSink<W: Write> {
    writer: W,
    faults: u64,
}

impl<W: Write> Model for StdSink<W> {
    ghost use Rattle.pip_outside.specs.Views.{WriterOutput};

    ghost Value = { WriterOutput };

    ghost view = { λ s. record { contents = W.contents s.writer; faults = s.faults } };
}

impl<W: Write> StdSink<W> {
    /// A sink that hands its pieces to the writer.
    pub fn new(writer: W) -> StdSink<W>
        ensures empty { IsUnwritten ⟦<StdSink<W> as Sink>⟧.written ⟦<StdSink<W> as Sink>⟧.faults result None }
        ensures writer { result.contents ≡ W.contents writer }
    {
        StdSink { writer, faults: 0 }
    }
}

impl<W: Write> Sink for StdSink<W> {
    ghost written = { λ _. None };

    ghost faults = { λ s. s.faults };

    fn write(&mut self, piece: &[u8]) -> Result<usize, Failed>
        ensures takes { TakesPiece result piece.now }
        ensures writer { WriterTakes self.old.contents self.new.contents result piece.now }
        ensures faults { CountsFaults (IsErr result) self.old.faults self.new.faults }
    {
        match self.writer.write(piece) {
            Ok(count) if (0 < count || piece.is_empty()) && self.writer.flush().is_ok() => Ok(
                count,
            ),
            _ => {
                self.faults = self.faults.saturating_add(1);
                Err(Failed)
            }
        }
    }
}
