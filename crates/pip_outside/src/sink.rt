ghost use Rattle.std.specs.Prelude.{ℕ, List, Option, IsErr};
ghost use Rattle.std.specs.Io.KnownBytes.{WriteAppends};
ghost use Rattle.pip_outside.specs.Faults.{CountsFaults};
ghost use Rattle.pip_outside.specs.Bytes.{WritesBytes, TakesPiece};

use crate::failed::Failed;

/// Where bytes are written.
pub trait Sink {
    /// The bytes written, where the sink tells them.
    ghost written: { Self → Option (List ℕ) };

    /// How often a write has failed, up to `2^64 - 1`.
    ghost faults: { Self → ℕ };

    /// Appends the front of a piece, at least a byte of one that is not empty, and answers how many bytes it took.
    ///
    /// A failed write appends nothing, and is counted; a write that answers counts nothing.
    fn write(&mut self, piece: &[u8]) -> Result<usize, Failed>
        ensures takes { TakesPiece result piece.now }
        ensures bytes { WriteAppends (written self.old) (written self.new) result piece.now }
        ensures faults { CountsFaults (IsErr result) (faults self.old) (faults self.new) };
}

/// Appends all bytes, or a front of them where a write fails. It takes no memory.
pub fn write_all<K: Sink>(sink: &mut K, bytes: &[u8]) -> Result<(), Failed>
    ensures { WritesBytes K.written K.faults sink.old sink.new result bytes.now }
{
    let mut at = 0;
    while at < bytes.len() {
        at += sink.write(&bytes[at..])?;
    }
    Ok(())
}
