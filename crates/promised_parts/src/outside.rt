ghost use Rattle.std.specs.Io.KnownBytes.{ReadConsumes};
ghost use Rattle.pip_outside.specs.Bytes.{WriterTakes};

use pip_outside::{Failed, Sink, Source, StdSink, StdSource};
use std::io::{Read, Write};

/// A read of a reader of std: what comes of it, and that none comes only at its end.
pub fn read<R: Read>(source: &mut StdSource<R>, buf: &mut [u8]) -> Result<usize, Failed>
    ensures { ReadConsumes source.old.remaining source.new.remaining result buf.new }
{
    source.read(buf)
}

/// A write to a writer of std: how much of the piece it holds then.
pub fn write<W: Write>(sink: &mut StdSink<W>, piece: &[u8]) -> Result<usize, Failed>
    ensures { WriterTakes sink.old.contents sink.new.contents result piece.now }
{
    sink.write(piece)
}
