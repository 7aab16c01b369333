//! Readers and writers of std as the ends of a run.
use pip_outside::{Failed, Source, StdSink, StdSource, write_all};
use std::io::{Error, ErrorKind, Read, Write};
use std::test::Fail;

// What two bytes' room takes of a reader: the count, and the bytes that lie in the room.
fn taken<R: Read>(source: &mut StdSource<R>) -> Result<(usize, [u8; 2]), Failed> {
    let mut room = [0u8; 2];
    let count = source.read(&mut room)?;
    Ok((count, room))
}

// A reader of three bytes is read to its end, which stays.
fn is_read_to_its_end() -> bool {
    let mut source = StdSource::new(b"((a".as_slice());
    taken(&mut source) == Ok((2, *b"(("))
        && taken(&mut source) == Ok((1, *b"a\0"))
        && taken(&mut source) == Ok((0, *b"\0\0"))
}

// A writer takes all that it has room for, and then fails.
fn is_filled() -> bool {
    let mut room = [0u8; 3];
    let mut sink = StdSink::new(room.as_mut_slice());
    let written = write_all(&mut sink, b"ab") == Ok(())
        && write_all(&mut sink, b"cd") == Err(Failed);
    written && room == *b"abc"
}

// A reader that gives two bytes a call, but fails at its second.
#[derive(Drop)]
struct Failing {
    calls: u8,
}

impl Read for Failing {
    fn read(&mut self, buf: &mut [u8]) -> std::io::Result<usize> {
        self.calls = self.calls.saturating_add(1);
        if self.calls == 2 || buf.len() < 2 {
            return Err(Error::from(ErrorKind::UnexpectedEof));
        }
        buf[0] = b'(';
        buf[1] = b'(';
        Ok(2)
    }
}

fn is_fault() -> bool {
    let mut source = StdSource::new(Failing { calls: 0 });
    taken(&mut source) == Ok((2, *b"((")) && taken(&mut source) == Err(Failed)
}

#[test]
fn a_reader_of_std_is_read_to_its_end_or_its_error(rt: HostRuntime) {
    assert!(rt; is_read_to_its_end());
    assert!(rt; is_fault());
}

// A writer that tells in a place of its own how many bytes it had at its last flush.
#[derive(Drop)]
struct Flushed<'a> {
    flushed: &'a mut usize,
    taken: usize,
}

impl Write for Flushed<'_> {
    fn write(&mut self, piece: &[u8]) -> std::io::Result<usize> {
        self.taken = self.taken.saturating_add(piece.len());
        Ok(piece.len())
    }

    fn flush(&mut self) -> std::io::Result<()> {
        *self.flushed = self.taken;
        Ok(())
    }
}

// How many bytes of these were flushed behind a write of them.
fn bytes_flushed(text: &[u8]) -> usize {
    let mut flushed = 0;
    let mut sink = StdSink::new(Flushed {
        flushed: &mut flushed,
        taken: 0,
    });
    let written = write_all(&mut sink, text) == Ok(());
    if written { flushed } else { 0 }
}

// A writer that takes all, and whose flush fails.
#[derive(Drop)]
struct Clogged {}

impl Write for Clogged {
    fn write(&mut self, piece: &[u8]) -> std::io::Result<usize> {
        Ok(piece.len())
    }

    fn flush(&mut self) -> std::io::Result<()> {
        Err(Error::from(ErrorKind::UnexpectedEof))
    }
}

#[test]
fn a_writer_of_std_takes_all_it_has_room_for_and_is_flushed(rt: HostRuntime) {
    assert!(rt; is_filled());
    assert!(rt; bytes_flushed(b"a") == 1);
    assert!(rt; bytes_flushed(b"abc") == 3);
    assert!(rt; write_all(&mut StdSink::new(Clogged {}), b"a") == Err(Failed));
}
