//! At each call of the source its sink has the answers of all problems whose groups were given, each from a write of its
//! own, and no call follows the end of the input.
ghost use Rattle.std.specs.Prelude.{None};

use crate::row::words_of;
use pip_cli::pip_main;
use pip_outside::{Failed, Sink, Source, SteadySink};
use std::alloc::{AllocError, Global};
use std::cell::Cell;
use std::process::Abort;
use std::test::Fail;

// Two problems and the begin of a third, its rest, and the end; each answer has 21 bytes.
const PIECES: [&[u8]; 3] = [
    b"((a) 1 0 1 0 -1 1 (#[1 -3]) ()) ((a) 1 0 1 0 -1 1 (#[1 -3]) ()) ((a) 1 0 1",
    b" 0 -1 1 (#[1 -3]) ())",
    b"",
];

const WRITTEN: [usize; 3] = [0, 42, 63];

// A sink that tells in a cell how many bytes it has, and counts the writes.
#[derive(Drop)]
struct Telling<'a> {
    written: &'a Cell<usize>,
    writes: usize,
}

impl Sink for Telling<'_> {
    ghost written = { λ _. None };

    ghost faults = { λ _. 0 };

    fn write(&mut self, piece: &[u8]) -> Result<usize, Failed> {
        self.written
            .set(self.written.get().saturating_add(piece.len()));
        self.writes = self.writes.saturating_add(1);
        Ok(piece.len())
    }
}

// A source of the pieces that looks at each call at what its sink has.
#[derive(Drop)]
struct Looking<'a> {
    written: &'a Cell<usize>,
    calls: usize,
    right: bool,
}

impl Source for Looking<'_> {
    ghost left = { λ _. None };

    ghost taken = { λ _. 0 };

    ghost faults = { λ _. 0 };

    fn read(&mut self, buf: &mut [u8]) -> Result<usize, Failed> {
        let call = self.calls;
        self.calls = call.saturating_add(1);
        self.right &= call < 3 && self.written.get() == WRITTEN[call.min(2)];
        let piece = PIECES[call.min(2)];
        let count = piece.len().min(buf.len());
        buf[..count].copy_from_slice(&piece[..count]);
        Ok(count)
    }
}

// The status of a run, whether each call saw the answers, and how many calls and writes there were.
fn looked_at(alloc: Global) -> Result<(u8, bool, usize, usize), AllocError> {
    let words = words_of(alloc, "pip solve")?;
    let written = Cell::new(0);
    let mut source = Looking {
        written: &written,
        calls: 0,
        right: true,
    };
    let mut sink = Telling {
        written: &written,
        writes: 0,
    };
    let status = pip_main(
        alloc,
        &words,
        &mut source,
        &mut sink,
        &mut SteadySink::new(),
    );
    Ok((status, source.right, source.calls, sink.writes))
}

#[test]
fn answers_are_there_before_the_source_is_asked(rt: HostRuntime) -> Result<(), Fail> {
    assert!(rt; looked_at(rt.alloc())? == (0, true, 3, 3));
    Ok(())
}
