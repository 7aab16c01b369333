//! Native problems are answered one by one, for every size of the pieces that the source gives.
use crate::row::{Ends, Wanted, ends_so, words_of};
use pip_outside::{MemorySink, MemorySource};
use std::alloc::{AllocError, Global};
use std::test::Fail;

const ONE: &str = "((a)\n(list\n#[ 3]\n)\n)\n";

const TWO: &str = "((a)\n(list\n#[ 3]\n)\n)\n((a)\n(list\n#[ 3]\n)\n)\n";

const TWICE: &str = "((a) 1 0 1 0 -1 1 (#[1 -3]) ())((a) 1 0 1 0 -1 1 (#[1 -3]) ())";

const CUT: &str = "((a) 1 0 1 0 -1 1 (#[1 -3]) ())((a) 1 0 1 0 -1 1 (#[1 -3]) ()";

const READ_FAULT: &str = "pip: read fault\n";

// An input, the sizes of the pieces that it is read in, the reads of it that fail, and what a run gives.
struct Read {
    input: &'static str,
    pieces: &'static [usize],
    fails: &'static [u64],
    output: &'static str,
    notes: &'static str,
    status: u8,
}

const READS: &[Read] = &[
    Read {
        input: " no problem )",
        pieces: &[1, 2, 7, 30, 31, 32, 4096],
        fails: &[],
        output: "",
        notes: "",
        status: 0,
    },
    Read {
        input: "x)((a) 1 0 1 0 -1 1 (#[1 -3]) ()) ) y((a) 1 0 1 0 -1 1 (#[1 -3]) ())\n)",
        pieces: &[1, 2, 7, 30, 31, 32, 4096],
        fails: &[],
        output: TWO,
        notes: "",
        status: 0,
    },
    Read {
        input: CUT,
        pieces: &[1, 2, 7, 30, 31, 32, 4096],
        fails: &[],
        output: ONE,
        notes: "pip: syntax at byte 61\n",
        status: 2,
    },
    Read {
        input: CUT,
        pieces: &[1, 2, 7, 30, 31, 32, 4096],
        fails: &[0],
        output: "",
        notes: READ_FAULT,
        status: 6,
    },
    // what was read whole is answered before a fault
    Read {
        input: TWICE,
        pieces: &[31],
        fails: &[1],
        output: ONE,
        notes: READ_FAULT,
        status: 6,
    },
    Read {
        input: TWICE,
        pieces: &[31],
        fails: &[2],
        output: TWO,
        notes: READ_FAULT,
        status: 6,
    },
    Read {
        input: TWICE,
        pieces: &[1],
        fails: &[30],
        output: "",
        notes: READ_FAULT,
        status: 6,
    },
    Read {
        input: TWICE,
        pieces: &[1],
        fails: &[61],
        output: ONE,
        notes: READ_FAULT,
        status: 6,
    },
    Read {
        input: TWICE,
        pieces: &[1],
        fails: &[62],
        output: TWO,
        notes: READ_FAULT,
        status: 6,
    },
    // a source that fails at its second read, once a refused problem was read whole, is not asked again
    Read {
        input: "((a) 1 0 1 0 -1 1 (#[1 -3 0]) ())((a) 1 0 1 0 -1 1 (#[1 -3]) ())",
        pieces: &[33],
        fails: &[1],
        output: "",
        notes: "pip: syntax at byte 26\n",
        status: 2,
    },
];

// Ends over these bytes, which are read in pieces of one size; these reads of them fail.
fn ends_of(alloc: Global, bytes: Vec<u8>, piece: usize, fails: Vec<u64>) -> Ends {
    Ends {
        source: MemorySource::new(bytes, piece.max(1), fails),
        sink: MemorySink::new(Vec::new(alloc), 7, Vec::new(alloc)),
        notes: MemorySink::new(Vec::new(alloc), 7, Vec::new(alloc)),
    }
}

fn is_read(alloc: Global, read: &Read, piece: usize) -> Result<bool, AllocError> {
    let wanted = Wanted {
        output: read.output.as_bytes(),
        notes: read.notes,
        status: read.status,
    };
    let bytes = read.input.as_bytes().to_vec(alloc)?;
    let fails = read.fails.to_vec(alloc)?;
    let words = words_of(alloc, "pip solve")?;
    Ok(ends_so(alloc, &words, ends_of(alloc, bytes, piece, fails), &wanted))
}

#[test]
fn every_piece_gives_the_same_texts(rt: HostRuntime) -> Result<(), Fail> {
    for read in READS {
        for piece in read.pieces {
            assert!(rt;
                is_read(rt.alloc(), read, *piece)?,
                "{} in pieces of {piece}",
                read.input
            );
        }
    }
    Ok(())
}
