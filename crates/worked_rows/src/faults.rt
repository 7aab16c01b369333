//! Reads and writes that fail, each in turn, and ends that never fail.
use crate::row::{Ends, Wanted, ends_so, words_of};
use pip_cli::pip_main;
use pip_outside::{MemorySink, MemorySource, SteadySink, SteadySource};
use std::alloc::{AllocError, Global};
use std::test::Fail;

const TWICE: &str = "((a) 1 0 1 0 -1 1 (#[1 -3]) ())((a) 1 0 1 0 -1 1 (#[1 -3]) ())";

const TEXTS: &str = "((a)\n(list\n#[ 3]\n)\n)\n((a)\n(list\n#[ 3]\n)\n)\n";

// What fails: the source, the sink or the notes.
#[derive(Drop)]
enum Fault {
    Read,
    Write,
    Note,
}

// Ends over these bytes that move a byte a call. Of what fails, these calls do.
fn failing(alloc: Global, bytes: Vec<u8>, fault: &Fault, calls: Vec<u64>) -> Ends {
    let (reads, writes, lines) = match fault {
        Fault::Read => (calls, Vec::new(alloc), Vec::new(alloc)),
        Fault::Write => (Vec::new(alloc), calls, Vec::new(alloc)),
        Fault::Note => (Vec::new(alloc), Vec::new(alloc), calls),
    };
    Ends {
        source: MemorySource::new(bytes, 1, reads),
        sink: MemorySink::new(Vec::new(alloc), 1, writes),
        notes: MemorySink::new(Vec::new(alloc), 1, lines),
    }
}

// Whether a run over an input ends as wanted where this call of what fails does.
fn fails_so(
    alloc: Global,
    input: &str,
    fault: &Fault,
    call: u64,
    wanted: &Wanted<'_>,
) -> Result<bool, AllocError> {
    let bytes = input.as_bytes().to_vec(alloc)?;
    let calls = [call].to_vec(alloc)?;
    let words = words_of(alloc, "pip solve")?;
    Ok(ends_so(alloc, &words, failing(alloc, bytes, fault, calls), wanted))
}

// The first and the last of the reads that fail, and what comes where one of them does.
struct Reads {
    first: u64,
    last: u64,
    output: &'static str,
    notes: &'static str,
    status: u8,
}

const READS: &[Reads] = &[
    Reads {
        first: 0,
        last: 30,
        output: "",
        notes: "pip: read fault\n",
        status: 6,
    },
    Reads {
        first: 31,
        last: 61,
        output: "((a)\n(list\n#[ 3]\n)\n)\n",
        notes: "pip: read fault\n",
        status: 6,
    },
    Reads {
        first: 62,
        last: 62,
        output: TEXTS,
        notes: "pip: read fault\n",
        status: 6,
    },
    Reads {
        first: 63,
        last: 63,
        output: TEXTS,
        notes: "",
        status: 0,
    },
];

fn is_read(alloc: Global, call: u64, reads: &Reads) -> Result<bool, AllocError> {
    let wanted = Wanted {
        output: reads.output.as_bytes(),
        notes: reads.notes,
        status: reads.status,
    };
    fails_so(alloc, TWICE, &Fault::Read, call, &wanted)
}

#[test]
fn reads_that_fail_are_told(rt: HostRuntime) -> Result<(), Fail> {
    for reads in READS {
        for call in reads.first..=reads.last {
            assert!(rt; is_read(rt.alloc(), call, reads)?, "{call}");
        }
    }
    Ok(())
}

fn is_written(alloc: Global, call: usize, output: &[u8]) -> Result<bool, AllocError> {
    let wanted = Wanted {
        output,
        notes: "pip: write fault\n",
        status: 7,
    };
    fails_so(alloc, TWICE, &Fault::Write, call as u64, &wanted)
}

#[test]
fn writes_that_fail_are_told(rt: HostRuntime) -> Result<(), Fail> {
    let texts = TEXTS.as_bytes();
    for call in 0..texts.len() {
        assert!(rt; is_written(rt.alloc(), call, &texts[..call])?, "{call}");
    }
    Ok(())
}

// A write that is not made does not fail, and a note that fails changes nothing else.
#[test]
fn faults_that_are_not_told(rt: HostRuntime) -> Result<(), Fail> {
    let alloc = rt.alloc();
    let texts = Wanted {
        output: TEXTS.as_bytes(),
        notes: "",
        status: 0,
    };
    assert!(rt; fails_so(alloc, TWICE, &Fault::Write, 42, &texts)?);
    let refused = Wanted {
        output: b"",
        notes: "",
        status: 2,
    };
    let input = "((s) 1 1 1 0 -1 1 (#[2 0]) ())";
    assert!(rt; fails_so(alloc, input, &Fault::Note, 0, &refused)?);
    Ok(())
}

// The status of a run of these words over an input, with ends that never fail.
fn steady(alloc: Global, words: &Vec<String>, input: Vec<u8>) -> u8 {
    let mut source = SteadySource::new(input);
    let mut sink = SteadySink::new();
    let mut notes = SteadySink::new();
    pip_main(alloc, words, &mut source, &mut sink, &mut notes)
}

fn is_steady(alloc: Global) -> Result<bool, AllocError> {
    let words = words_of(alloc, "pip solve")?;
    Ok(steady(alloc, &words, TWICE.as_bytes().to_vec(alloc)?) == 0)
}

#[test]
fn steady_ends_do_not_fail(rt: HostRuntime) -> Result<(), Fail> {
    assert!(rt; is_steady(rt.alloc())?);
    Ok(())
}
