//! Texts that tests make: at a limit, or cut off at each of their bytes.
use crate::row::{Wanted, line_ends_so};
use crate::texts::repeat;
use std::alloc::{AllocError, Global};
use std::process::Abort;
use std::test::Fail;

// A text of many like parts: pieces, each with how often it is repeated.
type Text = &'static [(&'static str, usize)];

// The words, a text, and what a run over it gives.
struct Limit {
    words: &'static str,
    text: Text,
    output: Text,
    notes: &'static str,
    status: u8,
}

// A context without rows and two answers, each a list of 128 components, that differ in the last alone.
const LISTS: Text = &[
    ("()((e)(list", 1),
    ("#[0]", 127),
    ("#[1]))((f)(list", 1),
    ("#[0]", 128),
    ("))", 1),
];

const BLANKS: &str = "                                                                ";

const TOO_LONG: &str = "pip: limit of input bytes 16777216\n";

// One past each limit, and just as much as is allowed.
const LIMITS: &[Limit] = &[
    Limit {
        words: "pip eval",
        text: &[
            ("((n)", 1),
            ("(if #[0]", 200),
            ("()", 1),
            ("())", 200),
            (")", 1),
        ],
        output: &[("((n)\n()\n)\n", 1)],
        notes: "",
        status: 0,
    },
    Limit {
        words: "pip simplify 0",
        text: &[
            ("((n)", 1),
            ("(if #[0]", 200),
            ("()", 1),
            ("())", 200),
            (")", 1),
        ],
        output: &[("((n)\n()\n)\n", 1)],
        notes: "",
        status: 0,
    },
    Limit {
        words: "pip eval",
        text: &[
            ("((n)", 1),
            ("(if #[0]", 201),
            ("()", 1),
            ("())", 201),
            (")", 1),
        ],
        output: &[],
        notes: "pip: limit of nesting 200\n",
        status: 9,
    },
    Limit {
        words: "pip eval",
        text: &[("((e)(list", 1), ("#[0]", 129), ("))", 1)],
        output: &[],
        notes: "pip: limit of components 129\n",
        status: 9,
    },
    Limit {
        words: "pip restrict 1",
        text: &[("(", 1), ("#[0 0]", 257), (")", 1)],
        output: &[],
        notes: "pip: limit of context rows 257\n",
        status: 9,
    },
    Limit {
        words: "pip same 0",
        text: LISTS,
        output: &[("differ #[]\n", 1)],
        notes: "",
        status: 0,
    },
    Limit {
        words: "pip solve",
        text: &[
            ("((r) 1 0 4096 0 -1 1 (", 1),
            ("#[1 -3]", 4096),
            (") ())", 1),
        ],
        output: &[("((r)\n(list\n#[ 3]\n)\n)\n", 1)],
        notes: "",
        status: 0,
    },
    Limit {
        words: "pip solve",
        text: &[("((c) 1 1 0 256 -1 1 () (", 1), ("#[1 -2]", 256), ("))", 1)],
        output: &[("((c)\n(list\n#[ 0 0]\n)\n)\n", 1)],
        notes: "",
        status: 0,
    },
    Limit {
        words: "pip solve",
        text: &[("((p) 1 48 0 0 -1 1 () ())", 1)],
        output: &[(
            "((p)\n(list\n#[ 0 0 0 0 0 0 0 0 0 0 0 0 0 0 0 0 0 0 0 0 0 0 0 0 0 0 0 0 0 0 0 0 0 0 0 0 0 0 0 0 0 0 0 0 0 0 0 0 0]\n)\n)\n",
            1,
        )],
        notes: "",
        status: 0,
    },
    Limit {
        words: "pip eval",
        text: &[(BLANKS, 262_143), (" ", 47), ("((e) (list #[7]))", 1)],
        output: &[("((e)\n(list\n#[ 7]\n)\n)\n", 1)],
        notes: "",
        status: 0,
    },
    Limit {
        words: "pip solve",
        text: &[("((u) 128 0 0 0 -1 1 () ())", 1)],
        output: &[("((u)\n(list\n", 1), ("#[ 0]\n", 128), (")\n)\n", 1)],
        notes: "",
        status: 0,
    },
    Limit {
        words: "pip eval",
        text: &[("((e)(list", 1), ("#[0]", 128), ("))", 1)],
        output: &[("((e)\n(list\n", 1), ("#[ 0]\n", 128), (")\n)\n", 1)],
        notes: "",
        status: 0,
    },
    Limit {
        words: "pip least 0",
        text: LISTS,
        output: &[("((e)\n(list\n", 1), ("#[ 0]\n", 128), (")\n)\n", 1)],
        notes: "",
        status: 0,
    },
];

// Inputs of the most bytes, and of one more. Problems are read one by one: the one before the last byte is answered. All
// other inputs are read whole first.
const LONGEST: &[Limit] = &[
    Limit {
        words: "pip solve",
        text: &[
            ("((a) 1 0 1 0 -1 1 (#[1 -3]) ())", 1),
            (BLANKS, 262_143),
            (" ", 33),
        ],
        output: &[("((a)\n(list\n#[ 3]\n)\n)\n", 1)],
        notes: "",
        status: 0,
    },
    Limit {
        words: "pip solve",
        text: &[
            ("((a) 1 0 1 0 -1 1 (#[1 -3]) ())", 1),
            (BLANKS, 262_143),
            (" ", 34),
        ],
        output: &[("((a)\n(list\n#[ 3]\n)\n)\n", 1)],
        notes: TOO_LONG,
        status: 9,
    },
    Limit {
        words: "pip solve --polylib",
        text: &[(BLANKS, 262_144), (" ", 1)],
        output: &[],
        notes: TOO_LONG,
        status: 9,
    },
    Limit {
        words: "pip eval",
        text: &[(BLANKS, 262_144), (" ", 1)],
        output: &[],
        notes: TOO_LONG,
        status: 9,
    },
    Limit {
        words: "pip check",
        text: &[(BLANKS, 262_144), (" ", 1)],
        output: &[],
        notes: TOO_LONG,
        status: 9,
    },
    Limit {
        words: "pip restrict 0",
        text: &[(BLANKS, 262_144), (" ", 1)],
        output: &[],
        notes: TOO_LONG,
        status: 9,
    },
    Limit {
        words: "pip same 0",
        text: &[(BLANKS, 262_144), (" ", 1)],
        output: &[],
        notes: TOO_LONG,
        status: 9,
    },
];

// Appends an if node whose form is 1 and this number below 0.
fn push_node(alloc: Global, text: &mut Vec<u8>, number: usize) -> Result<(), AllocError> {
    let node = format!(in alloc; "(if #[ 1 -{number}]\n")?;
    text.extend_from_slice(node.as_bytes())
}

// Appends so many if nodes on one path, each with a bottom beside it, and the end of their answer.
fn chain(alloc: Global, text: &mut Vec<u8>, count: usize) -> Result<(), AllocError> {
    for i in 0..count {
        push_node(alloc, text, i.saturating_add(1))?;
    }
    text.extend_from_slice(b"()\n")?;
    repeat(text, b"()\n)\n", count)?;
    text.extend_from_slice(b")\n")
}

fn made(alloc: Global, pieces: &[(&str, usize)]) -> Result<Vec<u8>, AllocError> {
    let mut text = Vec::new(alloc);
    for (piece, count) in pieces {
        repeat(&mut text, piece.as_bytes(), *count)?;
    }
    Ok(text)
}

fn is_kept(alloc: Global, limit: &Limit) -> Result<bool, AllocError> {
    let output = made(alloc, limit.output)?;
    let wanted = Wanted {
        output: output.as_slice(),
        notes: limit.notes,
        status: limit.status,
    };
    line_ends_so(alloc, limit.words, made(alloc, limit.text)?, 4096, &wanted)
}

// Asserts that each limit is kept.
fn are_kept(rt: &impl Abort, alloc: Global, limits: &[Limit]) -> Result<(), Fail> {
    for limit in limits {
        assert!(rt; is_kept(alloc, limit)?, "{}: {}", limit.words, limit.notes);
    }
    Ok(())
}

#[test]
fn limits_are_kept(rt: HostRuntime) -> Result<(), Fail> {
    are_kept(&rt, rt.alloc(), LIMITS)
}

#[test]
fn bytes_of_inputs_are_limited(rt: HostRuntime) -> Result<(), Fail> {
    are_kept(&rt, rt.alloc(), LONGEST)
}

// Whether the deepest answer is restricted to itself.
fn is_walked(alloc: Global) -> Result<bool, AllocError> {
    let mut output = b"((n)\n".to_vec(alloc)?;
    chain(alloc, &mut output, 200)?;
    let wanted = Wanted {
        output: output.as_slice(),
        notes: "",
        status: 0,
    };
    let mut input = b"()((n)\n".to_vec(alloc)?;
    chain(alloc, &mut input, 200)?;
    line_ends_so(alloc, "pip restrict 1", input, 4096, &wanted)
}

#[test]
fn the_deepest_answer_is_walked(rt: HostRuntime) -> Result<(), Fail> {
    assert!(rt; is_walked(rt.alloc())?);
    Ok(())
}

// Where the fault is of a text that is cut to so many bytes: a sign or a `#` alone is one at its own place.
fn fault_at(length: usize) -> usize {
    match length {
        14 => 13,
        20 => 19,
        26 => 25,
        _ => length,
    }
}

// Whether a text that is cut to so many bytes is refused where it ends.
fn is_cut_off(alloc: Global, text: &[u8], length: usize) -> Result<bool, AllocError> {
    let input = text.to_vec(alloc)?;
    let notes = format!(in alloc; "pip: syntax at byte {}\n", fault_at(length))?;
    let wanted = Wanted {
        output: b"",
        notes: notes.as_str(),
        status: 2,
    };
    line_ends_so(alloc, "pip solve", input, 7, &wanted)
}

#[test]
fn a_text_cut_off_is_refused_at_its_end(rt: HostRuntime) -> Result<(), Fail> {
    let text = b"((c) 1 1 1 0 -1 1 (#[2 0 -1]) ())".as_slice();
    for length in 1..text.len() {
        assert!(rt;
            is_cut_off(rt.alloc(), &text[..length], length)?,
            "{length}"
        );
    }
    Ok(())
}
