//! Texts that are made to overrun a reader: deep comments and wide numbers.
use crate::row::{Wanted, all_hold, line_ends_so};
use crate::texts::{between, repeat};
use std::alloc::{AllocError, Global};
use std::test::Fail;

// So many brackets, each within the one before it, behind a front and before a back.
fn bracketed(
    alloc: Global,
    front: &[u8],
    count: usize,
    back: &[u8],
) -> Result<Vec<u8>, AllocError> {
    let mut text = between(alloc, front, b"(", count, b"")?;
    repeat(&mut text, b")", count)?;
    text.extend_from_slice(back)?;
    Ok(text)
}

// Whether a comment of so many nested brackets is echoed, before what an item has behind it.
fn is_echoed(
    alloc: Global,
    words: &str,
    count: usize,
    item: &[u8],
    made: &[u8],
) -> Result<bool, AllocError> {
    let input = bracketed(alloc, b"(", count, item)?;
    let output = bracketed(alloc, b"(", count, made)?;
    let wanted = Wanted {
        output: output.as_slice(),
        notes: "",
        status: 0,
    };
    line_ends_so(alloc, words, input, 4096, &wanted)
}

// Items of 5 MB.
#[test]
fn a_deep_comment_is_echoed(rt: HostRuntime) -> Result<(), Fail> {
    let alloc = rt.alloc();
    let problem = b" 1 0 1 0 -1 1 (#[1 -3]) ())".as_slice();
    let made = b"\n(list\n#[ 3]\n)\n)\n".as_slice();
    assert!(rt; is_echoed(alloc, "pip solve", 2_500_000, problem, made)?);
    assert!(rt; is_echoed(alloc, "pip eval", 2_500_000, b"(list#[3]))", made)?);
    Ok(())
}

const WIDE: &[&str] = &[
    "the least constant, behind 100 zeros || pip solve || ((w) 1 0 1 0 -1 1 (#[1 -0000000000000000000000000000000000000000000000000000000000000000000000000000000000000000000000000000170141183460469231731687303715884105727]) ()) || ((w)\n(list\n#[ 170141183460469231731687303715884105727]\n)\n)\n",
    "a condition one past the least, in an answer || pip simplify 1 || ((w)\n(if #[ -170141183460469231731687303715884105728 0]\n()\n()\n)\n)\n ||  || 9 || pip: number too wide at byte 12\n",
    "a number of unknowns of 40 digits || pip solve || ((w) 1000000000000000000000000000000000000000 0 1 0 -1 1 (#[1 -3]) ()) ||  || 9 || pip: number too wide at byte 5\n",
];

#[test]
fn wide_numbers(rt: HostRuntime) -> Result<(), Fail> {
    all_hold(&rt, rt.alloc(), WIDE)
}
