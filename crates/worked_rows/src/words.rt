//! The words of the command line.
use crate::row::{Wanted, all_hold, ends_over, ends_so, line_ends_so};
use std::alloc::{AllocError, Global};
use std::test::Fail;

const WORDS: &[&str] = &[
    "two flags || pip solve --simplify --polylib || 0 3\n-1\n1 4\n1 2 -1 0\n || (()\n(if #[ -1 0]\n(list\n#[ 0 0]\n)\n(newparm 1 (div #[ 1 0] 2))\n(list\n#[ 1 -1 0]\n)\n)\n)\n",
    "two other flags || pip solve --certificate --polylib || 0 2\n-1\n1 3\n1 1 -3\n || (()\n(list\n#[ 3]\n)\n)\n(certificate 1 #[]\n(\n((1 0 1))\n((1 0 1))\n((1 2 1 1 1))\n)\n)\n",
    "no parameters || pip eval || ((e)(list#[7])) || ((e)\n(list\n#[ 7]\n)\n)\n",
    "parameters before and behind two strokes || pip eval 1 02 -- 3 || ((e)(list#[100 10 1 0])) || ((e)\n(list\n#[ 123]\n)\n)\n",
    "the most parameters || pip eval 1 1 1 1 1 1 1 1 1 1 1 1 1 1 1 1 1 1 1 1 1 1 1 1 1 1 1 1 1 1 1 1 1 1 1 1 1 1 1 1 1 1 1 1 1 1 1 1 || ((e)(list#[1 1 1 1 1 1 1 1 1 1 1 1 1 1 1 1 1 1 1 1 1 1 1 1 1 1 1 1 1 1 1 1 1 1 1 1 1 1 1 1 1 1 1 1 1 1 1 1 0])) || ((e)\n(list\n#[ 48]\n)\n)\n",
    "a zero before a number of parameters || pip simplify 01 || ((e)(list#[1 0])) || ((e)\n(list\n#[ 1 0]\n)\n)\n",
    "the most parameters of an answer that is simplified || pip simplify 48 || ((v)void) || ((v)\nvoid\n)\n",
    "two strokes and no words || pip share -- || ((v) 1 1 0 2 -1 1 () (#[2 -1] #[-2 1]))((v)\nvoid\n)\n(certificate 1 void (((2 1 1) (1 2 1 3 2)))) || (certificate 2 void\n(\n((2 1 1))\n((1 2 1 3 2))\n)\n)\n",
    "the most parameters of an answer that is taken apart || pip pieces 48 || ((v)void) || ((v)\nvoid\n)\n",
    "the most parameters of an answer under a context || pip restrict 48 --cuts 1 || ()((v)void) || ((v)\nvoid\n)\n",
    "one cut is allowed, and needed || pip restrict 1 --cuts 1 || (#[2 -1])((a)(list#[0 0])) || ((a)\n(list\n#[ 0 0]\n)\n)\n",
    "budgets of a comparison || pip same 0 --splits 0 --pivots=2 || ()((a)(list#[1]))((b)(list#[2])) || differ #[]\n",
    "the greatest seed || pip trial 18446744073709551615 0 ||  || problems 0 lists 0 bottoms 0 quotients 0 refused 0\n",
    "a budget behind a flag || pip solve --polylib --cuts 0 || 0 2\n-1\n1 4\n1 2 -1 -1\n ||  || 5 || pip: budget of cuts 0\n",
    "the greatest budgets, and one of 0 || pip solve --pivots=1000000000 --cuts 1000000 --splits 1000000 --nesting 0 || ((c) 1 1 1 0 -1 0 (#[2 0 -1]) ()) ||  || 5 || pip: budget of nesting 0\n",
    "zeros before a budget, and no words behind two strokes || pip solve --pivots 0001 -- || ((k) 2 0 1 0 -1 1 (#[2 -1 -1]) ()) ||  || 5 || pip: budget of pivots 1\n",
    "budgets of a choice || pip least 1 --nesting 1 --splits 1000000 || ()((x) (list #[1 0]))((y) (list #[0 3])) ||  || 5 || pip: budget of nesting 1\n",
];

#[test]
fn words_are_read(rt: HostRuntime) -> Result<(), Fail> {
    all_hold(&rt, rt.alloc(), WORDS)
}

// Lines that give no command.
const OTHER_LINES: &[&str] = &[
    "pip",
    "pip solve --pivots 1000000001",
    "pip solve --cuts 1000001",
    "pip solve --splits 1000001",
    "pip solve --nesting 201",
    "pip solve --pivots x",
    "pip solve --pivots +5",
    "pip solve --pivots=",
    "pip solve --pivots",
    "pip solve --pivot 5",
    "pip solve --polylib --polylib",
    "pip solve --simplify --simplify",
    "pip solve --certificate --simplify",
    "pip solve --certificate --certificate",
    "pip solve extra",
    "pip SOLVE",
    "pip --help",
    "pip help",
    "pip solve -h",
    "pip --version",
    "pip eval 170141183460469231731687303715884105728",
    "pip eval -1",
    "pip eval -- -1",
    "pip eval x",
    "pip eval 1 1 1 1 1 1 1 1 1 1 1 1 1 1 1 1 1 1 1 1 1 1 1 1 1 1 1 1 1 1 1 1 1 1 1 1 1 1 1 1 1 1 1 1 1 1 1 1 1",
    "pip simplify 49",
    "pip simplify -1",
    "pip simplify x",
    "pip simplify",
    "pip simplify 1 1",
    "pip check 1",
    "pip share --polylib",
    "pip pieces 49",
    "pip pieces",
    "pip restrict 1 --splits 1",
    "pip restrict 49",
    "pip same 1 --nesting 1",
    "pip least --nesting 7",
    "pip trial 18446744073709551616 1",
    "pip trial 7 10001",
    "pip trial 7",
    "pip trial 7 1 1",
];

const USAGE: Wanted<'static> = Wanted {
    output: b"",
    notes: "pip: usage\n",
    status: 1,
};

fn is_refused(alloc: Global, line: &str) -> Result<bool, AllocError> {
    line_ends_so(alloc, line, Vec::new(alloc), 7, &USAGE)
}

#[test]
fn other_words_are_refused(rt: HostRuntime) -> Result<(), Fail> {
    for line in OTHER_LINES {
        assert!(rt; is_refused(rt.alloc(), line)?, "{line}");
    }
    Ok(())
}

#[test]
fn no_words_give_no_command(rt: HostRuntime) {
    let alloc = rt.alloc();
    let words = Vec::new(alloc);
    assert!(rt; ends_so(alloc, &words, ends_over(alloc, Vec::new(alloc), 7), &USAGE));
}
