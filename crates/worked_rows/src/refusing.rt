//! Problems and words that are refused, each with its line.
use crate::row::all_hold;
use std::test::Fail;

const REFUSED: &[&str] = &[
    "a product past 128 bits || pip solve || ((w) 2 0 2 0 -1 1 (#[170141183460469231731687303715884105727 1 -3] #[170141183460469231731687303715884105727 2 -5]) ()) ||  || 4 || pip: overflow\n",
    "a product past 128 bits, rational || pip solve || ((w) 1 0 2 0 -1 0 (#[170141183460469231731687303715884105727 -3] #[170141183460469231731687303715884105727 -5]) ()) ||  || 4 || pip: overflow\n",
    "a literal past 128 bits || pip solve || ((w) 1 0 1 0 -1 1 (#[170141183460469231731687303715884105728 -3]) ()) ||  || 9 || pip: number too wide at byte 21\n",
    "a second problem that is cut off || pip solve || ((a) 1 0 1 0 -1 1 (#[1 -3]) ())((a) 1 0 1 0 -1 1 (#[1 -3]) () || ((a)\n(list\n#[ 3]\n)\n)\n || 2 || pip: syntax at byte 61\n",
    "a big parameter || pip solve || ((a) 1 0 1 0 0 1 (#[1 -3]) ()) ||  || 3 || pip: unsupported big parameter 0\n",
    "an option that asks for the maximum || pip solve --polylib || 0 2\n-1\n1 3\n1 1 -3\nMaximize\n ||  || 3 || pip: unsupported option Maximize\n",
    "a row one entry short || pip solve || ((s) 1 1 1 0 -1 1 (#[2 0]) ()) ||  || 2 || pip: syntax at byte 24\n",
    "the limit of unknowns || pip solve || ((u) 129 0 0 0 -1 1 () ()) ||  || 9 || pip: limit of unknowns 129\n",
    "the budget of splits || pip solve --splits 1 || ((c) 1 1 1 0 -1 1 (#[2 0 -1]) ()) ||  || 5 || pip: budget of splits 1\n",
    "the budget of nesting || pip solve --nesting 2 || ((c) 1 1 1 0 -1 1 (#[2 0 -1]) ()) ||  || 5 || pip: budget of nesting 2\n",
    "no words || pip || ((a) 1 0 1 0 -1 1 (#[1 -3]) ()) ||  || 1 || pip: usage\n",
    "a budget that is no number || pip solve --pivots x || ((a) 1 0 1 0 -1 1 (#[1 -3]) ()) ||  || 1 || pip: usage\n",
    "no pivot allowed || pip solve --pivots 0 || ((h) 1 0 1 0 -1 0 (#[2 -3]) ()) ||  || 5 || pip: budget of pivots 0\n",
    "a second rational problem that is cut off || pip solve || ((h) 1 0 1 0 -1 0 (#[2 -3]) ())((h) 1 0 1 0 -1 0 (#[2 -3]) () || ((h)\n(list\n#[ 3/2]\n)\n)\n || 2 || pip: syntax at byte 61\n",
    "no cut allowed || pip solve --cuts 0 || ((k) 2 0 1 0 -1 1 (#[2 -1 -1]) ()) ||  || 5 || pip: budget of cuts 0\n",
    "one pivot allowed || pip solve --pivots 1 || ((k) 2 0 1 0 -1 1 (#[2 -1 -1]) ()) ||  || 5 || pip: budget of pivots 1\n",
    "no split allowed || pip solve --splits 0 || ((c) 1 1 1 0 -1 0 (#[2 0 -1]) ()) ||  || 5 || pip: budget of splits 0\n",
    "no nesting allowed || pip solve --nesting 0 || ((c) 1 1 1 0 -1 0 (#[2 0 -1]) ()) ||  || 5 || pip: budget of nesting 0\n",
    "no pivot allowed in a point || pip solve --pivots 0 || ((c) 1 1 1 0 -1 0 (#[2 0 -1]) ()) ||  || 5 || pip: budget of pivots 0\n",
    "three of six cuts || pip solve --cuts 3 || ((t) 2 1 2 0 -1 1 (#[3 0 0 -1] #[0 3 0 -1]) ()) ||  || 5 || pip: budget of cuts 3\n",
    "five of six cuts || pip solve --cuts 5 || ((t) 2 1 2 0 -1 1 (#[3 0 0 -1] #[0 3 0 -1]) ()) ||  || 5 || pip: budget of cuts 5\n",
    "a cut too many, of questions of more than 128 || pip solve --cuts 771 || ((f) 2 1 2 0 -1 1 (#[89 -55 0 -1] #[-89 55 0 1]) ()) ||  || 5 || pip: budget of cuts 771\n",
    "the least 128-bit number || pip solve || ((w) 1 0 1 0 -1 1 (#[-170141183460469231731687303715884105728 -3]) ()) ||  || 9 || pip: number too wide at byte 21\n",
    "a flag that is not known || pip solve --certificates || ((a) 1 0 1 0 -1 1 (#[1 -3]) ()) ||  || 1 || pip: usage\n",
];

#[test]
fn refused(rt: HostRuntime) -> Result<(), Fail> {
    all_hold(&rt, rt.alloc(), REFUSED)
}
