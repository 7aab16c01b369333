//! Answers that are read and printed, and those that are simplified, read or made.
use crate::row::all_hold;
use std::test::Fail;

const TEXTS: &[&str] = &[
    "two equal trees of an if || pip simplify 1 || ((a) (if #[1 -1] (if #[1 -2] (list #[0 1]) ()) (if #[1 -2] (list #[0 1]) ()))) || ((a)\n(if #[ 1 -2]\n(list\n#[ 0 1]\n)\n()\n)\n)\n",
    "a new parameter that nothing uses, above an if || pip simplify 1 || ((a) (newparm 1 (div #[1 0] 2)) (if #[1 0 -1] (list #[1 0 0]) (list #[0 0 1]))) || ((a)\n(if #[ 1 -1]\n(list\n#[ 1 0]\n)\n(list\n#[ 0 1]\n)\n)\n)\n",
    "two equal lists over 48 parameters || pip simplify 48 || ((s) (if #[0 0 0 0 0 0 0 0 0 0 0 0 0 0 0 0 0 0 0 0 0 0 0 0 0 0 0 0 0 0 0 0 0 0 0 0 0 0 0 0 0 0 0 0 0 0 0 1 -1] (list #[0 0 0 0 0 0 0 0 0 0 0 0 0 0 0 0 0 0 0 0 0 0 0 0 0 0 0 0 0 0 0 0 0 0 0 0 0 0 0 0 0 0 0 0 0 0 0 1 2]) (list #[0 0 0 0 0 0 0 0 0 0 0 0 0 0 0 0 0 0 0 0 0 0 0 0 0 0 0 0 0 0 0 0 0 0 0 0 0 0 0 0 0 0 0 0 0 0 0 1 2]))) || ((s)\n(list\n#[ 0 0 0 0 0 0 0 0 0 0 0 0 0 0 0 0 0 0 0 0 0 0 0 0 0 0 0 0 0 0 0 0 0 0 0 0 0 0 0 0 0 0 0 0 0 0 0 1 2]\n)\n)\n",
    "void || pip simplify 1 || ((v) void) || ((v)\nvoid\n)\n",
    "a byte before an answer, and fractions that are cancelled || pip simplify 1 || x((a)(if#[1 0](list #[2/4 +3]#[1 -1/2])())) || ((a)\n(if #[ 1 0]\n(list\n#[ 1/2 3]\n#[ 1 -1/2]\n)\n()\n)\n)\n",
    "a new parameter || pip simplify 1 || ((n) (newparm 1 (div #[1 0] 2)) (list #[0 1 0])) || ((n)\n(newparm 1 (div #[ 1 0] 2))\n(list\n#[ 0 1 0]\n)\n)\n",
    "a new parameter out of its order || pip simplify 1 || ((r)(newparm 2 (div #[1 0] 2))()) ||  || 2 || pip: syntax at byte 13\n",
    "a common denominator past 128 bits || pip simplify 1 || ((w)(list #[1/3 170141183460469231731687303715884105727])) ||  || 9 || pip: number too wide at byte 10\n",
    "a denominator of 0 || pip simplify 1 || ((z)(list #[1/0 0])) ||  || 2 || pip: syntax at byte 12\n",
    "an answer that is made, with the same list in both trees of an if || pip solve --simplify || ((c) 1 1 1 0 -1 1 (#[2 0 -1]) ()) || ((c)\n(if #[ -1 0]\n(list\n#[ 0 0]\n)\n(newparm 1 (div #[ 1 0] 2))\n(list\n#[ 1 -1 0]\n)\n)\n)\n",
    "the same answer read || pip simplify 1 || ((c)\n(if #[ -1 0]\n(list\n#[ 0 0]\n)\n(newparm 1 (div #[ 1 0] 2))\n(if #[ -1 2 0]\n(list\n#[ 1 -1 0]\n)\n(list\n#[ 1 -1 0]\n)\n)\n)\n)\n || ((c)\n(if #[ -1 0]\n(list\n#[ 0 0]\n)\n(newparm 1 (div #[ 1 0] 2))\n(list\n#[ 1 -1 0]\n)\n)\n)\n",
    "a new parameter that nothing uses || pip simplify 1 || ((z) (newparm 1 (div #[1 0] 2)) (newparm 2 (div #[1 0 0] 3)) (list #[0 0 1 0])) || ((z)\n(newparm 1 (div #[ 1 0] 3))\n(list\n#[ 0 1 0]\n)\n)\n",
    "no answers || pip simplify 33 ||  || ",
    "one parameter too many || pip simplify 49 || ((c)\n(if #[ -1 0]\n(list\n#[ 0 0]\n)\n(newparm 1 (div #[ 1 0] 2))\n(if #[ -1 2 0]\n(list\n#[ 1 -1 0]\n)\n(list\n#[ 1 -1 0]\n)\n)\n)\n)\n ||  || 1 || pip: usage\n",
    "a certificate of a simplified answer || pip solve --certificate --simplify || ((a) 1 0 1 0 -1 1 (#[1 -3]) ()) ||  || 1 || pip: usage\n",
];

#[test]
fn read_printed_and_simplified(rt: HostRuntime) -> Result<(), Fail> {
    all_hold(&rt, rt.alloc(), TEXTS)
}
