//! Answers that are taken apart.
use crate::row::all_hold;
use std::test::Fail;

const PARTED: &[&str] = &[
    "the simplified half, rounded up || pip pieces 1 || ((c)\n(if #[ -1 0]\n(list\n#[ 0 0]\n)\n(newparm 1 (div #[ 1 0] 2))\n(list\n#[ 1 -1 0]\n)\n)\n)\n || ((c)\n(piece\n(where #[ -1 0])\n(list\n#[ 0 0]\n)\n)\n(piece\n(where #[ 1 -1])\n(newparm 1 (div #[ 1 0] 2))\n(list\n#[ 1 -1 0]\n)\n)\n)\n",
    "void has no pieces || pip pieces 1 || ((v) void) || ((v)\nvoid\n)\n",
    "bottom alone, and an answer that is cut off || pip pieces 0 || ((b) ())((e) || ((b)\n(piece\n()\n)\n)\n || 2 || pip: syntax at byte 12\n",
    "a constant that has no opposite || pip pieces 1 || ((w) (if #[1 -170141183460469231731687303715884105727] () (if #[0 170141183460469231731687303715884105727] () ()))) ||  || 4 || pip: overflow\n",
];

#[test]
fn parted(rt: HostRuntime) -> Result<(), Fail> {
    all_hold(&rt, rt.alloc(), PARTED)
}
