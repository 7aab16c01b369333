//! PolyLib inputs that are read or refused.
use crate::row::all_hold;
use std::test::Fail;

const MATRICES: &[&str] = &[
    "a comment in a row, a number behind a sign, no constraints || pip solve --polylib || # p\n1 3 1 -1# <= 7\n7 -1 0 +5 || (()\n(list\n#[ 0 0]\n#[ 0 0]\n)\n)\n",
    "the word Maximize || pip solve --polylib || 0 2 -1 1 3 1 1 -3 Maximize ||  || 3 || pip: unsupported option Maximize\n",
    "the word Urs_parms || pip solve --polylib || 0 2 -1 1 3 1 1 -3 Urs_parms ||  || 3 || pip: unsupported option Urs_parms\n",
    "the word Urs_unknowns || pip solve --polylib || 0 2 -1 1 3 1 1 -3 Urs_unknowns ||  || 3 || pip: unsupported option Urs_unknowns\n",
    "the word Dual, behind another || pip solve --polylib || 0 2 -1 1 3 1 1 -3 Rational Dual ||  || 3 || pip: unsupported option Dual\n",
    "a word in small letters || pip solve --polylib || 0 2 -1 1 3 1 1 -3 rational ||  || 2 || pip: syntax at byte 18\n",
    "a row that begins with 2 || pip solve --polylib || 0 2 -1 1 3 2 1 -3 ||  || 2 || pip: syntax at byte 11\n",
    "a row that is cut off || pip solve --polylib || 0 2 -1 1 3 1 1 ||  || 2 || pip: syntax at byte 14\n",
    "a fraction || pip solve --polylib || 0 2 -1 1 3 1 1 3/2 ||  || 2 || pip: syntax at byte 15\n",
    "a number past 128 bits || pip solve --polylib || 0 2 -1 1 3 1 170141183460469231731687303715884105728 ||  || 9 || pip: number too wide at byte 13\n",
    "the limit of rows of the context || pip solve --polylib || 257 3 ||  || 9 || pip: limit of context rows 257\n",
    "the limit of columns of the context || pip solve --polylib || 0 51 ||  || 9 || pip: limit of context columns 51\n",
    "a big parameter || pip solve --polylib || 0 2 0 ||  || 3 || pip: unsupported big parameter 0\n",
    "a number of rows below 0 || pip solve --polylib || 0 2 -1 -1 ||  || 9 || pip: limit of rows -1\n",
    "the limit of columns || pip solve --polylib || 0 2 -1 1 131 ||  || 9 || pip: limit of columns 131\n",
];

#[test]
fn matrices_are_read(rt: HostRuntime) -> Result<(), Fail> {
    all_hold(&rt, rt.alloc(), MATRICES)
}
