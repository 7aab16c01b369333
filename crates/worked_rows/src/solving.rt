//! Problems that are answered.
use crate::row::all_hold;
use std::test::Fail;

const SOLVED: &[&str] = &[
    "a sum of eight unknowns || pip solve || ((k) 8 0 2 0 -1 1 (#[25 14 29 31 3 17 2 8 -306] #[-25 -14 -29 -31 -3 -17 -2 -8 306]) ()) || ((k)\n(list\n#[ 0]\n#[ 0]\n#[ 0]\n#[ 0]\n#[ 0]\n#[ 0]\n#[ 1]\n#[ 38]\n)\n)\n",
    "an empty input || pip solve ||  || ",
    "a whole bound || pip solve || ((a) 1 0 1 0 -1 1 (#[1 -3]) ()) || ((a)\n(list\n#[ 3]\n)\n)\n",
    "a bound that is rounded up || pip solve || ((h) 1 0 1 0 -1 1 (#[2 -3]) ()) || ((h)\n(list\n#[ 2]\n)\n)\n",
    "a rational bound || pip solve || ((h) 1 0 1 0 -1 0 (#[2 -3]) ()) || ((h)\n(list\n#[ 3/2]\n)\n)\n",
    "the last unknown takes the rest || pip solve || ((l) 2 0 1 0 -1 1 (#[1 1 -3]) ()) || ((l)\n(list\n#[ 0]\n#[ 3]\n)\n)\n",
    "no rational point || pip solve || ((n) 1 0 2 0 -1 1 (#[1 -3] #[-1 2]) ()) || ((n)\n()\n)\n",
    "a rational point and no whole one || pip solve || ((o) 1 0 2 0 -1 1 (#[2 -1] #[-2 1]) ()) || ((o)\n()\n)\n",
    "half a parameter, rounded up || pip solve || ((c) 1 1 1 0 -1 1 (#[2 0 -1]) ()) || ((c)\n(if #[ -1 0]\n(list\n#[ 0 0]\n)\n(newparm 1 (div #[ 1 0] 2))\n(if #[ -1 2 0]\n(list\n#[ 1 -1 0]\n)\n(list\n#[ 1 -1 0]\n)\n)\n)\n)\n",
    "half a parameter || pip solve || ((c) 1 1 1 0 -1 0 (#[2 0 -1]) ()) || ((c)\n(if #[ -1 0]\n(list\n#[ 0 0]\n)\n(list\n#[ 1/2 0]\n)\n)\n)\n",
    "an equation of a PolyLib problem || pip solve --polylib || 0 3\n-1\n1 4\n0 2 -1 0\n || (()\n(if #[ -1 0]\n(list\n#[ 0 0]\n)\n(newparm 1 (div #[ 1 0] 2))\n(if #[ -1 2 0]\n(list\n#[ 1 -1 0]\n)\n()\n)\n)\n)\n",
    "an empty context || pip solve || ((v) 1 1 0 1 -1 1 () (#[-1 -1])) || ((v)\nvoid\n)\n",
    "a context with a rational point alone || pip solve || ((v) 1 1 0 2 -1 1 () (#[2 -1] #[-2 1])) || ((v)\nvoid\n)\n",
    "no cut is needed || pip solve --cuts 0 || ((h) 1 0 1 0 -1 1 (#[2 -3]) ()) || ((h)\n(list\n#[ 2]\n)\n)\n",
    "one pivot suffices || pip solve --pivots 1 || ((h) 1 0 1 0 -1 1 (#[2 -3]) ()) || ((h)\n(list\n#[ 2]\n)\n)\n",
    "no cut is needed where no whole point is || pip solve --cuts 0 || ((o) 1 0 2 0 -1 1 (#[2 -1] #[-2 1]) ()) || ((o)\n()\n)\n",
    "rows of great numbers that are tightened || pip solve || ((w) 1 0 2 0 -1 1 (#[170141183460469231731687303715884105727 -3] #[170141183460469231731687303715884105727 -5]) ()) || ((w)\n(list\n#[ 1]\n)\n)\n",
    "a PolyLib problem || pip solve --polylib || 0 2\n-1\n1 3\n1 1 -3\n || (()\n(list\n#[ 3]\n)\n)\n",
    "bytes around a problem and brackets in its comment || pip solve || x((a (b) c) 1 0 0 0 -1 1 () ())y || ((a (b) c)\n(list\n#[ 0]\n)\n)\n",
    "three nested nodes suffice || pip solve --nesting 3 || ((c) 1 1 1 0 -1 1 (#[2 0 -1]) ()) || ((c)\n(if #[ -1 0]\n(list\n#[ 0 0]\n)\n(newparm 1 (div #[ 1 0] 2))\n(if #[ -1 2 0]\n(list\n#[ 1 -1 0]\n)\n(list\n#[ 1 -1 0]\n)\n)\n)\n)\n",
    "no point of one unknown || pip solve || ((n) 1 0 2 0 -1 0 (#[1 -3] #[-1 2]) ()) || ((n)\n()\n)\n",
    "a rational PolyLib problem || pip solve --polylib || 0 2\n-1\n1 3\n1 2 -3\nRational\n || (()\n(list\n#[ 3/2]\n)\n)\n",
    "two unknowns, rational || pip solve || ((l) 2 0 1 0 -1 0 (#[1 1 -3]) ()) || ((l)\n(list\n#[ 0]\n#[ 3]\n)\n)\n",
    "a cut before the last unknown || pip solve || ((k) 2 0 1 0 -1 1 (#[2 -1 -1]) ()) || ((k)\n(list\n#[ 1]\n#[ 0]\n)\n)\n",
    "the greater of two parameters || pip solve || ((m) 1 2 2 0 -1 0 (#[1 0 -1 0] #[1 0 0 -1]) ()) || ((m)\n(if #[ -1 0 0]\n(if #[ 0 -1 0]\n(list\n#[ 0 0 0]\n)\n(list\n#[ 0 1 0]\n)\n)\n(if #[ 1 -1 0]\n(list\n#[ 1 0 0]\n)\n(list\n#[ 0 1 0]\n)\n)\n)\n)\n",
    "a context without parameters that does not hold || pip solve || ((v) 1 0 0 1 -1 1 () (#[-1])) || ((v)\nvoid\n)\n",
    "an empty context, rational || pip solve || ((v) 1 1 0 1 -1 0 () (#[-1 -1])) || ((v)\nvoid\n)\n",
    "a context with a rational point alone, rational mode || pip solve || ((v) 1 1 0 2 -1 0 () (#[2 -1] #[-2 1])) || ((v)\nvoid\n)\n",
    "a third of a parameter twice, known at its second cut || pip solve || ((t) 2 1 2 0 -1 1 (#[3 0 0 -1] #[0 3 0 -1]) ()) || ((t)\n(if #[ -1 0]\n(list\n#[ 0 0]\n#[ 0 0]\n)\n(newparm 1 (div #[ 2 0] 3))\n(if #[ -2 3 0]\n(list\n#[ 1 -1 0]\n#[ 1 -1 0]\n)\n(list\n#[ 1 -1 0]\n#[ 1 -1 0]\n)\n)\n)\n)\n",
    "six cuts suffice || pip solve --cuts 6 || ((t) 2 1 2 0 -1 1 (#[3 0 0 -1] #[0 3 0 -1]) ()) || ((t)\n(if #[ -1 0]\n(list\n#[ 0 0]\n#[ 0 0]\n)\n(newparm 1 (div #[ 2 0] 3))\n(if #[ -2 3 0]\n(list\n#[ 1 -1 0]\n#[ 1 -1 0]\n)\n(list\n#[ 1 -1 0]\n#[ 1 -1 0]\n)\n)\n)\n)\n",
    "leading zeros || pip solve || ((w) 1 0 1 0 -1 1 (#[0000000000000000000000000000000000000000000000000000000000000000000000000000000000000000000000000000170141183460469231731687303715884105727 -3]) ()) || ((w)\n(list\n#[ 1]\n)\n)\n",
    "a cut is needed no more, and one is allowed || pip solve --cuts 1 || ((h) 1 0 1 0 -1 1 (#[2 -3]) ()) || ((h)\n(list\n#[ 2]\n)\n)\n",
    "sixteen bounds of one unknown || pip solve || ((the least x from 1, 2, .., 15 and half of p on) 1 1 16 0 -1 1\n(#[1 -1 0]\n #[1 -2 0]\n #[1 -3 0]\n #[1 -4 0]\n #[1 -5 0]\n #[1 -6 0]\n #[1 -7 0]\n #[1 -8 0]\n #[1 -9 0]\n #[1 -10 0]\n #[1 -11 0]\n #[1 -12 0]\n #[1 -13 0]\n #[1 -14 0]\n #[1 -15 0]\n #[2 0 -1])\n())\n || ((the least x from 1, 2, .., 15 and half of p on)\n(if #[ -1 30]\n(list\n#[ 0 15]\n)\n(newparm 1 (div #[ 1 0] 2))\n(if #[ -1 2 0]\n(list\n#[ 1 -1 0]\n)\n(list\n#[ 1 -1 0]\n)\n)\n)\n)\n",
    "many bounds, one of a number past 64 bits || pip solve || ((g) 1 1 16 0 -1 0 (#[1 -1 0] #[1 -2 0] #[1 -3 0] #[1 -4 0] #[1 -5 0] #[1 -6 0] #[1 -7 0] #[1 -8 0] #[1 -9 0] #[1 -10 0] #[1 -11 0] #[1 -12 0] #[1 -13 0] #[1 -14 0] #[1 -15 0] #[9223372036854775808 0 -1]) ())\n || ((g)\n(if #[ -1 138350580552821637120]\n(list\n#[ 0 15]\n)\n(list\n#[ 1/9223372036854775808 0]\n)\n)\n)\n",
    "many bounds of different denominators || pip solve || ((g) 1 1 16 0 -1 0 (#[1 1 0] #[1 2 0] #[1 3 0] #[1 4 0] #[1 5 0] #[1 6 0] #[1 7 0] #[1 8 0] #[1 9 0] #[1 10 0] #[1 11 0] #[1 12 0] #[1 13 0] #[1 14 0] #[1 15 0] #[1099511627777 -3 -1]) ())\n || ((g)\n(list\n#[ 1/1099511627777 3/1099511627777]\n)\n)\n",
    "many bounds whose rows outgrow 64 bits at a pivot || pip solve || ((g) 1 1 16 0 -1 1 (#[1 -1 0] #[1 -2 0] #[1 -3 0] #[1 -4 0] #[1 -5 0] #[1 -6 0] #[1 -7 0] #[1 -8 0] #[1 -9 0] #[1 -10 0] #[1 -11 0] #[1 -12 0] #[1 -13 0] #[1 -14 0] #[1 -15 0] #[1099511627777 -3 -1]) ())\n || ((g)\n(if #[ -1 16492674416652]\n(list\n#[ 0 15]\n)\n(newparm 1 (div #[ 1099511627776 1099511627774] 1099511627777))\n(if #[ -1099511627776 1099511627777 -1099511627774]\n(list\n#[ 1 -1 1]\n)\n(list\n#[ 1 -1 1]\n)\n)\n)\n)\n",
    "many bounds, and a pivot on the row of an unknown || pip solve || ((o) 2 0 24 0 -1 1 (#[1 1 -3] #[1 0 -6] #[1 0 -1] #[1 0 -2] #[1 0 -3] #[1 0 -4] #[1 0 -5] #[0 1 1] #[0 1 2] #[0 1 3] #[0 1 4] #[0 1 5] #[0 1 6] #[0 1 7] #[0 1 8] #[0 1 9] #[0 1 10] #[0 1 11] #[0 1 12] #[0 1 13] #[0 1 14] #[0 1 15] #[0 1 16] #[0 1 17]) ())\n || ((o)\n(list\n#[ 6]\n#[ 0]\n)\n)\n",
    "no parameters, and rows that outgrow 64 bits at a pivot, rational || pip solve --pivots 2 || ((g) 2 0 2 0 -1 0 (#[1099511627791 -1 -7] #[-1 1099511627801 -5]) ()) || ((g)\n(list\n#[ 3848290697306/604462909829304819908795]\n#[ 2748779069481/604462909829304819908795]\n)\n)\n",
    "no parameters, and rows that outgrow 64 bits at a pivot || pip solve --pivots 4 || ((g) 2 0 2 0 -1 1 (#[1099511627791 -1 -7] #[-1 1099511627801 -5]) ()) || ((g)\n(list\n#[ 1]\n#[ 1]\n)\n)\n",
    "questions of more than 128 cuts || pip solve --cuts 772 || ((f) 2 1 2 0 -1 1 (#[89 -55 0 -1] #[-89 55 0 1]) ()) || ((f)\n(if #[ -1 0]\n(list\n#[ 0 0]\n#[ 0 0]\n)\n(newparm 1 (div #[ 88 0] 89))\n(if #[ -88 89 0]\n(list\n#[ 1 -1 0]\n#[ 0 0 0]\n)\n(newparm 2 (div #[ 22 34 0] 55))\n(if #[ -22 -34 55 0]\n(list\n#[ 1 -1 0 0]\n#[ 2 -1 -1 0]\n)\n(newparm 3 (div #[ 12 0 21 0] 34))\n(if #[ -12 0 -21 34 0]\n(list\n#[ 2 0 -1 -1 0]\n#[ 3 0 -2 -1 0]\n)\n(newparm 4 (div #[ 9 0 0 13 0] 21))\n(if #[ -9 0 0 -13 21 0]\n(newparm 5 (div #[ 18 0 0 5 0 0] 21))\n(list\n#[ 3 0 0 -2 -1 0 0]\n#[ 5 0 0 -4 0 -1 0]\n)\n(newparm 5 (div #[ 8 0 0 0 3 0] 13))\n(if #[ -8 0 0 0 -3 13 0]\n(newparm 6 (div #[ 12 0 0 0 11 0 0] 13))\n(list\n#[ 5 0 0 0 -4 -1 0 0]\n#[ 8 0 0 0 -6 0 -1 0]\n)\n(newparm 6 (div #[ 1 0 0 0 0 1 0] 3))\n(if #[ -1 0 0 0 0 -1 3 0]\n(newparm 7 (div #[ 2 0 0 0 0 2 0 0] 3))\n(list\n#[ 16 0 0 0 0 -18 -1 0 0]\n#[ 26 0 0 0 0 -29 0 -1 0]\n)\n(list\n#[ 34 0 0 0 0 0 -55 0]\n#[ 55 0 0 0 0 0 -89 0]\n)\n)\n)\n)\n)\n)\n)\n)\n)\n",
    "a context of a number past 64 bits || pip solve || ((q) 1 1 1 1 -1 1 (#[1 0 -1]) (#[9223372036854775808 -1]))\n || ((q)\n(list\n#[ 1 0]\n)\n)\n",
    "a bound of a number past 64 bits, asked of the context || pip solve || ((q) 1 1 1 1 -1 1 (#[1 -9223372036854775809 1]) (#[1 -3]))\n || ((q)\n(if #[ 1 -9223372036854775809]\n(list\n#[ 0 0]\n)\n(list\n#[ -1 9223372036854775809]\n)\n)\n)\n",
];

#[test]
fn solved(rt: HostRuntime) -> Result<(), Fail> {
    all_hold(&rt, rt.alloc(), SOLVED)
}
