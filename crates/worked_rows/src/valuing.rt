//! Answers valued at parameters.
use crate::row::all_hold;
use std::test::Fail;

const VALUED: &[&str] = &[
    "a value rounded up || pip eval 5 || ((c)\n(if #[ -1 0]\n(list\n#[ 0 0]\n)\n(newparm 1 (div #[ 1 0] 2))\n(if #[ -1 2 0]\n(list\n#[ 1 -1 0]\n)\n(list\n#[ 1 -1 0]\n)\n)\n)\n)\n || ((c)\n(list\n#[ 3]\n)\n)\n",
    "a value at 0 || pip eval 0 || ((c)\n(if #[ -1 0]\n(list\n#[ 0 0]\n)\n(newparm 1 (div #[ 1 0] 2))\n(if #[ -1 2 0]\n(list\n#[ 1 -1 0]\n)\n(list\n#[ 1 -1 0]\n)\n)\n)\n)\n || ((c)\n(list\n#[ 0]\n)\n)\n",
    "a value at the greatest parameter || pip eval 170141183460469231731687303715884105727 || ((c)\n(if #[ -1 0]\n(list\n#[ 0 0]\n)\n(newparm 1 (div #[ 1 0] 2))\n(if #[ -1 2 0]\n(list\n#[ 1 -1 0]\n)\n(list\n#[ 1 -1 0]\n)\n)\n)\n)\n || ((c)\n(list\n#[ 85070591730234615865843651857942052864]\n)\n)\n",
    "bottom at an odd parameter || pip eval 3 || (()\n(if #[ -1 0]\n(list\n#[ 0 0]\n)\n(newparm 1 (div #[ 1 0] 2))\n(if #[ -1 2 0]\n(list\n#[ 1 -1 0]\n)\n()\n)\n)\n)\n || (()\n()\n)\n",
    "a fraction || pip eval 5 || ((c)\n(if #[ -1 0]\n(list\n#[ 0 0]\n)\n(list\n#[ 1/2 0]\n)\n)\n)\n || ((c)\n(list\n#[ 5/2]\n)\n)\n",
    "the floor of a negative fraction || pip eval 3 || ((e) (newparm 1 (div #[-1 0] 2)) (list #[0 1 0])) || ((e)\n(list\n#[ -2]\n)\n)\n",
    "two components || pip eval 4 || ((t)\n(if #[ -1 0]\n(list\n#[ 0 0]\n#[ 0 0]\n)\n(newparm 1 (div #[ 2 0] 3))\n(if #[ -2 3 0]\n(list\n#[ 1 -1 0]\n#[ 1 -1 0]\n)\n(list\n#[ 1 -1 0]\n#[ 1 -1 0]\n)\n)\n)\n)\n || ((t)\n(list\n#[ 2]\n#[ 2]\n)\n)\n",
    "a condition, a new parameter and cancelled fractions || pip eval 5 || ((t)(if#[1 -2](newparm 1 (div#[1 0]2))(list#[2/4 2/4 6/4])())) || ((t)\n(list\n#[ 5]\n)\n)\n",
    "a condition that does not hold || pip eval 1 || ((t)(if#[1 -2](newparm 1 (div#[1 0]2))(list#[2/4 2/4 6/4])())) || ((t)\n()\n)\n",
    "a divisor below 0 || pip eval 1 || ((a) (newparm 1 (div #[1 0] -2)) (list #[0 0 1])) ||  || 2 || pip: syntax at byte 28\n",
    "a form of another scope || pip eval 5 5 || ((c)\n(if #[ -1 0]\n(list\n#[ 0 0]\n)\n(newparm 1 (div #[ 1 0] 2))\n(if #[ -1 2 0]\n(list\n#[ 1 -1 0]\n)\n(list\n#[ 1 -1 0]\n)\n)\n)\n)\n ||  || 2 || pip: syntax at byte 16\n",
    "a value past 128 bits || pip eval 170141183460469231731687303715884105727 || ((e)(list#[2 0])) ||  || 4 || pip: overflow\n",
    "a parameter past 128 bits || pip eval 170141183460469231731687303715884105728 || ((e)(list#[2 0])) ||  || 1 || pip: usage\n",
    "a sum past 128 bits || pip eval 170141183460469231731687303715884105727 || ((t)(if#[1 -2](newparm 1 (div#[1 0]2))(list#[2/4 2/4 6/4])())) ||  || 4 || pip: overflow\n",
];

#[test]
fn valued(rt: HostRuntime) -> Result<(), Fail> {
    all_hold(&rt, rt.alloc(), VALUED)
}
