//! Certificates that are made, checked, and written with the steps that their refutations share. The texts of those that
//! are made come from an independent program.
use crate::row::{Wanted, all_hold, field, line_ends_so};
use std::alloc::{AllocError, Global};
use std::test::Fail;

const CHECKED: &[&str] = &[
    "an accepted certificate of a list || pip check || ((a) 1 0 1 0 -1 1 (#[1 -3]) ())((a)\n(list\n#[ 3]\n)\n)\n(certificate 1 #[] (() () ((1 1 1 2 1)))) || accepted\n",
    "an accepted certificate of void, with a quotient || pip check || ((v) 1 1 0 2 -1 1 () (#[2 -1] #[-2 1]))((v)\nvoid\n)\n(certificate 1 void (((2 1 1) (1 2 1 3 2)))) || accepted\n",
    "an accepted certificate of bottom || pip check || ((n) 1 0 2 0 -1 1 (#[1 -3] #[-1 2]) ())((n)\n()\n)\n(certificate 1 #[] (((1 1 1 2 1)))) || accepted\n",
    "an accepted certificate with shared steps || pip check || ((v) 1 1 0 2 -1 1 () (#[2 -1] #[-2 1]))((v)\nvoid\n)\n(certificate 2 void\n(\n((2 1 1))\n((1 2 1 3 2))\n)\n)\n || accepted\n",
    "a step with another divisor || pip check || ((a) 1 0 1 0 -1 1 (#[1 -3]) ())((a)\n(list\n#[ 3]\n)\n)\n(certificate 1 #[] (() () ((2 1 1 2 1)))) || accepted\n",
    "an accepted certificate of void, of one step || pip check || ((v) 1 1 0 1 -1 1 () (#[-1 -1]))((v)\nvoid\n)\n(certificate 1 void (((1 0 1 1 1)))) || accepted\n",
    "shared steps of none || pip check || ((a) 1 0 1 0 -1 1 (#[1 -3]) ())((a)\n(list\n#[ 3]\n)\n)\n(certificate 2 #[]\n(\n()\n()\n()\n((1 1 1 2 1))\n)\n)\n || accepted\n",
    "an accepted certificate of choices and a new parameter || pip check || ((c) 1 1 1 0 -1 1 (#[2 0 -1]) ())((c)\n(if #[ -1 0]\n(list\n#[ 0 0]\n)\n(newparm 1 (div #[ 1 0] 2))\n(if #[ -1 2 0]\n(list\n#[ 1 -1 0]\n)\n(list\n#[ 1 -1 0]\n)\n)\n)\n)\n(certificate 1 #[ 0] (((1 1 1 2 1)) ((1 2 1)) ((1 4 1 2 1)))\n(((2 3 1 0 1)(1 2 1 5 1)) ((2 3 1 0 1)(1 2 1 1 1 5 2)) ((2 3 1 0 1)(1 7 2 4 1 6 1)))\n(((2 3 1 0 1)(1 2 1 5 1)) ((2 3 1 0 1)(1 2 1 1 1 5 2)) ((2 3 1 0 1)(1 3 1 7 2 6 1)))) || accepted\n",
    "the same with shared steps || pip check || ((c) 1 1 1 0 -1 1 (#[2 0 -1]) ())((c)\n(if #[ -1 0]\n(list\n#[ 0 0]\n)\n(newparm 1 (div #[ 1 0] 2))\n(if #[ -1 2 0]\n(list\n#[ 1 -1 0]\n)\n(list\n#[ 1 -1 0]\n)\n)\n)\n)\n(certificate 2 #[ 0]\n(\n()\n((1 1 1 2 1))\n((1 2 1))\n((1 4 1 2 1))\n)\n(\n((2 3 1 0 1))\n((1 2 1 6 1))\n((1 2 1 1 1 6 2))\n((1 8 2 4 1 7 1))\n)\n(\n((2 3 1 0 1))\n((1 2 1 6 1))\n((1 2 1 1 1 6 2))\n((1 3 1 8 2 7 1))\n)\n)\n || accepted\n",
    "a condition of the second tree past 128 bits || pip check || ((n) 1 1 0 0 -1 1 () ())((n)(if #[1 170141183460469231731687303715884105727](list #[0 0])(if #[1 0] (list #[0 0]) ())))(certificate 1 #[0] (()((1 2 1 3 1)))(()())(())) ||  || 4 || pip: overflow at leaf 2 refutation 1 step 0\n",
    "a step with the divisor 0 || pip check || ((a) 1 0 1 0 -1 1 (#[1 -3]) ())((a)\n(list\n#[ 3]\n)\n)\n(certificate 1 #[] (() () ((0 1 1 2 1)))) ||  || 10 || pip: rejected at leaf 1 refutation 3 step 1\n",
    "a step with an index that names nothing || pip check || ((a) 1 0 1 0 -1 1 (#[1 -3]) ())((a)\n(list\n#[ 3]\n)\n)\n(certificate 1 #[] (() () ((1 3 1 2 1)))) ||  || 10 || pip: rejected at leaf 1 refutation 3 step 1\n",
    "a step whose form does not refute || pip check || ((a) 1 0 1 0 -1 1 (#[1 -3]) ())((a)\n(list\n#[ 3]\n)\n)\n(certificate 1 #[] (() () ((1 1 2 2 1)))) ||  || 10 || pip: rejected at leaf 1 refutation 3 step 1\n",
    "a step with a negative multiplier || pip check || ((a) 1 0 1 0 -1 1 (#[1 -3]) ())((a)\n(list\n#[ 3]\n)\n)\n(certificate 1 #[] (() () ((1 0 -1 1 1)))) ||  || 10 || pip: rejected at leaf 1 refutation 3 step 1\n",
    "a vector of another length || pip check || ((n) 1 0 2 0 -1 1 (#[1 -3] #[-1 2]) ())((n)\n()\n)\n(certificate 1 #[1] (((1 1 1 2 1)))) ||  || 10 || pip: rejected at leaf 0 refutation 0 step 0\n",
    "a refutation too few || pip check || ((a) 1 0 1 0 -1 1 (#[1 -3]) ())((a)\n(list\n#[ 3]\n)\n)\n(certificate 1 #[] (() ())) ||  || 10 || pip: rejected at leaf 1 refutation 0 step 0\n",
    "a product past 128 bits || pip check || ((a) 1 0 1 0 -1 1 (#[1 -3]) ())((a)\n(list\n#[ 3]\n)\n)\n(certificate 1 #[] (() () ((1 1 170141183460469231731687303715884105727 2 1)))) ||  || 4 || pip: overflow at leaf 1 refutation 3 step 1\n",
    "a format that is not known || pip check || ((a) 1 0 1 0 -1 1 (#[1 -3]) ())((a)\n(list\n#[ 3]\n)\n)\n(certificate 3 #[] (() () ((1 1 1 2 1)))) ||  || 3 || pip: unsupported certificate 3\n",
    "a certificate of a rational problem || pip check || ((h) 1 0 1 0 -1 0 (#[2 -3]) ())((h)\n(list\n#[ 3/2]\n)\n)\n(certificate 1 #[] (() () ((1 1 1 2 1)))) ||  || 3 || pip: unsupported rational certificate\n",
    "a triple without its certificate || pip check || ((a) 1 0 1 0 -1 1 (#[1 -3]) ())((a)\n(list\n#[ 3]\n)\n)\n ||  || 2 || pip: syntax at byte 52\n",
    "a leaf too few || pip check || ((a) 1 0 1 0 -1 1 (#[1 -3]) ())((a)\n(list\n#[ 3]\n)\n)\n(certificate 1 #[]) ||  || 10 || pip: rejected at leaf 0 refutation 0 step 0\n",
    "a certificate of void for a list || pip check || ((a) 1 0 1 0 -1 1 (#[1 -3]) ())((a)\n(list\n#[ 3]\n)\n)\n(certificate 1 void (() () ((1 1 1 2 1)))) ||  || 10 || pip: rejected at leaf 0 refutation 0 step 0\n",
    "a shared step that names nothing known || pip check || ((a) 1 0 1 0 -1 1 (#[1 -3]) ())((a)\n(list\n#[ 3]\n)\n)\n(certificate 2 #[] (((1 0 1)) () () ((1 1 1 2 1)))) ||  || 10 || pip: rejected at leaf 1 refutation 0 step 1\n",
    "a product past 128 bits in a short step || pip check || ((a) 1 0 1 0 -1 1 (#[1 -3]) ())((a)\n(list\n#[ 3]\n)\n)\n(certificate 1 #[] (() () ((1 1 170141183460469231731687303715884105727)))) ||  || 4 || pip: overflow at leaf 1 refutation 3 step 1\n",
    "a step that does not end a refutation of bottom || pip check || ((n) 1 0 2 0 -1 1 (#[1 -3] #[-1 2]) ())((n)\n()\n)\n(certificate 1 #[] (((1 1 1)))) ||  || 10 || pip: rejected at leaf 1 refutation 1 step 1\n",
    "no step for bottom || pip check || ((n) 1 0 2 0 -1 1 (#[1 -3] #[-1 2]) ())((n)\n()\n)\n(certificate 1 #[] (())) ||  || 10 || pip: rejected at leaf 1 refutation 1 step 0\n",
    "another divisor for void || pip check || ((v) 1 1 0 2 -1 1 () (#[2 -1] #[-2 1]))((v)\nvoid\n)\n(certificate 1 void (((3 1 1) (1 2 1 3 2)))) ||  || 10 || pip: rejected at leaf 1 refutation 1 step 1\n",
    "a certificate of a tree for void || pip check || ((v) 1 1 0 2 -1 1 () (#[2 -1] #[-2 1]))((v)\nvoid\n)\n(certificate 1 #[1] (((2 1 1) (1 2 1 3 2)))) ||  || 10 || pip: rejected at leaf 0 refutation 0 step 0\n",
    "a leaf of a choice too few || pip check || ((c) 1 1 1 0 -1 1 (#[2 0 -1]) ())((c)\n(if #[ -1 0]\n(list\n#[ 0 0]\n)\n(newparm 1 (div #[ 1 0] 2))\n(if #[ -1 2 0]\n(list\n#[ 1 -1 0]\n)\n(list\n#[ 1 -1 0]\n)\n)\n)\n)\n(certificate 1 #[ 0] (((1 1 1 2 1)) ((1 2 1)) ((1 4 1 2 1)))\n(((2 3 1 0 1)(1 2 1 5 1)) ((2 3 1 0 1)(1 2 1 1 1 5 2)) ((2 3 1 0 1)(1 7 2 4 1 6 1)))\n) ||  || 10 || pip: rejected at leaf 0 refutation 0 step 0\n",
    "a step of another leaf || pip check || ((c) 1 1 1 0 -1 1 (#[2 0 -1]) ())((c)\n(if #[ -1 0]\n(list\n#[ 0 0]\n)\n(newparm 1 (div #[ 1 0] 2))\n(if #[ -1 2 0]\n(list\n#[ 1 -1 0]\n)\n(list\n#[ 1 -1 0]\n)\n)\n)\n)\n(certificate 1 #[ 0] (((1 1 1 2 1)) ((1 2 1)) ((1 4 1 2 1)))\n(((2 3 1 0 1)(1 2 1 5 1)) ((2 3 1 0 1)(1 2 1 1 1 5 2)) ((2 3 1 0 1)(1 7 2 4 1 6 1)))\n(((2 3 1 0 1)(1 2 1 5 1)) ((2 3 1 0 1)(1 2 1 1 1 5 2)) ((2 3 1 0 1)(1 7 2 4 1 6 1)))) ||  || 10 || pip: rejected at leaf 3 refutation 3 step 2\n",
    "a form of the context past 128 bits || pip check || ((z) 1 1 0 1 -1 1 () (#[170141183460469231731687303715884105727 0])) ((a)(list #[0 0])) (certificate 1 #[2] (())) ||  || 4 || pip: overflow at leaf 0 refutation 0 step 0\n",
    "a form of a leaf past 128 bits || pip check || ((z) 1 0 1 0 -1 1 (#[170141183460469231731687303715884105727 1]) ()) ((a)(list #[2])) (certificate 1 #[] (()()())) ||  || 4 || pip: overflow at leaf 1 refutation 1 step 0\n",
    "a step without a multiplier || pip check || ((a) 1 0 1 0 -1 1 (#[1 -3]) ())((a)\n(list\n#[ 3]\n)\n)\n(certificate 1 #[] (((1 1)))) ||  || 2 || pip: syntax at byte 77\n",
    "a vector with a number past 128 bits || pip check || ((a) 1 0 1 0 -1 1 (#[1 -3]) ())((a)\n(list\n#[ 3]\n)\n)\n(certificate 1 #[ 170141183460469231731687303715884105728]) ||  || 9 || pip: number too wide at byte 70\n",
    "a certificate that is cut off || pip check || ((a) 1 0 1 0 -1 1 (#[1 -3]) ())((a)\n(list\n#[ 3]\n)\n)\n(certificate 1 #[] ( ||  || 2 || pip: syntax at byte 72\n",
    "a leaf without shared steps in format 2 || pip check || ((a) 1 0 1 0 -1 1 (#[1 -3]) ())((a)\n(list\n#[ 3]\n)\n)\n(certificate 2 void ()) ||  || 2 || pip: syntax at byte 73\n",
    "a list and a bottom || pip share || ((n) 1 1 2 0 -1 1 (#[1 0 -1] #[-1 2 0]) ())((n)(if #[-1 2](list #[1 0])()))(certificate 1 #[0] (() ((1 1 1 2 1)) ((1 0 1 2 1)) ((1 3 1 5 1))) (((1 1 1 3 1 4 1)))) || (certificate 2 #[ 0]\n(\n()\n()\n((1 1 1 2 1))\n((1 0 1 2 1))\n((1 3 1 5 1))\n)\n(\n()\n((1 1 1 3 1 4 1))\n)\n)\n",
    "steps that all refutations of a leaf begin with || pip share || ((v) 1 1 0 2 -1 1 () (#[2 -1] #[-2 1]))((v)\nvoid\n)\n(certificate 1 void (((2 1 1) (1 2 1 3 2)))) || (certificate 2 void\n(\n((2 1 1))\n((1 2 1 3 2))\n)\n)\n",
    "a refutation without steps || pip share || ((a) 1 0 1 0 -1 1 (#[1 -3]) ())((a)\n(list\n#[ 3]\n)\n)\n(certificate 1 #[] (() () ((1 1 1 2 1)))) || (certificate 2 #[]\n(\n()\n()\n()\n((1 1 1 2 1))\n)\n)\n",
    "steps of choices and a new parameter || pip share || ((c) 1 1 1 0 -1 1 (#[2 0 -1]) ())((c)\n(if #[ -1 0]\n(list\n#[ 0 0]\n)\n(newparm 1 (div #[ 1 0] 2))\n(if #[ -1 2 0]\n(list\n#[ 1 -1 0]\n)\n(list\n#[ 1 -1 0]\n)\n)\n)\n)\n(certificate 1 #[ 0] (((1 1 1 2 1)) ((1 2 1)) ((1 4 1 2 1)))\n(((2 3 1 0 1)(1 2 1 5 1)) ((2 3 1 0 1)(1 2 1 1 1 5 2)) ((2 3 1 0 1)(1 7 2 4 1 6 1)))\n(((2 3 1 0 1)(1 2 1 5 1)) ((2 3 1 0 1)(1 2 1 1 1 5 2)) ((2 3 1 0 1)(1 3 1 7 2 6 1)))) || (certificate 2 #[ 0]\n(\n()\n((1 1 1 2 1))\n((1 2 1))\n((1 4 1 2 1))\n)\n(\n((2 3 1 0 1))\n((1 2 1 6 1))\n((1 2 1 1 1 6 2))\n((1 8 2 4 1 7 1))\n)\n(\n((2 3 1 0 1))\n((1 2 1 6 1))\n((1 2 1 1 1 6 2))\n((1 3 1 8 2 7 1))\n)\n)\n",
    "what is shared stays || pip share || ((c) 1 1 1 0 -1 1 (#[2 0 -1]) ())((c)\n(if #[ -1 0]\n(list\n#[ 0 0]\n)\n(newparm 1 (div #[ 1 0] 2))\n(if #[ -1 2 0]\n(list\n#[ 1 -1 0]\n)\n(list\n#[ 1 -1 0]\n)\n)\n)\n)\n(certificate 2 #[ 0]\n(\n()\n((1 1 1 2 1))\n((1 2 1))\n((1 4 1 2 1))\n)\n(\n((2 3 1 0 1))\n((1 2 1 6 1))\n((1 2 1 1 1 6 2))\n((1 8 2 4 1 7 1))\n)\n(\n((2 3 1 0 1))\n((1 2 1 6 1))\n((1 2 1 1 1 6 2))\n((1 3 1 8 2 7 1))\n)\n)\n || (certificate 2 #[ 0]\n(\n()\n((1 1 1 2 1))\n((1 2 1))\n((1 4 1 2 1))\n)\n(\n((2 3 1 0 1))\n((1 2 1 6 1))\n((1 2 1 1 1 6 2))\n((1 8 2 4 1 7 1))\n)\n(\n((2 3 1 0 1))\n((1 2 1 6 1))\n((1 2 1 1 1 6 2))\n((1 3 1 8 2 7 1))\n)\n)\n",
    "what is shared without steps stays || pip share || ((a) 1 0 1 0 -1 1 (#[1 -3]) ())((a)\n(list\n#[ 3]\n)\n)\n(certificate 2 #[] (() () () ((1 1 1 2 1)))) || (certificate 2 #[]\n(\n()\n()\n()\n((1 1 1 2 1))\n)\n)\n",
    "a certificate that is not accepted is not shared || pip share || ((a) 1 0 1 0 -1 1 (#[1 -3]) ())((a)\n(list\n#[ 3]\n)\n)\n(certificate 1 #[] (() () ((1 0 -1 1 1)))) ||  || 10 || pip: rejected at leaf 1 refutation 3 step 1\n",
    "the text of the triple before a rejected one stays || pip check || ((v) 1 1 0 2 -1 1 () (#[2 -1] #[-2 1]))((v)\nvoid\n)\n(certificate 1 void (((2 1 1) (1 2 1 3 2))))((v) 1 1 0 2 -1 1 () (#[2 -1] #[-2 1]))((v)\nvoid\n)\n(certificate 1 void (((3 1 1) (1 2 1 3 2)))) || accepted\n || 10 || pip: rejected at leaf 1 refutation 1 step 1\n",
    "a form of a leaf past 128 bits || pip share || ((z) 1 0 1 0 -1 1 (#[170141183460469231731687303715884105727 1]) ()) ((a)(list #[2])) (certificate 1 #[] (()()())) ||  || 4 || pip: overflow at leaf 1 refutation 1 step 0\n",
    "a form of the context past 128 bits || pip share || ((z) 1 1 0 1 -1 1 () (#[170141183460469231731687303715884105727 0])) ((a)(list #[0 0])) (certificate 1 #[2] (())) ||  || 4 || pip: overflow at leaf 0 refutation 0 step 0\n",
    "a rational problem is refused before it is solved || pip solve --certificate --pivots 0 || ((h) 1 0 1 0 -1 0 (#[2 -3]) ()) ||  || 3 || pip: unsupported rational certificate\n",
    "one pivot for the answer and one for its certificate || pip solve --pivots 1 --certificate || ((a) 1 0 1 0 -1 1 (#[1 -3]) ()) ||  || 5 || pip: budget of pivots 1\n",
    "a number of the certificate past 128 bits || pip solve --certificate || ((w) 1 0 2 0 -1 1 (#[170141183460469231731687303715884105727 -3] #[170141183460469231731687303715884105727 -5]) ()) ||  || 4 || pip: overflow\n",
    "the counts of the answer go on in its certificate || pip solve --certificate --pivots 3 --cuts 1 --splits 100 --nesting 100 || ((q) 2 1 0 1 -1 1 () (#[3 -2])) ||  || 5 || pip: budget of pivots 3\n",
    "a rational problem || pip solve --certificate || ((h) 1 0 1 0 -1 0 (#[2 -3]) ()) ||  || 3 || pip: unsupported rational certificate\n",
];

#[test]
fn checked_and_shared(rt: HostRuntime) -> Result<(), Fail> {
    all_hold(&rt, rt.alloc(), CHECKED)
}

const MADE: &[&str] = &[
    "a cut of a refutation with numbers past 64 bits || pip solve --certificate || ((v) 1 0 2 0 -1 1 (#[18446744073709551617 -3] #[-18446744073709551617 4]) ()) || ((v)\n()\n)\n(certificate 1 #[]\n(\n((18446744073709551617 1 1)(1 2 1 3 18446744073709551617))\n)\n)\n",
    "an equation of even numbers past 64 bits and 1 || pip solve --certificate || ((v) 2 0 2 0 -1 1 (#[2 -18446744073709551616 -1] #[-2 18446744073709551616 1]) ()) || ((v)\n()\n)\n(certificate 1 #[]\n(\n((2 2 1)(1 3 1 4 2))\n)\n)\n",
    "the certificate of a list over a context past 64 bits || pip solve --certificate || ((a) 1 1 1 1 -1 1 (#[1 -1 0]) (#[1 -1180591620717411303424])) || ((a)\n(list\n#[ 0 1]\n)\n)\n(certificate 1 #[ 1180591620717411303424]\n(\n((1 2 1))\n((1 2 1))\n((1 4 1 3 1))\n)\n)\n",
    "the certificate of a list || pip solve --certificate || ((a) 1 0 1 0 -1 1 (#[1 -3]) ()) || ((a)\n(list\n#[ 3]\n)\n)\n(certificate 1 #[]\n(\n((1 0 1))\n((1 0 1))\n((1 2 1 1 1))\n)\n)\n",
    "the certificate behind a cut || pip solve --certificate || ((h) 1 0 1 0 -1 1 (#[2 -3]) ()) || ((h)\n(list\n#[ 2]\n)\n)\n(certificate 1 #[]\n(\n((1 0 1))\n((1 0 1))\n((1 2 2 1 1))\n)\n)\n",
    "no rational point || pip solve --certificate || ((n) 1 0 2 0 -1 1 (#[1 -3] #[-1 2]) ()) || ((n)\n()\n)\n(certificate 1 #[]\n(\n((1 2 1 1 1))\n)\n)\n",
    "a rational point and no whole one || pip solve --certificate || ((o) 1 0 2 0 -1 1 (#[2 -1] #[-2 1]) ()) || ((o)\n()\n)\n(certificate 1 #[]\n(\n((2 1 1)(1 2 1 3 2))\n)\n)\n",
    "half a parameter, rounded up || pip solve --certificate || ((c) 1 1 1 0 -1 1 (#[2 0 -1]) ()) || ((c)\n(if #[ -1 0]\n(list\n#[ 0 0]\n)\n(newparm 1 (div #[ 1 0] 2))\n(if #[ -1 2 0]\n(list\n#[ 1 -1 0]\n)\n(list\n#[ 1 -1 0]\n)\n)\n)\n)\n(certificate 1 #[ 0]\n(\n((1 1 1 2 1))\n((1 2 1))\n((1 4 1 2 1))\n)\n(\n((2 3 1 0 1)(1 2 1 5 1))\n((2 3 1 0 1)(1 2 1 1 1 5 2))\n((2 3 1 0 1)(1 7 2 4 1 6 1))\n)\n(\n((2 3 1 0 1)(1 2 1 5 1))\n((2 3 1 0 1)(1 2 1 1 1 5 2))\n((2 3 1 0 1)(1 3 1 7 2 6 1))\n)\n)\n",
    "an empty context || pip solve --certificate || ((v) 1 1 0 1 -1 1 () (#[-1 -1])) || ((v)\nvoid\n)\n(certificate 1 void\n(\n((1 1 1 0 1))\n)\n)\n",
    "a context with a rational point alone || pip solve --certificate || ((v) 1 1 0 2 -1 1 () (#[2 -1] #[-2 1])) || ((v)\nvoid\n)\n(certificate 1 void\n(\n((2 1 1)(1 2 1 3 2))\n)\n)\n",
    "a third of a parameter, rounded up, twice || pip solve --certificate || ((t) 2 1 2 0 -1 1 (#[3 0 0 -1] #[0 3 0 -1]) ()) || ((t)\n(if #[ -1 0]\n(list\n#[ 0 0]\n#[ 0 0]\n)\n(newparm 1 (div #[ 2 0] 3))\n(if #[ -2 3 0]\n(list\n#[ 1 -1 0]\n#[ 1 -1 0]\n)\n(list\n#[ 1 -1 0]\n#[ 1 -1 0]\n)\n)\n)\n)\n(certificate 1 #[ 0]\n(\n((1 1 1 2 1))\n((1 1 1 2 1))\n((1 2 1))\n((1 2 1))\n((1 6 1 2 1))\n((1 7 1 3 1))\n)\n(\n((3 3 1 0 2)(1 2 1 5 1))\n((3 3 1 0 2)(1 2 1 5 1))\n((3 3 1 0 2)(1 2 1 1 1 5 3))\n((3 3 1 0 2)(1 2 1 1 1 5 3))\n((3 3 1 0 2)(1 9 3 4 1 7 1))\n((3 3 1 0 2)(1 10 3 4 1 8 1))\n)\n(\n((3 3 1 0 2)(1 2 1 5 1))\n((3 3 1 0 2)(1 2 1 5 1))\n((3 3 1 0 2)(1 2 1 1 1 5 3))\n((3 3 1 0 2)(1 2 1 1 1 5 3))\n((3 3 1 0 2)(1 3 1 9 3 7 1))\n((3 3 1 0 2)(1 3 1 10 3 8 1))\n)\n)\n",
    "a context without a rational point || pip solve --certificate || ((v) 1 1 0 2 -1 1 () (#[1 -3] #[-1 2])) || ((v)\nvoid\n)\n(certificate 1 void\n(\n((1 2 1 1 1))\n)\n)\n",
    "a context without a rational point, divided || pip solve --certificate || ((v) 1 1 0 2 -1 1 () (#[2 -3] #[-1 1])) || ((v)\nvoid\n)\n(certificate 1 void\n(\n((1 2 2 1 1))\n)\n)\n",
    "a context over no parameters || pip solve --certificate || ((v) 1 0 0 1 -1 1 () (#[-1])) || ((v)\nvoid\n)\n(certificate 1 void\n(\n((1 0 1))\n)\n)\n",
];

#[test]
fn made(rt: HostRuntime) -> Result<(), Fail> {
    all_hold(&rt, rt.alloc(), MADE)
}

// Whether the certificate that a row makes of a problem is accepted.
fn is_accepted(alloc: Global, row: &str) -> Result<bool, AllocError> {
    let (_, row) = field(row);
    let (_, row) = field(row);
    let (problem, made) = field(row);
    let wanted = Wanted {
        output: b"accepted\n",
        notes: "",
        status: 0,
    };
    let mut triple = problem.as_bytes().to_vec(alloc)?;
    triple.extend_from_slice(made.as_bytes())?;
    line_ends_so(alloc, "pip check", triple, 7, &wanted)
}

#[test]
fn what_is_made_is_accepted(rt: HostRuntime) -> Result<(), Fail> {
    for row in MADE {
        assert!(rt; is_accepted(rt.alloc(), row)?, "{row}");
    }
    Ok(())
}
