ghost use Rattle.std.specs.Prelude.{◌≡◌, ℕ, ◌^◌, ◌<◌, ◌≤◌, pos, ◌≤ℤ◌, All, length, unsigned_abs, nat_lt, true, IsTrue, IfSome, IfNone};
ghost use Rattle.std.specs.List.{list_all};
ghost use Rattle.pip_model.specs.Numbers.{is_nonneg};
ghost use Rattle.pip_model.specs.Forms.{add, combine, dot, entry, negate, scale};
ghost use Rattle.lanes.specs.Narrow.{AreCovered, AreAddable, AreLanes, AreNarrowTimes, AreTurnable, IsFirstBelow, IsNarrow, IsSummable, left_of};

use crate::numbers::{
    add_product, both, covering, difference, is_at_least_zero, left, opposite, product, quotient,
    with_size,
};

// Makes f*x of the numbers x.
#[inline(always)]
pub(crate) fn multiply(row: &mut [i32], f: i32)
    requires lanes { AreLanes row.old }
    requires narrow { AreNarrowTimes f row.old }
    ensures value { row.new ≡ scale f row.old }
    ensures lanes { AreLanes row.new }
{
    for k in 0..row.len() {
        let z = product(f, row[k]);
        row[k] = z;
    }
}

// Makes x + f*y of the numbers x.
#[inline(always)]
pub(crate) fn add_multiple(row: &mut [i32], f: i32, ys: &[i32])
    requires lanes { AreLanes row.old }
    requires long { length row.old ≡ length ys.now }
    requires addable { AreAddable row.old f ys.now }
    ensures value { row.new ≡ add row.old (scale f ys.now) }
    ensures lanes { AreLanes row.new }
{
    for k in 0..row.len() {
        let z = add_product(row[k], f, ys[k]);
        row[k] = z;
    }
}

// Makes a*x - b*y of the numbers x.
#[inline(always)]
pub(crate) fn turn(row: &mut [i32], a: i32, b: i32, ys: &[i32])
    requires lanes { AreLanes row.old }
    requires long { length row.old ≡ length ys.now }
    requires turnable { AreTurnable a row.old b ys.now }
    ensures value { row.new ≡ combine a row.old b ys.now }
    ensures lanes { AreLanes row.new }
{
    for k in 0..row.len() {
        let z = difference(a, row[k], b, ys[k]);
        row[k] = z;
    }
}

// Makes the opposites of the numbers.
#[inline(always)]
pub(crate) fn oppose(row: &mut [i32])
    requires lanes { AreLanes row.old }
    ensures value { row.new ≡ negate row.old }
    ensures lanes { AreLanes row.new }
{
    for k in 0..row.len() {
        let z = opposite(row[k]);
        row[k] = z;
    }
}

// The sum of the products, place by place.
#[inline(always)]
pub(crate) fn sum_products(xs: &[i32], ys: &[i32]) -> i32
    requires long { length xs.now ≡ length ys.now }
    requires summable { IsSummable xs.now ys.now }
    ensures { result ≡ dot xs.now ys.now }
{
    let mut sum = 0;
    for k in 0..xs.len() {
        sum = add_product(sum, xs[k], ys[k]);
    }
    sum
}

// Whether no number is below 0.
#[inline(always)]
pub(crate) fn are_nowhere_below(row: &[i32]) -> bool
    ensures { result ≡ list_all is_nonneg row.now }
{
    let mut all = true;
    for k in 0..row.len() {
        all = both(all, is_at_least_zero(row[k]));
    }
    all
}

// The first place at which a number is below 0.
#[inline(always)]
pub(crate) fn place_below(row: &[i32]) -> Option<usize>
    ensures some { IfSome result (IsFirstBelow row.now) }
    ensures none { IfNone result (list_all is_nonneg row.now ≡ true) }
{
    for k in 0..row.len() {
        if !is_at_least_zero(row[k]) {
            return Some(k);
        }
    }
    None
}

// A number that no number passes in size.
#[inline(always)]
pub(crate) fn size_of_all(row: &[i32]) -> u32
    requires { (k : ℕ) → IsNarrow (entry row.now k) }
    ensures within { All (λ z. unsigned_abs z ≤ result) row.now }
    ensures narrow { result < 2 ^ 31 }
{
    let mut all = 0;
    for k in 0..row.len() {
        all = with_size(all, row[k]);
    }
    all
}

// Makes the quotients by l of the numbers, up to the first that l does not divide; whether it divides all.
#[inline(always)]
pub(crate) fn divide(row: &mut [i32], l: i32) -> bool
    requires lanes { AreLanes row.old }
    requires positive { pos 1 ≤ℤ l }
    ensures value { IsTrue result → scale l row.new ≡ row.old }
    ensures lanes { IsTrue result → AreLanes row.new }
{
    for k in 0..row.len() {
        let Some(number) = quotient(row[k], l) else {
            return false;
        };
        row[k] = number;
    }
    true
}

// Makes of each number one whose size is not less than its own and that of a row's number.
#[inline(always)]
pub(crate) fn cover(row: &mut [i32], ys: &[i32])
    requires lanes { AreLanes row.old }
    requires others { AreLanes ys.now }
    ensures own { AreCovered row.old row.new }
    ensures others { AreCovered ys.now row.new }
    ensures lanes { AreLanes row.new }
{
    for k in 0..row.len() {
        let z = covering(row[k], ys[k]);
        row[k] = z;
    }
}

// Makes what the quotients by l leave: of the first number rounded up, of the others rounded down.
#[inline(always)]
pub(crate) fn leave(row: &mut [i32], l: i32)
    requires lanes { AreLanes row.old }
    requires positive { pos 1 ≤ℤ l }
    ensures value { (k : ℕ) → k < 8 → entry row.new k ≡ left_of l (nat_lt 0 k) (entry row.old k) }
    ensures lanes { AreLanes row.new }
{
    for k in 0..row.len() {
        let z = left(row[k], l, 0 < k);
        row[k] = z;
    }
}
