ghost use Rattle.std.specs.Prelude.{◌≡◌, ◌^◌, ◌<◌, ◌≤◌, pos, ◌+ℤ◌, ◌-ℤ◌, ◌*ℤ◌, ◌<ℤ◌, ◌≤ℤ◌, neg_ℤ, unsigned_abs, ◌&&◌, IsTrue, IsFalse, IfSome};
ghost use Rattle.pip_model.specs.Numbers.{floor_mod, is_nonneg};
ghost use Rattle.lanes.specs.Narrow.{IsNarrow, left_of};

// The product of two numbers.
#[inline(always)]
pub(crate) fn product(x: i32, y: i32) -> i32
    requires { IsNarrow (x *ℤ y) }
    ensures { result ≡ x *ℤ y }
{
    x * y
}

// The sum of two numbers.
#[inline(always)]
pub(crate) fn sum(x: i32, y: i32) -> i32
    requires { IsNarrow (x +ℤ y) }
    ensures { result ≡ x +ℤ y }
{
    x + y
}

// A sum, and the product of two numbers more.
#[inline(always)]
pub(crate) fn add_product(start: i32, x: i32, y: i32) -> i32
    requires product { IsNarrow (x *ℤ y) }
    requires all { IsNarrow (start +ℤ x *ℤ y) }
    ensures { result ≡ start +ℤ x *ℤ y }
{
    sum(start, product(x, y))
}

// The product of two numbers, and its bound.
#[inline(always)]
fn half_product(x: i32, y: i32) -> i32
    requires { unsigned_abs (x *ℤ y) < 2 ^ 30 }
    ensures { result ≡ x *ℤ y }
{
    x * y
}

// The difference of numbers that are far from the ends.
#[inline(always)]
fn half_difference(x: i32, y: i32) -> i32
    requires first { unsigned_abs x < 2 ^ 30 }
    requires second { unsigned_abs y < 2 ^ 30 }
    ensures value { result ≡ x -ℤ y }
    ensures narrow { IsNarrow result }
{
    x - y
}

// `a*x - b*y`, where the products are far from the ends.
#[inline(always)]
pub(crate) fn difference(a: i32, x: i32, b: i32, y: i32) -> i32
    requires first { unsigned_abs (a *ℤ x) < 2 ^ 30 }
    requires second { unsigned_abs (b *ℤ y) < 2 ^ 30 }
    ensures value { result ≡ a *ℤ x -ℤ b *ℤ y }
    ensures narrow { IsNarrow result }
{
    half_difference(half_product(a, x), half_product(b, y))
}

// The opposite of a number.
#[inline(always)]
pub(crate) fn opposite(x: i32) -> i32
    requires { IsNarrow x }
    ensures value { result ≡ neg_ℤ x }
    ensures narrow { IsNarrow result }
{
    -x
}

// Whether the number is at least 0.
#[inline(always)]
pub(crate) fn is_at_least_zero(x: i32) -> bool
    ensures value { result ≡ is_nonneg x }
    ensures at_least { IsTrue result → pos 0 ≤ℤ x }
    ensures below { IsFalse result → x <ℤ pos 0 }
{
    x >= 0
}

// Whether both hold.
#[inline(always)]
pub(crate) fn both(a: bool, b: bool) -> bool
    ensures { result ≡ (a && b) }
{
    a && b
}

/// A number that is as small as two others need, and less than neither.
#[tactic(auto, using(std::proofs::lemmas::Nat::le_or_l, std::proofs::lemmas::Nat::le_or_r))]
#[inline(always)]
pub fn with_bits(a: u32, b: u32) -> u32
    requires first { a < 2 ^ 31 }
    requires second { b < 2 ^ 31 }
    ensures first { a ≤ result }
    ensures second { b ≤ result }
    ensures narrow { result < 2 ^ 31 }
{
    a | b
}

// The same of a number and a size.
#[inline(always)]
pub(crate) fn with_size(all: u32, x: i32) -> u32
    requires all { all < 2 ^ 31 }
    requires narrow { IsNarrow x }
    ensures more { all ≤ result }
    ensures size { unsigned_abs x ≤ result }
    ensures narrow { result < 2 ^ 31 }
{
    with_bits(all, x.unsigned_abs())
}

// A number whose size is not less than those of two others.
#[inline(always)]
pub(crate) fn covering(x: i32, y: i32) -> i32
    requires first { IsNarrow x }
    requires second { IsNarrow y }
    ensures first { unsigned_abs x ≤ unsigned_abs result }
    ensures second { unsigned_abs y ≤ unsigned_abs result }
    ensures narrow { IsNarrow result }
{
    with_bits(x.unsigned_abs(), y.unsigned_abs()) as i32
}

// The quotient, where nothing is left.
#[inline(always)]
pub(crate) fn quotient(z: i32, l: i32) -> Option<i32>
    requires { pos 1 ≤ℤ l }
    ensures { IfSome result (λ q. l *ℤ q ≡ z) }
{
    if z == 0 {
        return Some(0);
    }
    let q = z / l;
    if q * l == z { Some(q) } else { None }
}

// What the quotient rounded down leaves, in `0 .. l - 1`.
#[inline(always)]
fn floor_left(z: i32, l: i32) -> i32
    requires { pos 1 ≤ℤ l }
    ensures value { result ≡ floor_mod z l }
    ensures narrow { IsNarrow result }
{
    z.rem_euclid(l)
}

// What the quotient rounded up leaves, in `-(l - 1) .. 0`.
#[inline(always)]
fn ceil_left(z: i32, l: i32) -> i32
    requires positive { pos 1 ≤ℤ l }
    requires narrow { IsNarrow z }
    ensures value { result ≡ neg_ℤ (floor_mod (neg_ℤ z) l) }
    ensures narrow { IsNarrow result }
{
    opposite(floor_left(opposite(z), l))
}

// What the quotient rounded down or up leaves.
#[inline(always)]
pub(crate) fn left(z: i32, l: i32, down: bool) -> i32
    requires positive { pos 1 ≤ℤ l }
    requires narrow { IsNarrow z }
    ensures value { result ≡ left_of l down z }
    ensures narrow { IsNarrow result }
{
    if down {
        floor_left(z, l)
    } else {
        ceil_left(z, l)
    }
}
