ghost use Rattle.std.specs.Prelude.{◌≡◌, ℕ, ◌+◌, ◌^◌, ◌<◌, ◌≤◌, pos, ◌≤ℤ◌, ◌*ℤ◌, unsigned_abs, true, IfSome, IfNone};
ghost use Rattle.pip_model.specs.Forms.{dot, entry};
ghost use Rattle.pip_model.specs.Numbers.{divides};
ghost use Rattle.lanes.specs.Narrow.{AreLanes};
ghost use Rattle.lane_rows.specs.Read.{IsFirstLeft, IsReadable, line};

use crate::starting::unit;
use lanes::Lanes;

// The product of two numbers.
#[inline(always)]
fn product(x: i32, y: i32) -> i32
    requires { unsigned_abs (x *ℤ y) < 2 ^ 31 }
    ensures { result ≡ x *ℤ y }
{
    x * y
}

// The numbers of the row that a form makes of the columns' rows over l.
#[inline(always)]
pub(crate) fn combined(rows: &[Lanes], n: usize, l: i32, form: Lanes) -> Lanes
    requires { IsReadable n rows.now l form }
    ensures value { (k : ℕ) → k < 8 → entry result k ≡ dot form (line n rows.now l k) }
    ensures lanes { AreLanes result }
{
    let mut sum = unit(0, product(form.get(0), l));
    for k in 0..n {
        let coefficient = form.get(k + 1);
        if coefficient != 0 {
            sum = sum.plus_times(rows[k], coefficient);
        }
    }
    sum
}

// Whether the number is a multiple of l.
#[inline(always)]
fn is_multiple(z: i32, l: i32) -> bool
    requires { pos 1 ≤ℤ l }
    ensures { result ≡ divides l z }
{
    z.rem_euclid(l) == 0
}

// The first of the n constants behind the denominator that l does not divide.
#[inline(always)]
pub(crate) fn first_left(at: Lanes, n: usize, l: i32) -> Option<usize>
    requires few { n ≤ 7 }
    requires scale { pos 1 ≤ℤ l }
    ensures some { IfSome result (IsFirstLeft n l at) }
    ensures none { IfNone result ((j : ℕ) → j < n → divides l (entry at (j + 1)) ≡ true) }
{
    if l == 1 {
        return None;
    }
    for i in 0..n {
        if !is_multiple(at.get(i + 1), l) {
            return Some(i);
        }
    }
    None
}
