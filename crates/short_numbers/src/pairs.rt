ghost use Rattle.std.specs.Prelude.{◌≡◌, ◌*ℤ◌, ◌-ℤ◌, IsTrue};
ghost use Rattle.short_numbers.specs.Short.{AreShort, AreHalf};

use std::simd::prelude::*;
use std::simd::{i64x2, i64x4};

/// Whether both numbers are seen to have 31 bits, in one test.
#[inline(always)]
pub fn are_narrow(x: i64, y: i64) -> bool
    ensures { IsTrue result → AreHalf x y }
{
    let moved = i64x2::from_array([x, y]) + i64x2::splat(0x4000_0000);
    (moved & i64x2::splat(-0x8000_0000)).reduce_or() == 0
}

/// `a*x - b*y` for two x and two y. All four products are made of one vector, since LLVM then sees that 32 bits of each
/// number tell all.
#[inline(always)]
pub fn two_differences(a: i64, x: (i64, i64), b: i64, y: (i64, i64)) -> (i64, i64)
    requires factors { AreHalf a b }
    requires row { AreHalf x.0 x.1 }
    requires pivot { AreHalf y.0 y.1 }
    ensures first { result.0 ≡ a *ℤ x.0 -ℤ b *ℤ y.0 }
    ensures second { result.1 ≡ a *ℤ x.1 -ℤ b *ℤ y.1 }
    ensures short { AreShort result.0 result.1 }
{
    let factors = i64x4::from_array([a, a, b, b]);
    let numbers = i64x4::from_array([x.0, x.1, y.0, y.1]);
    let products = factors
        .cast::<i32>()
        .cast::<i64>()
        .strict_mul(numbers.cast::<i32>().cast::<i64>())
        .to_array();
    (products[0] - products[2], products[1] - products[3])
}
