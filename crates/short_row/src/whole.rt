ghost use Rattle.std.specs.Prelude.{◌≡◌, ◌<◌, ◌+◌, pos, ◌*ℤ◌, ◌≤ℤ◌, length, All, IfSome};
ghost use Rattle.pip_model.specs.Forms.{entry, scale};
ghost use Rattle.pip_model.specs.Numbers.{gcd as gcd_of_two, gcd_of};
ghost use Rattle.short_numbers.specs.Short.{IsShort, IsHalf};
ghost use Rattle.short_row.specs.Whole.{IsHalfDivisor, scaled_front};

use short_numbers::{gcd, is_half, short_floor_div};

// The quotient of numbers of 32 bits, where nothing is left.
fn half_quotient(z: i32, d: i32) -> Option<i32>
    requires { pos 1 ≤ℤ d }
    ensures { IfSome result (λ q. d *ℤ q ≡ z) }
{
    if z % d == 0 { Some(z / d) } else { None }
}

// The quotient, where nothing is left.
fn long_quotient(z: i64, d: i64) -> Option<i64>
    requires { pos 1 ≤ℤ d }
    ensures { IfSome result (λ q. d *ℤ q ≡ z) }
{
    if z % d == 0 { Some(z / d) } else { None }
}

// The quotient, where nothing is left: by 32 bits, where the number has them.
fn whole_quotient(z: i64, d: i64) -> Option<i64>
    requires short { IsShort z }
    requires divisor { IsHalfDivisor d }
    ensures value { IfSome result (λ q. d *ℤ q ≡ z) }
    ensures short { IfSome result IsShort }
{
    if is_half(z) {
        let quotient = half_quotient(z as i32, d as i32)?;
        Some(i64::from(quotient))
    } else {
        long_quotient(z, d)
    }
}

// Multiplies each entry.
fn multiply_all(entries: &mut [i64], d: i64)
    requires { All IsShort (scale d entries.old) }
    ensures { entries.new ≡ scale d entries.old }
{
    for number in entries.iter_mut() {
        *number = d * *number;
    }
}

// Divides entry i, and those in front of it not by d, but by the greatest common divisor of d and entry i; this divisor.
#[inline(never)]
fn divide_less(entries: &mut [i64], i: usize, d: i64) -> i64
    requires place { i < length entries.old }
    requires divisor { IsHalfDivisor d }
    requires whole { All IsShort (scaled_front d entries.old i) }
    requires short { All IsShort entries.old }
    ensures value { result ≡ gcd_of_two d (entry entries.old i) }
    ensures divisor { IsHalfDivisor result }
    ensures whole { scaled_front result entries.new (i + 1) ≡ scaled_front d entries.old i }
    ensures short { All IsShort entries.new }
{
    let number = entries[i];
    let divisor = gcd(d, number);
    let (front, _) = entries.split_at_mut(i);
    multiply_all(front, short_floor_div(d, divisor));
    entries[i] = short_floor_div(number, divisor);
    divisor
}

// Divides all entries by the greatest common divisor of them and a number, which is mostly the number; this divisor.
#[inline(always)]
pub(crate) fn divide_common(entries: &mut [i64], d: i64) -> i64
    requires divisor { IsHalfDivisor d }
    requires short { All IsShort entries.old }
    ensures value { result ≡ gcd_of_two d (gcd_of entries.old) }
    ensures positive { pos 1 ≤ℤ result }
    ensures whole { scale result entries.new ≡ entries.old }
    ensures short { All IsShort entries.new }
{
    let mut divisor = d;
    for i in 0..entries.len() {
        if entries[i] != 0 {
            if let Some(quotient) = whole_quotient(entries[i], divisor) {
                entries[i] = quotient;
            } else {
                divisor = divide_less(entries, i, divisor);
                if divisor == 1 {
                    return 1;
                }
            }
        }
    }
    divisor
}
