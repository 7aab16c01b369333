ghost use Rattle.std.specs.Prelude.{◌≡◌, ◌<◌, pos, ◌≤ℤ◌, length, drop, All};
ghost use Rattle.pip_model.specs.Forms.{floor_divided};
ghost use Rattle.pip_model.specs.Numbers.{gcd as gcd_of_two, gcd_of, floor_div as floor_div_of};
ghost use Rattle.row_laws.specs.Short.{IsShort};

use short_numbers::{narrow, short_floor_div, short_gcd};

// The greatest common divisor of a number of at least 1 and all entries.
pub(crate) fn short_divisor_with(start: i64, entries: &[i128]) -> i64
    requires start { pos 1 ≤ℤ start }
    requires start_short { IsShort start }
    requires short { All IsShort entries.now }
    ensures value { result ≡ gcd_of_two start (gcd_of entries.now) }
    ensures positive { pos 1 ≤ℤ result }
    ensures bound { result ≤ℤ start }
    ensures short { IsShort result }
{
    let mut found = start;
    for entry in entries {
        if found == 1 {
            return 1;
        }
        found = short_gcd(found, narrow(*entry));
    }
    found
}

// The quotient of a short number, rounded down; at least 1 where the number is at least d.
pub(crate) fn short_quotient(a: i128, d: i64) -> i128
    requires positive { pos 1 ≤ℤ d }
    requires short { IsShort a }
    ensures value { result ≡ floor_div_of a d }
    ensures some { d ≤ℤ a → pos 1 ≤ℤ result }
    ensures short { IsShort result }
{
    short_floor_div(narrow(a), d) as i128
}

// Divides each short entry, rounded down.
pub(crate) fn divide_all_short(entries: &mut [i128], d: i64)
    requires positive { pos 1 ≤ℤ d }
    requires short { All IsShort entries.old }
    ensures value { entries.new ≡ floor_divided d entries.old }
    ensures short { All IsShort entries.new }
{
    for entry in entries.iter_mut() {
        *entry = short_quotient(*entry, d);
    }
}

// Divides short numbers by what is common to the start, at least 1, and all of them but the first.
pub(crate) fn divide_run(numbers: &mut [i128], start: i64)
    requires some { 0 < length numbers.old }
    requires start { pos 1 ≤ℤ start }
    requires start_short { IsShort start }
    requires short { All IsShort numbers.old }
    ensures value { numbers.new
        ≡ floor_divided (gcd_of_two start (gcd_of (drop 1 numbers.old))) numbers.old }
    ensures short { All IsShort numbers.new }
{
    let (_, entries) = numbers.split_at(1);
    let divisor = short_divisor_with(start, entries);
    if divisor != 1 {
        divide_all_short(numbers, divisor);
    }
}
