ghost use Rattle.std.specs.Prelude.{◌≡◌, ◌≤◌, pos, ◌≤ℤ◌, length, All, IfOk};
ghost use Rattle.pip_model.specs.Forms.{combine, floor_divided};
ghost use Rattle.pip_model.specs.Numbers.{gcd as gcd_of_two, gcd_of, floor_div as floor_div_of};
ghost use Rattle.affine_forms.specs.Checks.{Fits};
ghost use Rattle.row_laws.specs.Short.{IsShort};
ghost use Rattle.short_row.specs.Begun.{finished};
ghost use Rattle.short_row.specs.Terms.{AreTerms, IsDivisor, IsNarrowed, AreNarrowed};

use crate::numbers::{narrow, wide_entry};
use affine_forms::{WantOfMemory, floor_div, gcd};
use std::alloc::Global;

/// The numbers in 128 bits.
pub fn widen_numbers(alloc: Global, numbers: &[i64]) -> Result<Vec<i128>, WantOfMemory>
    ensures { IfOk result (λ wide. wide.items ≡ numbers.now) }
{
    let mut wide = Vec::with_capacity(alloc, numbers.len())?;
    for number in numbers {
        wide.push(i128::from(*number))?;
    }
    Ok(wide)
}

// What the entries of a row and those of the pivot's row are multiplied by: `a*r - b*s`.
#[derive(Clone, Copy)]
pub(crate) struct Factors {
    pub of_row: i64,
    pub of_pivot: i64,
}

// The greatest common divisor of a number and the entries of `a*r - b*s`.
fn gcd_with_entries(start: i128, by: Factors, r: &[i64], s: &[i64]) -> i128
    requires start { IsDivisor start }
    requires terms { AreTerms by.of_row r.now by.of_pivot s.now }
    ensures value { result ≡ gcd_of_two start (gcd_of (combine by.of_row r.now by.of_pivot s.now)) }
    ensures divisor { IsDivisor result }
{
    let mut found = start;
    for i in 0..r.len() {
        if found == 1 {
            return 1;
        }
        found = gcd(found, wide_entry(by.of_row, r[i], by.of_pivot, s[i]));
    }
    found
}

// The greatest common divisor of a number and all entries.
fn gcd_with_made(start: i128, entries: &[i64]) -> i128
    requires start { IsDivisor start }
    requires short { All IsShort entries.now }
    ensures value { result ≡ gcd_of_two start (gcd_of entries.now) }
    ensures divisor { IsDivisor result }
{
    let mut found = start;
    for number in entries {
        if found == 1 {
            return 1;
        }
        found = gcd(found, i128::from(*number));
    }
    found
}

// The greatest common divisor of a number and the entries of `a*r - b*s`, of which so many are made in r.
pub(crate) fn gcd_with_finished(start: i128, by: Factors, r: &[i64], s: &[i64], made: usize) -> i128
    requires start { IsDivisor start }
    requires terms { AreTerms by.of_row r.now by.of_pivot s.now }
    requires made { made ≤ length r.now }
    ensures value { result ≡ gcd_of_two start (gcd_of (finished by.of_row r.now by.of_pivot s.now made)) }
    ensures divisor { IsDivisor result }
{
    let (front, rest) = r.split_at(made);
    let (_, pivot_rest) = s.split_at(made);
    gcd_with_entries(gcd_with_made(start, front), by, rest, pivot_rest)
}

// The quotient rounded down in 64 bits, where it is short.
pub(crate) fn narrow_quotient(z: i128, d: i128) -> Option<i64>
    requires positive { pos 1 ≤ℤ d }
    requires fits { Fits z }
    ensures { IsNarrowed (floor_div_of z d) result }
{
    narrow(floor_div(z, d))
}

// Makes of r the entries of `a*r - b*s`, each divided by d and rounded down, up to the first that is not short; whether
// all are.
fn divide_entries(by: Factors, r: &mut [i64], s: &[i64], d: i128) -> bool
    requires terms { AreTerms by.of_row r.old by.of_pivot s.now }
    requires positive { pos 1 ≤ℤ d }
    ensures { AreNarrowed (floor_divided d (combine by.of_row r.old by.of_pivot s.now)) result r.new }
{
    for i in 0..r.len() {
        let number = wide_entry(by.of_row, r[i], by.of_pivot, s[i]);
        let Some(quotient) = narrow_quotient(number, d) else {
            return false;
        };
        r[i] = quotient;
    }
    true
}

// The quotient of a short number, rounded down.
#[tactic(auto, using(short_numbers::proofs::Quotients::quotient_short))]
fn made_quotient(z: i64, d: i128) -> i64
    requires positive { pos 1 ≤ℤ d }
    requires short { IsShort z }
    ensures value { result ≡ floor_div_of z d }
    ensures short { IsShort result }
{
    floor_div(i128::from(z), d) as i64
}

// Divides each entry, rounded down.
fn divide_made(entries: &mut [i64], d: i128)
    requires positive { pos 1 ≤ℤ d }
    requires short { All IsShort entries.old }
    ensures value { entries.new ≡ floor_divided d entries.old }
    ensures short { All IsShort entries.new }
{
    for number in entries.iter_mut() {
        *number = made_quotient(*number, d);
    }
}

// Makes of r the entries of `a*r - b*s`, of which so many are made in it, each divided by d and rounded down; whether
// they are short.
pub(crate) fn divide_finished(by: Factors, r: &mut [i64], s: &[i64], made: usize, d: i128) -> bool
    requires terms { AreTerms by.of_row r.old by.of_pivot s.now }
    requires made { made ≤ length r.old }
    requires positive { pos 1 ≤ℤ d }
    ensures { AreNarrowed (floor_divided d (finished by.of_row r.old by.of_pivot s.now made)) result r.new }
{
    let (front, rest) = r.split_at_mut(made);
    let (_, pivot_rest) = s.split_at(made);
    divide_made(front, d);
    divide_entries(by, rest, pivot_rest, d)
}
