ghost use Rattle.std.specs.Prelude.{◌≡◌, ◌<◌, ◌≤◌, pos, get_or, ◌++◌, length, take, drop, All, IfSome};
ghost use Rattle.pip_model.specs.Forms.{combine as combine_of};
ghost use Rattle.short_numbers.specs.Short.{IsShort, IsHalf, AreHalf};
ghost use Rattle.short_row.specs.Begun.{finished};
ghost use Rattle.short_numbers.specs.Nonzeros.{AreNonzeros};
ghost use Rattle.short_row.specs.Terms.{AreTerms};

use crate::wide::Factors;
use short_numbers::{Nonzeros, are_narrow, half_difference, is_half, two_differences};

// Makes `a*r - b*s` of r, entry by entry, up to the first that has no 32 bits; how many are made.
fn combine_half(a: i64, r: &mut [i64], b: i64, s: &[i64]) -> usize
    requires terms { AreTerms a r.old b s.now }
    requires halves { AreHalf a b }
    ensures count { result ≤ length r.old }
    ensures value { finished a r.new b s.now result ≡ combine_of a r.old b s.now }
    ensures short { All IsShort r.new }
{
    for i in 0..r.len() {
        if !is_half(r[i]) || !is_half(s[i]) {
            return i;
        }
        r[i] = half_difference(a, r[i], b, s[i]);
    }
    r.len()
}

// Makes `a*r - b*s` of r, two entries at a time, up to the first two of which one has no 31 bits; how many are made.
fn combine_pairs(by: Factors, r: &mut [i64], s: &[i64]) -> usize
    requires terms { AreTerms by.of_row r.old by.of_pivot s.now }
    requires halves { AreHalf by.of_row by.of_pivot }
    requires pivot { All IsHalf s.now }
    ensures count { result ≤ length r.old }
    ensures value { r.new ≡ combine_of by.of_row (take result r.old) by.of_pivot (take result s.now) ++ drop result r.old }
    ensures short { All IsShort r.new }
{
    for k in 0..r.len() / 2 {
        let i = 2 * k;
        if !are_narrow(r[i], r[i + 1]) {
            return i;
        }
        let (first, second) = two_differences(
            by.of_row,
            (r[i], r[i + 1]),
            by.of_pivot,
            (s[i], s[i + 1]),
        );
        r[i] = first;
        r[i + 1] = second;
    }
    r.len() / 2 * 2
}

// Makes `a*r - b*s` of r, up to the first entry of r that has no 32 bits; how many are made. All of s have them.
fn combine_listed(by: Factors, r: &mut [i64], s: &[i64]) -> usize
    requires terms { AreTerms by.of_row r.old by.of_pivot s.now }
    requires halves { AreHalf by.of_row by.of_pivot }
    requires pivot { All IsHalf s.now }
    ensures count { result ≤ length r.old }
    ensures value { finished by.of_row r.new by.of_pivot s.now result ≡ combine_of by.of_row r.old by.of_pivot s.now }
    ensures short { All IsShort r.new }
{
    let made = combine_pairs(by, r, s);
    for i in made..r.len() {
        if !is_half(r[i]) {
            return i;
        }
        r[i] = half_difference(by.of_row, r[i], by.of_pivot, s[i]);
    }
    r.len()
}

// Makes `r - b*s` of r, entry by entry, up to the first that has no 32 bits; how many are made. Where s is 0, r stays.
fn reduce_half(r: &mut [i64], b: i64, s: &[i64]) -> usize
    requires terms { AreTerms (pos 1) r.old b s.now }
    requires half { IsHalf b }
    ensures count { result ≤ length r.old }
    ensures value { finished (pos 1) r.new b s.now result ≡ combine_of (pos 1) r.old b s.now }
    ensures short { All IsShort r.new }
{
    for i in 0..r.len() {
        if s[i] != 0 {
            if !is_half(r[i]) || !is_half(s[i]) {
                return i;
            }
            r[i] = half_difference(1, r[i], b, s[i]);
        }
    }
    r.len()
}

// The place with number k of those at which s is not 0.
#[inline(always)]
#[tactic(auto, using(short_numbers::proofs::Places::listed_within))]
fn place_in(nonzeros: &Nonzeros, s: &[i64], k: usize) -> usize
    requires nonzeros { AreNonzeros s.now nonzeros.now }
    requires number { k < length nonzeros.now }
    ensures value { result ≡ get_or nonzeros.now k 0 }
    ensures within { result < length s.now }
{
    nonzeros.place(k)
}

// The same by the list of the places at which s is not 0.
fn reduce_listed(r: &mut [i64], b: i64, s: &[i64], nonzeros: &Nonzeros) -> usize
    requires terms { AreTerms (pos 1) r.old b s.now }
    requires half { IsHalf b }
    requires nonzeros { AreNonzeros s.now nonzeros.now }
    ensures count { result ≤ length r.old }
    ensures value { finished (pos 1) r.new b s.now result ≡ combine_of (pos 1) r.old b s.now }
    ensures short { All IsShort r.new }
{
    for k in 0..nonzeros.len() {
        let i = place_in(nonzeros, s, k);
        if !is_half(r[i]) {
            return i;
        }
        r[i] = half_difference(1, r[i], b, s[i]);
    }
    r.len()
}

// Makes `a*r - b*s` of r, entry by entry, by 64 bits, as long as the numbers have 32; how many are made.
#[inline(always)]
pub(crate) fn combine_halves(
    by: Factors,
    r: &mut [i64],
    s: &[i64],
    nonzeros: &Option<Nonzeros>,
) -> usize
    requires terms { AreTerms by.of_row r.old by.of_pivot s.now }
    requires nonzeros { IfSome nonzeros.now (AreNonzeros s.now) }
    ensures count { result ≤ length r.old }
    ensures value { finished by.of_row r.new by.of_pivot s.now result ≡ combine_of by.of_row r.old by.of_pivot s.now }
    ensures short { All IsShort r.new }
{
    if !is_half(by.of_row) || !is_half(by.of_pivot) {
        return 0;
    }
    if by.of_row == 1 {
        if let Some(nonzeros) = nonzeros {
            return reduce_listed(r, by.of_pivot, s, nonzeros);
        }
        return reduce_half(r, by.of_pivot, s);
    }
    if let Some(_) = nonzeros {
        return combine_listed(by, r, s);
    }
    combine_half(by.of_row, r, by.of_pivot, s)
}
