ghost use Rattle.std.specs.Prelude.{◌≡◌, ◌+◌, ◌≤◌, drop, length, All, IfSome};
ghost use Rattle.pip_model.specs.Forms.{entry, combine as combine_of};
ghost use Rattle.pip_model.specs.Rows as model;
ghost use Rattle.short_numbers.specs.Short.{IsShort, IsShortDivisor};
ghost use Rattle.row_laws.specs.Flat.{row_of_numbers};
ghost use Rattle.row_laws.specs.Lowest.{AreLowest};
ghost use Rattle.short_row.specs.Begun.{finished};
ghost use Rattle.short_numbers.specs.Nonzeros.{AreNonzeros};
ghost use Rattle.short_row.specs.Put.{IsTurning};
ghost use Rattle.short_row.specs.Terms.{AreTerms};
ghost use Rattle.short_row.specs.Turned.{IsTurned};

use crate::halves::combine_halves;
use crate::put::{PutRow, end_put};
use crate::wide::Factors;
use short_numbers::{Nonzeros, gcd, short_floor_div};

// The factors in lowest terms.
fn lowest(a: i64, b: i64) -> Factors
    requires a { IsShortDivisor a }
    requires b { IsShort b }
    ensures lowest { AreLowest a b result.of_row result.of_pivot }
    ensures of_row { IsShortDivisor result.of_row }
    ensures of_pivot { IsShort result.of_pivot }
{
    let divisor = gcd(a, b);
    if divisor == 1 {
        return Factors {
            of_row: a,
            of_pivot: b,
        };
    }
    Factors {
        of_row: short_floor_div(a, divisor),
        of_pivot: short_floor_div(b, divisor),
    }
}

// Makes the numbers behind the denominator by 64 bits, as long as they have 32; how many are made.
#[inline(always)]
fn put_halves(by: Factors, row: &mut [i64], p: &[i64], nonzeros: &Option<Nonzeros>) -> usize
    requires row { 1 ≤ length row.old }
    requires pivot { 1 ≤ length p.now }
    requires terms { AreTerms by.of_row (drop 1 row.old) by.of_pivot (drop 1 p.now) }
    requires nonzeros { IfSome nonzeros.now (AreNonzeros (drop 1 p.now)) }
    ensures den { entry row.new 0 ≡ entry row.old 0 }
    ensures count { result + 1 ≤ length row.old }
    ensures value { finished by.of_row (drop 1 row.new) by.of_pivot (drop 1 p.now) result
        ≡ combine_of by.of_row (drop 1 row.old) by.of_pivot (drop 1 p.now) }
    ensures short { All IsShort (drop 1 row.new) }
{
    let (_, numbers) = row.split_at_mut(1);
    let (_, others) = p.split_at(1);
    combine_halves(by, numbers, others, nonzeros)
}

/// Makes of the numbers of a row those after the pivot on row p and column c; whether they are short. A list of the
/// places at which p is not 0 makes it faster.
#[inline(never)]
pub fn turn(
    row: &mut [i64],
    unknowns: usize,
    p: &[i64],
    c: usize,
    nonzeros: &Option<Nonzeros>,
) -> bool
    requires turning { IsTurning unknowns p.now c row.old }
    requires nonzeros { IfSome nonzeros.now (AreNonzeros (drop 1 p.now)) }
    ensures { IsTurned unknowns (model.eliminated (row_of_numbers unknowns p.now) c (row_of_numbers unknowns row.old)) result row.new }
{
    let by = lowest(p[c + 1], row[c + 1]);
    let made = put_halves(by, row, p, nonzeros);
    let put = PutRow {
        by,
        column: c,
        made,
    };
    end_put(row, unknowns, p, &put)
}
