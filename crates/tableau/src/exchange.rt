ghost use Rattle.std.specs.Prelude.{◌≡◌, ◌+◌, ◌-◌, ◌<◌, ◌≤◌, length, OnErr, OnOk};
ghost use Rattle.pip_model.specs.Rows as model;
ghost use Rattle.pip_model.specs.Agreement.{IsChecked};
ghost use Rattle.affine_forms.specs.Checks.{is_overflow};
ghost use Rattle.tableau.specs.KeptRows.{IsOver, IsPivot, IsSpare, SameShape, turned, turned_listed, with_more, with_rows};
ghost use Rattle.tableau.specs.Places.{IsLent, AreLent, IsSolvable, lent_row};
ghost use Rattle.row_laws.specs.Rows.{IsRow, IsOwnRow};
ghost use Rattle.tableau_row.specs.Views.{row_of};

use crate::copying::copy_kept;
use crate::flat_rows::FlatRows;
use crate::kept::{Kept, Lent};
use affine_forms::Overflow;
use tableau_row::{RowView, check_eliminated};

// Checks the numbers of a row with row p, solved for column c, put in. They fit where both rows are short, and where
// the row stays as it is under an entry of 1.
#[inline(always)]
fn check_row(p: &RowView<'_>, c: usize, row: &RowView<'_>) -> Result<(), Overflow>
    requires row { IsRow (length p.now.coefs.now) (length p.now.constant.now - 1) (row_of row.now) }
    requires p { IsOwnRow (row_of p.now) }
    requires column { c < length p.now.coefs.now }
    ensures { IsChecked is_overflow (model.eliminated_listed (row_of p.now) c (row_of row.now)) result }
{
    if p.is_known_short() && row.is_known_short() {
        return Ok(());
    }
    if p.coefs[c] == 1 && row.coefs[c] == 0 {
        return Ok(());
    }
    check_eliminated(p, c, row)
}

// A pivot on row p and column c of rows as they are lent.
#[derive(Drop)]
struct LentPivot<'t> {
    lent: Lent<'t>,
    p: RowView<'t>,
    c: usize,
    ghost solvable: { IsSolvable lent.unknowns lent.width (row_of p) c },
}

// Adds what a kept row is after the pivot. A row that is 0 in the column stays, since its numbers have no common
// divisor.
#[inline(always)]
fn turn_row(next: &mut FlatRows, pivot: &LentPivot<'_>, one: Kept) -> Result<(), Overflow>
    requires room { length next.old.rows < next.old.most }
    requires over { IsOver next.old pivot.now.lent }
    requires one { IsLent pivot.now.lent one }
    ensures listed { IsChecked is_overflow
        (model.eliminated_listed (row_of pivot.now.p) pivot.now.c (lent_row pivot.now.lent one)) result }
    ensures ok { OnOk result (next.new
        ≡ with_more next.old (model.eliminated (row_of pivot.now.p) pivot.now.c (lent_row pivot.now.lent one))) }
    ensures err { OnErr result (next.new ≡ next.old) }
{
    let row = pivot.lent.row(one);
    check_row(&pivot.p, pivot.c, &row)?;
    if row.coefs[pivot.c] == 0 {
        copy_kept(next, &pivot.lent, one);
    } else {
        next.push_eliminated(&pivot.p, pivot.c, &row, pivot.lent.run(one));
    }
    Ok(())
}

// The same, where the row of another column is known to stay, and under a short p that of the column itself to be p
// solved for it, and a short row that is 0 in the column to stay.
#[inline(always)]
fn turn_kept(next: &mut FlatRows, pivot: &LentPivot<'_>, one: Kept) -> Result<(), Overflow>
    requires room { length next.old.rows < next.old.most }
    requires over { IsOver next.old pivot.now.lent }
    requires one { IsLent pivot.now.lent one }
    ensures listed { IsChecked is_overflow
        (model.eliminated_listed (row_of pivot.now.p) pivot.now.c (lent_row pivot.now.lent one)) result }
    ensures ok { OnOk result (next.new
        ≡ with_more next.old (model.eliminated (row_of pivot.now.p) pivot.now.c (lent_row pivot.now.lent one))) }
    ensures err { OnErr result (next.new ≡ next.old) }
{
    match one {
        Kept::Unit(k) => {
            if k != pivot.c {
                next.push_unit(k);
                return Ok(());
            }
            if pivot.p.is_known_short() {
                next.push_solved(&pivot.p, pivot.c);
                return Ok(());
            }
        }
        Kept::At(at) => {
            if at.short && pivot.p.is_known_short() {
                let numbers = pivot.lent.numbers_at(at.first);
                if numbers[1 + pivot.c] == 0 {
                    next.push_plain(numbers, at.short);
                    return Ok(());
                }
            }
        }
    }
    turn_row(next, pivot, one)
}

// Adds what the kept rows are after the pivot.
fn turn_rows(next: &mut FlatRows, pivot: &LentPivot<'_>, kept: &[Kept]) -> Result<(), Overflow>
    requires room { length next.old.rows + length kept.now ≤ next.old.most }
    requires over { IsOver next.old pivot.now.lent }
    requires lent { AreLent pivot.now.lent kept.now }
    ensures listed { IsChecked is_overflow
        (turned_listed (row_of pivot.now.p) pivot.now.c pivot.now.lent kept.now) result }
    ensures ok { OnOk result
        (next.new ≡ with_rows next.old (turned (row_of pivot.now.p) pivot.now.c pivot.now.lent kept.now)) }
    ensures shape { SameShape next.new next.old }
{
    for one in kept {
        turn_kept(next, pivot, *one)?;
    }
    Ok(())
}

impl FlatRows {
    // Makes of the next rows these after the pivot on row r and column c; they may then change places.
    pub(crate) fn turn(
        &self,
        units: &[i128],
        r: usize,
        c: usize,
        next: &mut FlatRows,
    ) -> Result<(), Overflow>
        requires spare { IsSpare self.now next.old units.now }
        requires pivot { IsPivot self.now.unknowns self.now.rows r c }
        ensures listed { IsChecked is_overflow (model.pivot_listed self.now.rows r c) result }
        ensures ok { OnOk result (next.new ≡ record next.old { rows = model.pivot self.now.rows r c }) }
        ensures spare { IsSpare self.now next.new units.now }
        ensures swapped { OnOk result (IsSpare next.new self.now units.now) }
    {
        let (lent, front, p, back) = self.sides(units, r, next);
        let pivot = LentPivot { lent, p, c };
        turn_rows(next, &pivot, front)?;
        next.push_unit(c);
        turn_rows(next, &pivot, back)?;
        Ok(())
    }
}
