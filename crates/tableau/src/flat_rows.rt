ghost use Rattle.std.specs.Prelude.{◌≡◌, ◌*◌, ◌^◌, ◌<◌, ◌≤◌, false, [], length, vec_capacity, IfOk, IfSome, IfNone, OnOk};
ghost use Rattle.pip_model.specs.Rows as model;
ghost use Rattle.tableau.specs.KeptRows.{AreLentOf, AreSides, IsSpare, SameRows};
ghost use Rattle.tableau.specs.Places.{flat_numbers, row_length, unit_run};
ghost use Rattle.row_laws.specs.Flat.{is_unit_row};
ghost use Rattle.row_laws.specs.Rows.{IsRow};
ghost use Rattle.tableau_row.specs.Views.{row_of};

use crate::kept::{Kept, Lent};
use affine_forms::WantOfMemory;
use std::alloc::Global;
use std::cmp::max;
use std::marker::Model;
use tableau_row::RowView;

// Rows: those of columns by the columns, the others by their numbers, one row after the other. There is room for
// `most` rows.
#[derive(Drop)]
pub(crate) struct FlatRows {
    pub(crate) unknowns: usize,
    pub(crate) width: usize,
    pub(crate) most: usize,
    pub(crate) kept: Vec<Kept>,
    pub(crate) numbers: Vec<i128>,
}

impl Model for FlatRows {
    ghost use Rattle.std.specs.Prelude.{length, vec_capacity};
    ghost use Rattle.tableau.specs.KeptRows.{KeptRows, HasRoom};
    ghost use Rattle.tableau.specs.Places.{IsFlat, rows_kept};

    ghost Value = { KeptRows };

    ghost view = { λ s. record {
      unknowns = s.unknowns;
      width = s.width;
      most = s.most;
      rows = rows_kept s.unknowns s.width s.numbers.items s.kept.items;
    } };

    ghost invariant = { λ s.
        IsFlat s.unknowns s.width s.numbers.items s.kept.items
        × HasRoom s.unknowns s.width s.most (length s.kept.items) (vec_capacity s.kept) (vec_capacity s.numbers) };
}

// The numbers of so many rows over so many columns and places.
fn count_numbers(unknowns: usize, width: usize, rows: usize) -> Result<usize, WantOfMemory>
    ensures { IfOk result (λ k. k ≡ rows * row_length unknowns width) }
{
    let parts = unknowns.checked_add(width).ok_or(WantOfMemory)?;
    let all = parts.checked_add(2).ok_or(WantOfMemory)?;
    rows.checked_mul(all).ok_or(WantOfMemory)
}

// Makes room for so many numbers in all; where there are none, in a new block, since there is nothing to move.
fn reserve_all(numbers: &mut Vec<i128>, most: usize) -> Result<(), WantOfMemory>
    requires { length numbers.old.items ≤ most }
    ensures same { numbers.new.items ≡ numbers.old.items }
    ensures room { OnOk result (most ≤ vec_capacity numbers.new) }
    ensures kept { vec_capacity numbers.old ≤ vec_capacity numbers.new }
{
    if numbers.is_empty() && numbers.capacity() < most {
        let alloc = *numbers.allocator();
        let room = max(most, numbers.capacity().saturating_mul(2));
        *numbers = Vec::with_capacity(alloc, room)?;
        return Ok(());
    }
    numbers.reserve(most - numbers.len())?;
    Ok(())
}

impl FlatRows {
    // No rows, and no room for any. It takes no memory.
    pub(crate) fn new(alloc: Global, unknowns: usize, width: usize) -> FlatRows
        ensures { result ≡ record { unknowns = unknowns; width = width; most = 0; rows = [] } }
    {
        FlatRows {
            unknowns,
            width,
            most: 0,
            kept: Vec::new(alloc),
            numbers: Vec::new(alloc),
        }
    }

    // The number of columns.
    pub(crate) fn unknowns(&self) -> usize
        ensures { result ≡ self.now.unknowns }
    {
        self.unknowns
    }

    // The number of places of a constant form.
    pub(crate) fn width(&self) -> usize
        ensures { result ≡ self.now.width }
    {
        self.width
    }

    // The number of rows.
    pub(crate) fn len(&self) -> usize
        ensures value { result ≡ length self.now.rows }
        ensures bound { result < 2 ^ 63 }
    {
        self.kept.len()
    }

    // The allocator that the rows keep.
    pub(crate) fn allocator(&self) -> Global {
        *self.kept.allocator()
    }

    // The numbers of the rows that are not those of columns.
    pub(crate) fn numbers(&self) -> &[i128]
        ensures { result.now ≡ flat_numbers self.now.rows }
    {
        self.numbers.as_slice()
    }

    // The kept rows, and what they are lent from.
    #[inline(always)]
    pub(crate) fn lent<'t>(&'t self, units: &'t [i128]) -> (Lent<'t>, &'t [Kept])
        requires { units.now ≡ unit_run self.now.unknowns self.now.width }
        ensures { AreLentOf self.now result.0 result.1.now }
    {
        let lent = Lent {
            unknowns: self.unknowns,
            width: self.width,
            numbers: self.numbers.as_slice(),
            units,
        };
        (lent, self.kept.as_slice())
    }

    // What the rows are lent from, the kept rows in front of row r, the row, and the kept rows behind it. The next rows
    // are dropped, and can be made of these.
    #[inline(always)]
    pub(crate) fn sides<'t>(
        &'t self,
        units: &'t [i128],
        r: usize,
        next: &mut FlatRows,
    ) -> (Lent<'t>, &'t [Kept], RowView<'t>, &'t [Kept])
        requires spare { IsSpare self.now next.old units.now }
        requires row { r < length self.now.rows }
        ensures { AreSides self.now next.old units.now r next.new
            result.0 result.1.now (row_of result.2) result.3.now }
    {
        let (lent, kept) = self.lent(units);
        let (front, _) = kept.split_at(r);
        let (_, back) = kept.split_at(r + 1);
        next.clear();
        (lent, front, lent.row(kept[r]), back)
    }

    // Row i, lent from the run of the columns' rows.
    #[inline(always)]
    pub(crate) fn row<'t>(&'t self, units: &'t [i128], i: usize) -> RowView<'t>
        requires place { i < length self.now.rows }
        requires units { units.now ≡ unit_run self.now.unknowns self.now.width }
        ensures value { row_of result ≡ model.row_at self.now.rows i }
        ensures row { IsRow self.now.unknowns self.now.width (row_of result) }
    {
        let (lent, kept) = self.lent(units);
        lent.row(kept[i])
    }

    // The column whose row row i is, none of any other row.
    #[inline(always)]
    pub(crate) fn column(&self, i: usize) -> Option<usize>
        requires place { i < length self.now.rows }
        ensures some { IfSome result (λ c. (c < self.now.unknowns)
            × (model.row_at self.now.rows i ≡ model.unit_row self.now.unknowns self.now.width c)) }
        ensures none { IfNone result (is_unit_row (model.row_at self.now.rows i) ≡ false) }
    {
        match self.kept[i] {
            Kept::Unit(c) => Some(c),
            Kept::At(_) => None,
        }
    }

    // Makes room for so many rows; where there is not enough, for half as many more than now at least.
    pub(crate) fn reserve(&mut self, most: usize) -> Result<(), WantOfMemory>
        ensures same { SameRows self.new self.old }
        ensures ok { OnOk result (most ≤ self.new.most) }
        ensures room { self.old.most ≤ self.new.most }
    {
        if most <= self.most {
            return Ok(());
        }
        let most = max(most, self.most.saturating_add(self.most / 2));
        let numbers = count_numbers(self.unknowns, self.width, most)?;
        self.kept.reserve(most - self.kept.len())?;
        reserve_all(&mut self.numbers, numbers)?;
        self.most = most;
        Ok(())
    }

    // No rows over so many columns and places from now on, and no room is told of any. That of the vectors stays.
    pub(crate) fn reshape(&mut self, unknowns: usize, width: usize)
        ensures { self.new ≡ record { unknowns = unknowns; width = width; most = 0; rows = [] } }
    {
        self.kept.clear();
        self.numbers.clear();
        self.unknowns = unknowns;
        self.width = width;
        self.most = 0;
    }

    // No rows, and room for so many.
    pub(crate) fn with_room(
        alloc: Global,
        unknowns: usize,
        width: usize,
        most: usize,
    ) -> Result<FlatRows, WantOfMemory>
        ensures empty { IfOk result (λ t.
            SameRows t (record { unknowns = unknowns; width = width; most = 0; rows = [] })) }
        ensures room { IfOk result (λ t. most ≤ t.most) }
    {
        let mut made = FlatRows::new(alloc, unknowns, width);
        made.reserve(most)?;
        Ok(made)
    }

    // Drops all rows; the room stays.
    pub(crate) fn clear(&mut self)
        ensures { self.new ≡ record self.old { rows = [] } }
    {
        self.kept.clear();
        self.numbers.clear();
    }
}
