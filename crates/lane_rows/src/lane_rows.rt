ghost use Rattle.std.specs.Prelude.{◌≡◌, ℕ, ◌+◌, ◌*◌, ◌^◌, ◌<◌, ◌≤◌, pos, ◌≤ℤ◌, unsigned_abs, [], length, map, take, All, false, true, IsTrue, IsFalse, OnOk, OnErr, IfSome, IfNone};
ghost use Rattle.std.specs.List.{list_all};
ghost use Rattle.pip_model.specs.Cuts.{constant_cut};
ghost use Rattle.pip_model.specs.Forms.{entry};
ghost use Rattle.pip_model.specs.Numbers.{is_nonneg};
ghost use Rattle.pip_model.specs.Rows as model;
ghost use Rattle.pip_model.specs.Rows.{divided, row_at};
ghost use Rattle.row_laws.specs.Choices.{IsCandidate};
ghost use Rattle.form_laws.specs.Bounds.{norm};
ghost use Rattle.form_laws.specs.ByForm.{combination, place};
ghost use Rattle.scaled_laws.specs.Scaled.{AreScaled, row_over};
ghost use Rattle.scaled_laws.specs.Tables.{column_rows, no_rows, with_row};
ghost use Rattle.lanes.specs.Narrow.{AreLanes};
ghost use Rattle.lane_rows.specs.Laned.{AreUnused, IsLaned, numbers_of};

use crate::choice::entering_in;
use crate::reading::{combined, first_left};
use crate::starting::{copy_in, start_in, unit, vertex};
use crate::turning::{can_turn, turn_rows};
use affine_forms::WantOfMemory;
use lanes::Lanes;
use std::alloc::Global;
use std::marker::Model;

/// Rows over the same columns, at most seven, the first of them those of the columns. All numbers of the rows have 32 bits
/// and stand over one denominator. Contracts see the rows as the definition's, each divided by what divides its numbers.
// Lane 0 of a row is its constant, lane k + 1 its coefficient at column k. The vertex has the denominator, and behind it
// the constants of the columns' rows.
#[derive(Drop)]
pub struct LaneRows {
    unknowns: usize,
    rows: Vec<Lanes>,
    at: Lanes,
    scale: i32,
    most: u32,
}

impl Model for LaneRows {
    ghost use Rattle.scaled_laws.specs.Tables.{ScaledTable};
    ghost use Rattle.lane_rows.specs.Laned.{AreLaned, table_of};

    ghost Value = { ScaledTable };

    ghost view = { λ t. table_of t.unknowns t.rows.items t.scale t.most };

    ghost invariant = { λ t. AreLaned t.unknowns t.rows.items t.at t.scale t.most };
}

impl LaneRows {
    /// No rows, over no columns. It takes no memory.
    pub fn new(alloc: Global) -> LaneRows
        ensures { result ≡ no_rows 0 0 }
    {
        LaneRows {
            unknowns: 0,
            rows: Vec::new(alloc),
            at: unit(0, 1),
            scale: 1,
            most: 1,
        }
    }

    /// Becomes no rows, over no columns.
    pub fn clear(&mut self)
        ensures { self.new ≡ no_rows 0 0 }
    {
        self.unknowns = 0;
        self.rows.clear();
        self.at = unit(0, 1);
        self.scale = 1;
        self.most = 1;
    }

    /// Becomes the rows of so many columns, in the room that there is. A refusal leaves no rows over no columns.
    pub fn start(&mut self, places: usize) -> Result<(), WantOfMemory>
        requires { places ≤ 7 }
        ensures ok { OnOk result (self.new ≡ column_rows places 0) }
        ensures err { OnErr result (self.new ≡ no_rows 0 0) }
    {
        self.unknowns = 0;
        self.rows.clear();
        self.at = unit(0, 1);
        self.scale = 1;
        self.most = 1;
        start_in(&mut self.rows, places)?;
        self.unknowns = places;
        Ok(())
    }

    /// Becomes the same as another, in the room that there is. A refusal leaves no rows over no columns.
    #[inline(always)]
    pub fn copy_from(&mut self, t: &LaneRows) -> Result<(), WantOfMemory>
        ensures ok { OnOk result (self.new ≡ t.now) }
        ensures err { OnErr result (self.new ≡ no_rows 0 0) }
    {
        self.unknowns = 0;
        self.rows.clear();
        self.at = unit(0, 1);
        self.scale = 1;
        self.most = 1;
        copy_in(&mut self.rows, &t.rows)?;
        self.unknowns = t.unknowns;
        self.at = t.at;
        self.scale = t.scale;
        self.most = t.most;
        Ok(())
    }

    /// The number of columns.
    #[inline(always)]
    pub fn unknowns(&self) -> usize
        ensures value { result ≡ self.now.unknowns }
        ensures few { result ≤ 7 }
        ensures rows { self.now.unknowns ≤ length self.now.rows }
        ensures width { self.now.width ≡ 0 }
    {
        self.unknowns
    }

    /// The number of rows.
    #[inline(always)]
    pub fn rows(&self) -> usize
        ensures { result ≡ length self.now.rows }
    {
        self.rows.len()
    }

    /// The denominator of all numbers; what is known of the rows over it.
    #[inline(always)]
    pub fn scale(&self) -> i32
        ensures value { result ≡ self.now.scale }
        ensures rows { AreScaled self.now.unknowns 0 self.now.scale self.now.most self.now.rows }
    {
        self.scale
    }

    /// A number that no number of the rows passes in size, nor their denominator.
    #[inline(always)]
    pub fn most(&self) -> u32
        ensures value { result ≡ self.now.most }
        ensures narrow { self.now.most < 2 ^ 31 }
    {
        self.most
    }

    /// The numbers of row i.
    #[inline(always)]
    pub fn row(&self, i: usize) -> Lanes
        requires { i < length self.now.rows }
        ensures value { divided (row_over self.now.unknowns self.now.scale (numbers_of self.now.unknowns result))
            ≡ row_at self.now.rows i }
        ensures laned { IsLaned self.now.unknowns self.now.most result }
    {
        self.rows[i]
    }

    /// The numbers of the row that a form makes of the columns' rows, over their denominator.
    #[inline(always)]
    pub fn read(&self, form: Lanes) -> Lanes
        requires lanes { AreLanes form }
        requires bound { norm form * self.now.most < 2 ^ 31 }
        ensures value { row_over self.now.unknowns self.now.scale (numbers_of self.now.unknowns result)
            ≡ combination self.now.unknowns 0 self.now.scale (take self.now.unknowns self.now.rows)
            (numbers_of self.now.unknowns form) }
        ensures lanes { AreLanes result }
        ensures unused { AreUnused self.now.unknowns result }
        ensures within { (k : ℕ) → unsigned_abs (entry result k) ≤ norm form * self.now.most }
    {
        combined(&self.rows, self.unknowns, self.scale, form)
    }

    /// The constant of the row that a form makes.
    #[inline(always)]
    pub fn value(&self, form: Lanes) -> i32
        requires lanes { AreLanes form }
        requires bound { norm form * self.now.most < 2 ^ 31 }
        ensures { result ≡ place 0 (combination self.now.unknowns 0 self.now.scale
            (take self.now.unknowns self.now.rows) (numbers_of self.now.unknowns form)) }
    {
        form.dot(self.at)
    }

    /// The first of the columns' rows whose constant is below 0.
    #[inline(always)]
    pub fn first_below(&self) -> Option<usize>
        ensures some { IfSome result (λ i. i < self.now.unknowns) }
        ensures below { IfSome result (λ i. list_all is_nonneg (row_at self.now.rows i).constant ≡ false) }
        ensures before { IfSome result (λ i. (j : ℕ) → j < i → list_all is_nonneg (row_at self.now.rows j).constant ≡ true) }
        ensures none { IfNone result ((j : ℕ) → j < self.now.unknowns → list_all is_nonneg (row_at self.now.rows j).constant ≡ true) }
    {
        let Some(lane) = self.at.first_below() else {
            return None;
        };
        Some(lane - 1)
    }

    /// The first of the columns' rows whose denominator does not divide its constant.
    #[inline(always)]
    pub fn first_fraction(&self) -> Option<usize>
        ensures { result ≡ model.first_fraction self.now.unknowns self.now.rows }
    {
        first_left(self.at, self.unknowns, self.scale)
    }

    /// The column that enters where the row of these numbers over the denominator is below 0: of the columns in which it
    /// is positive the one whose list of quotients `a_ik / a_rk` over the columns' rows is lexicographically least, the
    /// lowest on a tie; none where there is no such column.
    #[inline(always)]
    pub fn entering(&self, p: Lanes) -> Option<usize>
        requires { AreLanes p }
        ensures value { result ≡ model.entering_of (take self.now.unknowns self.now.rows)
            (divided (row_over self.now.unknowns self.now.scale (numbers_of self.now.unknowns p)))
            (model.candidates (divided (row_over self.now.unknowns self.now.scale (numbers_of self.now.unknowns p)))) }
        ensures candidate { IfSome result (IsCandidate self.now.unknowns
            (divided (row_over self.now.unknowns self.now.scale (numbers_of self.now.unknowns p)))) }
        ensures positive { IfSome result (λ c. pos 1 ≤ℤ entry p (c + 1)) }
    {
        entering_in(&self.rows, self.unknowns, &p)
    }

    /// Puts the row of these numbers over the denominator, solved for the quantity of column c, into each row; the new
    /// denominator is the number of column c. False where a number gets too great, or a division by the old denominator
    /// leaves something: then there are no rows.
    #[inline(always)]
    pub fn pivot(&mut self, p: Lanes, c: usize) -> bool
        requires lanes { AreLanes p }
        requires unused { AreUnused self.old.unknowns p }
        requires column { c < self.old.unknowns }
        requires positive { pos 1 ≤ℤ entry p (c + 1) }
        ensures rows { IsTrue result → self.new.rows ≡ map (model.eliminated
            (divided (row_over self.old.unknowns self.old.scale (numbers_of self.old.unknowns p))) c) self.old.rows }
        ensures scale { IsTrue result → self.new.scale ≡ entry p (c + 1) }
        ensures unknowns { IsTrue result → self.new.unknowns ≡ self.old.unknowns }
        ensures width { self.new.width ≡ 0 }
        ensures dropped { IsFalse result → self.new ≡ no_rows 0 0 }
    {
        if !can_turn(self.most, p.size()) {
            self.clear();
            return false;
        }
        let a = p.get(c + 1);
        match turn_rows(&mut self.rows, p, c + 1, self.scale, a.unsigned_abs()) {
            None => {
                self.unknowns = 0;
                self.rows.clear();
                self.at = unit(0, 1);
                self.scale = 1;
                self.most = 1;
                false
            }
            Some(most) => {
                self.at = vertex(&self.rows, self.unknowns, a);
                self.scale = a;
                self.most = most;
                true
            }
        }
    }

    /// Adds the cut by row i: where the row's quantity is whole, the sum of the fractional parts of its
    /// coefficients times the columns' quantities is at least that of the opposite of its constant. A refusal leaves all
    /// as it was.
    pub fn push_cut(&mut self, i: usize) -> Result<(), WantOfMemory>
        requires { i < length self.old.rows }
        ensures ok { OnOk result (self.new ≡ with_row self.old (constant_cut (row_at self.old.rows i))) }
        ensures err { OnErr result (self.new ≡ self.old) }
    {
        let cut = self.rows[i].left(self.scale);
        self.rows.push(cut)?;
        Ok(())
    }
}
