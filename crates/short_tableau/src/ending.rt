ghost use Rattle.std.specs.Prelude.{◌≡◌, ◌<◌, ◌≤◌, true, false, not, None, pos, ◌≤ℤ◌, length, flat_map, IsTrue, IsFalse, IfSome};
ghost use Rattle.pip_model.specs.Listed.{all_fit};
ghost use Rattle.std.specs.List.{list_any};
ghost use Rattle.pip_model.specs.Forms.{constant, entry};
ghost use Rattle.pip_model.specs.Numbers.{is_nonneg, is_positive, divides};
ghost use Rattle.pip_model.specs.Rows as model;
ghost use Rattle.pip_model.specs.Rows.{row_at, substituted, eliminated, first_fraction};
ghost use Rattle.row_laws.specs.Choices.{IsCandidate};
ghost use Rattle.short_tableau.specs.Below.{negative_from};
ghost use Rattle.short_row.specs.Sized.{IsShortReduced, IsPivot};
ghost use Rattle.short_tableau.specs.Ended.{IsEndedBy, turned_by};
ghost use Rattle.short_row.specs.Rows.{row_of};

use crate::short_table::ShortTableau;
use short_row::{ShortRow, floor_mod, narrow, product, wide_entry};

// Whether the number is above 0.
fn is_above(z: i128) -> bool
    ensures value { result ≡ is_positive z }
{
    z > 0
}

// Whether d divides z, where both are short; false where one is not.
fn divides_shortly(d: i128, z: i128) -> bool
    requires positive { pos 1 ≤ℤ d }
    ensures { IsTrue result → divides d z ≡ true }
{
    let Some(divisor) = narrow(d) else {
        return false;
    };
    if divisor == 1 {
        return true;
    }
    let Some(number) = narrow(z) else {
        return false;
    };
    floor_mod(number, divisor) == 0
}

impl ShortTableau {
    // The constant of row i with row p put in, before it is divided.
    fn constant_after(&self, i: usize, p: &ShortRow<'_>, c: usize) -> i128
        requires row { i < length self.now.rows }
        requires pivot { IsPivot self.now.unknowns 0 (row_of p.now) c }
        ensures { result ≡ constant (substituted (row_of p.now) c (row_at self.now.rows i)).constant }
    {
        let row = self.row(i);
        wide_entry(p.coefs[c], row.constant[0], row.coefs[c], p.constant[0])
    }

    // Its coefficient in column k.
    fn coef_after(&self, i: usize, p: &ShortRow<'_>, c: usize, k: usize) -> i128
        requires row { i < length self.now.rows }
        requires pivot { IsPivot self.now.unknowns 0 (row_of p.now) c }
        requires column { k < self.now.unknowns }
        ensures { result ≡ entry (substituted (row_of p.now) c (row_at self.now.rows i)).coefs k }
    {
        let row = self.row(i);
        if k == c {
            return product(row.coefs[c], p.den);
        }
        wide_entry(p.coefs[c], row.coefs[k], row.coefs[c], p.coefs[k])
    }

    // Its denominator.
    fn den_after(&self, i: usize, p: &ShortRow<'_>, c: usize) -> i128
        requires row { i < length self.now.rows }
        requires pivot { IsPivot self.now.unknowns 0 (row_of p.now) c }
        ensures value { result ≡ (substituted (row_of p.now) c (row_at self.now.rows i)).den }
        ensures positive { pos 1 ≤ℤ result }
        ensures row { IsShortReduced self.now.unknowns 0 (row_at self.now.rows i) }
    {
        product(self.row(i).den, p.coefs[c])
    }

    // Whether row i is below 0 after the pivot on row p and column c. A row that is 0 in the column stays.
    fn is_below_after(&self, i: usize, p: &ShortRow<'_>, c: usize) -> bool
        requires row { i < length self.now.rows }
        requires pivot { IsPivot self.now.unknowns 0 (row_of p.now) c }
        ensures { result ≡ not (is_nonneg (constant (eliminated (row_of p.now) c (row_at self.now.rows i)).constant)) }
    {
        let _ = self.columns();
        if self.coef(i, c) == 0 {
            return self.is_below(i);
        }
        self.constant_after(i, p, c) < 0
    }

    // The first row that is below 0 after the pivot on row p and column c.
    fn first_below_after(&self, p: &ShortRow<'_>, c: usize) -> Option<usize>
        requires pivot { IsPivot self.now.unknowns 0 (row_of p.now) c }
        ensures value { result ≡ negative_from 0 (turned_by (row_of p.now) c self.now.rows) }
        ensures bound { IfSome result (λ r. r < length self.now.rows) }
    {
        for i in 0..self.rows() {
            if self.is_below_after(i, p, c) {
                return Some(i);
            }
        }
        None
    }

    // Whether row i may be positive in a column after the pivot on row p and column c.
    fn has_positive_after(&self, i: usize, p: &ShortRow<'_>, c: usize) -> bool
        requires row { i < length self.now.rows }
        requires pivot { IsPivot self.now.unknowns 0 (row_of p.now) c }
        ensures { IsFalse result → list_any is_positive (eliminated (row_of p.now) c (row_at self.now.rows i)).coefs ≡ false }
    {
        for k in 0..self.columns() {
            if is_above(self.coef_after(i, p, c, k)) {
                return true;
            }
        }
        false
    }

    // Whether row i is whole after the pivot on row p and column c, as far as short numbers tell.
    fn is_whole_after(&self, i: usize, p: &ShortRow<'_>, c: usize) -> bool
        requires row { i < length self.now.rows }
        requires pivot { IsPivot self.now.unknowns 0 (row_of p.now) c }
        ensures { IsTrue result → model.is_whole (eliminated (row_of p.now) c (row_at self.now.rows i)).den
            (eliminated (row_of p.now) c (row_at self.now.rows i)).constant ≡ true }
    {
        let _ = self.columns();
        if self.coef(i, c) == 0 {
            return self.is_whole_at(i);
        }
        divides_shortly(self.den_after(i, p, c), self.constant_after(i, p, c))
    }

    // Whether all unknowns' rows are whole after the pivot on row p and column c, as far as short numbers tell.
    fn are_whole_after(&self, p: &ShortRow<'_>, c: usize) -> bool
        requires rows { self.now.unknowns ≤ length self.now.rows }
        requires pivot { IsPivot self.now.unknowns 0 (row_of p.now) c }
        ensures { IsTrue result → first_fraction self.now.unknowns (turned_by (row_of p.now) c self.now.rows) ≡ None }
    {
        for i in 0..self.unknowns() {
            if !self.is_whole_after(i, p, c) {
                return false;
            }
        }
        true
    }

    // Whether a point is found where a run ends after the pivot on row p and column c; none where it is not known to end.
    fn end_after(&self, p: &ShortRow<'_>, c: usize) -> Option<bool>
        requires rows { self.now.unknowns ≤ length self.now.rows }
        requires pivot { IsPivot self.now.unknowns 0 (row_of p.now) c }
        ensures { IfSome result (IsEndedBy self.now.unknowns (turned_by (row_of p.now) c self.now.rows)) }
    {
        match self.first_below_after(p, c) {
            Some(r) => {
                if self.has_positive_after(r, p, c) {
                    None
                } else {
                    Some(false)
                }
            }
            None => {
                if self.are_whole_after(p, c) {
                    Some(true)
                } else {
                    None
                }
            }
        }
    }

    /// Whether a point is found where a run over these rows, and row i of a tableau over the same columns behind them,
    /// ends after the pivot on that row and column c; none where it is not known to end there. All numbers that the
    /// pivot lists fit.
    pub fn ends_after(&self, t: &ShortTableau, i: usize, c: usize) -> Option<bool>
        requires unknowns { t.now.unknowns ≡ self.now.unknowns }
        requires rows { self.now.unknowns ≤ length self.now.rows }
        requires row { i < length t.now.rows }
        requires candidate { IsCandidate self.now.unknowns (row_at t.now.rows i) c }
        ensures listed { IsTrue (all_fit (flat_map (model.eliminated_listed (row_at t.now.rows i) c) self.now.rows)) }
        ensures ends { IfSome result (IsEndedBy self.now.unknowns (turned_by (row_at t.now.rows i) c self.now.rows)) }
    {
        let _ = self.columns();
        let p = t.row(i);
        self.end_after(&p, c)
    }
}
