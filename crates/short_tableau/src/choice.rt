ghost use Rattle.std.specs.Prelude.{◌≡◌, ◌+◌, ◌<◌, ◌≤◌, pos, ◌≤ℤ◌, ◌++◌, length, take, IfSome, IsTrue};
ghost use Rattle.std.specs.List.{list_any};
ghost use Rattle.pip_model.specs.Numbers.{is_positive};
ghost use Rattle.pip_model.specs.Listed.{all_fit};
ghost use Rattle.pip_model.specs.Rows as model;
ghost use Rattle.row_laws.specs.Choices.{product_at, better, choice, candidates_from, IsCandidate};
ghost use Rattle.row_laws.specs.Rows.{IsRow};
ghost use Rattle.short_row.specs.Sized.{IsShortReduced};
ghost use Rattle.short_row.specs.Rows.{row_of};

use crate::short_table::ShortTableau;
use short_row::{ShortRow, product};

// Whether the number is above 0.
fn is_above(z: i64) -> bool
    ensures value { result ≡ is_positive z }
    ensures some { IsTrue result → pos 1 ≤ℤ z }
{
    z > 0
}

// Whether a number is above 0.
fn any_above(numbers: &[i64]) -> bool
    ensures { result ≡ list_any is_positive numbers.now }
{
    numbers.iter().any(|number| is_above(*number))
}

// What is compared of two columns at a row.
#[derive(Clone, Copy)]
struct Products {
    of_k: i128,
    of_b: i128,
}

impl ShortTableau {
    // The products for columns k and b at row i, which are compared. Most rows are 0 in both.
    #[inline(always)]
    fn products_at(&self, i: usize, p: &ShortRow<'_>, k: usize, b: usize) -> Products
        requires row { i < length self.now.rows }
        requires p { IsShortReduced self.now.unknowns 0 (row_of p.now) }
        requires k { k < self.now.unknowns }
        requires b { b < self.now.unknowns }
        ensures of_k { result.of_k ≡ product_at self.now.rows i (row_of p.now) k b }
        ensures of_b { result.of_b ≡ product_at self.now.rows i (row_of p.now) b k }
    {
        let of_k = self.coef(i, k);
        let of_b = self.coef(i, b);
        if of_k == 0 && of_b == 0 {
            return Products { of_k: 0, of_b: 0 };
        }
        Products {
            of_k: product(of_k, p.coefs[b]),
            of_b: product(of_b, p.coefs[k]),
        }
    }

    // Whether column k has the smaller list of quotients a_ik / a_pk over the unknowns' rows than column b.
    fn is_better(&self, p: &ShortRow<'_>, k: usize, b: usize) -> bool
        requires rows { self.now.unknowns ≤ length self.now.rows }
        requires p { IsShortReduced self.now.unknowns 0 (row_of p.now) }
        requires k { k < self.now.unknowns }
        requires b { b < self.now.unknowns }
        ensures { result ≡ model.is_better (take self.now.unknowns self.now.rows) (row_of p.now) k b }
    {
        for i in 0..self.unknowns() {
            let Products { of_k, of_b } = self.products_at(i, p, k, b);
            if of_k != of_b {
                return of_k < of_b;
            }
        }
        false
    }

    // The better of the best so far and column k.
    fn better_of(&self, p: &ShortRow<'_>, best: Option<usize>, k: usize) -> usize
        requires rows { self.now.unknowns ≤ length self.now.rows }
        requires p { IsShortReduced self.now.unknowns 0 (row_of p.now) }
        requires k { IsCandidate self.now.unknowns (row_of p.now) k }
        requires best { IfSome best (IsCandidate self.now.unknowns (row_of p.now)) }
        ensures value { result ≡ better (take self.now.unknowns self.now.rows) (row_of p.now) best k }
        ensures candidate { IsCandidate self.now.unknowns (row_of p.now) result }
    {
        match best {
            None => k,
            Some(b) => { if self.is_better(p, k, b) { k } else { b } }
        }
    }

    // The best so far, and then column k, where the row is positive in it.
    fn next_best(&self, p: &ShortRow<'_>, best: Option<usize>, k: usize) -> Option<usize>
        requires rows { self.now.unknowns ≤ length self.now.rows }
        requires p { IsShortReduced self.now.unknowns 0 (row_of p.now) }
        requires k { k < self.now.unknowns }
        requires best { IfSome best (IsCandidate self.now.unknowns (row_of p.now)) }
        ensures value { choice (take self.now.unknowns self.now.rows) (row_of p.now) result
            (candidates_from (row_of p.now) (k + 1))
            ≡ choice (take self.now.unknowns self.now.rows) (row_of p.now) best (candidates_from (row_of p.now) k) }
        ensures candidate { IfSome result (IsCandidate self.now.unknowns (row_of p.now)) }
    {
        if !is_above(p.coefs[k]) {
            return best;
        }
        Some(self.better_of(p, best, k))
    }

    /// Whether row i is above 0 in a column.
    pub fn has_positive(&self, i: usize) -> bool
        requires { i < length self.now.rows }
        ensures { result ≡ list_any is_positive (model.row_at self.now.rows i).coefs }
    {
        any_above(self.row(i).coefs)
    }

    // The column that enters where row p is below 0.
    #[inline(always)]
    fn entering_by(&self, p: &ShortRow<'_>) -> Option<usize>
        requires rows { self.now.unknowns ≤ length self.now.rows }
        requires p { IsShortReduced self.now.unknowns 0 (row_of p.now) }
        ensures value { result ≡ model.entering_of (take self.now.unknowns self.now.rows) (row_of p.now)
            (model.candidates (row_of p.now)) }
        ensures candidate { IfSome result (IsCandidate self.now.unknowns (row_of p.now)) }
    {
        let mut best = None;
        for k in 0..self.columns() {
            best = self.next_best(p, best, k);
        }
        best
    }

    /// The column that enters at row r: of the columns in which the row is positive the one whose list of quotients
    /// `a_ik / a_rk` over the unknowns' rows is lexicographically least, the lowest on a tie; none where the row has no
    /// positive coefficient. All listed numbers fit.
    pub fn entering(&self, r: usize) -> Option<usize>
        requires row { r < length self.now.rows }
        requires rows { self.now.unknowns ≤ length self.now.rows }
        ensures listed { IsTrue (all_fit (model.entering_listed self.now.rows r)) }
        ensures value { result ≡ model.entering self.now.rows r }
        ensures candidate { IfSome result (IsCandidate self.now.unknowns (model.row_at self.now.rows r)) }
        ensures row { IsRow self.now.unknowns 0 (model.row_at self.now.rows r) }
    {
        let _ = self.columns();
        let p = self.row(r);
        self.entering_by(&p)
    }

    /// The column that enters at row i of a tableau over the same columns, where its rows stand behind these. All
    /// listed numbers fit.
    pub fn entering_behind(&self, t: &ShortTableau, i: usize) -> Option<usize>
        requires unknowns { t.now.unknowns ≡ self.now.unknowns }
        requires row { i < length t.now.rows }
        requires rows { self.now.unknowns ≤ length self.now.rows }
        ensures listed { IsTrue (all_fit
            (model.entering_listed (self.now.rows ++ t.now.rows) (length self.now.rows + i))) }
        ensures value { result ≡ model.entering (self.now.rows ++ t.now.rows) (length self.now.rows + i) }
        ensures candidate { IfSome result (IsCandidate self.now.unknowns (model.row_at t.now.rows i)) }
        ensures row { IsRow self.now.unknowns 0 (model.row_at t.now.rows i) }
    {
        let _ = self.columns();
        let _ = t.columns();
        let p = t.row(i);
        self.entering_by(&p)
    }
}
