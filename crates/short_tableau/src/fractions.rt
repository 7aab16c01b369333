ghost use Rattle.std.specs.Prelude.{◌≡◌, ◌<◌, ◌≤◌, length, IfSome};
ghost use Rattle.pip_model.specs.Rows as model;
ghost use Rattle.row_laws.specs.Rows.{IsRow};
ghost use Rattle.short_numbers.specs.Short.{IsShortDivisor};

use crate::short_table::ShortTableau;
use short_row::floor_mod;

// Whether d divides each number.
fn is_whole(d: i64, numbers: &[i64]) -> bool
    requires { IsShortDivisor d }
    ensures { result ≡ model.is_whole d numbers.now }
{
    numbers.iter().all(|number| floor_mod(*number, d) == 0)
}

impl ShortTableau {
    // Whether row i's denominator divides its constant form.
    pub(crate) fn is_whole_at(&self, i: usize) -> bool
        requires { i < length self.now.rows }
        ensures value { result
            ≡ model.is_whole (model.row_at self.now.rows i).den (model.row_at self.now.rows i).constant }
        ensures row { IsRow self.now.unknowns 0 (model.row_at self.now.rows i) }
    {
        let row = self.row(i);
        is_whole(row.den, row.constant)
    }

    /// The first of the unknowns' rows whose constant the row's denominator does not divide.
    pub fn first_fraction(&self) -> Option<usize>
        requires { self.now.unknowns ≤ length self.now.rows }
        ensures value { result ≡ model.first_fraction self.now.unknowns self.now.rows }
        ensures bound { IfSome result (λ i. i < self.now.unknowns) }
        ensures row { IfSome result (λ i. IsRow self.now.unknowns 0 (model.row_at self.now.rows i)) }
    {
        for i in 0..self.unknowns() {
            if !self.is_whole_at(i) {
                return Some(i);
            }
        }
        None
    }
}
