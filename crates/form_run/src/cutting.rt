ghost use Rattle.std.specs.Prelude.{◌≡◌, ◌+◌, ◌<◌, None, length, IsTrue, IfErr, OnOk, OnErr};
ghost use Rattle.pip_model.specs.Cuts.{constant_cut};
ghost use Rattle.pip_model.specs.Rows.{row_at};
ghost use Rattle.row_laws.specs.Tableaus.{with_row};
ghost use Rattle.short_run.specs.Stops.{stop_fault};

use crate::flat_lists::FlatLists;
use crate::form_rows::FormRows;
use crate::room::RowRoom;
use affine_forms::WantOfMemory;
use form_basis::{checked_norm, push, wide_product};
use short_run::{ShortTableau, Stop};

// Number u of a sum: that of each list times its coefficient, and a number more; none where it is too great.
fn sum_at(columns: &FlatLists, coefs: &[i64], u: usize, more: i64) -> Option<i128>
    requires lists { length coefs.now ≡ length columns.now.lists }
    requires place { u < columns.now.size }
{
    let mut sum = more as i128;
    for k in 0..coefs.len() {
        sum = sum.checked_add(wide_product(coefs[k], columns.at(k)[u]))?;
    }
    Some(sum)
}

// The quotient, where it is short.
fn quotient(z: i128, d: i64) -> Option<i64> {
    let quotient = z.checked_div(d as i128)?;
    if -9223372036854775807 <= quotient && quotient <= 9223372036854775807 {
        Some(quotient as i64)
    } else {
        None
    }
}

// Number u of the form of the row of these numbers, where it is short.
fn form_number(columns: &FlatLists, row: &[i64], u: usize) -> Option<i64>
    requires size { columns.now.size + 1 ≡ length row.now }
    requires lists { length columns.now.lists + 1 ≡ columns.now.size }
    requires place { u < columns.now.size }
{
    let (den, rest) = row.split_at(1);
    let (coefs, constant) = rest.split_at(rest.len() - 1);
    let more = if u < coefs.len() { 0 } else { constant[0] };
    let sum = sum_at(columns, coefs, u, more)?;
    quotient(sum, den[0])
}

// Makes of the numbers those of the form of a row: that of the row's quantity by the columns'; whether all are short and
// there is memory for them.
fn make_form(numbers: &mut Vec<i64>, columns: &FlatLists, row: &[i64]) -> bool
    requires size { columns.now.size + 1 ≡ length row.now }
    requires lists { length columns.now.lists + 1 ≡ columns.now.size }
    ensures { IsTrue result → length numbers.new.items ≡ columns.now.size }
{
    numbers.clear();
    for u in 0..columns.size() {
        let Some(number) = form_number(columns, row, u) else {
            return false;
        };
        if !push(numbers, number) {
            return false;
        }
    }
    true
}

// Makes the row of the cut by row i.
fn read_cut(row: &mut ShortTableau, places: &ShortTableau, i: usize) -> Result<(), WantOfMemory>
    requires { i < length places.now.rows }
    ensures unknowns { OnOk result (row.new.unknowns ≡ places.now.unknowns) }
    ensures rows { OnOk result (length row.new.rows ≡ 2) }
    ensures cut { OnOk result (row_at row.new.rows 1 ≡ constant_cut (row_at places.now.rows i)) }
{
    row.restart(places.unknowns());
    row.push_copy(places, i)?;
    row.push_cut(0)
}

impl FormRows {
    // Adds the cut by row i, where its form is found and its numbers are short. A refusal leaves the rows as they were.
    pub(crate) fn push_cut(&mut self, i: usize, room: &mut RowRoom) -> Result<(), Stop>
        requires { i < self.old.unknowns }
        ensures ok { OnOk result (self.new ≡ with_row self.old (constant_cut (row_at self.old.rows i))) }
        ensures err { OnErr result (self.new ≡ self.old) }
        ensures free { IfErr result (λ e. stop_fault e ≡ None) }
    {
        let _ = self.places.rows();
        read_cut(&mut room.row, &self.places, i)?;
        let row = room.row.row_numbers(1);
        if !make_form(&mut room.numbers, &self.columns, row) {
            return Err(Stop::Long);
        }
        let Some(norm) = checked_norm(self.norm, &self.places, &self.basis, &room.numbers, row)
        else {
            return Err(Stop::Long);
        };
        self.forms.push(&room.numbers)?;
        self.norm = norm;
        Ok(())
    }
}
