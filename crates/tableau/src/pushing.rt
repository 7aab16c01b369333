ghost use Rattle.std.specs.Prelude.{◌≡◌, ◌+◌, ◌-◌, ◌<◌, ◌≤◌, pos, [], ◌∷◌, ◌++◌, length, All, IsTrue, IfSome, OnErr, OnOk, vec_len, vec_capacity};
ghost use Rattle.pip_model.specs.Listed.{all_fit};
ghost use Rattle.pip_model.specs.Rows as model;
ghost use Rattle.pip_model.specs.Cuts.{rounded, rounded_listed};
ghost use Rattle.pip_model.specs.Agreement.{IsChecked};
ghost use Rattle.affine_forms.specs.Checks.{is_overflow};
ghost use Rattle.affine_forms.specs.Forms.{IsForm};
ghost use Rattle.row_laws.specs.Flat.{numbers_of, row_of_numbers};
ghost use Rattle.tableau.specs.Places.{IsPlainRow, IsSolvable};
ghost use Rattle.tableau.specs.KeptRows.{with_more};
ghost use Rattle.row_laws.specs.Short.{IsShort, IsShortRow};
ghost use Rattle.row_laws.specs.Rows.{IsRow, IsReduced};
ghost use Rattle.tableau_row.specs.Views.{row_of};

use crate::appending::append_kept;
use crate::flat_rows::FlatRows;
use crate::kept::{Kept, RowPlace};
use crate::sealing::seal;
use affine_forms::{Form, Overflow};
use tableau_row::{
    RowView, append_divided, append_eliminated, append_entries, append_rounded, append_solved,
    append_widened, is_short_row,
};

// Appends the number, for which there is room.
#[inline(always)]
fn append_number(numbers: &mut Vec<i128>, number: i128)
    requires room { vec_len numbers.old < vec_capacity numbers.old }
    ensures items { numbers.new.items ≡ numbers.old.items ++ number ∷ [] }
    ensures length { vec_len numbers.new ≡ vec_len numbers.old + 1 }
    ensures room { vec_capacity numbers.old ≤ vec_capacity numbers.new }
{
    numbers.push_reserved(number);
}

// Appends the numbers of a form's row, 1 and the entries; whether they are short.
#[inline(always)]
fn append_form(numbers: &mut Vec<i128>, form: &Form) -> bool
    requires room { vec_len numbers.old + (length form.now + 1) ≤ vec_capacity numbers.old }
    ensures items { numbers.new.items ≡ numbers.old.items ++ pos 1 ∷ form.now }
    ensures form { IsForm form.now }
    ensures short { IsTrue result → All IsShort form.now }
    ensures room { vec_capacity numbers.old ≤ vec_capacity numbers.new }
{
    append_number(numbers, 1);
    append_entries(numbers, form.as_slice());
    is_short_row(1, form.as_slice(), &[])
}

impl FlatRows {
    // Adds the row of column c.
    pub(crate) fn push_unit(&mut self, c: usize)
        requires room { length self.old.rows < self.old.most }
        requires column { c < self.old.unknowns }
        ensures { self.new ≡ with_more self.old (model.unit_row self.old.unknowns self.old.width c) }
    {
        append_kept(&mut self.kept, Kept::Unit(c));
    }

    // Adds the row of these numbers, which is not that of a column.
    #[inline(always)]
    pub(crate) fn push_plain(&mut self, numbers: &[i128], short: bool)
        requires room { length self.old.rows < self.old.most }
        requires row { IsPlainRow self.old.unknowns self.old.width numbers.now short }
        ensures { self.new ≡ with_more self.old (row_of_numbers self.old.unknowns numbers.now) }
    {
        let first = self.numbers.len();
        append_entries(&mut self.numbers, numbers);
        append_kept(&mut self.kept, Kept::At(RowPlace { first, short }));
    }

    // Adds the row of a form over the columns and then the places.
    pub(crate) fn push_form(&mut self, form: &Form)
        requires room { length self.old.rows < self.old.most }
        requires length { length form.now ≡ self.old.unknowns + self.old.width + 1 }
        ensures { self.new ≡ with_more self.old (model.form_row self.old.unknowns form.now) }
    {
        let first = self.numbers.len();
        let short = append_form(&mut self.numbers, form);
        let last = RowPlace { first, short };
        seal(
            &mut self.kept,
            &mut self.numbers,
            last,
            self.unknowns,
            self.width,
        );
    }

    // Adds a row, divided by the greatest common divisor of all its numbers.
    pub(crate) fn push_divided(&mut self, row: &RowView<'_>)
        requires room { length self.old.rows < self.old.most }
        requires row { IsRow self.old.unknowns self.old.width (row_of row.now) }
        ensures { self.new ≡ with_more self.old (model.divided (row_of row.now)) }
    {
        let first = self.numbers.len();
        let short = append_divided(&mut self.numbers, row);
        let last = RowPlace { first, short };
        seal(
            &mut self.kept,
            &mut self.numbers,
            last,
            self.unknowns,
            self.width,
        );
    }

    // Adds what the row is after the pivot on row p and column c; the run has its numbers.
    pub(crate) fn push_eliminated(
        &mut self,
        p: &RowView<'_>,
        c: usize,
        row: &RowView<'_>,
        run: Option<&[i128]>,
    )
        requires room { length self.old.rows < self.old.most }
        requires p { IsSolvable self.old.unknowns self.old.width (row_of p.now) c }
        requires row { IsRow self.old.unknowns self.old.width (row_of row.now) }
        requires reduced { IsReduced (row_of row.now) }
        requires run { IfSome run (λ s. s.now ≡ numbers_of (row_of row.now)) }
        requires listed { IsTrue (all_fit (model.eliminated_listed (row_of p.now) c (row_of row.now))) }
        ensures { self.new ≡ with_more self.old (model.eliminated (row_of p.now) c (row_of row.now)) }
    {
        let first = self.numbers.len();
        let short = append_eliminated(&mut self.numbers, p, c, row, run);
        let last = RowPlace { first, short };
        seal(
            &mut self.kept,
            &mut self.numbers,
            last,
            self.unknowns,
            self.width,
        );
    }

    // Adds what the row of column c itself is after the pivot on row p and that column.
    pub(crate) fn push_solved(&mut self, p: &RowView<'_>, c: usize)
        requires room { length self.old.rows < self.old.most }
        requires p { IsSolvable self.old.unknowns self.old.width (row_of p.now) c }
        requires short { IsShortRow (row_of p.now) }
        ensures listed { IsTrue (all_fit (model.eliminated_listed (row_of p.now) c
            (model.unit_row self.old.unknowns self.old.width c))) }
        ensures row { self.new ≡ with_more self.old (model.eliminated (row_of p.now) c
            (model.unit_row self.old.unknowns self.old.width c)) }
    {
        let first = self.numbers.len();
        append_solved(&mut self.numbers, p, c);
        let last = RowPlace { first, short: true };
        seal(
            &mut self.kept,
            &mut self.numbers,
            last,
            self.unknowns,
            self.width,
        );
    }

    // Adds the row rounded by the quotient at place q; a refusal leaves all as it was.
    pub(crate) fn push_rounded(&mut self, row: &RowView<'_>, q: usize) -> Result<(), Overflow>
        requires room { length self.old.rows < self.old.most }
        requires row { IsRow self.old.unknowns self.old.width (row_of row.now) }
        requires place { q < self.old.width }
        ensures listed { IsChecked is_overflow (rounded_listed (row_of row.now) q) result }
        ensures ok { OnOk result (self.new ≡ with_more self.old (rounded (row_of row.now) q)) }
        ensures err { OnErr result (self.new ≡ self.old) }
    {
        let first = self.numbers.len();
        let short = append_rounded(&mut self.numbers, row, q)?;
        let last = RowPlace { first, short };
        seal(
            &mut self.kept,
            &mut self.numbers,
            last,
            self.unknowns,
            self.width,
        );
        Ok(())
    }

    // Adds the row, of one place less, with a 0 before the constant of its constant form.
    pub(crate) fn push_widened(&mut self, row: &RowView<'_>)
        requires room { length self.old.rows < self.old.most }
        requires width { 0 < self.old.width }
        requires row { IsRow self.old.unknowns (self.old.width - 1) (row_of row.now) }
        requires reduced { IsReduced (row_of row.now) }
        ensures { self.new ≡ with_more self.old (model.widened (row_of row.now)) }
    {
        let first = self.numbers.len();
        append_widened(&mut self.numbers, row);
        let last = RowPlace {
            first,
            short: row.is_known_short(),
        };
        seal(
            &mut self.kept,
            &mut self.numbers,
            last,
            self.unknowns,
            self.width,
        );
    }
}
