ghost use Rattle.std.specs.Prelude.{◌≡◌, ◌+◌, ◌<◌, ◌≤◌, length, take, drop, IsTrue, IfSome};
ghost use Rattle.pip_model.specs.Rows.{unit_row};
ghost use Rattle.row_laws.specs.Flat.{numbers_of};
ghost use Rattle.tableau.specs.Places.{IsLent, IsPlace, lent_row, row_length, row_from_place, unit_run};
ghost use Rattle.row_laws.specs.Short.{IsShortRow};
ghost use Rattle.tableau_row.specs.Views.{row_of};

use tableau_row::{RowView, view_of};

// The place of a row's first number, and whether all numbers of the row are known to lie from -(2^63 - 1) to 2^63 - 1.
#[derive(Clone, Copy)]
pub(crate) struct RowPlace {
    pub(crate) first: usize,
    pub(crate) short: bool,
}

// How a row is kept: that of a column by the column, any other by its place.
#[derive(Clone, Copy)]
pub(crate) enum Kept {
    Unit(usize),
    At(RowPlace),
}

// What rows are lent from: the numbers of the rows, and one run of zeros with a 1 for the rows of columns.
#[derive(Clone, Copy)]
pub(crate) struct Lent<'t> {
    pub(crate) unknowns: usize,
    pub(crate) width: usize,
    pub(crate) numbers: &'t [i128],
    pub(crate) units: &'t [i128],
}

impl<'t> Lent<'t> {
    // The row of column c.
    #[inline(always)]
    #[tactic(auto, using(crate::proofs::UnitRun::length_run, crate::proofs::UnitRun::lent_unit))]
    fn unit(&self, c: usize) -> RowView<'t>
        requires column { c < self.now.unknowns }
        requires units { self.now.units.now ≡ unit_run self.now.unknowns self.now.width }
        ensures { row_of result ≡ unit_row self.now.unknowns self.now.width c }
    {
        let (_, behind) = self.units.split_at(self.unknowns - c);
        let (coefs, _) = behind.split_at(self.unknowns);
        let (_, behind) = self.units.split_at(self.unknowns + 1);
        let (constant, _) = behind.split_at(self.width + 1);
        RowView::new(1, coefs, constant, true)
    }

    // The numbers of the row whose first number stands at a place.
    #[inline(always)]
    pub(crate) fn numbers_at(&self, first: usize) -> &'t [i128]
        requires { first + row_length self.now.unknowns self.now.width ≤ length self.now.numbers.now }
        ensures value { result.now ≡ take (row_length self.now.unknowns self.now.width)
            (drop first self.now.numbers.now) }
        ensures length { length result.now ≡ row_length self.now.unknowns self.now.width }
    {
        let (_, numbers) = self.numbers.split_at(first);
        let (numbers, _) = numbers.split_at(self.unknowns + self.width + 2);
        numbers
    }

    // The row at a place.
    #[inline(always)]
    fn plain(&self, at: RowPlace) -> RowView<'t>
        requires place { at.first + row_length self.now.unknowns self.now.width ≤ length self.now.numbers.now }
        requires short { IsTrue at.short
            → IsShortRow (row_from_place self.now.unknowns self.now.width self.now.numbers.now at.first) }
        ensures { row_of result ≡ row_from_place self.now.unknowns self.now.width self.now.numbers.now at.first }
    {
        view_of(self.numbers_at(at.first), self.unknowns, at.short)
    }

    // The numbers of a row that is kept by them.
    #[tactic(auto, using(row_laws::proofs::Numbers::numbers_again))]
    #[inline(always)]
    pub(crate) fn run(&self, kept: Kept) -> Option<&'t [i128]>
        requires { IsPlace self.now.unknowns self.now.width (length self.now.numbers.now) kept }
        ensures { IfSome result (λ s. s.now ≡ numbers_of (lent_row self.now kept)) }
    {
        match kept {
            Kept::Unit(_) => None,
            Kept::At(at) => Some(self.numbers_at(at.first)),
        }
    }

    // A row.
    #[inline(always)]
    pub(crate) fn row(&self, kept: Kept) -> RowView<'t>
        requires one { IsLent self.now kept }
        requires units { self.now.units.now ≡ unit_run self.now.unknowns self.now.width }
        ensures { row_of result ≡ lent_row self.now kept }
    {
        match kept {
            Kept::Unit(c) => self.unit(c),
            Kept::At(at) => self.plain(at),
        }
    }
}
