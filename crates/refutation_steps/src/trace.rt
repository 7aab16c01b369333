ghost use Rattle.std.specs.Prelude.{◌≡◌, ◌^◌, ◌<◌, [], ◌∷◌, ◌++◌, pos, ◌≤ℤ◌, ◌<ℤ◌, length, slice_set, All, IfOk, OnOk};
ghost use Rattle.pip_model.specs.Forms.{entry, negate};
ghost use Rattle.pip_model.specs.Refuting.{positive_terms, first_trace, with_step, cut_step, last_step};
ghost use Rattle.pip_model.specs.Rows.{row_at};
ghost use Rattle.affine_forms.specs.Checks.{Fits};
ghost use Rattle.point_run.specs.Tableaus.{IsRow};
ghost use Rattle.point_run.specs.Views.{row_of};
ghost use Rattle.point_turns.specs.Traces.{with_cut};

use crate::positive_terms::{count_negative, push_opposites, push_positive};
use affine_forms::{WantOfMemory, negated, remainders};
use certificate_parts::{Certificate, Refutation, SpareSteps, Step, Terms};
use point_run::RowView;
use short_run::ShortTableau;
use std::alloc::Global;
use std::marker::Model;
use std::mem::replace;

/// For each row and each column of a run without parameters the index of the known form that is its quantity, the
/// index of the first step's form, and the steps so far. The rows are those of the places, of so many forms, and of the
/// cuts.
#[derive(Drop)]
pub struct Trace {
    places: Vec<i128>,
    forms: usize,
    cuts: Vec<i128>,
    columns: Vec<i128>,
    first: i128,
    steps: Refutation,
    spares: SpareSteps,
}

impl Model for Trace {
    ghost use Rattle.std.specs.Prelude.{◌^◌, ◌++◌, pos, ◌+ℤ◌, ◌≤ℤ◌, ◌<ℤ◌, All, length};
    ghost use Rattle.pip_model.specs.Refuting as model;
    ghost use Rattle.affine_forms.specs.Checks.{Fits};

    ghost Value = { model.Trace };

    ghost view = { λ t. record {
      rows = t.places.items ++ model.indices 0 t.forms ++ t.cuts.items;
      columns = t.columns.items;
      next = t.first +ℤ pos (length t.steps);
      steps = t.steps;
    } };

    ghost invariant = { λ t. (All Fits t.places.items) × (All Fits t.cuts.items) × (All Fits t.columns.items)
        × (pos 0 ≤ℤ t.first) × (t.first <ℤ pos (2 ^ 64)) };
}

// Makes these numbers of others, in their room.
fn copy_to(others: &mut Vec<i128>, numbers: &[i128]) -> Result<(), WantOfMemory>
    requires others { All Fits others.old.items }
    requires numbers { All Fits numbers.now }
    ensures value { OnOk result (others.new.items ≡ numbers.now) }
    ensures fits { All Fits others.new.items }
{
    if others.len() == numbers.len() {
        others.copy_from_slice(numbers);
        return Ok(());
    }
    others.clear();
    others.extend_from_slice(numbers)?;
    Ok(())
}

impl Trace {
    /// No rows, no columns and no steps. It takes no memory.
    pub fn new(alloc: Global) -> Trace
        ensures { result ≡ record { rows = []; columns = []; next = pos 0; steps = [] } }
    {
        Trace {
            places: Vec::new(alloc),
            forms: 0,
            cuts: Vec::new(alloc),
            columns: Vec::new(alloc),
            first: 0,
            steps: Refutation::new(alloc),
            spares: SpareSteps::new(alloc),
        }
    }

    // No steps.
    fn no_steps(&self) -> Refutation
        ensures { result ≡ [] }
    {
        Refutation::new(*self.columns.allocator())
    }

    /// Starts again with no step, in the rooms that it has: the rows of the places, and then of so many forms.
    pub fn restart(
        &mut self,
        places: &[i128],
        count: usize,
        first: i128,
    ) -> Result<(), WantOfMemory>
        requires places { All Fits places.now }
        requires some { pos 0 ≤ℤ first }
        requires few { first <ℤ pos (2 ^ 64) }
        ensures { OnOk result (self.new ≡ first_trace places.now count first) }
    {
        copy_to(&mut self.places, places)?;
        self.forms = count;
        self.cuts.clear();
        copy_to(&mut self.columns, places)?;
        self.first = first;
        self.steps = self.spares.take_steps();
        Ok(())
    }

    // The index of the form that is the row's quantity.
    fn index_of(&self, row: usize) -> i128
        requires { row < length self.now.rows }
        ensures value { result ≡ entry self.now.rows row }
        ensures fits { Fits result }
    {
        let places = self.places.len();
        if row < places {
            return self.places[row];
        }
        let form = row - places;
        if form < self.forms {
            return form as i128;
        }
        self.cuts[form - self.forms]
    }

    /// The row's quantity is the column's from here on.
    pub fn exchange(&mut self, row: usize, column: usize)
        requires row { row < length self.old.rows }
        requires column { column < length self.old.columns }
        ensures { self.new ≡ record self.old { columns = slice_set self.old.columns column (entry self.old.rows row) } }
    {
        self.columns[column] = self.index_of(row);
    }

    // The index of the form that the next step gives.
    fn next(&self) -> i128
        ensures value { result ≡ self.now.next }
        ensures fits { Fits result }
    {
        self.first + self.steps.as_slice().len() as i128
    }

    // The next row stands for the form that the next step gives.
    fn push_row(&mut self) -> Result<(), WantOfMemory>
        ensures { OnOk result (self.new ≡ record self.old { rows = self.old.rows ++ self.old.next ∷ [] }) }
    {
        let next = self.next();
        self.cuts.push(next)?;
        Ok(())
    }

    // One step more.
    fn push_step(&mut self, step: Step) -> Result<(), WantOfMemory>
        ensures { OnOk result (self.new ≡ with_step self.old step) }
    {
        self.steps.push(step)
    }

    // The pairs of the step of the cut by a row: each column, with the fractional part that the row has there.
    fn cut_terms(&self, alloc: Global, row: &RowView<'_>) -> Result<Terms, WantOfMemory>
        requires row { IsRow (length self.now.columns) 0 (row_of row.now) }
        ensures { IfOk result (λ terms. terms ≡ (cut_step (row_of row.now) self.now.columns).terms) }
    {
        let parts = remainders(alloc, row.den, row.coefs)?;
        let mut terms = Terms::new(alloc);
        push_positive(&mut terms, &self.columns, &parts)?;
        Ok(terms)
    }

    /// The step of the cut by a row; the cut's row stands for its form.
    pub fn cut(&mut self, alloc: Global, row: &RowView<'_>) -> Result<(), WantOfMemory>
        requires row { IsRow (length self.old.columns) 0 (row_of row.now) }
        ensures { OnOk result (self.new ≡ with_cut self.old (row_of row.now)) }
    {
        let terms = self.cut_terms(alloc, row)?;
        self.push_row()?;
        self.push_step(Step {
            divisor: row.den,
            terms,
        })
    }

    // The pairs of the last step: the index of the row's form with the row's denominator, and each column that the row has
    // below 0, so many times away.
    fn last_terms(
        &self,
        alloc: Global,
        index: i128,
        row: &RowView<'_>,
    ) -> Result<Terms, WantOfMemory>
        requires index { Fits index }
        requires row { IsRow (length self.now.columns) 0 (row_of row.now) }
        ensures { IfOk result (λ terms. terms ≡ (last_step (row_of row.now) index self.now.columns).terms) }
    {
        let mut terms = Terms::new(alloc);
        terms.push((index, row.den))?;
        let away = negated(alloc, row.coefs)?;
        push_positive(&mut terms, &self.columns, &away)?;
        Ok(terms)
    }

    /// The step at row r, which is below 0 and has no positive coefficient.
    pub fn close(&mut self, alloc: Global, r: usize, row: &RowView<'_>) -> Result<(), WantOfMemory>
        requires index { r < length self.old.rows }
        requires row { IsRow (length self.old.columns) 0 (row_of row.now) }
        ensures { OnOk result (self.new ≡ with_step self.old
            (last_step (row_of row.now) (entry self.old.rows r) self.old.columns)) }
    {
        let terms = self.last_terms(alloc, self.index_of(r), row)?;
        self.push_step(Step { divisor: 1, terms })
    }

    // No pairs, in a room that is kept.
    fn take_terms(&mut self) -> Terms
        ensures empty { result ≡ [] }
        ensures same { self.new ≡ self.old }
    {
        self.spares.take_terms()
    }

    // The pairs of the last step at a row whose numbers have 64 bits, in a room: the index at this place with
    // the denominator, and each column that the row has below 0, so many times away.
    fn short_terms(
        &self,
        room: Terms,
        at: usize,
        den: i64,
        coefs: &[i64],
    ) -> Result<Terms, WantOfMemory>
        requires empty { room ≡ [] }
        requires index { at < length self.now.rows }
        requires number { length coefs.now ≡ length self.now.columns }
        ensures { IfOk result (λ terms. terms
            ≡ (entry self.now.rows at, den) ∷ positive_terms self.now.columns (negate coefs.now)) }
    {
        let mut terms = room;
        terms.reserve(count_negative(coefs).saturating_add(1))?;
        terms.push((self.index_of(at), den as i128))?;
        push_opposites(&mut terms, &self.columns, coefs)?;
        Ok(terms)
    }

    /// The step at row r of these, which is below 0 and has no positive coefficient; the index of its quantity is that at
    /// this place. The row is not copied.
    pub fn close_short(
        &mut self,
        at: usize,
        rows: &ShortTableau,
        r: usize,
    ) -> Result<(), WantOfMemory>
        requires index { at < length self.old.rows }
        requires row { r < length rows.now.rows }
        requires columns { length self.old.columns ≡ rows.now.unknowns }
        ensures { OnOk result (self.new ≡ with_step self.old
            (last_step (row_at rows.now.rows r) (entry self.old.rows at) self.old.columns)) }
    {
        let row = rows.row(r);
        let room = self.take_terms();
        let terms = self.short_terms(room, at, row.den, row.coefs)?;
        self.push_step(Step { divisor: 1, terms })
    }

    // One step alone, that takes the form with an index once, in the rooms that are kept.
    pub(crate) fn single_step(&mut self, index: usize) -> Result<Refutation, WantOfMemory>
        ensures value { IfOk result (λ steps. steps
            ≡ record { divisor = pos 1; terms = (pos index, pos 1) ∷ [] } ∷ []) }
    {
        let mut terms = self.take_terms();
        terms.reserve(1)?;
        terms.push((index as i128, 1))?;
        let mut steps = self.spares.take_steps();
        steps.push(Step { divisor: 1, terms })?;
        Ok(steps)
    }

    /// Keeps the rooms of a certificate's steps for others. All stays as it was.
    pub fn keep(&mut self, certificate: Certificate)
        ensures { self.new ≡ self.old }
    {
        self.spares.keep(certificate);
    }

    /// The steps, which are not kept.
    pub fn take_steps(&mut self) -> Refutation
        ensures { result ≡ self.old.steps }
    {
        let none = self.no_steps();
        replace(&mut self.steps, none)
    }
}
