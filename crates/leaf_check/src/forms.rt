ghost use Rattle.std.specs.Prelude.{◌≡◌, ◌+◌, ◌-◌, ◌≤◌, ◌<◌, ◌++◌, [], pos, length, map, replicate, All, IfOk, OnOk};
ghost use Rattle.pip_model.specs.Forms.{unit_form, widen_to};
ghost use Rattle.pip_model.specs.Check as model;
ghost use Rattle.affine_forms.specs.Checks.{Fits};
ghost use Rattle.affine_forms.specs.Forms.{IsForm};
ghost use Rattle.leaf_check.specs.Known.{ArePushed};

use crate::known::Known;
use affine_forms::{Form, WantOfMemory};

// Zeros for so many places and a constant, in a room.
fn zeros(room: Vec<i128>, width: usize) -> Result<Vec<i128>, WantOfMemory>
    requires { room.items ≡ [] }
    ensures value { IfOk result (λ made. made.items ≡ replicate (width + 1) (pos 0)) }
    ensures fits { IfOk result (λ made. All Fits made.items) }
{
    let Some(entries) = width.checked_add(1) else {
        return Err(WantOfMemory);
    };
    let mut made = room;
    made.resize(entries, 0)?;
    Ok(made)
}

// A form over so many places that is a number at one of them, in a room.
#[tactic(auto, using(crate::proofs::Making::unit_made))]
fn unit(room: Vec<i128>, width: usize, place: usize) -> Result<Form, WantOfMemory>
    requires empty { room.items ≡ [] }
    requires place { place < width }
    ensures { IfOk result (λ form. form ≡ unit_form width place (pos 1)) }
{
    let mut made = zeros(room, width)?;
    made[place] = 1;
    Ok(Form::from_entries(made))
}

// Puts zeros behind the entries up to so many.
#[inline(always)]
fn fill_to(made: &mut Vec<i128>, width: usize) -> Result<(), WantOfMemory>
    requires { length made.old.items ≤ width }
    ensures { OnOk result (made.new.items
        ≡ made.old.items ++ replicate (width - length made.old.items) (pos 0)) }
{
    if made.len() < width {
        made.resize(width, 0)?;
    }
    Ok(())
}

// The entries of a form, read over so many places, in a room, that has place for those of a form over `most` places
// from then on.
pub(crate) fn widened_entries(
    room: Vec<i128>,
    width: usize,
    form: &[i128],
    most: usize,
) -> Result<Vec<i128>, WantOfMemory>
    requires empty { room.items ≡ [] }
    requires form { IsForm form.now }
    requires narrow { length form.now ≤ width + 1 }
    ensures value { IfOk result (λ made. made.items ≡ widen_to width form.now) }
    ensures long { IfOk result (λ made. length made.items ≡ width + 1) }
    ensures fits { IfOk result (λ made. All Fits made.items) }
{
    let last = form.len() - 1;
    let (front, _) = form.split_at(last);
    let mut made = room;
    made.reserve(most.saturating_add(1))?;
    made.extend_from_slice(front)?;
    fill_to(&mut made, width)?;
    made.push(form[last])?;
    Ok(made)
}

// The form read over so many places, in a room.
fn widen_form(room: Vec<i128>, width: usize, form: &Form) -> Result<Form, WantOfMemory>
    requires empty { room.items ≡ [] }
    requires narrow { length form.now ≤ width + 1 }
    ensures value { IfOk result (λ made. made ≡ widen_to width form.now) }
    ensures long { IfOk result (λ made. length made ≡ width + 1) }
{
    let entries = widened_entries(room, width, form.as_slice(), width)?;
    Ok(Form::from_entries(entries))
}

// A tableau row over the parameters and quotients in scope, and then the unknowns, in a room.
fn turned_row(
    room: Vec<i128>,
    unknowns: usize,
    scope: usize,
    row: &Form,
) -> Result<Form, WantOfMemory>
    requires empty { room.items ≡ [] }
    requires some { unknowns < length row.now }
    requires within { length row.now ≤ unknowns + scope + 1 }
    ensures value { IfOk result (λ made. made ≡ model.row_form unknowns scope row.now) }
    ensures long { IfOk result (λ made. length made ≡ scope + unknowns + 1) }
{
    let (front, rest) = row.as_slice().split_at(unknowns);
    let last = rest.len() - 1;
    let (coefficients, _) = rest.split_at(last);
    let entries = scope.saturating_add(unknowns).saturating_add(1);
    let mut made = room;
    made.reserve(entries)?;
    made.extend_from_slice(coefficients)?;
    fill_to(&mut made, scope)?;
    made.extend_from_slice(front)?;
    made.push(rest[last])?;
    Ok(Form::from_entries(made))
}

impl Known {
    // Puts the places from one on behind the forms: each says that its place is at least 0.
    pub(crate) fn push_places(&mut self, first: usize, n: usize) -> Result<(), WantOfMemory>
        requires { first + n ≤ self.old.width }
        ensures pushed { ArePushed result
            (model.places_from self.old.width first n) self.old self.new }
    {
        let width = self.width();
        for i in 0..n {
            let form = unit(self.room(), width, first + i)?;
            self.push(form)?;
        }
        Ok(())
    }

    // Puts these forms, read over all places, behind the others.
    pub(crate) fn push_widened(&mut self, forms: &[Form]) -> Result<(), WantOfMemory>
        requires { All (λ c. length c ≤ self.old.width + 1) forms.now }
        ensures pushed { ArePushed result
            (map (widen_to self.old.width) forms.now) self.old self.new }
    {
        let width = self.width();
        for form in forms {
            let form = widen_form(self.room(), width, form)?;
            self.push(form)?;
        }
        Ok(())
    }

    // Puts the tableau's rows, whose unknowns stand behind the other places, behind the forms.
    pub(crate) fn push_rows(
        &mut self,
        unknowns: usize,
        scope: usize,
        rows: &[Form],
    ) -> Result<(), WantOfMemory>
        requires places { self.old.width ≡ scope + unknowns }
        requires some { All (λ row. unknowns < length row) rows.now }
        requires within { All (λ row. length row ≤ unknowns + scope + 1) rows.now }
        ensures pushed { ArePushed result
            (map (model.row_form unknowns scope) rows.now) self.old self.new }
    {
        for row in rows {
            let form = turned_row(self.room(), unknowns, scope, row)?;
            self.push(form)?;
        }
        Ok(())
    }
}
