ghost use Rattle.std.specs.Prelude.{◌≡◌, ◌+◌, ◌≤◌, [], ◌∷◌, ◌++◌, length, map, All, IfOk, IsTrue, OnOk};
ghost use Rattle.pip_model.specs.Contexts.{IsContext};
ghost use Rattle.pip_model.specs.Forms.{widen_to};
ghost use Rattle.pip_model.specs.Rows as model;
ghost use Rattle.pip_model.specs.Rows.{form_row};
ghost use Rattle.affine_forms.specs.Forms.{IsForm};

use affine_forms::{Form, WantOfMemory};
use gomory_cut::Tableau;
use std::alloc::Global;

// Adds the row of a form that is read over all columns. The list of coefficients is room for them.
fn push_widened(
    rows: &mut Tableau,
    form: &[i128],
    coefficients: &mut Vec<i128>,
) -> Result<(), WantOfMemory>
    requires width { rows.old.width ≡ 0 }
    requires form { IsForm form.now }
    requires narrow { length form.now ≤ rows.old.unknowns + 1 }
    ensures ok { OnOk result (rows.new ≡ record rows.old {
      rows = rows.old.rows ++ form_row rows.old.unknowns (widen_to rows.old.unknowns form.now) ∷ [];
    }) }
{
    let (front, constant) = form.split_at(form.len() - 1);
    coefficients.clear();
    coefficients.extend_from_slice(front)?;
    coefficients.resize(rows.unknowns(), 0)?;
    rows.push_row(1, coefficients, constant)?;
    Ok(())
}

/// Adds the row of one form.
pub fn push_form(alloc: Global, rows: &mut Tableau, form: &Form) -> Result<(), WantOfMemory>
    requires width { rows.old.width ≡ 0 }
    requires narrow { length form.now ≤ rows.old.unknowns + 1 }
    ensures ok { OnOk result (rows.new ≡ record rows.old {
      rows = rows.old.rows ++ form_row rows.old.unknowns (widen_to rows.old.unknowns form.now) ∷ [];
    }) }
    ensures number { OnOk result (length rows.new.rows ≡ length rows.old.rows + 1) }
{
    let mut coefficients = Vec::with_capacity(alloc, rows.unknowns())?;
    push_widened(rows, form.as_slice(), &mut coefficients)
}

// Whether each form is over so many places.
fn are_over(forms: &[Form], places: usize) -> bool
    ensures { IsTrue result → All (λ c. length c ≡ places + 1) forms.now }
{
    forms.iter().all(|form| form.width() == places)
}

/// The forms as rows over the unknowns alone: one column for each place, and no parameters.
pub fn start_rows(alloc: Global, places: usize, forms: &[Form]) -> Result<Tableau, WantOfMemory>
    requires { IsContext places forms.now }
    ensures value { IfOk result (λ rows. rows
        ≡ record { unknowns = places; width = 0; rows = model.start places 0 (map (widen_to places) forms.now) }) }
    ensures rows { IfOk result (λ rows. places ≤ length rows.rows) }
{
    if are_over(forms, places) {
        let rows = Tableau::start(alloc, places, 0, forms)?;
        return Ok(rows);
    }
    let mut rows = Tableau::start(alloc, places, 0, &[])?;
    let mut coefficients = Vec::with_capacity(alloc, places)?;
    for form in forms {
        push_widened(&mut rows, form.as_slice(), &mut coefficients)?;
    }
    Ok(rows)
}
