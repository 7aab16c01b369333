ghost use Rattle.std.specs.Prelude.{◌≡◌, ◌+◌, ◌<◌, ◌≤◌, None, [], ◌∷◌, ◌++◌, length, map, IfErr, IfSome, OnOk};
ghost use Rattle.pip_model.specs.Contexts.{IsContext};
ghost use Rattle.pip_model.specs.Forms.{widen_to};
ghost use Rattle.pip_model.specs.Rows as model;
ghost use Rattle.pip_model.specs.Rows.{form_row, count_from};
ghost use Rattle.short_run.specs.Stops.{stop_fault};

use crate::stop::Stop;
use affine_forms::{Form, WantOfMemory};
use point_turns::ShortTableau;

/// Adds the row of one form, whose numbers have to be short.
#[inline(always)]
pub fn push_short(rows: &mut ShortTableau, form: &Form) -> Result<(), Stop>
    requires narrow { length form.now ≤ rows.old.unknowns + 1 }
    ensures ok { OnOk result (rows.new ≡ record rows.old {
      rows = rows.old.rows ++ form_row rows.old.unknowns (widen_to rows.old.unknowns form.now) ∷ [];
    }) }
    ensures free { IfErr result (λ e. stop_fault e ≡ None) }
{
    if !rows.push_form(form.as_slice())? {
        return Err(Stop::Long);
    }
    Ok(())
}

// Starts again with the rows of the columns alone, and room for so many more.
fn start_columns(rows: &mut ShortTableau, places: usize, more: usize) -> Result<(), WantOfMemory>
    ensures { OnOk result (rows.new
        ≡ record { unknowns = places; width = 0; rows = map (model.unit_row places 0) (count_from 0 places) }) }
{
    let room = places.checked_add(more).ok_or(WantOfMemory)?;
    rows.restart(places);
    rows.reserve(room)?;
    for c in 0..places {
        rows.push_unit(c)?;
    }
    Ok(())
}

/// Starts again with the forms as rows over the unknowns alone: one column for each place, and no parameters.
#[tactic(auto, using(point_turns::proofs::Pointing::length_start))]
pub fn start_short(rows: &mut ShortTableau, places: usize, forms: &[Form]) -> Result<(), Stop>
    requires { IsContext places forms.now }
    ensures value { OnOk result (rows.new
        ≡ record { unknowns = places; width = 0; rows = model.start places 0 (map (widen_to places) forms.now) }) }
    ensures rows { OnOk result (places ≤ length rows.new.rows) }
    ensures free { IfErr result (λ e. stop_fault e ≡ None) }
{
    start_columns(rows, places, forms.len())?;
    for form in forms {
        push_short(rows, form)?;
    }
    Ok(())
}
