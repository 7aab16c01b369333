ghost use Rattle.std.specs.Prelude.{◌≡◌, ◌<◌, pos, ◌≤ℤ◌, length, OnOk, OnErr};
ghost use Rattle.pip_model.specs.Forms.{entry};
ghost use Rattle.pip_model.specs.Rows as model;
ghost use Rattle.pip_model.specs.Agreement.{IsChecked};
ghost use Rattle.affine_forms.specs.Checks.{is_form_overflow};

use tableau::{StepRefusal, Tableau};

/// The pivot on row r and column c: the row, solved for the column's quantity, is put into each other row, and row r
/// becomes the row of the column. All numbers are checked before the first row is changed.
pub fn pivot(t: &mut Tableau, r: usize, c: usize) -> Result<(), StepRefusal>
    requires row { r < length t.old.rows }
    requires column { c < t.old.unknowns }
    requires positive { pos 1 ≤ℤ entry (model.row_at t.old.rows r).coefs c }
    ensures listed { IsChecked is_form_overflow (model.pivot_listed t.old.rows r c) result }
    ensures ok { OnOk result (t.new ≡ record t.old { rows = model.pivot t.old.rows r c }) }
    ensures err { OnErr result (t.new ≡ t.old) }
{
    t.exchange(r, c)?;
    Ok(())
}
