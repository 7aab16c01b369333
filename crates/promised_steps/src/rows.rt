ghost use Rattle.std.specs.Prelude.{◌≡◌, ◌<◌, ◌≤◌, pos, length, IfOk, OnOk, OnErr};
ghost use Rattle.pip_model.specs.Agreement.{IsChecked};
ghost use Rattle.pip_model.specs.Cuts as cuts;
ghost use Rattle.pip_model.specs.Forms.{entry};
ghost use Rattle.pip_model.specs.Rows as model;
ghost use Rattle.affine_forms.specs.Checks.{is_overflow};
ghost use Rattle.tableau.specs.Tableaus.{with_row};

use affine_forms::{Overflow, WantOfMemory};
use tableau::Tableau;

/// The column that enters at a row.
pub fn entering(t: &Tableau, r: usize) -> Result<Option<usize>, Overflow>
    requires row { r < length t.now.rows }
    requires rows { t.now.unknowns ≤ length t.now.rows }
    ensures listed { IsChecked is_overflow (model.entering_listed t.now.rows r) result }
    ensures value { IfOk result (λ c. c ≡ model.entering t.now.rows r) }
{
    dual_pivot::entering(t, r)
}

/// Adds the cut by a row, with the quotient at place q.
pub fn parametric_cut(t: &mut Tableau, row: usize, q: usize) -> Result<(), WantOfMemory>
    requires row { row < length t.old.rows }
    requires place { q < t.old.width }
    requires free { entry (cuts.residue_of (model.row_at t.old.rows row)).form q ≡ pos 0 }
    ensures ok { OnOk result (t.new ≡ with_row t.old (cuts.parametric_cut (model.row_at t.old.rows row) q)) }
    ensures err { OnErr result (t.new ≡ t.old) }
{
    gomory_cut::parametric_cut(t, row, q)
}
