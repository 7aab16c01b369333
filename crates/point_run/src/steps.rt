ghost use Rattle.std.specs.Prelude.{◌≡◌, ◌<◌, ◌≤◌, [], ◌∷◌, ◌++◌, length, OnOk, OnErr};
ghost use Rattle.pip_model.specs.Cuts as cuts;
ghost use Rattle.pip_model.specs.Rows.{row_at};
ghost use Rattle.pip_model.specs.Run.{Setting, Node, turn_by, MinusAt};
ghost use Rattle.pip_problem.specs.Faults.{run_fault};
ghost use Rattle.pip_problem.specs.Counts.{IsCountedRun};
ghost use Rattle.point_turns.specs.Turns.{pivoted, counted_cut, HasSameScope};

use dual_pivot::{entering, pivot};
use gomory_cut::{Tableau, constant_cut};
use pip_problem::{Refusal, Work};

/// The step at a row below 0, in a point's run as in a problem's: whether a column enters. Where one does, a pivot is
/// counted and then made. A refusal leaves the rows as they were, and the counts at what was counted.
pub fn enter_and_pivot(rows: &mut Tableau, r: usize, work: &mut Work) -> Result<bool, Refusal>
    requires rows { rows.old.unknowns ≤ length rows.old.rows }
    requires row { r < length rows.old.rows }
    ensures gives { (S : Setting) (N : Node) → IsCountedRun (pivoted N rows.new.rows) run_fault result work.old work.new
        (turn_by S (record N { rows = rows.old.rows }) (MinusAt r)) }
    ensures err { OnErr result (rows.new ≡ rows.old) }
    ensures scope { HasSameScope rows.old rows.new }
{
    let Some(c) = entering(rows, r)? else {
        return Ok(false);
    };
    work.count_pivot()?;
    pivot(rows, r, c)?;
    Ok(true)
}

/// The cut of row i where its constant form is over no places, or whole but for its constant: it is counted, and then
/// the row's cut is added. A refusal leaves the rows as they were, and the counts at what was counted.
pub fn count_and_cut(rows: &mut Tableau, i: usize, work: &mut Work) -> Result<(), Refusal>
    requires { i < length rows.old.rows }
    ensures gives { IsCountedRun (λ x. rows.new.rows) run_fault result work.old work.new (counted_cut rows.old.rows i) }
    ensures row { OnOk result (rows.new.rows ≡ rows.old.rows ++ cuts.constant_cut (row_at rows.old.rows i) ∷ []) }
    ensures err { OnErr result (rows.new ≡ rows.old) }
    ensures scope { HasSameScope rows.old rows.new }
{
    work.count_cut()?;
    constant_cut(rows, i)?;
    Ok(())
}
