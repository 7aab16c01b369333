ghost use Rattle.std.specs.Prelude.{◌≡◌, ℕ, ◌+◌, ◌≤◌, ℤ, List, [], ◌∷◌, ◌++◌, length, OnOk, IsTrue};
ghost use Rattle.pip_model.specs.Contexts.{IsContext, IsNarrow};
ghost use Rattle.pip_model.specs.Forms.{widen_to};
ghost use Rattle.pip_model.specs.Rows.{Row, form_row, row_at};
ghost use Rattle.kept_run.specs.Remembered.{IsFormed, IsReplay, IsStopped, IsRemembered, IsTurned};
ghost use Rattle.short_run.specs.Points.{first_rows};

use crate::remembered::{Remembered, Replay, run_to_end};
use affine_forms::Form;
use short_run::{ShortTableau, Stop, push_short};

// Turns the rows by the pivots in order; whether all numbers of the rows that are made are short. Nothing is counted.
fn turn_by_all(m: &Replay, rows: &mut ShortTableau) -> bool
    requires formed { IsFormed m.now }
    requires unknowns { rows.old.unknowns ≡ m.now.end.unknowns }
    ensures turned { IsTrue result → IsTurned m.now.pivots.rows m.now.columns.items rows.old.rows rows.new.rows }
    ensures unknowns { IsTrue result → rows.new.unknowns ≡ m.now.end.unknowns }
    ensures number { IsTrue result → length rows.new.rows ≡ length rows.old.rows }
{
    for i in 0..m.columns.len() {
        if !rows.eliminate(&m.pivots, i, m.columns[i]) {
            return false;
        }
    }
    true
}

// Puts the row of a further form behind the last rows, turned by the pivots. The tableau is room for it, and keeps it.
fn push_further(m: &mut Replay, form: &Form, room: &mut ShortTableau) -> Result<(), Stop>
    requires formed { IsFormed m.old }
    requires narrow { length form.now ≤ m.old.end.unknowns + 1 }
    ensures formed { OnOk result (IsFormed m.new) }
    ensures unknowns { OnOk result (m.new.end.unknowns ≡ m.old.end.unknowns) }
    ensures rows { OnOk result (m.new.end.rows ≡ m.old.end.rows ++ row_at room.new.rows 0 ∷ []) }
    ensures single { OnOk result (length room.new.rows ≡ 1) }
    ensures replay { OnOk result ((first : List Row) → IsReplay first m.old → IsReplay
        (first ++ form_row m.old.end.unknowns (widen_to m.old.end.unknowns form.now) ∷ []) m.new) }
{
    room.restart(m.end.unknowns());
    push_short(room, form)?;
    if !turn_by_all(m, room) {
        return Err(Stop::Long);
    }
    m.end.push_copy(room, 0)?;
    Ok(())
}

// Puts the rows of further forms behind the last rows, turned by the pivots.
fn push_all_further(m: &mut Replay, forms: &[Form], room: &mut ShortTableau) -> Result<(), Stop>
    requires formed { IsFormed m.old }
    requires narrow { IsContext m.old.end.unknowns forms.now }
    ensures formed { OnOk result (IsFormed m.new) }
    ensures unknowns { OnOk result (m.new.end.unknowns ≡ m.old.end.unknowns) }
    ensures replay { OnOk result ((K : List (List ℤ)) → IsReplay (first_rows m.old.end.unknowns K) m.old
        → IsReplay (first_rows m.old.end.unknowns (K ++ forms.now)) m.new) }
{
    for form in forms {
        push_further(m, form, room)?;
    }
    Ok(())
}

/// Makes of the run of some forms that of these and further ones, as it would be made from nothing: with the rows of the
/// further forms behind its own it makes the same pivots, and goes on from the last rows. The tableau is room for a row.
pub fn go_further(m: &mut Remembered, forms: &[Form], room: &mut ShortTableau) -> Result<(), Stop>
    requires stopped { IsStopped m.old }
    requires narrow { IsContext m.old.run.end.unknowns forms.now }
    ensures { OnOk result ((n : ℕ) (K : List (List ℤ)) → IsRemembered n K m.old
        → IsRemembered n (K ++ forms.now) m.new) }
{
    push_all_further(&mut m.run, forms, room)?;
    run_to_end(m)?;
    Ok(())
}

// The same with one form more. Where the run shows a point and the form's row is from 0 on there, it still does.
fn go_one_further(m: &mut Remembered, form: &Form, room: &mut ShortTableau) -> Result<(), Stop>
    requires stopped { IsStopped m.old }
    requires narrow { IsNarrow m.old.run.end.unknowns form.now }
    ensures { OnOk result ((n : ℕ) (K : List (List ℤ)) → IsRemembered n K m.old
        → IsRemembered n (K ++ form.now ∷ []) m.new) }
{
    push_further(&mut m.run, form, room)?;
    if m.at_end && !room.is_below(0) {
        return Ok(());
    }
    run_to_end(m)?;
    Ok(())
}

/// Goes on from a run that is known; whether that of one form more is.
pub fn goes_further(
    is_known: bool,
    m: &mut Remembered,
    form: &Form,
    room: &mut ShortTableau,
) -> bool
    requires stopped { IsTrue is_known → IsStopped m.old }
    requires narrow { IsTrue is_known → IsNarrow m.old.run.end.unknowns form.now }
    ensures { (n : ℕ) (K : List (List ℤ)) → (IsTrue is_known → IsRemembered n K m.old)
        → IsTrue result → IsRemembered n (K ++ form.now ∷ []) m.new }
{
    if !is_known {
        return false;
    }
    go_one_further(m, form, room).is_ok()
}
