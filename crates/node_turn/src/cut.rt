ghost use Rattle.std.specs.Prelude.{◌≡◌, ℕ, pos, ◌+◌, ◌<◌, ◌≤◌, length, IfOk};
ghost use Rattle.pip_model.specs.Forms.{entry};
ghost use Rattle.pip_model.specs.Rows.{row_at};
ghost use Rattle.pip_model.specs.Cuts as cuts;
ghost use Rattle.pip_model.specs.Run as model;
ghost use Rattle.pip_model.specs.Agreement.{AgreesCounted};
ghost use Rattle.pip_problem.specs.Faults.{run_fault};
ghost use Rattle.pip_problem.specs.Counts.{IsCountedRun};
ghost use Rattle.tableau.specs.Tableaus.{IsRow};
ghost use Rattle.gomory_cut.specs.Fractions.{IsFractionOf};
ghost use Rattle.sign_split.specs.Classes.{class_of};
ghost use Rattle.new_parameters.specs.Scopes.{IsQuotient};
ghost use Rattle.node_turn.specs.Nodes.{node_of, setting_of, IsNode, IsKept};
ghost use Rattle.node_turn.specs.Turns.{turn_of, TurnIs};

use crate::path::Path;
use crate::turn::Turn;
use affine_forms::{Form, Overflow, WantOfMemory};
use gomory_cut::{FractionRow, parametric_cut_by, residue_of, rewrite};
use new_parameters::{Quotient, rounding};
use node_rows::count_and_cut;
use pip_problem::Refusal;
use sign_split::{Class, Work, class};
use tableau::Tableau;

// The residue of row i over its denominator.
fn residue(rows: &Tableau, i: usize) -> Result<Quotient, WantOfMemory>
    requires { i < length rows.now.rows }
    ensures value { IfOk result (λ k. k ≡ cuts.residue_of (row_at rows.now.rows i)) }
    ensures quotient { IfOk result (IsQuotient rows.now.width) }
    ensures width { IfOk result (λ k. length k.form ≡ rows.now.width + 1) }
    ensures row { IsRow rows.now.unknowns rows.now.width (row_at rows.now.rows i) }
{
    let den = rows.row(i).den;
    let (form, _) = residue_of(rows.allocator(), rows, i)?;
    Ok(Quotient { form, den })
}

// The class of what the quotient at a place, which is the row's residue's, leaves of it.
fn class_by_quotient(
    rows: &Tableau,
    key: &Quotient,
    place: usize,
    path: &mut Path,
    work: &mut Work,
) -> Result<Class, Refusal>
    requires node { IsNode rows.now path.old }
    requires place { place < rows.now.width }
    requires quotient { IsQuotient rows.now.width key.now }
    requires width { length key.now.form ≡ rows.now.width + 1 }
    requires free { entry key.now.form place ≡ pos 0 }
    ensures gives { IsCountedRun class_of run_fault result work.old work.new
        (model.class path.old.context.forms path.old.context.width (cuts.rounding rows.now.width place key.now)) }
    ensures path { IsKept path.old path.new }
{
    let alloc = rows.allocator();
    let rounding = rounding(alloc, rows.width(), place, key)?;
    class(alloc, &mut path.context, &rounding, work)
}

// The cut of row i by the quotient at a place: the row is rounded where that is its residue's quotient everywhere,
// else a row is added.
fn cut_by(
    rows: &mut Tableau,
    i: usize,
    residue: &Form,
    place: usize,
    class: Class,
) -> Result<Turn, Refusal>
    requires rows { rows.old.unknowns ≤ length rows.old.rows }
    requires row { i < length rows.old.rows }
    requires residue { residue.now ≡ (cuts.residue_of (row_at rows.old.rows i)).form }
    requires place { place < rows.old.width }
    requires free { entry residue.now place ≡ pos 0 }
    ensures gives { (path : Path) (w : model.Work) → AgreesCounted (turn_of rows.new path) run_fault result w
        (model.known_cut (node_of rows.old path) i (row_at rows.old.rows i) place (class_of class) w) }
    ensures turn { (path : Path) (most : ℕ) → IfOk result (TurnIs rows.old rows.new path most) }
{
    match class {
        Class::Plus => rewrite(rows, i, place)?,
        Class::Minus => parametric_cut_by(rows, i, residue, place)?,
        Class::Unknown(_) => parametric_cut_by(rows, i, residue, place)?,
    }
    Ok(Turn::Again)
}

// The cut of row i by its residue's quotient: one of the path's, or a new one below this node.
fn quotient_cut(
    rows: &mut Tableau,
    i: usize,
    path: &mut Path,
    work: &mut Work,
) -> Result<Turn, Refusal>
    requires node { IsNode rows.old path.old }
    requires row { i < length rows.old.rows }
    ensures gives { IsCountedRun (turn_of rows.new path.old) run_fault result work.old work.new
        (model.quotient_cut (setting_of rows.old path.old) (node_of rows.old path.old) i (row_at rows.old.rows i)
        (cuts.find_from path.old.quotients.params path.old.quotients.quotients
        (cuts.residue_of (row_at rows.old.rows i)))) }
    ensures turn { IfOk result (TurnIs rows.old rows.new path.old work.new.budget.nesting) }
    ensures path { IsKept path.old path.new }
{
    let key = residue(rows, i)?;
    match path.quotients.find(&key) {
        Some(place) => {
            let class = class_by_quotient(rows, &key, place, path, work)?;
            cut_by(rows, i, &key.form, place, class)
        }
        None => {
            work.check_nesting(path.depth + 1)?;
            Ok(Turn::Below(i, key))
        }
    }
}

// The cut of a row whose constant form is not whole. It is counted before it is made.
pub(crate) fn cut_turn(
    rows: &mut Tableau,
    fraction: FractionRow,
    path: &mut Path,
    work: &mut Work,
) -> Result<Turn, Refusal>
    requires node { IsNode rows.old path.old }
    requires row { fraction.row < length rows.old.rows }
    requires constant { IsFractionOf rows.old.rows fraction }
    ensures gives { IsCountedRun (turn_of rows.new path.old) run_fault result work.old work.new
        (model.cut_turn (setting_of rows.old path.old) (node_of rows.old path.old) fraction.row
        (row_at rows.old.rows fraction.row)) }
    ensures turn { IfOk result (TurnIs rows.old rows.new path.old work.new.budget.nesting) }
    ensures path { IsKept path.old path.new }
{
    if fraction.in_constant {
        count_and_cut(rows, fraction.row, work)?;
        return Ok(Turn::Again);
    }
    work.count_cut()?;
    quotient_cut(rows, fraction.row, path, work)
}
