ghost use Rattle.std.specs.Prelude.{◌≡◌, ◌≤◌, None, length, true, IfOk, OnOk, IsTrue};
ghost use Rattle.pip_model.specs.Run as model;
ghost use Rattle.pip_model.specs.Run.{turn_by, AllPlus, run_from};
ghost use Rattle.pip_problem.specs.Counts.{IsCountedRun};
ghost use Rattle.plain_laws.specs.Plain.{plain_setting};
ghost use Rattle.point_turns.specs.TurnAt.{IsTurnAt};
ghost use Rattle.point_turns.specs.Turns.{negative_from, node_of, made, HasSameScope};
ghost use Rattle.point_turns.specs.Points.{ended, finds_point};

use crate::rows::PointRows;
use crate::turns::PointTurn;
use pip_problem::Work;

// Where no row is below 0: in integer mode a cut at the first fraction, where there is one.
fn last_turn<R: PointRows>(
    rows: &mut R::Rows,
    integer: bool,
    work: &mut Work,
) -> Result<PointTurn, R::Fault>
    requires width { R.is_width (R.table rows.old).width }
    requires rows { (R.table rows.old).unknowns ≤ length (R.table rows.old).rows }
    requires none { negative_from 0 (R.table rows.old).rows ≡ None }
    ensures gives { IsCountedRun (made (R.table rows.old).unknowns (R.table rows.new).rows) R.fault result work.old
        work.new (turn_by (plain_setting (R.table rows.old).unknowns integer) (node_of (R.table rows.old).rows) AllPlus) }
    ensures place { IsTrue integer → IfOk result
        (IsTurnAt (R.table rows.old).unknowns (R.table rows.old).rows (R.table rows.new).rows) }
    ensures scope { OnOk result (HasSameScope (R.table rows.old) (R.table rows.new)) }
{
    if !integer {
        return Ok(PointTurn::List);
    }
    let Some(i) = R::first_fraction(rows) else {
        return Ok(PointTurn::List);
    };
    R::count_and_cut(rows, work, i)?;
    Ok(PointTurn::Cut(i))
}

/// One turn: a pivot at a row below 0, else in integer mode a cut at a fraction.
#[inline(always)]
pub fn take_turn<R: PointRows>(
    rows: &mut R::Rows,
    integer: bool,
    work: &mut Work,
) -> Result<PointTurn, R::Fault>
    requires width { R.is_width (R.table rows.old).width }
    requires rows { (R.table rows.old).unknowns ≤ length (R.table rows.old).rows }
    ensures gives { IsCountedRun (made (R.table rows.old).unknowns (R.table rows.new).rows) R.fault result work.old
        work.new (model.turn (plain_setting (R.table rows.old).unknowns integer) (node_of (R.table rows.old).rows)) }
    ensures place { IsTrue integer → IfOk result
        (IsTurnAt (R.table rows.old).unknowns (R.table rows.old).rows (R.table rows.new).rows) }
    ensures scope { OnOk result (HasSameScope (R.table rows.old) (R.table rows.new)) }
{
    match R::first_below(rows) {
        Some(r) => R::pivot_turn(rows, work, r),
        None => last_turn::<R>(rows, integer, work),
    }
}

/// The run to its end, or until it has more rows than these: whether it found a point, which the rows then show.
pub fn run_on<R: PointRows>(
    rows: &mut R::Rows,
    integer: bool,
    most: usize,
    work: &mut Work,
) -> Result<bool, R::Fault>
    requires width { R.is_width (R.table rows.old).width }
    requires rows { (R.table rows.old).unknowns ≤ length (R.table rows.old).rows }
    ensures gives { IsCountedRun (ended (R.table rows.old).unknowns (R.table rows.new).rows) R.fault result work.old
        work.new (run_from (plain_setting (R.table rows.old).unknowns integer) (node_of (R.table rows.old).rows)) }
    ensures finds { IsTrue integer → IsCountedRun (λ b. b) R.fault result work.old work.new
        (finds_point (R.table rows.old).unknowns (R.table rows.old).rows) }
    ensures scope { OnOk result (HasSameScope (R.table rows.old) (R.table rows.new)) }
{
    loop {
        R::check_rows(rows, most)?;
        match take_turn::<R>(rows, integer, work)? {
            PointTurn::Bottom(_) => return Ok(false),
            PointTurn::List => return Ok(true),
            PointTurn::Pivot(_, _) | PointTurn::Cut(_) => {}
        }
    }
}
