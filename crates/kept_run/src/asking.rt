ghost use Rattle.std.specs.Prelude.{◌≡◌, ◌++◌, true, IfSome, IfNone};
ghost use Rattle.pip_model.specs.Contexts.{IsContext};
ghost use Rattle.pip_problem.specs.Faults.{run_fault};
ghost use Rattle.pip_problem.specs.Counts.{IsCountedRun};
ghost use Rattle.short_run.specs.Stops.{stop_fault};
ghost use Rattle.kept_run.specs.Remembered.{IsFormed, IsStopped, asked, IsPivotBehind};
ghost use Rattle.short_run.specs.Points.{is_end, finds_point, form_rows, EndsWith};

use crate::behind::{put_behind, rows_behind};
use crate::question::Question;
use crate::remembered::{Remembered, Replay};
use affine_forms::Form;
use pip_problem::{Refusal, Work};
use short_run::{ShortTableau, Stop, run_short};

// Goes on from the last rows of a run with other rows behind them, in the room of these rows.
fn go_on(
    m: &Replay,
    more: &ShortTableau,
    rows: &mut ShortTableau,
    work: &mut Work,
) -> Result<bool, Stop>
    requires formed { IsFormed m.now }
    requires unknowns { more.now.unknowns ≡ m.now.end.unknowns }
    ensures gives { IsCountedRun (λ b. b) stop_fault result work.old work.new
        (finds_point m.now.end.unknowns (m.now.end.rows ++ more.now.rows)) }
{
    put_behind(m, more, rows)?;
    run_short(rows, work)
}

// Whether a point is found, where a run that shows one ends with these rows behind its own: none is below 0, or at the
// first that is no column enters. None where the run goes on.
fn ends_at(rows: &ShortTableau) -> Option<bool>
    ensures { IfSome result (EndsWith rows.now.rows) }
{
    let Some(r) = rows.first_below() else {
        return Some(true);
    };
    if rows.has_positive(r) {
        return None;
    }
    Some(false)
}

// The column that enters where this row stands alone behind a run's own and is below 0. None elsewhere.
fn column_behind(m: &Replay, row: &ShortTableau) -> Option<usize>
    requires formed { IsFormed m.now }
    requires unknowns { row.now.unknowns ≡ m.now.end.unknowns }
    ensures { IfSome result (IsPivotBehind m.now.end.unknowns m.now.end.rows row.now.rows) }
{
    if row.rows() != 1 || !row.is_below(0) {
        return None;
    }
    m.end.entering_behind(row, 0)
}

// Goes on with the pivot on the row behind the last rows of a run that shows a point: it is counted, and made in the
// room of these rows where the run is not known to end after it.
fn pivot_behind(
    m: &Replay,
    row: &ShortTableau,
    rows: &mut ShortTableau,
    work: &mut Work,
    c: usize,
) -> Result<bool, Stop>
    requires formed { IsFormed m.now }
    requires unknowns { row.now.unknowns ≡ m.now.end.unknowns }
    requires shows { is_end m.now.end.unknowns m.now.end.rows ≡ true }
    requires column { IsPivotBehind m.now.end.unknowns m.now.end.rows row.now.rows c }
    ensures gives { IsCountedRun (λ b. b) stop_fault result work.old work.new
        (finds_point m.now.end.unknowns (m.now.end.rows ++ row.now.rows)) }
{
    work.count_pivot()?;
    if let Some(found) = m.end.ends_after(row, 0, c) {
        return Ok(found);
    }
    put_behind(m, row, rows)?;
    if !rows.pivot(m.end.rows(), c) {
        return Err(Stop::Long);
    }
    run_short(rows, work)
}

// Whether a remembered run with the forms' rows behind it finds a point: they are turned by the remembered pivots, and
// the run goes on where it does not end there.
fn ask(
    m: &Remembered,
    question: &mut Question,
    forms: &[Form],
    work: &mut Work,
) -> Result<bool, Stop>
    requires stopped { IsStopped m.now }
    requires narrow { IsContext m.now.run.end.unknowns forms.now }
    ensures gives { IsCountedRun (λ b. b) stop_fault result work.old work.new
        (asked m.now (form_rows m.now.run.end.unknowns forms.now)) }
{
    rows_behind(&m.run, &mut question.row, forms, work)?;
    if m.at_end {
        if let Some(found) = ends_at(&question.row) {
            return Ok(found);
        }
        if let Some(c) = column_behind(&m.run, &question.row) {
            return pivot_behind(&m.run, &question.row, &mut question.run, work, c);
        }
    }
    go_on(&m.run, &question.row, &mut question.run, work)
}

/// The same; None where a number is not short, and nothing is counted then.
pub fn ask_shortly(
    m: &Remembered,
    question: &mut Question,
    forms: &[Form],
    work: &mut Work,
) -> Option<Result<bool, Refusal>>
    requires stopped { IsStopped m.now }
    requires narrow { IsContext m.now.run.end.unknowns forms.now }
    ensures gives { IfSome result (λ r. IsCountedRun (λ b. b) run_fault r work.old work.new
        (asked m.now (form_rows m.now.run.end.unknowns forms.now))) }
    ensures none { IfNone result (work.new ≡ work.old) }
{
    let before = work.counts();
    match ask(m, question, forms, work) {
        Ok(found) => Some(Ok(found)),
        Err(Stop::Refused(refusal)) => Some(Err(refusal)),
        Err(Stop::Long) => {
            work.back_to(before);
            None
        }
    }
}
