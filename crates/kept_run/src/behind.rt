ghost use Rattle.std.specs.Prelude.{◌≡◌, ℕ, ◌<◌, None, ◌++◌, length, get_or, IfErr, OnOk};
ghost use Rattle.pip_model.specs.Contexts.{IsContext};
ghost use Rattle.pip_model.specs.Rows.{row_at};
ghost use Rattle.pip_problem.specs.Counts.{IsCountedRun};
ghost use Rattle.short_run.specs.Stops.{stop_fault};
ghost use Rattle.kept_run.specs.Remembered.{IsFormed, turned, replayed};
ghost use Rattle.short_run.specs.Points.{form_rows};

use crate::remembered::Replay;
use affine_forms::{Form, WantOfMemory};
use pip_problem::Work;
use short_run::{ShortTableau, Stop, push_short};

// A remembered pivot is counted, and turns these rows.
#[inline(always)]
fn turn_rows(rows: &mut ShortTableau, m: &Replay, i: usize, work: &mut Work) -> Result<(), Stop>
    requires formed { IsFormed m.now }
    requires pivot { i < length m.now.columns.items }
    requires unknowns { rows.old.unknowns ≡ m.now.end.unknowns }
    ensures gives { IsCountedRun (λ x. rows.new.rows) stop_fault result work.old work.new
        (turned (row_at m.now.pivots.rows i) (get_or m.now.columns.items i 0) rows.old.rows) }
    ensures unknowns { rows.new.unknowns ≡ rows.old.unknowns }
    ensures number { OnOk result (length rows.new.rows ≡ length rows.old.rows) }
{
    work.count_pivot()?;
    if !rows.eliminate(&m.pivots, i, m.columns[i]) {
        return Err(Stop::Long);
    }
    Ok(())
}

// Turns the rows by the pivots in order.
#[inline(always)]
fn replay(m: &Replay, rows: &mut ShortTableau, work: &mut Work) -> Result<(), Stop>
    requires formed { IsFormed m.now }
    requires unknowns { rows.old.unknowns ≡ m.now.end.unknowns }
    ensures gives { IsCountedRun (λ x. rows.new.rows) stop_fault result work.old work.new
        (replayed m.now.pivots.rows m.now.columns.items rows.old.rows) }
    ensures unknowns { rows.new.unknowns ≡ m.now.end.unknowns }
    ensures number { OnOk result (length rows.new.rows ≡ length rows.old.rows) }
{
    for i in 0..m.columns.len() {
        turn_rows(rows, m, i, work)?;
    }
    Ok(())
}

// Starts again with the rows of these forms alone, whose numbers have to be short.
#[inline(always)]
fn start_forms(rows: &mut ShortTableau, unknowns: usize, forms: &[Form]) -> Result<(), Stop>
    requires { IsContext unknowns forms.now }
    ensures value { OnOk result (rows.new ≡ record { unknowns = unknowns; width = 0; rows = form_rows unknowns forms.now }) }
    ensures free { IfErr result (λ e. stop_fault e ≡ None) }
{
    rows.restart(unknowns);
    for form in forms {
        push_short(rows, form)?;
    }
    Ok(())
}

// Adds the rows of another tableau over the same columns.
#[inline(always)]
fn push_rows(rows: &mut ShortTableau, more: &ShortTableau) -> Result<(), WantOfMemory>
    requires { more.now.unknowns ≡ rows.old.unknowns }
    ensures { OnOk result (rows.new ≡ record rows.old { rows = rows.old.rows ++ more.now.rows }) }
{
    for i in 0..more.rows() {
        rows.push_copy(more, i)?;
    }
    Ok(())
}

/// Makes the rows of further forms, turned by the remembered pivots.
#[inline(always)]
pub fn rows_behind(
    m: &Replay,
    rows: &mut ShortTableau,
    forms: &[Form],
    work: &mut Work,
) -> Result<(), Stop>
    requires formed { IsFormed m.now }
    requires context { IsContext m.now.end.unknowns forms.now }
    ensures gives { IsCountedRun (λ x. rows.new.rows) stop_fault result work.old work.new
        (replayed m.now.pivots.rows m.now.columns.items (form_rows m.now.end.unknowns forms.now)) }
    ensures unknowns { OnOk result (rows.new.unknowns ≡ m.now.end.unknowns) }
    ensures number { OnOk result (length rows.new.rows ≡ length forms.now) }
{
    start_forms(rows, m.end.unknowns(), forms)?;
    replay(m, rows, work)?;
    Ok(())
}

/// Makes the last rows of a run, with these behind them. After a refusal the rows are any.
#[inline(always)]
pub fn put_behind(
    m: &Replay,
    rows: &ShortTableau,
    run: &mut ShortTableau,
) -> Result<(), WantOfMemory>
    requires { rows.now.unknowns ≡ m.now.end.unknowns }
    ensures { OnOk result (run.new ≡ record m.now.end { rows = m.now.end.rows ++ rows.now.rows }) }
{
    run.copy_from(&m.end)?;
    push_rows(run, rows)?;
    Ok(())
}
