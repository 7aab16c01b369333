ghost use Rattle.std.specs.Prelude.{◌≡◌, ℕ, ◌+◌, ◌<◌, ◌++◌, length, get_or, IfSome, OnOk};
ghost use Rattle.pip_model.specs.Forms.{entry};
ghost use Rattle.pip_model.specs.Refuting.{refute_from, with_step, last_step};
ghost use Rattle.pip_model.specs.Rows.{row_at};
ghost use Rattle.pip_problem.specs.Counts.{IsCountedRun};
ghost use Rattle.kept_run.specs.Remembered.{IsStopped};
ghost use Rattle.short_run.specs.Stops.{stop_fault};
ghost use Rattle.kept_run.specs.Traces.{IsTraced, IsClosing, exchanges};
ghost use Rattle.point_run.specs.Turns.{node_of};

use affine_forms::WantOfMemory;
use certificate_parts::Refutation;
use kept_run::{Question, Remembered, Replay, put_behind};
use pip_problem::Work;
use refutation_steps::{Trace, refute_on};
use short_run::{ShortTableau, Stop};
use std::alloc::Global;

// The trace after the remembered pivots.
pub(crate) fn exchange_all(m: &Replay, trace: &mut Trace)
    requires lengths { length m.now.rows.items ≡ length m.now.columns.items }
    requires rows { (i : ℕ) → i < length m.now.columns.items → get_or m.now.rows.items i 0 < length trace.old.rows }
    requires columns { (i : ℕ) → i < length m.now.columns.items
        → get_or m.now.columns.items i 0 < length trace.old.columns }
    ensures { trace.new ≡ exchanges m.now.rows.items m.now.columns.items trace.old }
{
    for i in 0..m.columns.len() {
        trace.exchange(m.rows[i], m.columns[i]);
    }
}

// The first row below 0, where no column enters there.
fn closing_row(rows: &ShortTableau) -> Option<usize>
    ensures { IfSome result (IsClosing rows.now.rows) }
{
    match rows.first_below() {
        None => None,
        Some(r) => {
            if rows.has_positive(r) {
                return None;
            }
            Some(r)
        }
    }
}

// The step at row r, behind so many others, which is below 0 and has no positive coefficient.
fn trace_behind(
    front: usize,
    rows: &ShortTableau,
    r: usize,
    trace: &mut Trace,
) -> Result<(), WantOfMemory>
    requires row { r < length rows.now.rows }
    requires index { front + r < length trace.old.rows }
    requires columns { length trace.old.columns ≡ rows.now.unknowns }
    ensures { OnOk result (trace.new ≡ with_step trace.old
        (last_step (row_at rows.now.rows r) (entry trace.old.rows (front + r)) trace.old.columns)) }
{
    let Some(at) = front.checked_add(r) else {
        return Err(WantOfMemory);
    };
    trace.close_short(at, rows, r)
}

// Goes on from a remembered run with the question's rows behind its own, with its trace: the steps, none where it finds
// a point. Where the run shows a point and ends at the first row below 0, no rows are copied.
pub(crate) fn refute_with(
    alloc: Global,
    m: &Remembered,
    question: &mut Question,
    trace: &mut Trace,
    work: &mut Work,
) -> Result<Option<Refutation>, Stop>
    requires stopped { IsStopped m.now }
    requires unknowns { question.old.row.unknowns ≡ m.now.run.end.unknowns }
    requires traced { IsTraced m.now.run.end.unknowns (m.now.run.end.rows ++ question.old.row.rows) trace.old }
    ensures gives { IsCountedRun (λ o. o) stop_fault result work.old work.new
        (refute_from m.now.run.end.unknowns trace.old (node_of (m.now.run.end.rows ++ question.old.row.rows))) }
{
    if m.at_end {
        if let Some(r) = closing_row(&question.row) {
            trace_behind(m.run.end.rows(), &question.row, r, trace)?;
            return Ok(Some(trace.take_steps()));
        }
    }
    put_behind(&m.run, &question.row, &mut question.run)?;
    refute_on(alloc, &mut question.run, trace, work)
}
