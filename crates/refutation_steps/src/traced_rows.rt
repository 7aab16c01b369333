ghost use Rattle.std.specs.Prelude.{◌≡◌, ◌<◌, ◌≤◌, None, length, IfErr, OnOk};
ghost use Rattle.pip_model.specs.Forms.{entry};
ghost use Rattle.pip_model.specs.Refuting.{refute_from, with_step, last_step};
ghost use Rattle.pip_model.specs.Rows.{row_at};
ghost use Rattle.pip_problem.specs.Counts.{IsCountedRun};
ghost use Rattle.point_turns.specs.Traces.{IsTraced, with_cut};
ghost use Rattle.point_run.specs.Turns.{node_of};

use crate::trace::Trace;
use certificate_parts::Refutation;
use pip_problem::Work;
use point_turns::{PointRows, PointTurn, take_turn};
use std::alloc::Global;

// Rows of which a run's steps are traced.
pub(crate) trait TracedRows: PointRows {
    // The step of the cut by row i.
    fn trace_cut(
        alloc: Global,
        rows: &mut Self::Rows,
        i: usize,
        trace: &mut Trace,
    ) -> Result<(), Self::Fault>
        requires width { Self.is_width (Self.table rows.old).width }
        requires row { i < length (Self.table rows.old).rows }
        requires traced { length trace.old.columns ≡ (Self.table rows.old).unknowns }
        ensures ok { OnOk result (trace.new ≡ with_cut trace.old (row_at (Self.table rows.old).rows i)) }
        ensures free { IfErr result (λ e. Self.fault e ≡ None) }
        ensures kept { Self.table rows.new ≡ Self.table rows.old };

    // The step at row r, which is below 0 and has no positive coefficient.
    fn trace_last(
        alloc: Global,
        rows: &mut Self::Rows,
        r: usize,
        trace: &mut Trace,
    ) -> Result<(), Self::Fault>
        requires width { Self.is_width (Self.table rows.old).width }
        requires row { r < length (Self.table rows.old).rows }
        requires traced { IsTraced (Self.table rows.old).unknowns (Self.table rows.old).rows trace.old }
        ensures ok { OnOk result (trace.new ≡ with_step trace.old
            (last_step (row_at (Self.table rows.old).rows r) (entry trace.old.rows r) trace.old.columns)) }
        ensures free { IfErr result (λ e. Self.fault e ≡ None) };
}

// The run to its end, or until it has more rows than these, with its trace: the steps, none where it found a point.
pub(crate) fn refute_run<R: TracedRows>(
    alloc: Global,
    rows: &mut R::Rows,
    trace: &mut Trace,
    most: usize,
    work: &mut Work,
) -> Result<Option<Refutation>, R::Fault>
    requires width { R.is_width (R.table rows.old).width }
    requires rows { (R.table rows.old).unknowns ≤ length (R.table rows.old).rows }
    requires traced { IsTraced (R.table rows.old).unknowns (R.table rows.old).rows trace.old }
    ensures gives { IsCountedRun (λ o. o) R.fault result work.old work.new
        (refute_from (R.table rows.old).unknowns trace.old (node_of (R.table rows.old).rows)) }
{
    loop {
        R::check_rows(rows, most)?;
        match take_turn::<R>(rows, true, work)? {
            PointTurn::Bottom(r) => {
                R::trace_last(alloc, rows, r, trace)?;
                return Ok(Some(trace.take_steps()));
            }
            PointTurn::List => return Ok(None),
            PointTurn::Pivot(r, c) => trace.exchange(r, c),
            PointTurn::Cut(i) => R::trace_cut(alloc, rows, i, trace)?,
        }
    }
}
