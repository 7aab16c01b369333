ghost use Rattle.std.specs.Prelude.{◌≡◌, ◌^◌, ◌≤◌, pos, ◌≤ℤ◌, ◌<ℤ◌, length, All, IfSome, IfNone};
ghost use Rattle.pip_model.specs.Contexts.{IsContext};
ghost use Rattle.pip_model.specs.Refuting.{refute_by};
ghost use Rattle.affine_forms.specs.Checks.{Fits};
ghost use Rattle.pip_problem.specs.Faults.{run_fault};
ghost use Rattle.pip_problem.specs.Counts.{IsCountedRun};
ghost use Rattle.short_run.specs.Stops.{stop_fault};

use crate::room::RefutationRoom;
use crate::trace::Trace;
use crate::traced_rows::{TracedRows, refute_run};
use affine_forms::Form;
use certificate_parts::Refutation;
use form_run::{ReadRows, RowRoom, start_by_forms};
use pip_problem::{Refusal, Work};
use point_run::view_of;
use short_run::Stop;
use std::alloc::Global;

impl TracedRows for ReadRows {
    fn trace_cut(alloc: Global, t: &mut ReadRows, i: usize, trace: &mut Trace) -> Result<(), Stop> {
        t.rows.read_row(i, &mut t.room)?;
        let numbers = t.room.row.wide_row(alloc, 0)?;
        trace.cut(alloc, &view_of(&numbers, t.room.row.unknowns(), true))?;
        Ok(())
    }

    fn trace_last(_: Global, t: &mut ReadRows, r: usize, trace: &mut Trace) -> Result<(), Stop> {
        t.rows.read_row(r, &mut t.room)?;
        trace.close_short(r, &t.room.row, 0)?;
        Ok(())
    }
}

// The steps of the run without parameters over rows that are read off these forms, none where it finds a point.
fn run(
    room: &mut RefutationRoom,
    forms: &[Form],
    places: &[i128],
    first: i128,
    work: &mut Work,
) -> Result<Option<Refutation>, Stop>
    requires context { IsContext (length places.now) forms.now }
    requires places { All Fits places.now }
    requires some { pos 0 ≤ℤ first }
    requires few { first <ℤ pos (2 ^ 64) }
    ensures gives { IsCountedRun (λ o. o) stop_fault result work.old work.new
        (refute_by (length places.now) forms.now places.now first) }
{
    let mut row = RowRoom::new(room.alloc);
    let rows = start_by_forms(room.alloc, places.len(), forms, &[], &mut row)?;
    let mut read = ReadRows { rows, room: row };
    room.trace.restart(places, forms.len(), first)?;
    refute_run::<ReadRows>(room.alloc, &mut read, &mut room.trace, usize::MAX, work)
}

// The same; None where a number is not short, or the form of a cut is not found, and nothing is counted then.
pub(crate) fn refute_by_forms(
    room: &mut RefutationRoom,
    forms: &[Form],
    places: &[i128],
    first: i128,
    work: &mut Work,
) -> Option<Result<Option<Refutation>, Refusal>>
    requires context { IsContext (length places.now) forms.now }
    requires places { All Fits places.now }
    requires some { pos 0 ≤ℤ first }
    requires few { first <ℤ pos (2 ^ 64) }
    ensures gives { IfSome result (λ r. IsCountedRun (λ o. o) run_fault r work.old work.new
        (refute_by (length places.now) forms.now places.now first)) }
    ensures none { IfNone result (work.new ≡ work.old) }
{
    let before = work.counts();
    match run(room, forms, places, first, work) {
        Ok(found) => Some(Ok(found)),
        Err(Stop::Refused(refusal)) => Some(Err(refusal)),
        Err(Stop::Long) => {
            work.back_to(before);
            None
        }
    }
}
