ghost use Rattle.std.specs.Prelude.{◌≡◌, ◌^◌, ◌≤◌, pos, ◌≤ℤ◌, ◌<ℤ◌, length, All, IfSome, IfNone};
ghost use Rattle.pip_model.specs.Contexts.{IsContext};
ghost use Rattle.pip_model.specs.Refuting.{refute_by, refute_from};
ghost use Rattle.affine_forms.specs.Checks.{Fits};
ghost use Rattle.pip_problem.specs.Faults.{run_fault};
ghost use Rattle.pip_problem.specs.Counts.{IsCountedRun};
ghost use Rattle.short_run.specs.Stops.{stop_fault};
ghost use Rattle.point_turns.specs.Traces.{IsTraced};
ghost use Rattle.point_run.specs.Turns.{node_of};

use crate::room::RefutationRoom;
use crate::trace::Trace;
use crate::traced_rows::{TracedRows, refute_run};
use affine_forms::Form;
use certificate_parts::Refutation;
use pip_problem::{Refusal, Work};
use point_run::view_of;
use short_run::{ShortRows, ShortTableau, Stop, start_short};
use std::alloc::Global;

// How many cuts a run makes in short rows.
const MOST_CUTS: usize = 32;

impl TracedRows for ShortRows {
    fn trace_cut(
        alloc: Global,
        rows: &mut ShortTableau,
        i: usize,
        trace: &mut Trace,
    ) -> Result<(), Stop> {
        let numbers = rows.wide_row(alloc, i)?;
        trace.cut(alloc, &view_of(&numbers, rows.unknowns(), true))?;
        Ok(())
    }

    fn trace_last(
        _: Global,
        rows: &mut ShortTableau,
        r: usize,
        trace: &mut Trace,
    ) -> Result<(), Stop> {
        trace.close_short(r, rows, r)?;
        Ok(())
    }
}

/// The run over short rows to its end, with its trace: the steps, none where it found a point. It stops at its 33rd
/// cut, since each cut is a row more that every pivot turns.
pub fn refute_on(
    alloc: Global,
    rows: &mut ShortTableau,
    trace: &mut Trace,
    work: &mut Work,
) -> Result<Option<Refutation>, Stop>
    requires rows { rows.old.unknowns ≤ length rows.old.rows }
    requires traced { IsTraced rows.old.unknowns rows.old.rows trace.old }
    ensures gives { IsCountedRun (λ o. o) stop_fault result work.old work.new
        (refute_from rows.old.unknowns trace.old (node_of rows.old.rows)) }
{
    let most = rows.rows().saturating_add(MOST_CUTS);
    refute_run::<ShortRows>(alloc, rows, trace, most, work)
}

// The steps of the run without parameters over the forms as short rows, none where it finds a point.
fn run(
    room: &mut RefutationRoom,
    forms: &[Form],
    places: &[i128],
    first: i128,
    work: &mut Work,
) -> Result<Option<Refutation>, Stop>
    requires context { IsContext (length places.now) forms.now }
    requires places { All Fits places.now }
    requires some { pos 0 ≤ℤ first }
    requires few { first <ℤ pos (2 ^ 64) }
    ensures gives { IsCountedRun (λ o. o) stop_fault result work.old work.new
        (refute_by (length places.now) forms.now places.now first) }
{
    start_short(&mut room.rows, places.len(), forms)?;
    room.trace.restart(places, forms.len(), first)?;
    refute_on(room.alloc, &mut room.rows, &mut room.trace, work)
}

// The same; None where a number is not short, or there are many cuts, and nothing is counted then.
pub(crate) fn refute_shortly(
    room: &mut RefutationRoom,
    forms: &[Form],
    places: &[i128],
    first: i128,
    work: &mut Work,
) -> Option<Result<Option<Refutation>, Refusal>>
    requires context { IsContext (length places.now) forms.now }
    requires places { All Fits places.now }
    requires some { pos 0 ≤ℤ first }
    requires few { first <ℤ pos (2 ^ 64) }
    ensures gives { IfSome result (λ r. IsCountedRun (λ o. o) run_fault r work.old work.new
        (refute_by (length places.now) forms.now places.now first)) }
    ensures none { IfNone result (work.new ≡ work.old) }
{
    let before = work.counts();
    match run(room, forms, places, first, work) {
        Ok(found) => Some(Ok(found)),
        Err(Stop::Refused(refusal)) => Some(Err(refusal)),
        Err(Stop::Long) => {
            work.back_to(before);
            None
        }
    }
}
