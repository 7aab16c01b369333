ghost use Rattle.std.specs.Prelude.{◌≡◌, ◌^◌, ◌≤◌, pos, ◌≤ℤ◌, ◌<ℤ◌, length, All, IfErr, IfSome, IfNone};
ghost use Rattle.pip_model.specs.Contexts.{IsContext, IsPointRefusal};
ghost use Rattle.pip_model.specs.RefutedPoint.{IsRefutedPoint};
ghost use Rattle.pip_model.specs.Refuting as model;
ghost use Rattle.pip_model.specs.Refuting.{refute_by};
ghost use Rattle.pip_model.specs.Run.{point};
ghost use Rattle.affine_forms.specs.Checks.{Fits};
ghost use Rattle.pip_problem.specs.Faults.{run_fault};
ghost use Rattle.pip_problem.specs.Counts.{IsCountedRun};

use crate::constants::refute_at_once;
use crate::form_refute::refute_by_forms;
use crate::room::RefutationRoom;
use crate::short_refute::refute_shortly;
use crate::trace::Trace;
use crate::traced_rows::{TracedRows, refute_run};
use affine_forms::Form;
use certificate_parts::Refutation;
use pip_problem::{Refusal, Work};
use point_run::{Tableau, WideRows, start_rows};
use std::alloc::Global;

impl TracedRows for WideRows {
    fn trace_cut(
        alloc: Global,
        rows: &mut Tableau,
        i: usize,
        trace: &mut Trace,
    ) -> Result<(), Refusal> {
        trace.cut(alloc, &rows.row(i))?;
        Ok(())
    }

    fn trace_last(
        alloc: Global,
        rows: &mut Tableau,
        r: usize,
        trace: &mut Trace,
    ) -> Result<(), Refusal> {
        trace.close(alloc, r, &rows.row(r))?;
        Ok(())
    }
}

// The steps of the run without parameters over the forms as rows, none where it finds a point.
fn run(
    room: &mut RefutationRoom,
    forms: &[Form],
    places: &[i128],
    first: i128,
    work: &mut Work,
) -> Result<Option<Refutation>, Refusal>
    requires context { IsContext (length places.now) forms.now }
    requires places { All Fits places.now }
    requires some { pos 0 ≤ℤ first }
    requires few { first <ℤ pos (2 ^ 64) }
    ensures gives { IsCountedRun (λ o. o) run_fault result work.old work.new
        (refute_by (length places.now) forms.now places.now first) }
{
    let mut rows = start_rows(room.alloc, places.len(), forms)?;
    room.trace.restart(places, forms.len(), first)?;
    refute_run::<WideRows>(room.alloc, &mut rows, &mut room.trace, usize::MAX, work)
}

// The same in 64 bits: over short rows, and where they have many cuts over rows that are read off their forms. None where
// neither run gets to its end, and nothing is counted then.
fn refute_in_64_bits(
    room: &mut RefutationRoom,
    forms: &[Form],
    places: &[i128],
    first: i128,
    work: &mut Work,
) -> Option<Result<Option<Refutation>, Refusal>>
    requires context { IsContext (length places.now) forms.now }
    requires places { All Fits places.now }
    requires some { pos 0 ≤ℤ first }
    requires few { first <ℤ pos (2 ^ 64) }
    ensures gives { IfSome result (λ r. IsCountedRun (λ o. o) run_fault r work.old work.new
        (refute_by (length places.now) forms.now places.now first)) }
    ensures none { IfNone result (work.new ≡ work.old) }
{
    if let Some(found) = refute_shortly(room, forms, places, first, work) {
        return Some(found);
    }
    refute_by_forms(room, forms, places, first, work)
}

impl RefutationRoom {
    /// The steps by which the forms have no point, none where they have one.
    pub fn refute(
        &mut self,
        forms: &[Form],
        places: &[i128],
        first: i128,
        work: &mut Work,
    ) -> Result<Option<Refutation>, Refusal>
        requires context { IsContext (length places.now) forms.now }
        requires places { All Fits places.now }
        requires some { pos 0 ≤ℤ first }
        requires few { first <ℤ pos (2 ^ 64) }
        ensures gives { IsCountedRun (λ o. o) run_fault result work.old work.new
            (model.refute (length places.now) forms.now places.now first) }
    {
        if places.is_empty() && forms.is_empty() {
            return Ok(None);
        }
        if let Some(steps) = refute_at_once(self, forms, places)? {
            return Ok(Some(steps));
        }
        if let Some(found) = refute_in_64_bits(self, forms, places, first, work) {
            return found;
        }
        run(self, forms, places, first, work)
    }
}

/// The steps by which the forms have no point, None exactly where `find_point` gives a vector. They are made along its
/// run, with its counts and its refusals. A form's index is its place among them; `places` has the indices of the
/// places' forms, and `first` is that of the first step's form.
pub fn refute_forms(
    alloc: Global,
    forms: &[Form],
    places: &[i128],
    first: i128,
    work: &mut Work,
) -> Result<Option<Refutation>, Refusal>
    requires context { IsContext (length places.now) forms.now }
    requires places { All Fits places.now }
    requires some { pos 0 ≤ℤ first }
    requires few { first <ℤ pos (2 ^ 64) }
    ensures gives { IsCountedRun (λ o. o) run_fault result work.old work.new
        (model.refute (length places.now) forms.now places.now first) }
    ensures point { IsRefutedPoint (point (length places.now) forms.now work.old)
        (model.refute (length places.now) forms.now places.now first work.old) }
    ensures refusal { IfErr result (λ e. IfSome (run_fault e) IsPointRefusal) }
{
    let mut room = RefutationRoom::new(alloc);
    room.refute(forms, places, first, work)
}
