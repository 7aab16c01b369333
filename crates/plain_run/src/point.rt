ghost use Rattle.std.specs.Prelude.{◌≡◌, ◌<◌, ◌≤◌, length, map, take, IfOk, IfSome, IfNone};
ghost use Rattle.pip_model.specs.Contexts.{IsContext};
ghost use Rattle.pip_model.specs.Forms.{constant};
ghost use Rattle.pip_model.specs.Rows.{row_at};
ghost use Rattle.pip_model.specs.Run as model;
ghost use Rattle.pip_model.specs.Run.{row_component};
ghost use Rattle.pip_model.specs.Tree.{Component};
ghost use Rattle.pip_problem.specs.Faults.{run_fault};
ghost use Rattle.pip_problem.specs.Counts.{IsCountedRun};
ghost use Rattle.short_run.specs.Stops.{stop_fault};

use crate::tree::{constant_of, wide};
use affine_forms::{Form, WantOfMemory};
use pip_problem::{Refusal, Work};
use point_run::{Point, reduced_constant};
use point_turns::{ShortTableau, run_on};
use short_run::{ShortRows, Stop, start_short};
use std::alloc::Global;
use std::slice::from_ref;

// The value of the unknown of row i.
fn value_at(rows: &ShortTableau, i: usize) -> i128
    requires { i < length rows.now.rows }
    ensures { result ≡ constant (row_component (row_at rows.now.rows i)).form }
{
    let row = rows.row(i);
    let number = constant_of(row.constant);
    reduced_constant(wide(row.den), from_ref(&number))
}

// The unknowns' values.
fn values(alloc: Global, rows: &ShortTableau) -> Result<Point, WantOfMemory>
    requires { rows.now.unknowns ≤ length rows.now.rows }
    ensures { IfOk result (λ p. p ≡ map (λ (c : Component). constant c.form)
        (map row_component (take rows.now.unknowns rows.now.rows))) }
{
    let mut values = Vec::with_capacity(alloc, rows.unknowns())?;
    for i in 0..rows.unknowns() {
        values.push(value_at(rows, i))?;
    }
    Ok(Point::from_values(values))
}

// The point that the run of these forms as rows over so many places finds, in the room of other rows.
#[tactic(auto, using(point_turns::proofs::Pointing::point_by_run))]
fn plain_point(
    alloc: Global,
    rows: &mut ShortTableau,
    places: usize,
    forms: &[Form],
    work: &mut Work,
) -> Result<Option<Point>, Stop>
    requires forms { IsContext places forms.now }
    requires some { 1 ≤ places }
    ensures gives { IsCountedRun (λ o. o) stop_fault result work.old work.new (model.point places forms.now) }
{
    start_short(rows, places, forms)?;
    if !run_on::<ShortRows>(rows, true, usize::MAX, work)? {
        return Ok(None);
    }
    Ok(Some(values(alloc, rows)?))
}

/// A whole vector from 0 on, of one place or more, at which no form is below 0, and none where there is none, as
/// `find_point` gives it, in the room of other rows. None where a number on the way has more than 64 bits, and nothing is
/// counted then.
pub fn point_shortly(
    alloc: Global,
    rows: &mut ShortTableau,
    places: usize,
    forms: &[Form],
    work: &mut Work,
) -> Option<Result<Option<Point>, Refusal>>
    requires forms { IsContext places forms.now }
    requires some { 1 ≤ places }
    ensures gives { IfSome result (λ r. IsCountedRun (λ o. o) run_fault r work.old work.new
        (model.point places forms.now)) }
    ensures none { IfNone result (work.new ≡ work.old) }
{
    let before = work.counts();
    match plain_point(alloc, rows, places, forms, work) {
        Ok(point) => Some(Ok(point)),
        Err(Stop::Refused(refusal)) => Some(Err(refusal)),
        Err(Stop::Long) => {
            work.back_to(before);
            None
        }
    }
}
