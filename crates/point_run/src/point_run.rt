ghost use Rattle.std.specs.Prelude.{◌≡◌, ◌≤◌, length};
ghost use Rattle.pip_model.specs.Contexts.{IsContext};
ghost use Rattle.pip_model.specs.Run as model;
ghost use Rattle.pip_problem.specs.Faults.{run_fault};
ghost use Rattle.pip_problem.specs.Counts.{IsCountedRun};
ghost use Rattle.point_turns.specs.Points.{point_of};

use crate::point::{Point, values};
use crate::point_turn::WideRows;
use crate::rows::start_rows;
use affine_forms::Form;
use gomory_cut::Tableau;
use pip_problem::{Refusal, Work};
use point_turns::run_on;
use std::alloc::Global;

// The run without parameters of these rows: the point that it finds.
fn run_rows(alloc: Global, rows: &mut Tableau, work: &mut Work) -> Result<Option<Point>, Refusal>
    requires width { rows.old.width ≡ 0 }
    requires rows { rows.old.unknowns ≤ length rows.old.rows }
    ensures gives { IsCountedRun (λ o. o) run_fault result work.old work.new
        (point_of rows.old.unknowns rows.old.rows) }
{
    if !run_on::<WideRows>(rows, true, usize::MAX, work)? {
        return Ok(None);
    }
    Ok(Some(values(alloc, rows)?))
}

// The run without parameters, over the forms as rows.
fn run(
    alloc: Global,
    places: usize,
    forms: &[Form],
    work: &mut Work,
) -> Result<Option<Point>, Refusal>
    requires { IsContext places forms.now }
    ensures gives { IsCountedRun (λ o. o) run_fault result work.old work.new (model.point_run places forms.now) }
{
    let mut rows = start_rows(alloc, places, forms)?;
    run_rows(alloc, &mut rows, work)
}

/// A whole vector from 0 on at which no form is below 0, none where there is none.
#[tactic(auto, using(point_turns::proofs::Pointing::point_by_run))]
pub fn find_point(
    alloc: Global,
    places: usize,
    forms: &[Form],
    work: &mut Work,
) -> Result<Option<Point>, Refusal>
    requires { IsContext places forms.now }
    ensures gives { IsCountedRun (λ o. o) run_fault result work.old work.new (model.point places forms.now) }
{
    if places == 0 && forms.is_empty() {
        return Ok(Some(Point::empty(alloc)));
    }
    run(alloc, places, forms, work)
}
