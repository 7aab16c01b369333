ghost use Rattle.std.specs.Prelude.{◌≡◌, ◌^◌, ◌<◌, ◌≤◌, [], IfOk, OnOk, IsTrue, map};
ghost use Rattle.pip_model.specs.Forms.{tighten};
ghost use Rattle.pip_model.specs.Limits.{most_nesting};
ghost use Rattle.pip_model.specs.Rows.{started, start};
ghost use Rattle.pip_model.specs.WellFormed.{IsProblem};
ghost use Rattle.pip_solve.specs.Frames.{HasRoom};
ghost use Rattle.pip_solve.specs.Starts.{IsFirstPath};

use affine_forms::{Form, WantOfMemory};
use node_turn::{Context, NodeRows, Path};
use pip_problem::Problem;
use std::alloc::Global;

// Adds the forms of a problem's context to an empty one, with room for so many more.
pub(crate) fn add_forms(
    problem: &Problem,
    context: &mut Context,
    more: usize,
) -> Result<(), WantOfMemory>
    requires width { context.old.width ≡ problem.now.params }
    requires empty { context.old.forms ≡ [] }
    requires few { more < 2 ^ 32 }
    ensures width { OnOk result (context.new.width ≡ problem.now.params) }
    ensures forms { OnOk result (context.new.forms ≡ problem.now.context) }
    ensures room { OnOk result (more ≤ context.new.spare) }
{
    let forms = problem.context();
    context.reserve(forms.len() + more)?;
    for form in forms {
        let copy = context.copy_form(form.as_slice())?;
        context.add(copy);
    }
    Ok(())
}

// Makes of a path that to a problem's first node, but for the forms of its context.
fn restart_path(problem: &Problem, path: &mut Path)
    ensures { IsFirstPath (record problem.now { context = [] }) path.new }
{
    path.integer = problem.integer();
    path.depth = 0;
    path.quotients.restart(problem.params());
    path.context.restart(problem.params());
}

// Makes of a path that to a problem's first node, with room in its context for the forms of so many levels below it,
// at most two for each.
pub(crate) fn start_path(
    problem: &Problem,
    levels: usize,
    path: &mut Path,
) -> Result<(), WantOfMemory>
    requires few { levels ≤ most_nesting }
    ensures first { OnOk result (IsFirstPath problem.now path.new) }
    ensures room { OnOk result (HasRoom levels path.new) }
{
    restart_path(problem, path);
    add_forms(problem, &mut path.context, 2 * levels + 1)
}

// Tightened copies of the rows.
pub(crate) fn tighten_rows(alloc: Global, rows: &[Form]) -> Result<Vec<Form>, WantOfMemory>
    ensures { IfOk result (λ forms. forms.items ≡ map tighten rows.now) }
{
    let mut forms = Vec::with_capacity(alloc, rows.len())?;
    for row in rows {
        let mut form = row.try_clone(alloc)?;
        form.tighten();
        forms.push(form)?;
    }
    Ok(forms)
}

// Whether tightening leaves each row as it is.
pub(crate) fn are_tight(rows: &[Form]) -> bool
    ensures { IsTrue result → map tighten rows.now ≡ rows.now }
{
    for row in rows {
        if !row.is_tight() {
            return false;
        }
    }
    true
}

// Makes of rows over a problem's unknowns and parameters its first ones; in integer mode they are tightened.
// Where they are tight, no copies are made.
pub(crate) fn start_rows(
    alloc: Global,
    problem: &Problem,
    rows: &mut NodeRows,
) -> Result<(), WantOfMemory>
    requires unknowns { rows.old.unknowns ≡ problem.now.unknowns }
    requires width { rows.old.width ≡ problem.now.params }
    ensures rows { OnOk result (rows.new
        ≡ record {
          unknowns = problem.now.unknowns;
          width = problem.now.params;
          rows = start problem.now.unknowns problem.now.params
              (started problem.now.integer problem.now.rows);
        }) }
    ensures problem { IsProblem problem.now }
{
    if problem.integer() && !are_tight(problem.rows()) {
        let forms = tighten_rows(alloc, problem.rows())?;
        rows.restart(&forms)
    } else {
        rows.restart(problem.rows())
    }
}
