ghost use Rattle.std.specs.Prelude.{◌≡◌, ◌<◌, ◌≤◌, [], ◌∷◌, length, map, take, All, IfOk, IfSome, IfNone};
ghost use Rattle.pip_model.specs.Contexts.{IsContext};
ghost use Rattle.pip_model.specs.Forms.{widen_to};
ghost use Rattle.pip_model.specs.Limits.{most_unknowns};
ghost use Rattle.pip_model.specs.Rows.{row_at, start};
ghost use Rattle.pip_model.specs.Run.{row_component, run_from};
ghost use Rattle.pip_model.specs.Tree.{Leaf};
ghost use Rattle.affine_forms.specs.Checks.{Fits};
ghost use Rattle.quast.specs.Components.{IsComponent};
ghost use Rattle.pip_problem.specs.Faults.{run_fault};
ghost use Rattle.pip_problem.specs.Counts.{IsCountedRun};
ghost use Rattle.short_run.specs.Stops.{stop_fault};
ghost use Rattle.point_turns.specs.Turns.{node_of};
ghost use Rattle.plain_laws.specs.Plain.{plain_setting};
ghost use Rattle.plain_run.specs.Trees.{tree_in};

use affine_forms::{Form, WantOfMemory};
use pip_problem::{Refusal, Work};
use point_turns::{ShortTableau, run_on};
use quast::{Component, Quast};
use short_run::{ShortRows, Stop, start_short};
use spare_forms::Spares;

/// A problem without parameters: the number of its unknowns, the forms of its rows, and whether whole points are asked
/// for.
#[derive(Clone, Copy)]
pub struct PlainProblem<'a> {
    pub unknowns: usize,
    pub forms: &'a [Form],
    pub integer: bool,
}

// The same number.
#[inline(always)]
pub(crate) fn wide(x: i64) -> i128
    ensures { result ≡ x }
{
    x as i128
}

// The constant of a row without parameters.
#[inline(always)]
pub(crate) fn constant_of(constant: &[i64]) -> i128
    requires { length constant.now ≡ 1 }
    ensures value { result ∷ [] ≡ constant.now }
    ensures fits { Fits result }
{
    wide(constant[0])
}

// The form of a constant alone, in a spare room.
fn constant_form(spares: &mut Spares, number: i128) -> Result<Form, WantOfMemory>
    requires { Fits number }
    ensures { IfOk result (λ form. form ≡ number ∷ []) }
{
    let mut entries = spares.take();
    entries.push(number)?;
    Ok(Form::from_entries(entries))
}

// The component of row i: its constant over the denominator, in lowest terms.
fn component(spares: &mut Spares, rows: &ShortTableau, i: usize) -> Result<Component, WantOfMemory>
    requires { i < length rows.now.rows }
    ensures value { IfOk result (λ c. c ≡ row_component (row_at rows.now.rows i)) }
    ensures component { IfOk result (IsComponent 0) }
{
    let row = rows.row(i);
    let constant = constant_form(spares, constant_of(row.constant))?;
    Ok(Component::reduced(wide(row.den), constant))
}

// The components of the unknowns' rows.
fn components(spares: &mut Spares, rows: &ShortTableau) -> Result<Vec<Component>, WantOfMemory>
    requires { rows.now.unknowns ≤ length rows.now.rows }
    ensures value { IfOk result (λ v. v.items ≡ map row_component (take rows.now.unknowns rows.now.rows)) }
    ensures components { IfOk result (λ v. All (IsComponent 0) v.items) }
{
    let mut made = Vec::with_capacity(spares.allocator(), rows.unknowns())?;
    for i in 0..rows.unknowns() {
        let component = component(spares, rows, i)?;
        made.push(component)?;
    }
    Ok(made)
}

// The list of the unknowns' values.
fn leaf(spares: &mut Spares, rows: &ShortTableau) -> Result<Quast, WantOfMemory>
    requires rows { rows.now.unknowns ≤ length rows.now.rows }
    requires some { 1 ≤ rows.now.unknowns }
    requires few { rows.now.unknowns ≤ most_unknowns }
    ensures tree { IfOk result (λ tree. tree.tree ≡ Leaf (map row_component (take rows.now.unknowns rows.now.rows))) }
    ensures width { IfOk result (λ tree. tree.width ≡ 0) }
{
    Ok(Quast::list(components(spares, rows)?))
}

// The tree of a problem's run, in the room of other rows: the list of the values found, or bottom.
fn plain_tree(
    spares: &mut Spares,
    rows: &mut ShortTableau,
    problem: &PlainProblem,
    work: &mut Work,
) -> Result<Quast, Stop>
    requires forms { IsContext problem.now.unknowns problem.now.forms.now }
    requires some { 1 ≤ problem.now.unknowns }
    requires few { problem.now.unknowns ≤ most_unknowns }
    ensures gives { IsCountedRun tree_in stop_fault result work.old work.new
        (run_from (plain_setting problem.now.unknowns problem.now.integer)
        (node_of (start problem.now.unknowns 0 (map (widen_to problem.now.unknowns) problem.now.forms.now)))) }
    ensures width { IfOk result (λ tree. tree.width ≡ 0) }
{
    start_short(rows, problem.unknowns, problem.forms)?;
    if run_on::<ShortRows>(rows, problem.integer, usize::MAX, work)? {
        Ok(leaf(spares, rows)?)
    } else {
        Ok(Quast::bottom(0))
    }
}

/// The tree of a problem's run, in the room of other rows: the list of the values found, or bottom, with the counts and
/// the refusals of that run. None where a number on the way has more than 64 bits, and nothing is counted then.
pub fn tree_shortly(
    spares: &mut Spares,
    rows: &mut ShortTableau,
    problem: &PlainProblem,
    work: &mut Work,
) -> Option<Result<Quast, Refusal>>
    requires forms { IsContext problem.now.unknowns problem.now.forms.now }
    requires some { 1 ≤ problem.now.unknowns }
    requires few { problem.now.unknowns ≤ most_unknowns }
    ensures gives { IfSome result (λ r. IsCountedRun tree_in run_fault r work.old work.new
        (run_from (plain_setting problem.now.unknowns problem.now.integer)
        (node_of (start problem.now.unknowns 0 (map (widen_to problem.now.unknowns) problem.now.forms.now))))) }
    ensures width { IfSome result (λ r. IfOk r (λ tree. tree.width ≡ 0)) }
    ensures none { IfNone result (work.new ≡ work.old) }
{
    let before = work.counts();
    match plain_tree(spares, rows, problem, work) {
        Ok(tree) => Some(Ok(tree)),
        Err(Stop::Refused(refusal)) => Some(Err(refusal)),
        Err(Stop::Long) => {
            work.back_to(before);
            None
        }
    }
}
