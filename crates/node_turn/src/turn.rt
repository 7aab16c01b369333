ghost use Rattle.std.specs.Prelude.{◌≡◌, ℕ, ◌+◌, ◌-◌, ◌^◌, ◌≤◌, ◌<◌, Bool, Option, None, option_map, map, take, length, All, IfOk, IfSome, OnOk, if◌then◌else◌};
ghost use Rattle.pip_model.specs.Limits.{most_unknowns};
ghost use Rattle.pip_model.specs.Rows.{row_at, first_fraction};
ghost use Rattle.pip_model.specs.Run as model;
ghost use Rattle.pip_model.specs.Run.{turn_by, MinusAt, AllPlus, row_component};
ghost use Rattle.pip_model.specs.Tree.{Leaf};
ghost use Rattle.pip_problem.specs.Faults.{run_fault};
ghost use Rattle.pip_problem.specs.Counts.{IsCountedRun};
ghost use Rattle.gomory_cut.specs.Fractions.{IsFractionOf};
ghost use Rattle.sign_split.specs.Scoped.{IsKeptContext};
ghost use Rattle.quast.specs.Components.{IsComponent};
ghost use Rattle.node_turn.specs.Known.{AreKnown};
ghost use Rattle.node_turn.specs.Nodes.{node_of, setting_of, IsNode, IsKept};
ghost use Rattle.node_turn.specs.Signs.{signs_of, SignsAre};
ghost use Rattle.node_turn.specs.Turns.{turn_of, counted_split, TurnIs};

use crate::cut::cut_turn;
use crate::known::NonnegativeForms;
use crate::path::Path;
use crate::scan::{Signs, scan};
use affine_forms::{Form, WantOfMemory};
use gomory_cut::{FractionRow, find_fraction};
use new_parameters::Quotient;
use node_rows::{NodeRows, enter_and_pivot};
use pip_problem::Refusal;
use quast::{Component, Quast};
use sign_split::{Context, Work};
use tableau::Tableau;

/// What a turn makes of a node: its tree, a node to go on from, an if of a condition, or a new parameter by the row at
/// a place.
#[derive(Drop)]
pub enum Turn {
    Closed(Quast),
    Again,
    Split(Form),
    Below(usize, Quotient),
}

// At a row below 0: bottom where no column enters, else a pivot.
fn pivot_turn(rows: &mut NodeRows, r: usize, work: &mut Work) -> Result<Turn, Refusal>
    requires rows { rows.old.unknowns ≤ length rows.old.rows }
    requires row { r < length rows.old.rows }
    ensures gives { (path : Path) → IsCountedRun (turn_of rows.new path) run_fault result work.old work.new
        (turn_by (setting_of rows.old path) (node_of rows.old path) (MinusAt r)) }
    ensures turn { (path : Path) (most : ℕ) → IfOk result (TurnIs rows.old rows.new path most) }
{
    if enter_and_pivot(rows, r, work)? {
        Ok(Turn::Again)
    } else {
        Ok(Turn::Closed(Quast::bottom(rows.width())))
    }
}

// At a row of both signs: an if of its condition. It is counted first, and then the nesting is raised.
fn split_turn(condition: Form, depth: u64, work: &mut Work) -> Result<Turn, Refusal>
    requires { depth < 2 ^ 64 - 1 }
    ensures gives { IsCountedRun (λ turn. tt) run_fault result work.old work.new (counted_split (depth + 1)) }
    ensures split { IfOk result (λ turn. turn ≡ Turn.Split condition) }
    ensures room { OnOk result (depth + 1 ≤ work.new.budget.nesting) }
{
    work.count_split()?;
    work.check_nesting(depth + 1)?;
    Ok(Turn::Split(condition))
}

// The component of row i: its constant form over the denominator, in lowest terms, in a room that the context kept.
fn component(context: &mut Context, rows: &Tableau, i: usize) -> Result<Component, WantOfMemory>
    requires { i < length rows.now.rows }
    ensures value { IfOk result (λ c. c ≡ row_component (row_at rows.now.rows i)) }
    ensures component { IfOk result (IsComponent rows.now.width) }
    ensures kept { IsKeptContext context.old context.new }
{
    let row = rows.row(i);
    let constant = context.copy_form(row.constant)?;
    Ok(Component::reduced(row.den, constant))
}

// The components of the unknowns' rows.
fn components(context: &mut Context, rows: &Tableau) -> Result<Vec<Component>, WantOfMemory>
    requires { rows.now.unknowns ≤ length rows.now.rows }
    ensures value { IfOk result (λ v. v.items ≡ map row_component (take rows.now.unknowns rows.now.rows)) }
    ensures components { IfOk result (λ v. All (IsComponent rows.now.width) v.items) }
    ensures kept { IsKeptContext context.old context.new }
{
    let mut made = Vec::with_capacity(rows.allocator(), rows.unknowns())?;
    for i in 0..rows.unknowns() {
        let component = component(context, rows, i)?;
        made.push(component)?;
    }
    Ok(made)
}

// The list of the unknowns' values.
fn leaf(context: &mut Context, rows: &Tableau) -> Result<Quast, WantOfMemory>
    requires rows { rows.now.unknowns ≤ length rows.now.rows }
    requires some { 1 ≤ rows.now.unknowns }
    requires few { rows.now.unknowns ≤ most_unknowns }
    ensures tree { IfOk result (λ tree. tree.tree ≡ Leaf (map row_component (take rows.now.unknowns rows.now.rows))) }
    ensures width { IfOk result (λ tree. tree.width ≡ rows.now.width) }
    ensures kept { IsKeptContext context.old context.new }
{
    Ok(Quast::list(components(context, rows)?))
}

// The fraction of the first of the unknowns' rows that is not whole. It matters in integer mode alone.
fn fraction(rows: &Tableau, integer: bool) -> Option<FractionRow>
    requires { rows.now.unknowns ≤ length rows.now.rows }
    ensures value { option_map (λ f. f.row) result ≡
        (if integer then first_fraction rows.now.unknowns rows.now.rows else None) }
    ensures constant { IfSome result (IsFractionOf rows.now.rows) }
    ensures bound { IfSome result (λ f. f.row < length rows.now.rows) }
{
    if integer { find_fraction(rows) } else { None }
}

// The cut of a row whose constant form is not whole, once each row is made.
fn cut_made(
    rows: &mut NodeRows,
    fraction: FractionRow,
    path: &mut Path,
    work: &mut Work,
) -> Result<Turn, Refusal>
    requires node { IsNode rows.old path.old }
    requires row { fraction.row < length rows.old.rows }
    requires constant { IsFractionOf rows.old.rows fraction }
    ensures gives { IsCountedRun (turn_of rows.new path.old) run_fault result work.old work.new
        (model.cut_turn (setting_of rows.old path.old) (node_of rows.old path.old) fraction.row
        (row_at rows.old.rows fraction.row)) }
    ensures turn { IfOk result (TurnIs rows.old rows.new path.old work.new.budget.nesting) }
    ensures path { IsKept path.old path.new }
{
    let mut made = rows.take_made()?;
    let turn = cut_turn(&mut made, fraction, path, work);
    rows.put(made);
    turn
}

// Where no row is below 0: a cut where integer mode finds a fraction, else a list.
fn last_turn(rows: &mut NodeRows, path: &mut Path, work: &mut Work) -> Result<Turn, Refusal>
    requires { IsNode rows.old path.old }
    ensures gives { IsCountedRun (turn_of rows.new path.old) run_fault result work.old work.new
        (turn_by (setting_of rows.old path.old) (node_of rows.old path.old) AllPlus) }
    ensures turn { IfOk result (TurnIs rows.old rows.new path.old work.new.budget.nesting) }
    ensures path { IsKept path.old path.new }
{
    match fraction(rows.made(), path.integer) {
        Some(fraction) => cut_made(rows, fraction, path, work),
        None => {
            let leaf = leaf(&mut path.context, rows.made())?;
            Ok(Turn::Closed(leaf))
        }
    }
}

// What the signs of the rows ask for: a pivot or bottom at a row below 0, an if at one of both signs, else a cut or a
// list.
fn act(signs: Signs, rows: &mut NodeRows, path: &mut Path, work: &mut Work) -> Result<Turn, Refusal>
    requires node { IsNode rows.old path.old }
    requires signs { SignsAre (length rows.old.rows) rows.old.width signs }
    ensures gives { IsCountedRun (turn_of rows.new path.old) run_fault result work.old work.new
        (turn_by (setting_of rows.old path.old) (node_of rows.old path.old) (signs_of signs)) }
    ensures turn { IfOk result (TurnIs rows.old rows.new path.old work.new.budget.nesting) }
    ensures path { IsKept path.old path.new }
{
    match signs {
        Signs::MinusAt(r) => pivot_turn(rows, r, work),
        Signs::UnknownBy(condition) => split_turn(condition, path.depth, work),
        Signs::AllPlus => last_turn(rows, path, work),
    }
}

/// One turn of a node, by the signs of its rows' constant forms on its context.
pub fn take_turn(
    rows: &mut NodeRows,
    path: &mut Path,
    known: &mut NonnegativeForms,
    work: &mut Work,
) -> Result<Turn, Refusal>
    requires node { IsNode rows.old path.old }
    requires known { AreKnown path.old.context.forms path.old.context.width work.old.budget known.old }
    ensures gives { IsCountedRun (turn_of rows.new path.old) run_fault result work.old work.new
        (model.turn (setting_of rows.old path.old) (node_of rows.old path.old)) }
    ensures turn { IfOk result (TurnIs rows.old rows.new path.old work.new.budget.nesting) }
    ensures path { IsKept path.old path.new }
    ensures known { AreKnown path.old.context.forms path.old.context.width work.old.budget known.new }
{
    let signs = scan(rows, &mut path.context, known, work)?;
    act(signs, rows, path, work)
}
