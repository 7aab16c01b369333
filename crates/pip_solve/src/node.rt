ghost use Rattle.std.specs.Prelude.{◌≡◌, ◌+◌, ◌-◌, ◌^◌, ◌<◌, ◌≤◌, [], ◌∷◌, ◌++◌, map, length, IfOk, OnOk};
ghost use Rattle.pip_model.specs.Rows.{row_at, widened};
ghost use Rattle.pip_model.specs.Cuts as cuts;
ghost use Rattle.pip_model.specs.Run.{Work as Counts};
ghost use Rattle.pip_model.specs.Agreement.{AgreesCounted};
ghost use Rattle.pip_problem.specs.Faults.{run_fault};
ghost use Rattle.tableau.specs.Tableaus.{IsRow};
ghost use Rattle.new_parameters.specs.Scopes.{size};
ghost use Rattle.node_turn.specs.Nodes.{IsBelow};
ghost use Rattle.node_turn.specs.Signs.{IsCondition};
ghost use Rattle.node_turn.specs.Turns.{tree_in, IsNewParameter, IsNewQuotient};
ghost use Rattle.pip_solve.specs.Frames.{whole_run, turned_run, next_run, HasRoom, HasNextRoom, IsRunning, IsTurned, IsNext, weight};
ghost use Rattle.node_turn.specs.declared.turn.Turn.TheVariants as turned;

use crate::closing::{Next, close};
use crate::pending::{Frame, Pending};
use crate::rooms::Rooms;
use affine_forms::{Form, WantOfMemory};
use gomory_cut::parametric_cut_by;
use new_parameters::Quotient;
use node_turn::{NodeRows, Path, Turn, Work, take_turn};
use pip_problem::Refusal;
use quast::Quast;
use std::alloc::Global;
use tableau::Tableau;

// Makes the rows of a tableau below a new parameter: each is over one place more, and the cut of row i by it is added.
// The residue is the row's.
fn cut_made_below(rows: &mut Tableau, i: usize, residue: &Form) -> Result<(), WantOfMemory>
    requires within { i < length rows.old.rows }
    requires row { IsRow rows.old.unknowns rows.old.width (row_at rows.old.rows i) }
    requires width { rows.old.width < 2 ^ 64 - 1 }
    requires residue { residue.now ≡ (cuts.residue_of (row_at rows.old.rows i)).form }
    ensures { OnOk result (rows.new
        ≡ record {
          unknowns = rows.old.unknowns;
          width = rows.old.width + 1;
          rows = map widened rows.old.rows
              ++ cuts.parametric_cut (widened (row_at rows.old.rows i)) rows.old.width ∷ [];
        }) }
{
    let place = rows.width();
    rows.widen_params()?;
    let mut widened = residue.try_clone(rows.allocator())?;
    widened.widen(1)?;
    parametric_cut_by(rows, i, &widened, place)?;
    Ok(())
}

// Makes the rows below a new parameter, once each row is made.
fn cut_below(rows: &mut NodeRows, i: usize, residue: &Form) -> Result<(), WantOfMemory>
    requires within { i < length rows.old.rows }
    requires row { IsRow rows.old.unknowns rows.old.width (row_at rows.old.rows i) }
    requires width { rows.old.width < 2 ^ 64 - 1 }
    requires residue { residue.now ≡ (cuts.residue_of (row_at rows.old.rows i)).form }
    ensures { OnOk result (rows.new
        ≡ record {
          unknowns = rows.old.unknowns;
          width = rows.old.width + 1;
          rows = map widened rows.old.rows
              ++ cuts.parametric_cut (widened (row_at rows.old.rows i)) rows.old.width ∷ [];
        }) }
{
    let mut made = rows.take_made()?;
    let cut = cut_made_below(&mut made, i, residue);
    rows.put(made);
    cut
}

// Goes one level down, below a new quotient: it joins the path's quotients, and its two bounds the context.
fn add_quotient(alloc: Global, path: &mut Path, key: Quotient) -> Result<(), WantOfMemory>
    requires quotient { IsNewQuotient path.old.quotients key }
    requires scope { path.old.context.width ≡ size path.old.quotients }
    requires room { size path.old.quotients < 2 ^ 64 - 1 }
    requires spare { 2 ≤ path.old.context.spare }
    requires depth { path.old.depth < 2 ^ 64 - 1 }
    ensures { OnOk result (IsBelow path.old
        (cuts.lower_bound (size path.old.quotients + 1) (size path.old.quotients) key
        ∷ cuts.upper_bound (size path.old.quotients + 1) (size path.old.quotients) key ∷ [])
        (key ∷ []) path.new) }
{
    let place = path.quotients.add(key)?;
    let (lower, upper) = path.quotients.bounds(alloc, place)?;
    path.context.widen();
    path.context.add(lower);
    path.context.add(upper);
    path.depth += 1;
    Ok(())
}

// A copy of the rows, in the room of rows that were kept if there are any.
fn copy_rows(rows: &NodeRows, pending: &mut Pending) -> Result<NodeRows, WantOfMemory>
    ensures value { IfOk result (λ t. t ≡ rows.now) }
    ensures kept { pending.new ≡ pending.old }
{
    let mut copy = pending.spare(rows.allocator());
    copy.copy_from(rows)?;
    Ok(copy)
}

// An if of a condition: the node of its first tree is next, that of its second is due.
fn split(
    rows: &NodeRows,
    condition: Form,
    path: &mut Path,
    pending: &mut Pending,
) -> Result<Next, WantOfMemory>
    requires running { IsRunning rows.now path.old pending.old }
    requires nested { path.old.depth + 1 ≤ pending.old.most }
    requires room { HasRoom pending.old.most path.old }
    requires condition { IsCondition rows.now.width condition }
    ensures gives { IfOk result (λ next. (w : Counts) → turned_run rows.now path.old pending.old.frames
        (turned.Split condition) w ≡ next_run rows.now path.new pending.new.frames next w) }
    ensures next { IfOk result (IsNext 2 path.old pending.old rows.now path.new pending.new) }
    ensures room { IfOk result (HasNextRoom pending.new.most path.new) }
{
    let context = path.context.mark();
    let quotients = path.quotients.mark();
    path.enter_copy(&condition)?;
    let later = copy_rows(rows, pending)?;
    pending.push(Frame::SecondDue {
        condition,
        rows: later,
        context,
        quotients,
    });
    Ok(Next::Node)
}

// The new parameter of the quotient that cuts row i: the node below it is next.
fn define_below(
    rows: &mut NodeRows,
    i: usize,
    key: Quotient,
    path: &mut Path,
    pending: &mut Pending,
) -> Result<Next, WantOfMemory>
    requires running { IsRunning rows.old path.old pending.old }
    requires nested { path.old.depth + 1 ≤ pending.old.most }
    requires room { HasRoom pending.old.most path.old }
    requires parameter { IsNewParameter rows.old path.old.quotients i key }
    ensures gives { IfOk result (λ next. (w : Counts) → turned_run rows.old path.old pending.old.frames
        (turned.Below i key) w ≡ next_run rows.new path.new pending.new.frames next w) }
    ensures next { IfOk result (IsNext 2 path.old pending.old rows.new path.new pending.new) }
    ensures room { IfOk result (HasNextRoom pending.new.most path.new) }
{
    let alloc = rows.allocator();
    let form = key.form.try_clone(alloc)?;
    cut_below(rows, i, &key.form)?;
    pending.push(Frame::NewParm { form, den: key.den });
    add_quotient(alloc, path, key)?;
    Ok(Next::Node)
}

// What is in hand after a turn.
fn follow(
    turn: Turn,
    rows: &mut NodeRows,
    path: &mut Path,
    pending: &mut Pending,
) -> Result<Next, WantOfMemory>
    requires turned { IsTurned rows.old path.old pending.old turn }
    requires room { HasRoom pending.old.most path.old }
    ensures gives { IfOk result (λ next. (w : Counts) → turned_run rows.old path.old pending.old.frames turn w
        ≡ next_run rows.new path.new pending.new.frames next w) }
    ensures next { IfOk result (IsNext (weight turn) path.old pending.old rows.new path.new pending.new) }
    ensures room { IfOk result (HasNextRoom pending.new.most path.new) }
{
    match turn {
        Turn::Closed(tree) => {
            if pending.is_empty() {
                Ok(Next::Tree(tree))
            } else {
                close(tree, rows, path, pending)
            }
        }
        Turn::Again => Ok(Next::Node),
        Turn::Split(condition) => split(rows, condition, path, pending),
        Turn::Below(i, key) => define_below(rows, i, key, path, pending),
    }
}

// The tree of a node and of the frames that wait for it: the run from it, turn by turn. A node that goes on stays where
// it is, and so do the forms that are known on its context.
pub(crate) fn run(
    rows: &mut NodeRows,
    path: &mut Path,
    rooms: &mut Rooms,
    work: &mut Work,
) -> Result<Quast, Refusal>
    requires running { IsRunning rows.old path.old rooms.old.pending }
    requires room { HasRoom rooms.old.pending.most path.old }
    requires budget { rooms.old.pending.most ≡ work.old.budget.nesting }
    ensures gives { AgreesCounted tree_in run_fault result work.new
        (whole_run rows.old path.old rooms.old.pending.frames work.old) }
    ensures width { IfOk result (λ tree. tree.width ≡ path.old.quotients.params) }
{
    rooms.known.forget();
    loop {
        let turn = take_turn(rows, path, &mut rooms.known, work)?;
        if let Turn::Again = turn {
            continue;
        }
        rooms.known.forget();
        match follow(turn, rows, path, &mut rooms.pending)? {
            Next::Node => {}
            Next::Tree(tree) => return Ok(tree),
        }
    }
}
