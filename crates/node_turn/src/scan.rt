ghost use Rattle.std.specs.Prelude.{◌≡◌, ℕ, ℤ, ◌+◌, ◌<◌, ◌≤◌, List, IfOk, IsTrue, false, true, length, drop};
ghost use Rattle.std.specs.List.{list_all};
ghost use Rattle.pip_model.specs.Numbers.{is_nonneg};
ghost use Rattle.pip_model.specs.Rows.{row_at};
ghost use Rattle.pip_model.specs.Run as model;
ghost use Rattle.pip_model.specs.Run.{AllPlus, UnknownBy, Done, Plus};
ghost use Rattle.affine_forms.specs.Forms.{IsForm};
ghost use Rattle.pip_problem.specs.Faults.{run_fault};
ghost use Rattle.pip_problem.specs.Counts.{IsCountedRun, HasCounted};
ghost use Rattle.sign_split.specs.Scoped.{IsKeptContext};
ghost use Rattle.sign_split.specs.Classes.{class_of, ConditionIs};
ghost use Rattle.node_turn.specs.Known.{AreKnown};
ghost use Rattle.node_turn.specs.Signs.{signs_of, scanned, IsCondition, ClassIs, SignsAre};

use crate::known::NonnegativeForms;
use affine_forms::Form;
use node_rows::NodeRows;
use pip_problem::Refusal;
use sign_split::{Class, Context, Work, class_of_entries, is_nowhere_below};
use std::alloc::Global;
use tableau::Tableau;

// The signs of a node's rows: no row is below 0 or of both signs, or the first row below 0, or else the condition of
// the first row of both signs.
#[derive(Drop)]
pub(crate) enum Signs {
    AllPlus,
    MinusAt(usize),
    UnknownBy(Form),
}

// Whether the form of these entries is known. What was counted for it is counted again then; where that has no room,
// it is as if it were not known.
#[inline(always)]
fn is_known_again(known: &NonnegativeForms, entries: &[i128], work: &mut Work) -> bool
    ensures known { (K : List (List ℤ)) (w : ℕ) → AreKnown K w work.old.budget known.now → IsTrue result
        → model.class K w entries.now work.old ≡ Done Plus work.new }
    ensures counted { HasCounted work.old work.new }
    ensures unknown { result ≡ false → work.new ≡ work.old }
{
    match known.find(entries) {
        Some(counts) => work.count_again(counts),
        None => false,
    }
}

// The class of the form of these entries, by the context. It is known from then on if it is at least 0.
fn class_anew(
    alloc: Global,
    context: &mut Context,
    known: &mut NonnegativeForms,
    entries: &[i128],
    work: &mut Work,
) -> Result<Class, Refusal>
    requires form { IsForm entries.now }
    requires narrow { length entries.now ≤ context.old.width + 1 }
    requires known { AreKnown context.old.forms context.old.width work.old.budget known.old }
    ensures gives { IsCountedRun class_of run_fault result work.old work.new
        (model.class context.old.forms context.old.width entries.now) }
    ensures condition { IfOk result (ConditionIs (length entries.now)) }
    ensures kept { IsKeptContext context.old context.new }
    ensures known { AreKnown context.old.forms context.old.width work.old.budget known.new }
{
    let before = work.counts();
    match class_of_entries(alloc, context, entries, work)? {
        Class::Plus => {
            known.add(entries, work.counts_since(before));
            Ok(Class::Plus)
        }
        class => Ok(class),
    }
}

// The class of the form of these entries, which may be known.
#[inline(always)]
fn class_of_form(
    alloc: Global,
    context: &mut Context,
    known: &mut NonnegativeForms,
    entries: &[i128],
    work: &mut Work,
) -> Result<Class, Refusal>
    requires form { IsForm entries.now }
    requires narrow { length entries.now ≤ context.old.width + 1 }
    requires known { AreKnown context.old.forms context.old.width work.old.budget known.old }
    ensures gives { IsCountedRun class_of run_fault result work.old work.new
        (model.class context.old.forms context.old.width entries.now) }
    ensures condition { IfOk result (ConditionIs (length entries.now)) }
    ensures kept { IsKeptContext context.old context.new }
    ensures known { AreKnown context.old.forms context.old.width work.old.budget known.new }
{
    if is_known_again(known, entries, work) {
        return Ok(Class::Plus);
    }
    class_anew(alloc, context, known, entries, work)
}

// Whether no entry of the constant form of row i of a tableau is below 0. A row that is a column's own row is 0
// everywhere.
#[inline(always)]
fn is_made_nowhere_below(rows: &Tableau, i: usize) -> bool
    requires { i < length rows.now.rows }
    ensures { IsTrue result → list_all is_nonneg (row_at rows.now.rows i).constant ≡ true }
{
    if let Some(_) = rows.column_of(i) {
        return true;
    }
    is_nowhere_below(rows.row(i).constant)
}

// Whether it is seen at once that no entry of the constant form of row i is below 0.
#[inline(always)]
fn is_seen_nowhere_below(rows: &NodeRows, i: usize) -> bool
    requires { i < length rows.now.rows }
    ensures { IsTrue result → list_all is_nonneg (row_at rows.now.rows i).constant ≡ true }
{
    let made = rows.made();
    if i < made.rows() {
        is_made_nowhere_below(made, i)
    } else {
        rows.is_nowhere_below(i)
    }
}

// The class of the constant form of row i of a tableau.
#[inline(always)]
fn class_of_made(
    rows: &Tableau,
    i: usize,
    context: &mut Context,
    known: &mut NonnegativeForms,
    work: &mut Work,
) -> Result<Class, Refusal>
    requires row { i < length rows.now.rows }
    requires scope { context.old.width ≡ rows.now.width }
    requires known { AreKnown context.old.forms context.old.width work.old.budget known.old }
    ensures gives { IsCountedRun class_of run_fault result work.old work.new
        (model.class context.old.forms context.old.width (row_at rows.now.rows i).constant) }
    ensures class { IfOk result (ClassIs rows.now.width) }
    ensures kept { IsKeptContext context.old context.new }
    ensures known { AreKnown context.old.forms context.old.width work.old.budget known.new }
{
    let row = rows.row(i);
    class_of_form(rows.allocator(), context, known, row.constant, work)
}

// The class of the constant form of row i, which is read off its form.
#[inline(always)]
fn class_by_form(
    rows: &NodeRows,
    i: usize,
    context: &mut Context,
    known: &mut NonnegativeForms,
    work: &mut Work,
) -> Result<Class, Refusal>
    requires row { i < length rows.now.rows }
    requires scope { context.old.width ≡ rows.now.width }
    requires known { AreKnown context.old.forms context.old.width work.old.budget known.old }
    ensures gives { IsCountedRun class_of run_fault result work.old work.new
        (model.class context.old.forms context.old.width (row_at rows.now.rows i).constant) }
    ensures class { IfOk result (ClassIs rows.now.width) }
    ensures kept { IsKeptContext context.old context.new }
    ensures known { AreKnown context.old.forms context.old.width work.old.budget known.new }
{
    let constant = rows.constant(i)?;
    class_of_form(rows.allocator(), context, known, constant.as_slice(), work)
}

// The class of the constant form of row i, where it is not seen at once.
#[inline(always)]
fn class_of_constant(
    rows: &NodeRows,
    i: usize,
    context: &mut Context,
    known: &mut NonnegativeForms,
    work: &mut Work,
) -> Result<Class, Refusal>
    requires row { i < length rows.now.rows }
    requires scope { context.old.width ≡ rows.now.width }
    requires known { AreKnown context.old.forms context.old.width work.old.budget known.old }
    ensures gives { IsCountedRun class_of run_fault result work.old work.new
        (model.class context.old.forms context.old.width (row_at rows.now.rows i).constant) }
    ensures class { IfOk result (ClassIs rows.now.width) }
    ensures kept { IsKeptContext context.old context.new }
    ensures known { AreKnown context.old.forms context.old.width work.old.budget known.new }
{
    let made = rows.made();
    if i < made.rows() {
        class_of_made(made, i, context, known, work)
    } else {
        class_by_form(rows, i, context, known, work)
    }
}

// The class of the constant form of row i.
#[inline(always)]
fn class_of_row(
    rows: &NodeRows,
    i: usize,
    context: &mut Context,
    known: &mut NonnegativeForms,
    work: &mut Work,
) -> Result<Class, Refusal>
    requires row { i < length rows.now.rows }
    requires scope { context.old.width ≡ rows.now.width }
    requires known { AreKnown context.old.forms context.old.width work.old.budget known.old }
    ensures gives { IsCountedRun class_of run_fault result work.old work.new
        (model.class context.old.forms context.old.width (row_at rows.now.rows i).constant) }
    ensures class { IfOk result (ClassIs rows.now.width) }
    ensures kept { IsKeptContext context.old context.new }
    ensures known { AreKnown context.old.forms context.old.width work.old.budget known.new }
{
    if is_seen_nowhere_below(rows, i) {
        return Ok(Class::Plus);
    }
    class_of_constant(rows, i, context, known, work)
}

// The condition of a row of both signs, and the place behind the row.
#[derive(Drop)]
struct UnknownRow {
    condition: Form,
    behind: usize,
}

// Keeps the room of a condition that is not needed.
#[inline(always)]
fn keep_room_of(context: &mut Context, class: Class)
    ensures { IsKeptContext context.old context.new }
{
    if let Class::Unknown(condition) = class {
        context.keep_room(condition);
    }
}

// The rows behind the first of both signs are classed in order, up to one below 0. Where none is, the condition is that
// of the first.
fn scan_behind(
    rows: &NodeRows,
    first: UnknownRow,
    context: &mut Context,
    known: &mut NonnegativeForms,
    work: &mut Work,
) -> Result<Signs, Refusal>
    requires condition { IsCondition rows.now.width first.condition }
    requires scope { context.old.width ≡ rows.now.width }
    requires known { AreKnown context.old.forms context.old.width work.old.budget known.old }
    ensures gives { IsCountedRun signs_of run_fault result work.old work.new
        (scanned context.old.forms context.old.width first.behind (UnknownBy first.condition)
        (drop first.behind rows.now.rows)) }
    ensures signs { IfOk result (SignsAre (length rows.now.rows) rows.now.width) }
    ensures kept { IsKeptContext context.old context.new }
    ensures known { AreKnown context.old.forms context.old.width work.old.budget known.new }
{
    for i in first.behind..rows.rows() {
        match class_of_row(rows, i, context, known, work)? {
            Class::Minus => {
                context.keep_room(first.condition);
                return Ok(Signs::MinusAt(i));
            }
            class => keep_room_of(context, class),
        }
    }
    Ok(Signs::UnknownBy(first.condition))
}

// The rows are classed in order; of a known form only the counts are made again. The scan ends at the first row below
// 0, and the condition of the first of both signs is kept.
pub(crate) fn scan(
    rows: &NodeRows,
    context: &mut Context,
    known: &mut NonnegativeForms,
    work: &mut Work,
) -> Result<Signs, Refusal>
    requires scope { context.old.width ≡ rows.now.width }
    requires known { AreKnown context.old.forms context.old.width work.old.budget known.old }
    ensures gives { IsCountedRun signs_of run_fault result work.old work.new
        (scanned context.old.forms context.old.width 0 AllPlus rows.now.rows) }
    ensures signs { IfOk result (SignsAre (length rows.now.rows) rows.now.width) }
    ensures kept { IsKeptContext context.old context.new }
    ensures known { AreKnown context.old.forms context.old.width work.old.budget known.new }
{
    for i in 0..rows.rows() {
        match class_of_row(rows, i, context, known, work)? {
            Class::Plus => {}
            Class::Minus => return Ok(Signs::MinusAt(i)),
            Class::Unknown(condition) => {
                let behind = i + 1;
                let first = UnknownRow { condition, behind };
                return scan_behind(rows, first, context, known, work);
            }
        }
    }
    Ok(Signs::AllPlus)
}
