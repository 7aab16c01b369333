ghost use Rattle.std.specs.Prelude.{◌≡◌, ℕ, ℤ, ◌*◌, ◌^◌, ◌<◌, ◌++◌, None, List, drop, All, IfOk, IfErr, IfSome, IfNone, OnOk};
ghost use Rattle.pip_model.specs.Run as model;
ghost use Rattle.pip_model.specs.Run.{Refused, point_setting};
ghost use Rattle.pip_problem.specs.Counts.{HasCounted};
ghost use Rattle.short_run.specs.Stops.{stop_fault};
ghost use Rattle.point_turns.specs.Points.{IsTurnOf};
ghost use Rattle.point_turns.specs.Turns.{negative_from, node_of};
ghost use Rattle.lanes.specs.Narrow.{AreLanes};
ghost use Rattle.lane_rows.specs.Laned.{AreUnused};
ghost use Rattle.lane_run.specs.Below.{AreNotBelow, IsFirstRowBelow, IsReadBy, made_rows};
ghost use Rattle.lane_run.specs.Within.{AreWithin};
ghost use Rattle.lane_run.specs.Runs.{run_rows, forms_of, AreModest, IsRowBelow};

use crate::pivots::{entering_at, pivot_at};
use crate::read_forms::ReadForms;
use lane_rows::LaneRows;
use lanes::Lanes;
use pip_problem::Work;
use short_run::Stop;

// The first of these forms' rows that is below 0.
#[inline(always)]
fn form_below(rows: &LaneRows, forms: &[Lanes]) -> Option<Lanes>
    requires { All (IsReadBy rows.now.most) forms.now }
    ensures some { IfSome result (IsFirstRowBelow rows.now (made_rows rows.now forms.now)) }
    ensures none { IfNone result (AreNotBelow (made_rows rows.now forms.now)) }
{
    let _ = (rows.scale(), rows.unknowns());
    for form in forms {
        if rows.value(*form) < 0 {
            return Some(rows.read(*form));
        }
    }
    None
}

// The first of the cuts' rows that is below 0.
#[inline(always)]
fn cut_below(rows: &LaneRows) -> Option<Lanes>
    ensures some { IfSome result (IsFirstRowBelow rows.now (drop rows.now.unknowns rows.now.rows)) }
    ensures none { IfNone result (AreNotBelow (drop rows.now.unknowns rows.now.rows)) }
{
    let _ = rows.scale();
    for i in rows.unknowns()..rows.rows() {
        let row = rows.row(i);
        if row.get(0) < 0 {
            return Some(row);
        }
    }
    None
}

/// The first row below 0: of the columns, of the forms, of the cuts.
#[inline(always)]
pub fn row_below(rows: &LaneRows, forms: ReadForms<'_>) -> Option<Lanes>
    requires within { AreWithin forms.norm (forms.forms.now ++ forms.further.now) }
    requires readable { forms.norm * rows.now.most < 2 ^ 31 }
    ensures some { IfSome result (IsRowBelow rows.now (forms_of rows.now.unknowns (forms.entry.forms.now ++ forms.entry.further.now))) }
    ensures none { IfNone result (negative_from 0 (run_rows rows.now (forms_of rows.now.unknowns (forms.entry.forms.now ++ forms.entry.further.now))) ≡ None) }
{
    let _ = (rows.scale(), rows.unknowns());
    if let Some(k) = rows.first_below() {
        return Some(rows.row(k));
    }
    if let Some(row) = form_below(rows, forms.forms) {
        return Some(row);
    }
    if let Some(row) = form_below(rows, forms.further) {
        return Some(row);
    }
    cut_below(rows)
}

// A turn at the row of these numbers below 0: no point where no column enters, else a pivot.
#[inline(always)]
pub(crate) fn pivot_or_end(
    rows: &mut LaneRows,
    row: Lanes,
    work: &mut Work,
) -> Result<Option<bool>, Stop>
    requires lanes { AreLanes row }
    requires unused { AreUnused rows.old.unknowns row }
    ensures turn { IfOk result (λ o. (F : List (List ℤ)) → AreModest rows.old.unknowns F → IsRowBelow rows.old F row
        → IsTurnOf rows.old.unknowns (run_rows rows.old F) (run_rows rows.new F) work.old work.new o) }
    ensures refused { IfErr result (λ e. IfSome (stop_fault e) (λ f. (F : List (List ℤ)) → AreModest rows.old.unknowns F
        → IsRowBelow rows.old F row
        → model.turn (point_setting rows.old.unknowns) (node_of (run_rows rows.old F)) work.old ≡ Refused f work.new)) }
    ensures counted { HasCounted work.old work.new }
    ensures unknowns { OnOk result (rows.new.unknowns ≡ rows.old.unknowns) }
{
    let Some(c) = entering_at(rows, row) else {
        return Ok(Some(false));
    };
    work.count_pivot()?;
    if !pivot_at(rows, row, c) {
        return Err(Stop::Long);
    }
    Ok(None)
}

// The same where no row is below 0: a point is found, or the run goes on with a cut.
pub(crate) fn cut_or_end(rows: &mut LaneRows, work: &mut Work) -> Result<Option<bool>, Stop>
    ensures turn { IfOk result (λ o. (F : List (List ℤ)) → negative_from 0 (run_rows rows.old F) ≡ None
        → IsTurnOf rows.old.unknowns (run_rows rows.old F) (run_rows rows.new F) work.old work.new o) }
    ensures refused { IfErr result (λ e. IfSome (stop_fault e) (λ f. (F : List (List ℤ))
        → negative_from 0 (run_rows rows.old F) ≡ None
        → model.turn (point_setting rows.old.unknowns) (node_of (run_rows rows.old F)) work.old ≡ Refused f work.new)) }
    ensures counted { HasCounted work.old work.new }
    ensures unknowns { OnOk result (rows.new.unknowns ≡ rows.old.unknowns) }
{
    let _ = (rows.scale(), rows.unknowns());
    let Some(i) = rows.first_fraction() else {
        return Ok(Some(true));
    };
    work.count_cut()?;
    rows.push_cut(i)?;
    Ok(None)
}

// A turn of a question's run: whether a point is found where the run ends; none where it goes on.
#[inline(always)]
pub(crate) fn turn_or_end(
    rows: &mut LaneRows,
    forms: ReadForms<'_>,
    work: &mut Work,
) -> Result<Option<bool>, Stop>
    requires within { AreWithin forms.norm (forms.forms.now ++ forms.further.now) }
    requires small { forms.norm < 2 ^ 31 }
    ensures turn { IfOk result (IsTurnOf rows.old.unknowns
        (run_rows rows.old (forms_of rows.old.unknowns (forms.entry.forms.now ++ forms.entry.further.now)))
        (run_rows rows.new (forms_of rows.old.unknowns (forms.entry.forms.now ++ forms.entry.further.now))) work.old work.new) }
    ensures refused { IfErr result (λ e. IfSome (stop_fault e) (λ f. model.turn (point_setting rows.old.unknowns)
        (node_of (run_rows rows.old (forms_of rows.old.unknowns (forms.entry.forms.now ++ forms.entry.further.now)))) work.old
        ≡ Refused f work.new)) }
    ensures counted { HasCounted work.old work.new }
    ensures unknowns { OnOk result (rows.new.unknowns ≡ rows.old.unknowns) }
{
    if !forms.are_readable(rows) {
        return Err(Stop::Long);
    }
    let _ = rows.unknowns();
    match row_below(rows, forms) {
        Some(row) => pivot_or_end(rows, row, work),
        None => cut_or_end(rows, work),
    }
}
