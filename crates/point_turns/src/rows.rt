ghost use Rattle.std.specs.Prelude.{◌≡◌, ℕ, ◌<◌, ◌≤◌, None, Some, Option, [], ◌∷◌, ◌++◌, length, IfOk, IfErr, IfSome, OnOk};
ghost use Rattle.pip_model.specs.Cuts.{constant_cut};
ghost use Rattle.pip_model.specs.Rows as model;
ghost use Rattle.pip_model.specs.Rows.{row_at};
ghost use Rattle.pip_model.specs.Run.{Refusal, turn_by, MinusAt, point_setting};
ghost use Rattle.pip_problem.specs.Counts.{IsCountedRun};
ghost use Rattle.short_tableau.specs.Tableaus.{TableauRows};
ghost use Rattle.point_turns.specs.TurnAt.{IsTurnAt};
ghost use Rattle.point_turns.specs.Turns.{negative_from, node_of, made, counted_cut, HasSameScope};

use crate::turns::PointTurn;
use pip_problem::Work;

/// A way to keep the rows of the run without parameters, and to make its steps on them.
pub trait PointRows {
    /// The rows.
    type Rows;

    /// Why a step ends the run.
    type Fault;

    /// The rows as definitions see them.
    ghost table: { Self.Rows → TableauRows };

    /// How many parameters their constants may have.
    ghost is_width: { ℕ → Type 0 };

    /// The refusal of the run; none where nothing is said.
    ghost fault: { Self.Fault → Option Refusal };

    /// The first row below 0.
    fn first_below(rows: &mut Self::Rows) -> Option<usize>
        requires { is_width (table rows.old).width }
        ensures value { result ≡ negative_from 0 (table rows.old).rows }
        ensures bound { IfSome result (λ r. r < length (table rows.old).rows) }
        ensures kept { table rows.new ≡ table rows.old };

    /// The turn at a row below 0: no point where no column enters, else a pivot, which is counted and then made.
    fn pivot_turn(
        rows: &mut Self::Rows,
        work: &mut Work,
        r: usize,
    ) -> Result<PointTurn, Self::Fault>
        requires width { is_width (table rows.old).width }
        requires rows { (table rows.old).unknowns ≤ length (table rows.old).rows }
        requires row { r < length (table rows.old).rows }
        requires first { negative_from 0 (table rows.old).rows ≡ Some r }
        ensures gives { IsCountedRun (made (table rows.old).unknowns (table rows.new).rows) fault result work.old
            work.new (turn_by (point_setting (table rows.old).unknowns) (node_of (table rows.old).rows) (MinusAt r)) }
        ensures place { IfOk result
            (IsTurnAt (table rows.old).unknowns (table rows.old).rows (table rows.new).rows) }
        ensures scope { OnOk result (HasSameScope (table rows.old) (table rows.new)) };

    /// The first of the unknowns' rows whose constant the row's denominator does not divide.
    fn first_fraction(rows: &Self::Rows) -> Option<usize>
        requires width { is_width (table rows.now).width }
        requires rows { (table rows.now).unknowns ≤ length (table rows.now).rows }
        ensures value { result ≡ model.first_fraction (table rows.now).unknowns (table rows.now).rows }
        ensures bound { IfSome result (λ i. i < (table rows.now).unknowns) }
        ensures constant { IfSome result (λ i. length (row_at (table rows.now).rows i).constant ≡ 1) };

    /// A cut by a row of an unknown is counted, and then added.
    fn count_and_cut(rows: &mut Self::Rows, work: &mut Work, i: usize) -> Result<(), Self::Fault>
        requires row { i < (table rows.old).unknowns }
        requires rows { (table rows.old).unknowns ≤ length (table rows.old).rows }
        ensures gives { IsCountedRun (λ x. (table rows.new).rows) fault result work.old work.new
            (counted_cut (table rows.old).rows i) }
        ensures row { OnOk result ((table rows.new).rows
            ≡ (table rows.old).rows ++ constant_cut (row_at (table rows.old).rows i) ∷ []) }
        ensures scope { OnOk result (HasSameScope (table rows.old) (table rows.new)) };

    /// Ends a run that has more rows than these, where each is a row more that every pivot turns.
    fn check_rows(rows: &Self::Rows, most: usize) -> Result<(), Self::Fault>
        ensures { IfErr result (λ e. fault e ≡ None) };
}
