ghost use Rattle.std.specs.Prelude.{◌≡◌, ◌*◌, ◌^◌, ◌<◌, take, IfSome, IsTrue};
ghost use Rattle.pip_model.specs.Forms.{combine};
ghost use Rattle.pip_model.specs.Rows as model;
ghost use Rattle.pip_model.specs.Rows.{divided};
ghost use Rattle.row_laws.specs.Choices.{IsCandidate};
ghost use Rattle.scaled_laws.specs.Scaled.{row_over};
ghost use Rattle.lanes.specs.Narrow.{AreLanes, AreTurnable};
ghost use Rattle.lane_rows.specs.Laned.{numbers_of};

use lane_run::{LaneRows, ReadForms};
use lanes::Lanes;

/// `a*x - b*y` of the numbers x of a row and the numbers y of another.
pub fn turned(row: Lanes, a: i32, other: Lanes, b: i32) -> Lanes
    requires { AreTurnable a row b other }
    ensures { result ≡ combine a row b other }
{
    row.turned(a, other, b)
}

/// The column that enters where the row of these numbers is below 0.
pub fn entering_in_lanes(rows: &LaneRows, p: Lanes) -> Option<usize>
    requires { AreLanes p }
    ensures value { let row = divided (row_over rows.now.unknowns rows.now.scale (numbers_of rows.now.unknowns p)) in
        result ≡ model.entering_of (take rows.now.unknowns rows.now.rows) row (model.candidates row) }
    ensures candidate { IfSome result (IsCandidate rows.now.unknowns
        (divided (row_over rows.now.unknowns rows.now.scale (numbers_of rows.now.unknowns p)))) }
{
    rows.entering(p)
}

/// Whether no number of a row that is read passes 31 bits.
pub fn are_readable(forms: &ReadForms<'_>, rows: &LaneRows) -> bool
    ensures { IsTrue result → forms.now.norm * rows.now.most < 2 ^ 31 }
{
    forms.are_readable(rows)
}
