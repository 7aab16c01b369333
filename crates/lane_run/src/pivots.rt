ghost use Rattle.std.specs.Prelude.{◌+◌, IsTrue, Some};
ghost use Rattle.lanes.specs.Narrow.{AreLanes};
ghost use Rattle.lane_rows.specs.Laned.{AreUnused};
ghost use Rattle.lane_run.specs.Pivots.{IsEntering, IsPivoted};

use lane_rows::LaneRows;
use lanes::Lanes;

/// The column that enters where the row of these numbers is below 0.
#[inline(always)]
pub fn entering_at(rows: &LaneRows, row: Lanes) -> Option<usize>
    requires { AreLanes row }
    ensures { IsEntering rows.now row result }
{
    let _ = (rows.unknowns(), rows.most(), rows.scale());
    rows.entering(row)
}

/// Puts the row of these numbers into each row, solved for the column that enters there; whether all fits.
#[inline(always)]
pub fn pivot_at(rows: &mut LaneRows, row: Lanes, c: usize) -> bool
    requires lanes { AreLanes row }
    requires unused { AreUnused rows.old.unknowns row }
    requires enters { IsEntering rows.old row (Some c) }
    ensures { IsTrue result → IsPivoted rows.old rows.new row c }
{
    let made = rows.pivot(row, c);
    let _ = (rows.unknowns(), rows.most(), rows.scale());
    made
}
