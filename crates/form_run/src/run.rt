ghost use Rattle.short_run.specs.Stops.{stop_fault};

use crate::form_rows::FormRows;
use crate::room::RowRoom;
use pip_problem::Work;
use point_turns::{PointRows, PointTurn};
use short_run::Stop;

/// Rows that are read off their forms, with room for one that is read.
#[derive(Drop)]
pub struct ReadRows {
    pub rows: FormRows,
    pub room: RowRoom,
}

impl PointRows for ReadRows {
    type Rows = ReadRows;

    type Fault = Stop;

    ghost table = { λ t. t.rows };

    ghost is_width = { λ _. Unit {0} };

    ghost fault = { stop_fault };

    fn first_below(t: &mut ReadRows) -> Option<usize> {
        t.rows.first_below()
    }

    fn pivot_turn(t: &mut ReadRows, work: &mut Work, r: usize) -> Result<PointTurn, Stop> {
        t.rows.read_row(r, &mut t.room)?;
        let Some(c) = t.rows.entering(&t.room.row, r) else {
            return Ok(PointTurn::Bottom(r));
        };
        work.count_pivot()?;
        if !t.rows.pivot(&t.room.row, r, c) {
            return Err(Stop::Long);
        }
        Ok(PointTurn::Pivot(r, c))
    }

    fn first_fraction(t: &ReadRows) -> Option<usize> {
        t.rows.first_fraction()
    }

    fn count_and_cut(t: &mut ReadRows, work: &mut Work, i: usize) -> Result<(), Stop> {
        work.count_cut()?;
        t.rows.push_cut(i, &mut t.room)?;
        Ok(())
    }

    fn check_rows(_: &ReadRows, _: usize) -> Result<(), Stop> {
        Ok(())
    }
}
