ghost use Rattle.short_run.specs.Stops.{stop_fault};

use crate::stop::Stop;
use point_turns::{PointRows, PointTurn, ShortTableau, Work};

/// Rows of 64 bits.
pub struct ShortRows;

impl PointRows for ShortRows {
    type Rows = ShortTableau;

    type Fault = Stop;

    ghost table = { λ rows. rows };

    ghost is_width = { λ _. Unit {0} };

    ghost fault = { stop_fault };

    #[inline(always)]
    fn first_below(rows: &mut ShortTableau) -> Option<usize> {
        rows.first_below()
    }

    #[inline(always)]
    fn pivot_turn(rows: &mut ShortTableau, work: &mut Work, r: usize) -> Result<PointTurn, Stop> {
        let Some(c) = rows.entering(r) else {
            return Ok(PointTurn::Bottom(r));
        };
        work.count_pivot()?;
        if !rows.pivot(r, c) {
            return Err(Stop::Long);
        }
        Ok(PointTurn::Pivot(r, c))
    }

    fn first_fraction(rows: &ShortTableau) -> Option<usize> {
        rows.first_fraction()
    }

    fn count_and_cut(rows: &mut ShortTableau, work: &mut Work, i: usize) -> Result<(), Stop> {
        work.count_cut()?;
        rows.push_cut(i)?;
        Ok(())
    }

    #[inline(always)]
    fn check_rows(rows: &ShortTableau, most: usize) -> Result<(), Stop> {
        if rows.rows() > most {
            return Err(Stop::Long);
        }
        Ok(())
    }
}
