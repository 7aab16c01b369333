ghost use Rattle.std.specs.Prelude.{◌≡◌, ◌<◌, not, length, IfSome};
ghost use Rattle.pip_model.specs.Forms.{constant};
ghost use Rattle.pip_model.specs.Numbers.{is_nonneg};
ghost use Rattle.pip_model.specs.Rows.{row_at};
ghost use Rattle.pip_problem.specs.Faults.{run_fault};
ghost use Rattle.point_turns.specs.Turns.{negative_from};

use crate::steps::count_and_cut;
use affine_forms::nonnegative;
use dual_pivot::{entering, pivot};
use gomory_cut::{Tableau, first_fraction};
use pip_problem::{Refusal, Work};
use point_turns::{PointRows, PointTurn};

// Whether the constant of row i is below 0.
fn is_below(rows: &Tableau, i: usize) -> bool
    requires width { rows.now.width ≡ 0 }
    requires row { i < length rows.now.rows }
    ensures { result ≡ not (is_nonneg (constant (row_at rows.now.rows i).constant)) }
{
    !nonnegative(rows.row(i).constant[0])
}

// The first row whose constant is below 0.
fn first_below(rows: &Tableau) -> Option<usize>
    requires { rows.now.width ≡ 0 }
    ensures value { result ≡ negative_from 0 rows.now.rows }
    ensures bound { IfSome result (λ r. r < length rows.now.rows) }
{
    for i in 0..rows.rows() {
        if is_below(rows, i) {
            return Some(i);
        }
    }
    None
}

/// Rows of 128 bits.
pub struct WideRows;

impl PointRows for WideRows {
    type Rows = Tableau;

    type Fault = Refusal;

    ghost table = { λ rows. rows };

    ghost is_width = { λ width. width ≡ 0 };

    ghost fault = { run_fault };

    fn first_below(rows: &mut Tableau) -> Option<usize> {
        first_below(rows)
    }

    fn pivot_turn(rows: &mut Tableau, work: &mut Work, r: usize) -> Result<PointTurn, Refusal> {
        let Some(c) = entering(rows, r)? else {
            return Ok(PointTurn::Bottom(r));
        };
        work.count_pivot()?;
        pivot(rows, r, c)?;
        Ok(PointTurn::Pivot(r, c))
    }

    fn first_fraction(rows: &Tableau) -> Option<usize> {
        first_fraction(rows)
    }

    fn count_and_cut(rows: &mut Tableau, work: &mut Work, i: usize) -> Result<(), Refusal> {
        count_and_cut(rows, i, work)
    }

    fn check_rows(_: &Tableau, _: usize) -> Result<(), Refusal> {
        Ok(())
    }
}
