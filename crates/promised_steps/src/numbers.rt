ghost use Rattle.std.specs.Prelude.{◌≡◌, pos, ◌≤ℤ◌};
ghost use Rattle.pip_problem.specs.Run as model;
ghost use Rattle.pip_problem.specs.Faults.{run_fault};
ghost use Rattle.affine_forms.specs.Numbers.{floor_div as floor_div_of};
ghost use Rattle.pip_problem.specs.Counts.{IsCountedRun};
ghost use Rattle.short_numbers.specs.Short.{IsShort};

use pip_problem::{Refusal, Work};
use short_numbers::short_floor_div;

/// The quotient of a short number, rounded down.
pub fn floor_div(a: i64, d: i64) -> i64
    requires positive { pos 1 ≤ℤ d }
    requires short { IsShort a }
    ensures { result ≡ floor_div_of a d }
{
    short_floor_div(a, d)
}

/// Counts a pivot, or refuses it at the limit.
pub fn count_pivot(work: &mut Work) -> Result<(), Refusal>
    ensures { IsCountedRun (λ x. tt) run_fault result work.old work.new model.count_pivot }
{
    work.count_pivot()
}
