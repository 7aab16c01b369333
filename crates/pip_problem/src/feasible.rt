ghost use Rattle.std.specs.Prelude.{◌≡◌, ◌+◌, ◌≤◌, ◌++◌, length, take, All, IfOk};
ghost use Rattle.affine_forms.specs.Problem.{all_nonneg as all_nonneg_of, rows_listed, feasible, feasible_listed};
ghost use Rattle.affine_forms.specs.Limits.{most_unknowns, most_params};
ghost use Rattle.affine_forms.specs.WellFormed.{IsRow};
ghost use Rattle.affine_forms.specs.Agreement.{IsChecked};
ghost use Rattle.affine_forms.specs.Checks.{Fits, is_overflow};

use crate::problem::Problem;
use affine_forms::{Form, MOST_PARAMETERS, MOST_UNKNOWNS, Overflow, are_nonnegative};

// The most unknowns and parameters together.
const MOST_PLACES: usize = MOST_UNKNOWNS + MOST_PARAMETERS;

// The point and then the parameters, in the front of an array.
fn join_point(point: &[i128], params: &[i128]) -> [i128; MOST_PLACES]
    requires { length point.now + length params.now ≤ most_unknowns + most_params }
    ensures { take (length point.now + length params.now) result ≡ point.now ++ params.now }
{
    let mut vector = [0; MOST_PLACES];
    let (front, rest) = vector.split_at_mut(point.len());
    front.copy_from_slice(point);
    let (middle, _) = rest.split_at_mut(params.len());
    middle.copy_from_slice(params);
    vector
}

// Whether each form's value at u is at least 0, up to the first that is not.
fn all_nonneg(forms: &[Form], u: &[i128]) -> Result<bool, Overflow>
    requires widths { All (IsRow (length u.now)) forms.now }
    requires fits { All Fits u.now }
    ensures listed { IsChecked is_overflow (rows_listed forms.now u.now) result }
    ensures value { IfOk result (λ b. b ≡ all_nonneg_of forms.now u.now) }
{
    for form in forms {
        if form.value_at(u)? < 0 {
            return Ok(false);
        }
    }
    Ok(true)
}

/// Whether the point is feasible at the parameters: no number of it is below 0, and neither is a tableau row's value at
/// the point and the parameters.
///
/// It overflows exactly where a number of a row's value does not fit, for the rows in order up to the first that is
/// below 0; a point with a number below 0 is not feasible whatever the rows. It takes no memory.
pub fn is_feasible(p: &Problem, point: &[i128], params: &[i128]) -> Result<bool, Overflow>
    requires point { length point.now ≡ p.now.unknowns }
    requires params { length params.now ≡ p.now.params }
    requires point_fits { All Fits point.now }
    requires params_fit { All Fits params.now }
    ensures listed { IsChecked is_overflow (feasible_listed p.now params.now point.now) result }
    ensures value { IfOk result (λ b. b ≡ feasible p.now params.now point.now) }
{
    let rows = p.rows();
    if !are_nonnegative(point) {
        return Ok(false);
    }
    let vector = join_point(point, params);
    let (u, _) = vector.split_at(point.len() + params.len());
    all_nonneg(rows, u)
}
