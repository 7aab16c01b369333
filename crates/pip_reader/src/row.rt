ghost use Rattle.std.specs.Prelude.{◌≡◌, ◌≤◌, ◌<◌, length, All};
ghost use Rattle.pip_model.specs.NativeText.{form_of_row};
ghost use Rattle.affine_forms.specs.Checks.{Fits};
ghost use Rattle.text_reading.specs.Steps.{IsRead};
ghost use Rattle.pip_problem.specs.Faults.{read_fault};
ghost use Rattle.pip_reader.specs.Rows as model;

use affine_forms::Form;
use pip_problem::ReadRefusal;
use text_reading::{Reads, SpareRows, row_in};

// Moves the constant, which stands behind the first coefficients, to the end.
fn constant_last(row: &mut [i128], coefficients: usize)
    requires { coefficients < length row.old }
    ensures { row.new ≡ form_of_row coefficients row.old }
{
    row[coefficients..].rotate_left(1);
}

// The form of a row whose constant stands behind the first coefficients.
#[tactic(auto, using(crate::proofs::Constants::form_of_row_fits, crate::proofs::Constants::form_of_row_length))]
fn form_of(mut row: Vec<i128>, coefficients: usize) -> Form
    requires within { coefficients < length row.items }
    requires fits { All Fits row.items }
    ensures { result ≡ form_of_row coefficients row.items }
{
    constant_last(&mut row, coefficients);
    Form::from_entries(row)
}

// A row of so many numbers, the constant among them behind the first coefficients, and the place behind it.
pub(crate) fn form_row(
    spare: &mut SpareRows,
    bytes: &[u8],
    count: usize,
    coefficients: usize,
    place: usize,
) -> Reads<Form, ReadRefusal>
    requires place { place ≤ length bytes.now }
    requires constant { coefficients < count }
    ensures { IsRead (λ c. c) read_fault bytes.now place result (model.form_row bytes.now count coefficients place) }
{
    let (entries, after) = row_in(spare, bytes, count, place)?;
    Ok((form_of(entries, coefficients), after))
}
