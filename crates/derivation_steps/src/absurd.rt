ghost use Rattle.std.specs.Prelude.{◌≡◌, ◌<◌, length};
ghost use Rattle.std.specs.List.{list_all};
ghost use Rattle.pip_model.specs.Numbers.{is_zero, is_negative};
ghost use Rattle.pip_model.specs.Check as model;

// Whether the number is 0.
fn zero(z: i128) -> bool
    ensures { result ≡ is_zero z }
{
    z == 0
}

// Whether the number is below 0.
pub(crate) fn negative(z: i128) -> bool
    ensures { result ≡ is_negative z }
{
    z < 0
}

// Whether each number is 0.
pub(crate) fn all_zero(numbers: &[i128]) -> bool
    ensures { result ≡ list_all is_zero numbers.now }
{
    numbers.iter().all(|z| zero(*z))
}

/// Whether the form is below 0 everywhere: each coefficient is 0 and the constant below 0.
pub fn is_absurd(form: &[i128]) -> bool
    requires { 0 < length form.now }
    ensures { result ≡ model.is_absurd form.now }
{
    let (coefficients, _) = form.split_at(form.len() - 1);
    all_zero(coefficients) && negative(form[form.len() - 1])
}
