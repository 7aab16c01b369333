ghost use Rattle.std.specs.Prelude.{◌≡◌, not, ◌&&◌};
ghost use Rattle.std.specs.List.{list_all};
ghost use Rattle.pip_model.specs.Numbers.{is_nonneg, is_positive, is_negative};
ghost use Rattle.pip_model.specs.Forms.{constant};
ghost use Rattle.affine_forms.specs.Forms.{IsForm};

use affine_forms::{nonnegative, positive};

// Whether the number is below 0.
fn negative(z: i128) -> bool
    ensures { result ≡ is_negative z }
{
    z < 0
}

/// Whether no entry is below 0, so that the form is at least 0 wherever its places are.
pub fn is_nowhere_below(entries: &[i128]) -> bool
    ensures { result ≡ list_all is_nonneg entries.now }
{
    entries.iter().all(|entry| nonnegative(*entry))
}

// Whether no entry is above 0.
fn is_nowhere_above(entries: &[i128]) -> bool
    ensures { result ≡ list_all (λ z. not (is_positive z)) entries.now }
{
    entries.iter().all(|entry| !positive(*entry))
}

// Whether no entry is above 0 and the constant is below it, so that the form is below 0 wherever its places are at
// least 0.
pub(crate) fn is_everywhere_below(entries: &[i128]) -> bool
    requires { IsForm entries.now }
    ensures { result ≡ (list_all (λ z. not (is_positive z)) entries.now && is_negative (constant entries.now)) }
{
    is_nowhere_above(entries) && negative(entries[entries.len() - 1])
}
