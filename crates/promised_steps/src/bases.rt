ghost use Rattle.std.specs.Prelude.{◌≡◌, ◌+◌, ◌*◌, ◌^◌, ◌<◌, ◌≤◌, pos, ◌≤ℤ◌, length, IfSome};
ghost use Rattle.pip_model.specs.Rows.{divided};
ghost use Rattle.row_laws.specs.Flat.{row_of_numbers};
ghost use Rattle.form_basis.specs.Bounds.{norm as norm_of};
ghost use Rattle.form_basis.specs.ReadRows.{IsMeasured, read};

use form_basis::Basis;
use plain_run::ShortTableau;

/// A number that is no less than the first and than the norm of the form, where the form makes the row of these numbers
/// and all are short.
pub fn checked_norm(
    most: u64,
    places: &ShortTableau,
    basis: &Basis,
    form: &[i64],
    row: &[i64],
) -> Option<u64>
    requires basis { IsMeasured places.now basis.now }
    requires form { length form.now ≡ places.now.unknowns + 1 }
    requires size { length row.now ≡ places.now.unknowns + 2 }
    requires den { pos 1 ≤ℤ (row_of_numbers places.now.unknowns row.now).den }
    ensures most { IfSome result (λ k. most ≤ k) }
    ensures norm { IfSome result (λ k. norm_of form.now ≤ k) }
    ensures bound { IfSome result (λ k. k * basis.now.most < 2 ^ 63) }
    ensures row { IfSome result (λ _. read places.now basis.now form.now
        ≡ divided (row_of_numbers places.now.unknowns row.now)) }
{
    form_basis::checked_norm(most, places, basis, form, row)
}
