ghost use Rattle.std.specs.Prelude.{◌≡◌, ◌+◌, ◌*◌, ◌^◌, ◌<◌, ◌≤◌, pos, ◌≤ℤ◌, ◌*ℤ◌, length, IsTrue, IfSome};
ghost use Rattle.pip_model.specs.Rows.{divided};
ghost use Rattle.row_laws.specs.Flat.{row_of_numbers};
ghost use Rattle.form_laws.specs.Bounds.{norm as norm_of};
ghost use Rattle.form_basis.specs.ReadRows.{IsMeasured, IsRead, read};

use crate::basis::Basis;
use crate::products::{are_short, greater, norm, wide_product};
use crate::reading::{coefficient, value};
use short_tableau::ShortTableau;

// Whether the products are the same.
fn are_same(a: i64, x: i64, b: i64, y: i64) -> bool
    ensures { IsTrue result → a *ℤ x ≡ b *ℤ y }
{
    wide_product(a, x) == wide_product(b, y)
}

// Whether the form makes the row of these numbers: each over the row's denominator is the row's over the scale.
fn makes_row(places: &ShortTableau, basis: &Basis, form: &[i64], row: &[i64]) -> bool
    requires read { IsRead places.now basis.now form.now }
    requires size { length row.now ≡ places.now.unknowns + 2 }
    requires den { pos 1 ≤ℤ (row_of_numbers places.now.unknowns row.now).den }
    ensures { IsTrue result → read places.now basis.now form.now ≡ divided (row_of_numbers places.now.unknowns row.now) }
{
    let n = places.unknowns();
    let den = row[0];
    for k in 0..n {
        if !are_same(
            coefficient(places, basis, form, k),
            den,
            row[k + 1],
            basis.scale,
        ) {
            return false;
        }
    }
    are_same(value(places, basis, form), den, row[n + 1], basis.scale)
}

/// A number that is no less than the first and than the norm of the form, where the form makes the row of these numbers
/// and all are short.
pub fn checked_norm(
    most: u64,
    places: &ShortTableau,
    basis: &Basis,
    form: &[i64],
    row: &[i64],
) -> Option<u64>
    requires basis { IsMeasured places.now basis.now }
    requires form { length form.now ≡ places.now.unknowns + 1 }
    requires size { length row.now ≡ places.now.unknowns + 2 }
    requires den { pos 1 ≤ℤ (row_of_numbers places.now.unknowns row.now).den }
    ensures most { IfSome result (λ k. most ≤ k) }
    ensures norm { IfSome result (λ k. norm_of form.now ≤ k) }
    ensures bound { IfSome result (λ k. k * basis.now.most < 2 ^ 63) }
    ensures row { IfSome result (λ _. read places.now basis.now form.now
        ≡ divided (row_of_numbers places.now.unknowns row.now)) }
{
    let greatest = greater(most, norm(form)?);
    if are_short(greatest, basis.most) && makes_row(places, basis, form, row) {
        Some(greatest)
    } else {
        None
    }
}
