ghost use Rattle.std.specs.Prelude.{◌≡◌, ◌+◌, ◌<◌};
ghost use Rattle.pip_model.specs.Forms as model;
ghost use Rattle.form_laws.specs.ByForm.{over};
ghost use Rattle.form_laws.specs.Columns.{part};
ghost use Rattle.form_basis.specs.ReadRows.{IsRead, summed, valued};

use crate::basis::Basis;
use crate::columns::column;
use crate::products::{add_product, dot};
use short_tableau::ShortTableau;

// The form's sum over number k of each row.
fn sum(places: &ShortTableau, basis: &Basis, form: &[i64], k: usize) -> i64
    requires read { IsRead places.now basis.now form.now }
    requires number { k < places.now.unknowns + 1 }
    ensures { result ≡ model.dot form.now (over basis.now.scale (part places.now.unknowns k) places.now.rows) }
{
    dot(form, column(basis.columns.as_slice(), places.unknowns(), k))
}

/// Coefficient k of the form's row before it is divided.
pub fn coefficient(places: &ShortTableau, basis: &Basis, form: &[i64], k: usize) -> i64
    requires read { IsRead places.now basis.now form.now }
    requires column { k < places.now.unknowns }
    ensures { result ≡ summed places.now basis.now form.now k }
{
    sum(places, basis, form, k)
}

/// The constant of the form's row before it is divided.
pub fn value(places: &ShortTableau, basis: &Basis, form: &[i64]) -> i64
    requires read { IsRead places.now basis.now form.now }
    ensures { result ≡ valued places.now basis.now form.now }
{
    let n = places.unknowns();
    add_product(sum(places, basis, form, n), basis.scale, form[n])
}
