ghost use Rattle.std.specs.Prelude.{◌≡◌, ◌+◌, ◌-◌, ◌^◌, ◌<◌, ◌≤◌, pos, ◌≤ℤ◌, ◌+ℤ◌, ◌*ℤ◌, unsigned_abs, true, ◌++◌, All, length, map, IsTrue, IfOk, OnOk, OnErr};
ghost use Rattle.std.specs.List.{list_all};
ghost use Rattle.pip_model.specs.Numbers.{gcd, gcd_of, is_nonneg};
ghost use Rattle.pip_model.specs.Forms as model;
ghost use Rattle.pip_model.specs.Forms.{entry};
ghost use Rattle.pip_model.specs.Rows as rows;
ghost use Rattle.affine_forms.specs.Checks.{Fits};
ghost use Rattle.tableau.specs.Tableaus.{IsRow, row_from, with_row};
ghost use Rattle.form_laws.specs.ByForm as laws;
ghost use Rattle.form_laws.specs.ByForm.{coef, over};
ghost use Rattle.form_laws.specs.Columns.{part};
ghost use Rattle.node_rows.specs.ReadRows.{IsRead, combined, placed, read, summed};

use crate::basis::Basis;
use crate::products::dot;
use affine_forms::{Form, WantOfMemory, divide_all, gcd_with};
use form_basis::{add_product, column};
use short_numbers::narrow;
use tableau::Tableau;

// The form's sum over number k of each row.
fn sum(rows: &Tableau, basis: &Basis, form: &Form, k: usize) -> i64
    requires read { IsRead rows.now basis.now form.now }
    requires number { k < rows.now.unknowns + rows.now.width + 1 }
    ensures { result ≡ model.dot form.now (over basis.now.scale (part rows.now.unknowns k) rows.now.rows) }
{
    dot(
        form.as_slice(),
        column(basis.columns.as_slice(), rows.unknowns(), k),
    )
}

// Coefficient k of the form's row.
fn coefficient(rows: &Tableau, basis: &Basis, form: &Form, k: usize) -> i64
    requires read { IsRead rows.now basis.now form.now }
    requires column { k < rows.now.unknowns }
    ensures { result ≡ summed rows.now basis.now form.now k }
{
    sum(rows, basis, form, k)
}

// Where the form has its own entry at place m.
fn place_number(rows: &Tableau, form: &Form, m: usize) -> usize
    requires { rows.now.unknowns + m < length form.now }
    ensures { result ≡ rows.now.unknowns + m }
{
    let _ = form.as_slice().len();
    rows.unknowns() + m
}

// Entry m of the constant form of the form's row.
fn place(rows: &Tableau, basis: &Basis, form: &Form, m: usize) -> i64
    requires read { IsRead rows.now basis.now form.now }
    requires place { m < rows.now.width + 1 }
    ensures { result ≡ placed rows.now basis.now form.now m }
{
    let k = place_number(rows, form, m);
    let own = narrow(form.as_slice()[k]);
    add_product(sum(rows, basis, form, k), basis.scale, own)
}

// The number of entries of the constant form.
fn count_places(rows: &Tableau, form: &Form) -> usize
    requires { length form.now ≡ rows.now.unknowns + (rows.now.width + 1) }
    ensures { result ≡ rows.now.width + 1 }
{
    let _ = form.as_slice().len();
    rows.width() + 1
}

// Whether no entry of the constant form of the form's row is below 0.
pub(crate) fn is_nowhere_below(rows: &Tableau, basis: &Basis, form: &Form) -> bool
    requires { IsRead rows.now basis.now form.now }
    ensures { IsTrue result → list_all is_nonneg (read rows.now basis.now form.now).constant ≡ true }
{
    for m in 0..count_places(rows, form) {
        if place(rows, basis, form, m) < 0 {
            return false;
        }
    }
    true
}

// The constant form of the form's row before it is divided.
fn places(rows: &Tableau, basis: &Basis, form: &Form) -> Result<Vec<i128>, WantOfMemory>
    requires { IsRead rows.now basis.now form.now }
    ensures { IfOk result (λ v. v.items ≡ (combined rows.now basis.now form.now).constant) }
{
    let mut made = Vec::with_capacity(rows.allocator(), count_places(rows, form))?;
    for m in 0..count_places(rows, form) {
        made.push(place(rows, basis, form, m) as i128)?;
    }
    Ok(made)
}

// The coefficients of the form's row before it is divided.
fn coefficients(rows: &Tableau, basis: &Basis, form: &Form) -> Result<Vec<i128>, WantOfMemory>
    requires { IsRead rows.now basis.now form.now }
    ensures { IfOk result (λ v. v.items ≡ (combined rows.now basis.now form.now).coefs) }
{
    let mut made = Vec::with_capacity(rows.allocator(), rows.unknowns())?;
    for k in 0..rows.unknowns() {
        made.push(coefficient(rows, basis, form, k) as i128)?;
    }
    Ok(made)
}

// The greatest common divisor of all numbers of a row.
fn divisor(den: i128, coefs: &[i128], constant: &[i128]) -> i128
    requires row { IsRow (length coefs.now) (length constant.now - 1) (row_from den coefs.now constant.now) }
    ensures value { result ≡ gcd den (gcd (gcd_of coefs.now) (gcd_of constant.now)) }
    ensures positive { pos 1 ≤ℤ result }
{
    gcd_with(gcd_with(den, coefs), constant)
}

// The entries, divided by d.
fn divided_entries(entries: Vec<i128>, d: i128) -> Vec<i128>
    requires positive { pos 1 ≤ℤ d }
    requires fits { All Fits entries.items }
    ensures value { result.items ≡ model.floor_divided d entries.items }
    ensures fits { All Fits result.items }
    ensures length { length result.items ≡ length entries.items }
{
    let mut made = entries;
    divide_all(&mut made, d);
    made
}

// The constant form, divided by the greatest common divisor of all numbers of the row.
fn divided(den: i128, coefs: &[i128], constant: Vec<i128>) -> Form
    requires row { IsRow (length coefs.now) (length constant.items - 1) (row_from den coefs.now constant.items) }
    ensures { result ≡ (rows.divided (row_from den coefs.now constant.items)).constant }
{
    let divisor = divisor(den, coefs, &constant);
    Form::from_entries(divided_entries(constant, divisor))
}

// The constant form of the form's row.
pub(crate) fn constant(rows: &Tableau, basis: &Basis, form: &Form) -> Result<Form, WantOfMemory>
    requires { IsRead rows.now basis.now form.now }
    ensures { IfOk result (λ v. v ≡ (read rows.now basis.now form.now).constant) }
{
    let coefs = coefficients(rows, basis, form)?;
    let constant = places(rows, basis, form)?;
    Ok(divided(basis.scale as i128, &coefs, constant))
}

// Adds the form's row.
pub(crate) fn push_read(
    all: &mut Tableau,
    rows: &Tableau,
    basis: &Basis,
    form: &Form,
) -> Result<(), WantOfMemory>
    requires read { IsRead rows.now basis.now form.now }
    requires unknowns { all.old.unknowns ≡ rows.now.unknowns }
    requires width { all.old.width ≡ rows.now.width }
    ensures ok { OnOk result (all.new ≡ with_row all.old (read rows.now basis.now form.now)) }
{
    let coefs = coefficients(rows, basis, form)?;
    let constant = places(rows, basis, form)?;
    all.push_row(basis.scale as i128, &coefs, &constant)
}
