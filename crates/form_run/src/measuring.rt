ghost use Rattle.std.specs.Prelude.{◌≡◌, ◌+◌, ◌*◌, ◌<◌, ◌≤◌, pos, ◌≤ℤ◌, ◌*ℤ◌, unsigned_abs, [], ◌++◌, length, All, IsTrue, IfSome};
ghost use Rattle.pip_model.specs.Numbers as model;
ghost use Rattle.pip_model.specs.Rows.{row_at};
ghost use Rattle.row_laws.specs.Short.{IsShort};
ghost use Rattle.form_basis.specs.ByForm.{over};
ghost use Rattle.form_basis.specs.Columns.{IsScaled, columns_of, part};
ghost use Rattle.form_basis.specs.ReadRows.{IsMeasured};
ghost use Rattle.form_run.specs.Factors.{factors_of};

use form_basis::{Basis, factor, multiple, push, with_size};
use short_run::ShortTableau;

// The denominator of row j.
fn den_at(rows: &ShortTableau, j: usize) -> i64
    requires { j < length rows.now.rows }
    ensures value { result ≡ (row_at rows.now.rows j).den }
    ensures positive { pos 1 ≤ℤ result }
    ensures short { IsShort result }
{
    rows.row(j).den
}

// A common multiple of the denominators.
fn common(rows: &ShortTableau) -> Option<i64>
    ensures positive { IfSome result (λ l. pos 1 ≤ℤ l) }
    ensures short { IfSome result (λ l. IsShort l) }
{
    let mut found: i64 = 1;
    for j in 0..rows.rows() {
        let den = den_at(rows, j);
        if den != found {
            found = multiple(found, den)?;
        }
    }
    Some(found)
}

// What the scale has of the denominator of row j, where it is a multiple of it.
fn factor_at(rows: &ShortTableau, scale: i64, j: usize) -> Option<i64>
    requires scale { pos 1 ≤ℤ scale }
    requires short { IsShort scale }
    requires row { j < length rows.now.rows }
    ensures value { IfSome result (λ q. q ≡ model.floor_div scale (row_at rows.now.rows j).den) }
    ensures multiple { IfSome result (λ q. IsScaled rows.now.unknowns 0 scale (row_at rows.now.rows j)) }
{
    let row = rows.row(j);
    factor(scale, row.den)
}

// Makes of the list what the scale has of each denominator; whether it is a multiple of each.
fn make_factors(factors: &mut Vec<i64>, rows: &ShortTableau, scale: i64) -> bool
    requires scale { pos 1 ≤ℤ scale }
    requires short { IsShort scale }
    ensures values { IsTrue result → factors.new.items ≡ factors_of scale rows.now.rows }
    ensures rows { IsTrue result → All (IsScaled rows.now.unknowns 0 scale) rows.now.rows }
{
    factors.clear();
    for j in 0..rows.rows() {
        let Some(factor) = factor_at(rows, scale, j) else {
            return false;
        };
        if !push(factors, factor) {
            return false;
        }
    }
    true
}

// Number k of row j: a coefficient, or the constant.
fn number_at(rows: &ShortTableau, j: usize, k: usize) -> i64
    requires row { j < length rows.now.rows }
    requires number { k < rows.now.unknowns + 1 }
    ensures { result ≡ part rows.now.unknowns k (row_at rows.now.rows j) }
{
    let row = rows.row(j);
    if k < rows.unknowns() {
        row.coefs[k]
    } else {
        row.constant[0]
    }
}

// Number k of row j, over the scale.
fn scaled_at(basis: &Basis, rows: &ShortTableau, j: usize, k: usize) -> Option<i64>
    requires factors { basis.now.factors.items ≡ factors_of basis.now.scale rows.now.rows }
    requires row { j < length rows.now.rows }
    requires number { k < rows.now.unknowns + 1 }
    ensures { IfSome result (λ z. z ≡ model.floor_div basis.now.scale (row_at rows.now.rows j).den
        *ℤ part rows.now.unknowns k (row_at rows.now.rows j)) }
{
    basis.factors[j].checked_mul(number_at(rows, j, k))
}

// Adds number k of each row over the scale; whether there is memory and each fits.
fn push_column(basis: &mut Basis, rows: &ShortTableau, k: usize) -> bool
    requires factors { basis.old.factors.items ≡ factors_of basis.old.scale rows.now.rows }
    requires number { k < rows.now.unknowns + 1 }
    requires within { All (λ z. unsigned_abs z ≤ basis.old.most) basis.old.columns.items }
    ensures items { IsTrue result → basis.new.columns.items
        ≡ basis.old.columns.items ++ over basis.old.scale (part rows.now.unknowns k) rows.now.rows }
    ensures within { IsTrue result → All (λ z. unsigned_abs z ≤ basis.new.most) basis.new.columns.items }
    ensures most { IsTrue result → basis.old.most ≤ basis.new.most }
    ensures scale { basis.new.scale ≡ basis.old.scale }
    ensures factors { basis.new.factors.items ≡ basis.old.factors.items }
{
    for j in 0..rows.rows() {
        let Some(z) = scaled_at(basis, rows, j, k) else {
            return false;
        };
        if !push(&mut basis.columns, z) {
            return false;
        }
        basis.most = with_size(basis.most, z);
    }
    true
}

// Adds all columns; whether there is memory and each number fits.
fn push_columns(basis: &mut Basis, rows: &ShortTableau) -> bool
    requires factors { basis.old.factors.items ≡ factors_of basis.old.scale rows.now.rows }
    requires empty { basis.old.columns.items ≡ [] }
    ensures items { IsTrue result → basis.new.columns.items
        ≡ columns_of rows.now.unknowns 0 basis.old.scale rows.now.rows }
    ensures within { IsTrue result → All (λ z. unsigned_abs z ≤ basis.new.most) basis.new.columns.items }
    ensures most { IsTrue result → basis.old.most ≤ basis.new.most }
    ensures scale { basis.new.scale ≡ basis.old.scale }
{
    let Some(parts) = rows.unknowns().checked_add(1) else {
        return false;
    };
    for k in 0..parts {
        if !push_column(basis, rows, k) {
            return false;
        }
    }
    true
}

// Makes of the basis that of the rows, where their numbers fit and there is memory for it.
pub(crate) fn measure(basis: &mut Basis, rows: &ShortTableau) -> bool
    requires { length rows.now.rows ≡ rows.now.unknowns }
    ensures { IsTrue result → IsMeasured rows.now basis.new }
{
    let Some(scale) = common(rows) else {
        return false;
    };
    if !make_factors(&mut basis.factors, rows, scale) {
        return false;
    }
    basis.scale = scale;
    basis.most = scale.unsigned_abs();
    basis.columns.clear();
    push_columns(basis, rows) && basis.most < 9223372036854775808
}
