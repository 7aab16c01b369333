ghost use Rattle.std.specs.Prelude.{◌≡◌, ◌+◌, ◌*◌, ◌^◌, ◌<◌, ◌≤◌, pos, ◌≤ℤ◌, ◌*ℤ◌, unsigned_abs, [], ◌++◌, length, All, IsTrue, IfSome, OnSome};
ghost use Rattle.pip_model.specs.Numbers as model;
ghost use Rattle.pip_model.specs.Rows.{row_at};
ghost use Rattle.row_laws.specs.Rows.{IsRow};
ghost use Rattle.row_laws.specs.Short.{IsShort};
ghost use Rattle.tableau_row.specs.Views.{row_of};
ghost use Rattle.form_laws.specs.ByForm.{over};
ghost use Rattle.form_laws.specs.Columns.{IsBasis, IsScaled, columns_of, part};

use form_basis::{are_short, factor, multiple, push, with_size};
use tableau::{RowView, Tableau};

// The numbers of the unknowns' rows over a common multiple of their denominators, column after column, and a number
// that is no less than the size of any of these.
#[derive(Drop)]
pub(crate) struct Basis {
    pub(crate) scale: i64,
    pub(crate) most: u64,
    pub(crate) columns: Vec<i64>,
}

// The number in 64 bits, where it is short.
fn short(z: i128) -> Option<i64>
    ensures value { IfSome result (λ x. x ≡ z) }
    ensures short { IfSome result (λ x. IsShort x) }
{
    if z.unsigned_abs() < 9223372036854775808 {
        Some(z as i64)
    } else {
        None
    }
}

// A common multiple of the denominators.
fn common(rows: &Tableau) -> Option<i64>
    ensures positive { IfSome result (λ l. pos 1 ≤ℤ l) }
    ensures short { IfSome result (λ l. IsShort l) }
{
    let mut found: i64 = 1;
    for j in 0..rows.rows() {
        let den = short(rows.row(j).den)?;
        if den != found {
            found = multiple(found, den)?;
        }
    }
    Some(found)
}

// What the scale has of a denominator, where it is a multiple of it.
fn factor_of(scale: i64, den: i128) -> Option<i64>
    requires scale { pos 1 ≤ℤ scale }
    requires short { IsShort scale }
    requires den { pos 1 ≤ℤ den }
    ensures value { IfSome result (λ q. q ≡ model.floor_div scale den) }
    ensures multiple { IfSome result (λ q. scale ≡ den *ℤ q) }
{
    let den = short(den)?;
    factor(scale, den)
}

// Whether the number is a multiple of the denominator of row j.
fn is_multiple_at(rows: &Tableau, scale: i64, j: usize) -> bool
    requires scale { pos 1 ≤ℤ scale }
    requires short { IsShort scale }
    requires row { j < length rows.now.rows }
    ensures { IsTrue result → IsScaled rows.now.unknowns rows.now.width scale (row_at rows.now.rows j) }
{
    let row = rows.row(j);
    factor_of(scale, row.den).is_some()
}

// Whether the number is a multiple of each denominator.
fn is_multiple(rows: &Tableau, scale: i64) -> bool
    requires scale { pos 1 ≤ℤ scale }
    requires short { IsShort scale }
    ensures { IsTrue result → All (IsScaled rows.now.unknowns rows.now.width scale) rows.now.rows }
{
    for j in 0..rows.rows() {
        if !is_multiple_at(rows, scale, j) {
            return false;
        }
    }
    true
}

// Number k of a row: a coefficient, or an entry of the constant form.
fn number(row: &RowView<'_>, k: usize) -> i128
    requires { k < length row.now.coefs.now + length row.now.constant.now }
    ensures { result ≡ part (length row.now.coefs.now) k (row_of row.now) }
{
    let n = row.coefs.len();
    if k < n {
        row.coefs[k]
    } else {
        row.constant[k - n]
    }
}

// Number k of a row, over a multiple of its denominator.
fn scaled(scale: i64, row: &RowView<'_>, k: usize) -> Option<i64>
    requires scale { pos 1 ≤ℤ scale }
    requires short { IsShort scale }
    requires den { pos 1 ≤ℤ row.now.den }
    requires number { k < length row.now.coefs.now + length row.now.constant.now }
    ensures { IfSome result (λ z.
        z ≡ model.floor_div scale row.now.den *ℤ part (length row.now.coefs.now) k (row_of row.now)) }
{
    let factor = factor_of(scale, row.den)?;
    let number = short(number(row, k))?;
    factor.checked_mul(number)
}

// Number k of row j, over a multiple of the row's denominator.
fn scaled_at(rows: &Tableau, scale: i64, j: usize, k: usize) -> Option<i64>
    requires scale { pos 1 ≤ℤ scale }
    requires short { IsShort scale }
    requires row { j < length rows.now.rows }
    requires number { k < rows.now.unknowns + rows.now.width + 1 }
    ensures { IfSome result (λ z. z ≡ model.floor_div scale (row_at rows.now.rows j).den
        *ℤ part rows.now.unknowns k (row_at rows.now.rows j)) }
{
    let row = rows.row(j);
    scaled(scale, &row, k)
}

// Adds number k of each row over the scale; a number that is no less than the size of any.
fn push_column(
    columns: &mut Vec<i64>,
    rows: &Tableau,
    scale: i64,
    k: usize,
    most: u64,
) -> Option<u64>
    requires scale { pos 1 ≤ℤ scale }
    requires short { IsShort scale }
    requires number { k < rows.now.unknowns + rows.now.width + 1 }
    requires within { All (λ z. unsigned_abs z ≤ most) columns.old.items }
    ensures items { OnSome result (columns.new.items
        ≡ columns.old.items ++ over scale (part rows.now.unknowns k) rows.now.rows) }
    ensures within { IfSome result (λ m. All (λ z. unsigned_abs z ≤ m) columns.new.items) }
    ensures most { IfSome result (λ m. most ≤ m) }
{
    let mut greatest = most;
    for j in 0..rows.rows() {
        let z = scaled_at(rows, scale, j, k)?;
        if !push(columns, z) {
            return None;
        }
        greatest = with_size(greatest, z);
    }
    Some(greatest)
}

// Adds all columns; a number that is no less than the size of any number.
fn push_columns(columns: &mut Vec<i64>, rows: &Tableau, scale: i64, most: u64) -> Option<u64>
    requires scale { pos 1 ≤ℤ scale }
    requires short { IsShort scale }
    requires room { rows.now.unknowns + rows.now.width + 1 < 2 ^ 64 }
    requires empty { columns.old.items ≡ [] }
    ensures items { OnSome result (columns.new.items ≡ columns_of rows.now.unknowns rows.now.width scale rows.now.rows) }
    ensures within { IfSome result (λ m. All (λ z. unsigned_abs z ≤ m) columns.new.items) }
    ensures most { IfSome result (λ m. most ≤ m) }
{
    let mut greatest = most;
    for k in 0..rows.unknowns() + rows.width() + 1 {
        greatest = push_column(columns, rows, scale, k, greatest)?;
    }
    Some(greatest)
}

// How many numbers the rows have, where that is no great number.
fn row_numbers(rows: &Tableau) -> Option<usize>
    ensures { OnSome result (rows.now.unknowns + rows.now.width + 1 < 2 ^ 64) }
{
    let parts = rows.unknowns().checked_add(rows.width())?;
    parts.checked_add(1)
}

// The basis of the unknowns' rows, where forms of such norms make short rows of them, and there is memory for it.
pub(crate) fn measure(rows: &Tableau, norm: u64) -> Option<Basis>
    requires { length rows.now.rows ≡ rows.now.unknowns }
    ensures basis { IfSome result (λ b.
        IsBasis rows.now.unknowns rows.now.width rows.now.rows b.scale b.most b.columns.items) }
    ensures bound { IfSome result (λ b. norm * b.most < 2 ^ 63) }
{
    let _ = row_numbers(rows)?;
    let scale = common(rows)?;
    if !is_multiple(rows, scale) {
        return None;
    }
    let mut columns = Vec::new(rows.allocator());
    let most = push_columns(&mut columns, rows, scale, scale.unsigned_abs())?;
    if most < 9223372036854775808 && are_short(norm, most) {
        Some(Basis {
            scale,
            most,
            columns,
        })
    } else {
        None
    }
}
