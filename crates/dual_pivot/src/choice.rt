ghost use Rattle.std.specs.Prelude.{◌≡◌, ◌*ℤ◌, ◌+◌, ◌<◌, ◌≤◌, [], ◌∷◌, length, take, IfOk, IfSome, IsSomeAnd};
ghost use Rattle.pip_model.specs.Rows as model;
ghost use Rattle.pip_model.specs.Agreement.{IsChecked};
ghost use Rattle.pip_model.specs.Forms.{entry};
ghost use Rattle.affine_forms.specs.Checks.{is_overflow, IsFitted};
ghost use Rattle.tableau.specs.Views.{row_of};
ghost use Rattle.row_laws.specs.Choices.{product_at, compared, better, better_listed, unit_entry, IsCandidate};

use affine_forms::{Overflow, positive, times};
use tableau::{RowView, Tableau};

// The product of a number with the coefficient of column k in the row of column c.
fn unit_product(c: usize, k: usize, factor: i128) -> Result<i128, Overflow>
    ensures { IsFitted (unit_entry c k *ℤ factor) result }
{
    if c == k { times(1, factor) } else { Ok(0) }
}

// The products by which columns k and b are compared at the row of column c: one of them is a coefficient of p at most,
// the others are 0.
fn unit_products(p: &RowView<'_>, c: usize, k: usize, b: usize) -> Result<(i128, i128), Overflow>
    requires k { k < length p.now.coefs.now }
    requires b { b < length p.now.coefs.now }
    ensures listed { IsChecked is_overflow ((unit_entry c k *ℤ entry p.now.coefs.now b)
        ∷ (unit_entry c b *ℤ entry p.now.coefs.now k) ∷ []) result }
    ensures value { IfOk result (λ both. both ≡
        (unit_entry c k *ℤ entry p.now.coefs.now b, unit_entry c b *ℤ entry p.now.coefs.now k)) }
{
    if c != k && c != b {
        return Ok((0, 0));
    }
    let of_k = unit_product(c, k, p.coefs[b])?;
    let of_b = unit_product(c, b, p.coefs[k])?;
    Ok((of_k, of_b))
}

// The products by which columns k and b are compared at row i.
fn products_at(
    t: &Tableau,
    p: &RowView<'_>,
    i: usize,
    k: usize,
    b: usize,
) -> Result<(i128, i128), Overflow>
    requires row { i < length t.now.rows }
    requires columns { length p.now.coefs.now ≡ t.now.unknowns }
    requires k { k < t.now.unknowns }
    requires b { b < t.now.unknowns }
    ensures listed { IsChecked is_overflow (product_at t.now.rows i (row_of p.now) k b ∷ product_at t.now.rows i
        (row_of p.now) b k ∷ []) result }
    ensures value { IfOk result (λ both. both ≡
        (product_at t.now.rows i (row_of p.now) k b, product_at t.now.rows i (row_of p.now) b k)) }
{
    if let Some(c) = t.column_of(i) {
        return unit_products(p, c, k, b);
    }
    let row = t.row(i);
    let of_k = row.product(k, p, b)?;
    let of_b = row.product(b, p, k)?;
    Ok((of_k, of_b))
}

// Whether column k has the smaller list of quotients a_ik / a_pk over the unknowns' rows than column b.
fn is_better(t: &Tableau, p: &RowView<'_>, k: usize, b: usize) -> Result<bool, Overflow>
    requires rows { t.now.unknowns ≤ length t.now.rows }
    requires columns { length p.now.coefs.now ≡ t.now.unknowns }
    requires k { k < t.now.unknowns }
    requires b { b < t.now.unknowns }
    ensures listed { IsChecked is_overflow (compared (take t.now.unknowns t.now.rows) (row_of p.now) k b) result }
    ensures value { IfOk result (λ x. x ≡ model.is_better (take t.now.unknowns t.now.rows) (row_of p.now) k b) }
{
    for i in 0..t.unknowns() {
        let (of_k, of_b) = products_at(t, p, i, k, b)?;
        if of_k != of_b {
            return Ok(of_k < of_b);
        }
    }
    Ok(false)
}

// The better of the best so far and column k.
fn better_of(t: &Tableau, p: &RowView<'_>, best: Option<usize>, k: usize) -> Result<usize, Overflow>
    requires rows { t.now.unknowns ≤ length t.now.rows }
    requires columns { length p.now.coefs.now ≡ t.now.unknowns }
    requires k { IsCandidate t.now.unknowns (row_of p.now) k }
    requires best { IfSome best (IsCandidate t.now.unknowns (row_of p.now)) }
    ensures listed { IsChecked is_overflow (better_listed (take t.now.unknowns t.now.rows)
        (row_of p.now) best k) result }
    ensures value { IfOk result (λ b. b ≡ better (take t.now.unknowns t.now.rows) (row_of p.now) best k) }
    ensures candidate { IfOk result (IsCandidate t.now.unknowns (row_of p.now)) }
{
    match best {
        None => Ok(k),
        Some(b) => { if is_better(t, p, k, b)? { Ok(k) } else { Ok(b) } }
    }
}

/// The column that enters at row r: of the columns in which the row is positive the one whose list of quotients
/// `a_ik / a_rk` over the unknowns' rows is lexicographically least, the lowest on a tie; none where the row has no
/// positive coefficient. It takes no memory.
pub fn entering(t: &Tableau, r: usize) -> Result<Option<usize>, Overflow>
    requires row { r < length t.now.rows }
    requires rows { t.now.unknowns ≤ length t.now.rows }
    ensures listed { IsChecked is_overflow (model.entering_listed t.now.rows r) result }
    ensures value { IfOk result (λ c. c ≡ model.entering t.now.rows r) }
    ensures candidate { IfOk result (λ c. IfSome c (IsCandidate t.now.unknowns (model.row_at t.now.rows r))) }
{
    let p = t.row(r);
    let mut best = None;
    for k in 0..t.unknowns() {
        if positive(p.coefs[k]) {
            best = Some(better_of(t, &p, best, k)?);
        }
    }
    Ok(best)
}
