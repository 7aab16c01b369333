ghost use Rattle.std.specs.Prelude.{◌≡◌, ◌*◌, ◌^◌, ◌<◌, ◌≤◌, ◌+ℤ◌, ◌*ℤ◌, unsigned_abs, IsTrue, IfSome};
ghost use Rattle.pip_model.specs.Forms as model;
ghost use Rattle.form_laws.specs.Bounds as bounds;
ghost use Rattle.form_laws.specs.Columns.{IsSummable};

/// A sum, and the product of two numbers more.
#[inline(always)]
pub fn add_product(sum: i64, x: i64, y: i64) -> i64
    requires product { unsigned_abs (x *ℤ y) < 2 ^ 63 }
    requires all { unsigned_abs (sum +ℤ x *ℤ y) < 2 ^ 63 }
    ensures { result ≡ sum +ℤ x *ℤ y }
{
    sum + x * y
}

/// The product, which fits in 128 bits.
#[inline(always)]
pub fn wide_product(x: i64, y: i64) -> i128
    ensures { result ≡ x *ℤ y }
{
    (x as i128) * (y as i128)
}

// The sum of the products of a form's first numbers and those of a column.
pub(crate) fn dot(form: &[i64], column: &[i64]) -> i64
    requires { IsSummable form.now column.now }
    ensures { result ≡ model.dot form.now column.now }
{
    let mut sum = 0;
    for i in 0..column.len() {
        let number = form[i];
        if number != 0 {
            sum = add_product(sum, number, column[i]);
        }
    }
    sum
}

/// The sum of the sizes of the numbers, none where it is too great.
pub fn norm(numbers: &[i64]) -> Option<u64>
    ensures { IfSome result (λ k. k ≡ bounds.norm numbers.now) }
{
    let mut sum: u64 = 0;
    for number in numbers {
        sum = sum.checked_add(number.unsigned_abs())?;
    }
    Some(sum)
}

/// Whether a form of such a norm and numbers of such a size make a short row.
#[inline(always)]
pub fn are_short(norm: u64, most: u64) -> bool
    ensures { IsTrue result → norm * most < 2 ^ 63 }
{
    match norm.checked_mul(most) {
        None => false,
        Some(product) => product < 9223372036854775808,
    }
}

/// The greater of two numbers.
#[inline(always)]
pub fn greater(a: u64, b: u64) -> u64
    ensures first { a ≤ result }
    ensures second { b ≤ result }
{
    if a < b { b } else { a }
}

/// The greater of a number and a size.
#[inline(always)]
pub fn with_size(most: u64, z: i64) -> u64
    ensures most { most ≤ result }
    ensures size { unsigned_abs z ≤ result }
{
    let size = z.unsigned_abs();
    if size > most { size } else { most }
}
