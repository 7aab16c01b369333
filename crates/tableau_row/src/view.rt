ghost use Rattle.std.specs.Prelude.{◌≡◌, ◌<◌, ◌*ℤ◌, length, IsTrue};
ghost use Rattle.pip_model.specs.Forms.{entry};
ghost use Rattle.affine_forms.specs.Checks.{IsFitted};
ghost use Rattle.row_laws.specs.Short.{IsShortRow};
ghost use Rattle.row_laws.specs.Rows.{row_from};

use affine_forms::{Overflow, short_product, times};

/// A row `(D, a, t)`: D times its quantity is the sum of the a_k times the columns' quantities, plus the form t.
#[derive(Clone, Copy)]
pub struct RowView<'t> {
    /// D, at least 1.
    pub den: i128,
    /// The a_k, one for each column.
    pub coefs: &'t [i128],
    /// The entries of t: the coefficients of the parameters and quotients, and then the constant.
    pub constant: &'t [i128],
    // Whether each number is known to lie from -(2^63 - 1) to 2^63 - 1.
    pub(crate) short: bool,
    ghost short_numbers: { IsTrue short → IsShortRow (row_from den coefs.now constant.now) },
}

impl<'t> RowView<'t> {
    ghost use Rattle.tableau_row.specs.Views.{row_of, is_known_short};

    /// The row of these parts; `short` says that all its numbers are known to lie from `-(2^63 - 1)` to `2^63 - 1`.
    #[inline(always)]
    pub fn new(den: i128, coefs: &'t [i128], constant: &'t [i128], short: bool) -> RowView<'t>
        requires short { IsTrue short → IsShortRow (row_from den coefs.now constant.now) }
        ensures value { row_of result ≡ row_from den coefs.now constant.now }
        ensures short { is_known_short result ≡ short }
    {
        RowView {
            den,
            coefs,
            constant,
            short,
        }
    }

    /// Whether all its numbers are known to lie from `-(2^63 - 1)` to `2^63 - 1`.
    #[inline(always)]
    pub fn is_known_short(&self) -> bool
        ensures value { result ≡ is_known_short self.now }
        ensures short { IsTrue result → IsShortRow (row_of self.now) }
    {
        self.short
    }

    /// Its coefficient k times the other row's coefficient b. It overflows exactly where that does not fit.
    #[inline(always)]
    pub fn product(&self, k: usize, other: &RowView<'_>, b: usize) -> Result<i128, Overflow>
        requires k { k < length self.now.coefs.now }
        requires b { b < length other.now.coefs.now }
        ensures { IsFitted (entry self.now.coefs.now k *ℤ entry other.now.coefs.now b) result }
    {
        if self.short && other.short {
            return Ok(short_product(self.coefs[k], other.coefs[b]));
        }
        times(self.coefs[k], other.coefs[b])
    }
}
