ghost use Rattle.std.specs.Prelude.{◌≡◌, ◌↔◌, ◌+◌, ◌<◌, ◌≤ℤ◌, ℤ, List, pos, length, All, IsTrue, IfOk, OnOk, OnErr};
ghost use Rattle.pip_model.specs.Numbers.{divides, gcd_of, is_nonneg};
ghost use Rattle.pip_model.specs.Forms.{width, entry, coefficients, value, combine, floor_divided, scale, tighten, opposite, residue, widen, remove};
ghost use Rattle.pip_model.specs.Listed.{value_listed, combine_listed, opposite_listed};
ghost use Rattle.pip_model.specs.Agreement.{IsChecked};
ghost use Rattle.affine_forms.specs.Checks.{Fits, is_overflow, is_form_overflow};
ghost use Rattle.affine_forms.specs.Forms.{IsForm};

use crate::combination::add_combined;
use crate::division::{divisor, residues};
use crate::entries::{divide_evenly, is_tight, make_opposite, make_tight};
use crate::evaluation::evaluate;
use crate::memory::{FormRefusal, WantOfMemory};
use crate::numbers::Overflow;
use std::alloc::Global;
use std::marker::Model;

/// An affine form `c_0*v_0 + .. + c_(w-1)*v_(w-1) + c_w`: the coefficients of w places, and then the constant.
/// There is at least the constant, and each entry fits `-(2^127 - 1) .. 2^127 - 1`.
#[derive(Drop)]
pub struct Form {
    entries: Vec<i128>,
}

impl Model for Form {
    ghost use Rattle.std.specs.Prelude.{List, ℤ};
    ghost use Rattle.affine_forms.specs.Forms.{IsForm};

    ghost Value = { List ℤ };

    ghost view = { λ form. form.entries.items };

    ghost invariant = { λ form. IsForm form.entries.items };
}

impl Form {
    /// The form with these entries, at least one, each of which fits.
    pub fn try_new(alloc: Global, entries: &[i128]) -> Result<Form, WantOfMemory>
        requires { IsForm entries.now }
        ensures { IfOk result (λ form. form ≡ entries.now) }
    {
        let entries = Vec::from_slice(alloc, entries)?;
        Ok(Form { entries })
    }

    /// The form of these entries, which are not copied.
    pub fn from_entries(entries: Vec<i128>) -> Form
        requires { IsForm entries.items }
        ensures { result ≡ entries.items }
    {
        Form { entries }
    }

    /// The entries, which are not copied.
    pub fn into_entries(self) -> Vec<i128>
        ensures { result.items ≡ self }
    {
        self.entries
    }

    /// The same form again.
    pub fn try_clone(&self, alloc: Global) -> Result<Form, WantOfMemory>
        ensures { IfOk result (λ form. form ≡ self.now) }
    {
        let entries = Vec::from_slice(alloc, &self.entries)?;
        Ok(Form { entries })
    }

    /// `a*r - b*s`, entry by entry, for forms of one width. It overflows exactly where one of the products `a*x` and
    /// `b*y` or the difference of two of them does not fit.
    pub fn combine(alloc: Global, a: i128, r: &Form, b: i128, s: &Form) -> Result<Form, FormRefusal>
        requires widths { length r.now ≡ length s.now }
        requires a_fits { Fits a }
        requires b_fits { Fits b }
        ensures listed { IsChecked is_form_overflow (combine_listed a r.now b s.now) result }
        ensures value { IfOk result (λ form. form ≡ combine a r.now b s.now) }
    {
        let mut entries = Vec::with_capacity(alloc, r.entries.len())?;
        add_combined(&mut entries, a, &r.entries, b, &s.entries)?;
        Ok(Form { entries })
    }

    /// The number of coefficients.
    pub fn width(&self) -> usize
        ensures value { result ≡ width self.now }
        ensures entries { result + 1 ≡ length self.now }
    {
        self.entries.len() - 1
    }

    /// The entry at place i, at most the width: a coefficient, or the constant, which has the place after them.
    pub fn at(&self, i: usize) -> i128
        requires { i < length self.now }
        ensures value { result ≡ entry self.now i }
        ensures fits { Fits result }
    {
        self.entries[i]
    }

    /// The coefficients, and then the constant.
    pub fn as_slice(&self) -> &[i128]
        ensures value { result.now ≡ self.now }
        ensures form { IsForm result.now }
    {
        &self.entries
    }

    /// The value at v, which has a number for each coefficient: the products are added in order from 0, and then the
    /// constant. It overflows exactly where a product or a partial sum does not fit.
    pub fn value_at(&self, v: &[i128]) -> Result<i128, Overflow>
        requires width { length v.now + 1 ≡ length self.now }
        requires fits { All Fits v.now }
        ensures listed { IsChecked is_overflow (value_listed self.now v.now) result }
        ensures value { IfOk result (λ z. z ≡ value self.now v.now) }
        ensures fits { IfOk result Fits }
    {
        evaluate(&self.entries, v)
    }

    /// The greatest common divisor of all entries, with the constant; 0 where all are 0.
    pub fn content(&self) -> i128
        ensures value { result ≡ gcd_of self.now }
        ensures low { pos 0 ≤ℤ result }
        ensures divides { pos 1 ≤ℤ result → All (λ x. IsTrue (divides result x)) self.now }
        ensures fits { Fits result }
    {
        divisor(&self.entries)
    }

    /// Divides each entry by d, which divides each of them.
    pub fn divide_exact(&mut self, d: i128)
        requires positive { pos 1 ≤ℤ d }
        requires divides { All (λ x. IsTrue (divides d x)) self.old }
        ensures value { self.new ≡ floor_divided d self.old }
        ensures exact { scale d self.new ≡ self.old }
    {
        divide_evenly(&mut self.entries, d);
    }

    /// Whether the greatest common divisor of the coefficients is at most 1, so that tightening keeps the form.
    pub fn is_tight(&self) -> bool
        ensures value { IsTrue result ↔ (gcd_of (coefficients self.now) ≤ℤ pos 1) }
        ensures kept { IsTrue result → tighten self.now ≡ self.now }
    {
        is_tight(&self.entries)
    }

    /// Divides the coefficients by their greatest common divisor, and rounds the constant over it down. A form whose
    /// coefficients are all 0 stays. The sign at whole vectors is the same as before.
    pub fn tighten(&mut self)
        ensures value { self.new ≡ tighten self.old }
        ensures sign { (u : List ℤ) → length self.old ≡ length u + 1
            → is_nonneg (value self.new u) ≡ is_nonneg (value self.old u) }
    {
        make_tight(&mut self.entries);
    }

    /// `-c - 1`, which is at least 0 at a whole vector exactly where c is below 0. It overflows exactly where the
    /// constant does not fit; the form is then as it was.
    pub fn opposite(&mut self) -> Result<(), Overflow>
        ensures listed { IsChecked is_overflow (opposite_listed self.old) result }
        ensures ok { OnOk result (self.new ≡ opposite self.old) }
        ensures err { OnErr result (self.new ≡ self.old) }
    {
        make_opposite(&mut self.entries)
    }

    /// `(-c) mod d` in `0 .. d - 1`, entry by entry.
    pub fn residue(&self, alloc: Global, d: i128) -> Result<Form, WantOfMemory>
        requires { pos 1 ≤ℤ d }
        ensures { IfOk result (λ form. form ≡ residue d self.now) }
    {
        let entries = residues(alloc, d, &self.entries)?;
        Ok(Form { entries })
    }

    /// Puts n zero coefficients before the constant. A refusal leaves the form as it was.
    pub fn widen(&mut self, n: usize) -> Result<(), WantOfMemory>
        ensures ok { OnOk result (self.new ≡ widen n self.old) }
        ensures err { OnErr result (self.new ≡ self.old) }
    {
        let width = self.entries.len() - 1;
        let Some(entries) = self.entries.len().checked_add(n) else {
            return Err(WantOfMemory);
        };
        self.entries.resize(entries, 0)?;
        self.entries.swap(width, width + n);
        Ok(())
    }

    /// Drops coefficient i.
    #[tactic(auto, using(crate::proofs::Places::remove_same))]
    pub fn remove(&mut self, i: usize)
        requires { i < width self.old }
        ensures { self.new ≡ remove i self.old }
    {
        self.entries.remove(i);
    }
}
