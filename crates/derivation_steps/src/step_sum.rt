ghost use Rattle.std.specs.Prelude.{◌≡◌, ◌+◌, ◌-◌, ◌≤◌, ◌<◌, ◌≤ℤ◌, ◌+ℤ◌, ◌*ℤ◌, ◌&&◌, ◌++◌, [], ◌∷◌, true, false, pos, nat_lt, unsigned_abs, length, take, drop, replicate, slice_index_or, All, IsTrue, IfOk, OnOk, OnErr, MatchOption};
ghost use Rattle.pip_model.specs.Numbers.{is_nonneg, floor_div as floor_div_of};
ghost use Rattle.pip_model.specs.Forms.{floor_divided, widen_to};
ghost use Rattle.pip_model.specs.Agreement.{IsChecked, Agrees};
ghost use Rattle.pip_model.specs.Check as model;
ghost use Rattle.affine_forms.specs.Checks.{Fits, is_overflow, is_form_overflow};
ghost use Rattle.affine_forms.specs.Forms.{IsForm};
ghost use Rattle.derivation_steps.specs.Faults.{fault_at};
ghost use Rattle.derivation_steps.specs.Steps.{read_over};
ghost use Rattle.derivation_steps.specs.Sums.{total, EndsAtItsLast};

use crate::absurd::{all_zero, negative};
use crate::fault::StepRefusal;
use crate::sum::{add_front, add_product};
use crate::trimming::{trimmed_form, trimmed_len};
use affine_forms::{Form, FormRefusal, Overflow, WantOfMemory, divide_all, floor_div, is_whole};
use std::alloc::Global;
use std::marker::Model;

/// A sum of a step's terms over so many places. Its coefficients end where those of the widest term do.
#[derive(Drop)]
pub struct StepSum {
    width: usize,
    coefficients: Vec<i128>,
    constant: i128,
}

impl Model for StepSum {
    ghost use Rattle.derivation_steps.specs.Sums.{PartSum, IsPartSum};

    ghost Value = { PartSum };

    ghost view = { λ s. record { width = s.width; coefficients = s.coefficients.items; constant = s.constant } };

    ghost invariant = { λ s. IsPartSum
        (record { width = s.width; coefficients = s.coefficients.items; constant = s.constant }) };
}

impl StepSum {
    /// The sum of no terms. It takes no memory.
    pub fn new(alloc: Global, width: usize) -> StepSum
        ensures { result ≡ record { width = width; coefficients = []; constant = pos 0 } }
    {
        StepSum {
            width,
            coefficients: Vec::new(alloc),
            constant: 0,
        }
    }

    /// Makes it the sum of no terms, over so many places. Its room stays.
    pub fn restart(&mut self, width: usize)
        ensures { self.new ≡ record { width = width; coefficients = []; constant = pos 0 } }
    {
        self.clear();
        self.width = width;
    }

    // Makes it the sum of no terms. Its room stays.
    pub(crate) fn clear(&mut self)
        ensures { self.new ≡ record self.old { coefficients = []; constant = pos 0 } }
    {
        self.coefficients.clear();
        self.constant = 0;
    }

    // Has so many coefficients, or more.
    fn reach(&mut self, n: usize) -> Result<(), WantOfMemory>
        requires { n ≤ self.old.width }
        ensures ok { OnOk result (self.new ≡ record self.old {
          coefficients = self.old.coefficients ++ replicate (n - length self.old.coefficients) (pos 0);
        }) }
        ensures err { OnErr result (self.new ≡ self.old) }
    {
        if self.coefficients.len() < n {
            self.coefficients.resize(n, 0)?;
        }
        Ok(())
    }

    // Adds m times a form of no more coefficients than there are.
    fn add_parts(&mut self, m: i128, front: &[i128], constant: i128) -> Result<(), Overflow>
        requires { length front.now ≤ length self.old.coefficients }
        ensures listed { IsChecked is_overflow (model.plus_term_listed
            (take (length front.now) self.old.coefficients) m front.now
            ++ (m *ℤ constant) ∷ (self.old.constant +ℤ m *ℤ constant) ∷ []) result }
        ensures ok { OnOk result (self.new ≡ record self.old {
          coefficients = model.plus_term (take (length front.now) self.old.coefficients) m front.now
              ++ drop (length front.now) self.old.coefficients;
          constant = self.old.constant +ℤ m *ℤ constant;
        }) }
        ensures width { self.new.width ≡ self.old.width }
    {
        add_front(&mut self.coefficients, m, front)?;
        self.constant = add_product(self.constant, m, constant)?;
        Ok(())
    }

    // Adds m times a form, which reads 0 at the places that it has not. Where m is 0 there is nothing to add.
    fn add(&mut self, m: i128, form: &[i128]) -> Result<(), FormRefusal>
        requires form { IsForm form.now }
        requires within { length form.now ≤ self.old.width + 1 }
        ensures listed { IsChecked is_form_overflow
            (model.plus_term_listed (total self.old) m (widen_to self.old.width form.now)) result }
        ensures ok { OnOk result (total self.new
            ≡ model.plus_term (total self.old) m (widen_to self.old.width form.now)) }
        ensures width { self.new.width ≡ self.old.width }
    {
        // Reading it tells that its numbers fit.
        let _constant = self.constant;
        if m == 0 {
            return Ok(());
        }
        let (places, constant) = form.split_at(form.len() - 1);
        let (front, _) = places.split_at(trimmed_len(places));
        self.reach(front.len())?;
        self.add_parts(m, front, constant[0])?;
        Ok(())
    }

    // Whether it is 0 everywhere, and has no coefficients.
    fn is_empty(&self) -> bool
        ensures { IsTrue result → total self.now ≡ replicate (self.now.width + 1) (pos 0) }
    {
        self.coefficients.is_empty() && self.constant == 0
    }

    // Makes it a form, which reads 0 at the places that it has not.
    fn begin(&mut self, form: &[i128]) -> Result<(), WantOfMemory>
        requires form { IsForm form.now }
        requires within { length form.now ≤ self.old.width + 1 }
        ensures ok { OnOk result (total self.new ≡ widen_to self.old.width form.now) }
        ensures width { self.new.width ≡ self.old.width }
    {
        let (places, constant) = form.split_at(form.len() - 1);
        let (front, _) = places.split_at(trimmed_len(places));
        self.coefficients.clear();
        self.coefficients.extend_from_slice(front)?;
        self.constant = constant[0];
        Ok(())
    }

    // Adds m times a form, which reads 0 at the places that it has not. Where it is the first, and m is 1, it is copied.
    fn add_next(&mut self, m: i128, form: &[i128]) -> Result<(), FormRefusal>
        requires form { IsForm form.now }
        requires within { length form.now ≤ self.old.width + 1 }
        ensures listed { IsChecked is_form_overflow
            (model.plus_term_listed (total self.old) m (widen_to self.old.width form.now)) result }
        ensures ok { OnOk result (total self.new
            ≡ model.plus_term (total self.old) m (widen_to self.old.width form.now)) }
        ensures width { self.new.width ≡ self.old.width }
    {
        if m == 1 && self.is_empty() {
            self.begin(form)?;
            // Reading it tells that its numbers fit.
            let _constant = self.constant;
            return Ok(());
        }
        self.add(m, form)
    }

    // Adds a pair's multiple of the known form that its index names.
    fn add_term(&mut self, known: &[Form], term: (i128, i128)) -> Result<(), StepRefusal>
        requires { All (λ c. length c ≤ self.old.width + 1) known.now }
        ensures gives { (at : model.Spot) → Agrees (λ _. total self.new) (fault_at at) result
            (model.sum_of at (read_over self.old.width known.now) (total self.old) (term ∷ [])) }
        ensures width { self.new.width ≡ self.old.width }
    {
        let (index, multiplier) = term;
        if multiplier < 0 {
            return Err(StepRefusal::Rejected);
        }
        let Some(form) = form_of_index(self.width, known, index) else {
            return Err(StepRefusal::Rejected);
        };
        self.add_next(multiplier, form.as_slice())?;
        Ok(())
    }

    // Adds the multiples of all pairs, in order.
    pub(crate) fn add_terms(
        &mut self,
        known: &[Form],
        terms: &[(i128, i128)],
    ) -> Result<(), StepRefusal>
        requires { All (λ c. length c ≤ self.old.width + 1) known.now }
        ensures gives { (at : model.Spot) → Agrees (λ _. total self.new) (fault_at at) result
            (model.sum_of at (read_over self.old.width known.now) (total self.old) terms.now) }
        ensures width { self.new.width ≡ self.old.width }
    {
        for term in terms {
            self.add_term(known, *term)?;
        }
        Ok(())
    }

    // Whether d divides each coefficient.
    #[tactic(auto, using(crate::proofs::Spreading::spread_divisible))]
    pub(crate) fn is_divisible(&self, d: i128) -> bool
        requires { pos 1 ≤ℤ d }
        ensures { result ≡ model.is_divisible d (total self.now) }
    {
        is_whole(d, &self.coefficients)
    }

    // Divides each coefficient and the constant, rounded down.
    pub(crate) fn divide(&mut self, d: i128)
        requires { pos 1 ≤ℤ d }
        ensures { self.new ≡ record self.old {
          coefficients = floor_divided d self.old.coefficients;
          constant = floor_div_of self.old.constant d;
        } }
    {
        divide_all(&mut self.coefficients, d);
        self.constant = floor_div(self.constant, d);
    }

    // Whether its form is below 0 everywhere.
    #[tactic(auto, using(crate::proofs::Spreading::spread_absurd))]
    pub(crate) fn is_absurd(&self) -> bool
        ensures { result ≡ model.is_absurd (total self.now) }
    {
        all_zero(&self.coefficients) && negative(self.constant)
    }

    // Its form, which ends at its last coefficient that is not 0.
    pub(crate) fn form(&self, alloc: Global) -> Result<Form, WantOfMemory>
        ensures value { IfOk result (λ form. widen_to self.now.width form ≡ total self.now) }
        ensures within { IfOk result (λ form. length form ≤ self.now.width + 1) }
        ensures ends { IfOk result EndsAtItsLast }
    {
        trimmed_form(alloc, &self.coefficients, self.constant)
    }
}

// The known form that an index names.
fn form_of_index(width: usize, known: &[Form], index: i128) -> Option<&Form>
    requires { All (λ c. length c ≤ width + 1) known.now }
    ensures { let forms = read_over width known.now in MatchOption result
        ((is_nonneg index && nat_lt (unsigned_abs index) (length forms)) ≡ false)
        (λ c. ((is_nonneg index && nat_lt (unsigned_abs index) (length forms)) ≡ true)
        × (widen_to width c.now ≡ slice_index_or forms (unsigned_abs index) [])
        × (length c.now ≤ width + 1)) }
{
    if 0 <= index && index.unsigned_abs() < known.len() as u128 {
        Some(&known[index as usize])
    } else {
        None
    }
}
