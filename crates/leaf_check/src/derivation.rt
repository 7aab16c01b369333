ghost use Rattle.std.specs.Prelude.{◌≡◌, ◌+◌, ◌≤◌, ◌++◌, [], ◌∷◌, length, take, OnOk, OnErr};
ghost use Rattle.pip_model.specs.Forms.{widen_to};
ghost use Rattle.pip_model.specs.Agreement.{Agrees};
ghost use Rattle.pip_model.specs.Check as model;
ghost use Rattle.derivation_steps.specs.Faults.{fault_of, spot_of};
ghost use Rattle.leaf_check.specs.Known.{absurd_by};
ghost use Rattle.leaf_check.specs.Goals.{without_last};

use crate::known::Known;
use affine_forms::{Form, WantOfMemory};
use certificate_parts::Step;
use derivation_steps::{Fault, Spot, StepSum, derive, derives_absurd, is_absurd};
use std::alloc::Global;
use std::marker::Model;

// The known forms of a refutation as the check keeps them, in the order of their numbers. Those that steps give end at
// their last coefficient that is not 0.
#[derive(Drop)]
pub(crate) struct Derivation {
    width: usize,
    forms: Vec<Form>,
    // Room for the sum of a step.
    sum: StepSum,
}

impl Model for Derivation {
    ghost use Rattle.derivation_steps.specs.Steps.{read_over};
    ghost use Rattle.leaf_check.specs.Known.{KnownForms, AreOver};

    ghost Value = { KnownForms };

    ghost view = { λ k. record { width = k.width; forms = read_over k.width k.forms.items } };

    ghost invariant = { λ k. AreOver k.width k.forms.items k.sum };
}

impl Derivation {
    // No forms over so many places. It takes no memory.
    pub(crate) fn new(alloc: Global, width: usize) -> Derivation
        ensures { result ≡ record { width = width; forms = [] } }
    {
        Derivation {
            width,
            forms: Vec::new(alloc),
            sum: StepSum::new(alloc, width),
        }
    }

    // No forms over so many places from now on. Their rooms are kept for those that are made.
    pub(crate) fn restart(&mut self, made: &mut Known, width: usize)
        ensures forms { self.new ≡ record { width = width; forms = [] } }
        ensures made { made.new ≡ made.old }
    {
        self.truncate(made, 0);
        self.width = width;
        self.sum.restart(width);
    }

    // Takes room for so many more forms.
    pub(crate) fn reserve(&mut self, forms: usize) -> Result<(), WantOfMemory>
        ensures { self.new ≡ self.old }
    {
        self.forms.reserve(forms)?;
        Ok(())
    }

    // The number of forms.
    pub(crate) fn len(&self) -> usize
        ensures { result ≡ length self.now.forms }
    {
        self.forms.len()
    }

    // Drops the forms behind the first n. Their rooms are kept for those that are made.
    #[tactic(auto, using(crate::proofs::Steps::take_over))]
    pub(crate) fn truncate(&mut self, made: &mut Known, n: usize)
        ensures forms { self.new ≡ record self.old { forms = take n self.old.forms } }
        ensures made { made.new ≡ made.old }
    {
        if n < self.forms.len() {
            made.keep_from(&mut self.forms, n);
        }
    }

    // Puts a form behind the others. A refusal leaves them as they were.
    fn put(&mut self, form: Form) -> Result<(), WantOfMemory>
        requires { length form ≤ self.old.width + 1 }
        ensures ok { OnOk result (self.new
            ≡ record self.old { forms = self.old.forms ++ widen_to self.old.width form ∷ [] }) }
        ensures err { OnErr result (self.new ≡ self.old) }
    {
        self.forms.push(form)?;
        Ok(())
    }

    // Drops the last form. Its room is kept for those that are made.
    pub(crate) fn drop_last(&mut self, made: &mut Known)
        ensures forms { self.new ≡ record self.old { forms = without_last self.old.forms } }
        ensures made { made.new ≡ made.old }
    {
        let rest = self.len().saturating_sub(1);
        self.truncate(made, rest);
    }

    // Moves these forms behind the others.
    #[tactic(auto, using(crate::proofs::Steps::joined_over))]
    pub(crate) fn put_all(&mut self, made: &mut Known) -> Result<(), WantOfMemory>
        requires { made.old.width ≡ self.old.width }
        ensures ok { OnOk result (self.new ≡ record self.old { forms = self.old.forms ++ made.old.forms }) }
        ensures width { self.new.width ≡ self.old.width }
        ensures made { made.new.width ≡ made.old.width }
    {
        made.move_behind(&mut self.forms)
    }

    // Derives the next form by a step, and puts it behind the others.
    fn add_step(&mut self, alloc: Global, at: Spot, step: &Step) -> Result<(), Fault>
        ensures gives { Agrees (λ _. self.new.forms) fault_of result
            (model.after_step (spot_of at) self.old.width self.old.forms step.now) }
        ensures width { self.new.width ≡ self.old.width }
        ensures front { take (length self.old.forms) self.new.forms ≡ self.old.forms }
        ensures longer { length self.old.forms ≤ length self.new.forms }
    {
        let form = derive(alloc, at, &self.forms, &mut self.sum, step)?;
        self.put(form)?;
        Ok(())
    }

    // Derives a form by each step, and puts them behind the others.
    pub(crate) fn add_steps(
        &mut self,
        alloc: Global,
        leaf: usize,
        refutation: usize,
        steps: &[Step],
    ) -> Result<(), Fault>
        ensures gives { Agrees (λ _. self.new.forms) fault_of result
            (model.after_steps leaf refutation 0 self.old.width self.old.forms steps.now) }
        ensures width { self.new.width ≡ self.old.width }
        ensures front { take (length self.old.forms) self.new.forms ≡ self.old.forms }
        ensures longer { length self.old.forms ≤ length self.new.forms }
    {
        for i in 0..steps.len() {
            let at = Spot {
                leaf,
                refutation,
                step: i + 1,
            };
            self.add_step(alloc, at, &steps[i])?;
        }
        Ok(())
    }

    // Whether the last form is below 0 everywhere.
    #[tactic(auto, using(crate::proofs::Steps::last_absurd_over))]
    fn ends_absurd(&self) -> bool
        ensures { result ≡ model.ends_absurd self.now.forms }
    {
        match self.forms.last() {
            Some(form) => is_absurd(form.as_slice()),
            None => false,
        }
    }

    // Whether the last form is below 0 everywhere where the steps are taken. The form of the last step is not kept.
    fn ends_absurd_by(
        &mut self,
        alloc: Global,
        leaf: usize,
        refutation: usize,
        steps: &[Step],
    ) -> Result<bool, Fault>
        ensures gives { Agrees (λ absurd. absurd) fault_of result
            (absurd_by leaf refutation self.old.width self.old.forms steps.now) }
        ensures width { self.new.width ≡ self.old.width }
        ensures front { take (length self.old.forms) self.new.forms ≡ self.old.forms }
    {
        if steps.is_empty() {
            return Ok(self.ends_absurd());
        }
        let (front, last) = steps.split_at(steps.len() - 1);
        self.add_steps(alloc, leaf, refutation, front)?;
        let at = Spot {
            leaf,
            refutation,
            step: steps.len(),
        };
        let absurd = derives_absurd(at, &self.forms, &mut self.sum, &last[0])?;
        Ok(absurd)
    }

    // Takes the steps; the last form has to be below 0 everywhere.
    pub(crate) fn refute(
        &mut self,
        alloc: Global,
        leaf: usize,
        refutation: usize,
        steps: &[Step],
    ) -> Result<(), Fault>
        ensures gives { Agrees (λ _. tt) fault_of result (model.check_refutation leaf refutation self.old.width
            (record { known = self.old.forms; listed = [] }) steps.now) }
        ensures width { self.new.width ≡ self.old.width }
        ensures front { take (length self.old.forms) self.new.forms ≡ self.old.forms }
    {
        let absurd = self.ends_absurd_by(alloc, leaf, refutation, steps)?;
        if !absurd {
            return Err(Fault::Rejected(Spot {
                leaf,
                refutation,
                step: steps.len(),
            }));
        }
        Ok(())
    }
}
