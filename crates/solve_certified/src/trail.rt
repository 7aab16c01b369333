ghost use Rattle.std.specs.Prelude.{◌≡◌, ◌^◌, ◌+◌, ◌-◌, ◌<◌, ◌≤◌, ◌++◌, [], ◌∷◌, pos, ◌≤ℤ◌, length, take, All, OnOk};
ghost use Rattle.pip_model.specs.Forms.{opposite, constant};
ghost use Rattle.pip_model.specs.Listed.{opposite_listed};
ghost use Rattle.pip_model.specs.Cuts.{Quotient, upper_bound};
ghost use Rattle.pip_model.specs.Agreement.{IsChecked};
ghost use Rattle.affine_forms.specs.Checks.{Fits, is_form_overflow};
ghost use Rattle.solve_certified.specs.Trails.{below_quotient};

use crate::quotients::PathQuotient;
use affine_forms::{Form, FormRefusal, WantOfMemory};
use certificate_check::NodePath;
use std::alloc::Global;
use std::marker::Model;

// The way to a node of a tree: its forms, and its quotients.
#[derive(Drop)]
pub(crate) struct Trail {
    path: NodePath,
    quotients: Vec<PathQuotient>,
}

// How long a trail was, and what was in scope: where it can go back to.
#[derive(Clone, Copy)]
pub(crate) struct TrailMark {
    pub(crate) scope: usize,
    pub(crate) forms: usize,
    pub(crate) quotients: usize,
}

impl Model for Trail {
    ghost use Rattle.solve_certified.specs.Trails.{TrailForms};

    ghost Value = { TrailForms };

    ghost view = { λ t. record { scope = t.path.scope; forms = t.path.forms; quotients = t.quotients.items } };
}

impl Trail {
    // The way to the root, over so many parameters. It takes no memory.
    pub(crate) fn new(alloc: Global, params: usize) -> Trail
        ensures { result ≡ record { scope = params; forms = []; quotients = [] } }
    {
        Trail {
            path: NodePath::new(alloc, params),
            quotients: Vec::new(alloc),
        }
    }

    // The number of parameters and quotients in scope.
    pub(crate) fn scope(&self) -> usize
        ensures { result ≡ self.now.scope }
    {
        self.path.scope()
    }

    // The forms in order.
    pub(crate) fn forms(&self) -> &[Form]
        ensures value { result.now ≡ self.now.forms }
        ensures within { All (λ c. length c ≤ self.now.scope + 1) self.now.forms }
    {
        self.path.as_slice()
    }

    // The quotients in order.
    pub(crate) fn quotients(&self) -> &[PathQuotient]
        ensures { result.now ≡ self.now.quotients }
    {
        &self.quotients
    }

    // Where it stands.
    pub(crate) fn mark(&self) -> TrailMark
        ensures scope { result.scope ≡ self.now.scope }
        ensures forms { result.forms ≡ length self.now.forms }
        ensures quotients { result.quotients ≡ length self.now.quotients }
        ensures within { All (λ c. length c ≤ self.now.scope + 1) self.now.forms }
    {
        TrailMark {
            scope: self.path.scope(),
            forms: self.path.len(),
            quotients: self.quotients.len(),
        }
    }

    // Goes on to the first tree of a choice.
    pub(crate) fn push(&mut self, alloc: Global, form: &Form) -> Result<(), WantOfMemory>
        requires { length form.now ≡ self.old.scope + 1 }
        ensures { OnOk result (self.new ≡ record self.old { forms = self.old.forms ++ form.now ∷ [] }) }
    {
        self.path.push(alloc, form)
    }

    // Goes on to the second tree of a choice.
    pub(crate) fn push_opposite(&mut self, alloc: Global, form: &Form) -> Result<(), FormRefusal>
        requires { length form.now ≡ self.old.scope + 1 }
        ensures listed { IsChecked is_form_overflow (opposite_listed form.now) result }
        ensures ok { OnOk result (self.new ≡ record self.old { forms = self.old.forms ++ opposite form.now ∷ [] }) }
    {
        self.path.push_opposite(alloc, form)
    }

    // Takes a quotient, whose bounds are the last two forms.
    fn push_bounded(&mut self, alloc: Global, form: &Form, d: i128) -> Result<(), WantOfMemory>
        requires some { 1 ≤ length self.old.forms }
        requires fits { Fits d }
        ensures { OnOk result (self.new ≡ record self.old {
          quotients = self.old.quotients ++ record {
            quotient = record { form = form.now; den = d };
            bound = length self.old.forms - 1;
          } ∷ [];
        }) }
    {
        let bound = self.path.len() - 1;
        let quotient = PathQuotient::try_new(alloc, form, d, bound)?;
        self.quotients.push(quotient)?;
        Ok(())
    }

    // Goes on below the definition of a quotient, with its two bounds.
    pub(crate) fn push_quotient(
        &mut self,
        alloc: Global,
        form: &Form,
        d: i128,
    ) -> Result<(), FormRefusal>
        requires width { length form.now ≡ self.old.scope + 1 }
        requires room { self.old.scope + 1 < 2 ^ 64 }
        requires divisor { pos 1 ≤ℤ d }
        requires fits { Fits d }
        ensures listed { let k : Quotient = record { form = form.now; den = d } in IsChecked is_form_overflow
            (constant (upper_bound (self.old.scope + 1) self.old.scope k) ∷ []) result }
        ensures ok { OnOk result (self.new ≡ below_quotient self.old form.now d) }
    {
        self.path.push_bounds(alloc, form, d)?;
        self.push_bounded(alloc, form, d)?;
        Ok(())
    }

    // Goes back to a mark.
    pub(crate) fn back_to(&mut self, mark: TrailMark)
        requires { All (λ c. length c ≤ mark.scope + 1) (take mark.forms self.old.forms) }
        ensures { self.new ≡ record {
          scope = mark.scope;
          forms = take mark.forms self.old.forms;
          quotients = take mark.quotients self.old.quotients;
        } }
    {
        self.path.go_back(mark.scope, mark.forms);
        self.quotients.truncate(mark.quotients);
    }
}
