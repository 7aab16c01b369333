ghost use Rattle.std.specs.Prelude.{◌≡◌, ◌^◌, ◌+◌, ◌<◌, ◌≤◌, ◌++◌, [], ◌∷◌, pos, ◌≤ℤ◌, length, take, All, IfOk, OnOk, OnErr};
ghost use Rattle.pip_model.specs.Forms.{opposite, constant};
ghost use Rattle.pip_model.specs.Listed.{opposite_listed};
ghost use Rattle.pip_model.specs.Cuts.{Quotient, lower_bound as lower_bound_of, upper_bound as upper_bound_of};
ghost use Rattle.pip_model.specs.Agreement.{IsChecked};
ghost use Rattle.affine_forms.specs.Checks.{Fits, is_form_overflow};

use affine_forms::{Form, FormRefusal, WantOfMemory, lower_bound, upper_bound};
use std::alloc::Global;
use std::marker::Model;

/// The forms of the path to a node, each over the first of the parameters and quotients in scope there.
#[derive(Drop)]
pub struct NodePath {
    scope: usize,
    forms: Vec<Form>,
}

impl Model for NodePath {
    ghost use Rattle.std.specs.Prelude.{◌≤◌, ◌+◌, length, All};
    ghost use Rattle.certificate_check.specs.Paths.{PathForms};

    ghost Value = { PathForms };

    ghost view = { λ p. record { scope = p.scope; forms = p.forms.items } };

    ghost invariant = { λ p. All (λ c. length c ≤ p.scope + 1) p.forms.items };
}

// That the quotient at a place is at most the form over d.
fn lower(alloc: Global, place: usize, form: &Form, d: i128) -> Result<Form, WantOfMemory>
    requires width { length form.now ≡ place + 1 }
    requires room { place + 1 < 2 ^ 64 }
    requires fits { Fits d }
    ensures value { IfOk result (λ made. made
        ≡ lower_bound_of (place + 1) place (record { form = form.now; den = d })) }
    ensures long { IfOk result (λ made. length made ≡ place + 2) }
{
    lower_bound(alloc, place + 1, place, form.as_slice(), d)
}

// That it is not below the floor of the form over d.
fn upper(alloc: Global, place: usize, form: &Form, d: i128) -> Result<Form, FormRefusal>
    requires width { length form.now ≡ place + 1 }
    requires room { place + 1 < 2 ^ 64 }
    requires divisor { pos 1 ≤ℤ d }
    requires fits { Fits d }
    ensures listed { IsChecked is_form_overflow
        (constant (upper_bound_of (place + 1) place (record { form = form.now; den = d })) ∷ []) result }
    ensures value { IfOk result (λ made. made
        ≡ upper_bound_of (place + 1) place (record { form = form.now; den = d })) }
    ensures long { IfOk result (λ made. length made ≡ place + 2) }
{
    upper_bound(alloc, place + 1, place, form.as_slice(), d)
}

impl NodePath {
    /// The path to the root, over so many parameters. It takes no memory.
    pub fn new(alloc: Global, params: usize) -> NodePath
        ensures { result ≡ record { scope = params; forms = [] } }
    {
        NodePath {
            scope: params,
            forms: Vec::new(alloc),
        }
    }

    /// The number of parameters and quotients in scope.
    pub fn scope(&self) -> usize
        ensures { result ≡ self.now.scope }
    {
        self.scope
    }

    /// The number of forms.
    pub fn len(&self) -> usize
        ensures value { result ≡ length self.now.forms }
        ensures within { All (λ c. length c ≤ self.now.scope + 1) self.now.forms }
    {
        self.forms.len()
    }

    /// The forms in order.
    pub fn as_slice(&self) -> &[Form]
        ensures value { result.now ≡ self.now.forms }
        ensures within { All (λ c. length c ≤ self.now.scope + 1) self.now.forms }
    {
        &self.forms
    }

    // Puts a form behind the others. A refusal leaves them as they were.
    fn put(&mut self, form: Form) -> Result<(), WantOfMemory>
        requires { length form ≤ self.old.scope + 1 }
        ensures ok { OnOk result (self.new ≡ record self.old { forms = self.old.forms ++ form ∷ [] }) }
        ensures err { OnErr result (self.new ≡ self.old) }
    {
        self.forms.push(form)?;
        Ok(())
    }

    // Takes one more quotient into scope, with its two bounds. A refusal leaves all as it was.
    fn put_bounds(&mut self, lower: Form, upper: Form) -> Result<(), WantOfMemory>
        requires room { self.old.scope + 1 < 2 ^ 64 }
        requires lower { length lower ≡ self.old.scope + 2 }
        requires upper { length upper ≡ self.old.scope + 2 }
        ensures ok { OnOk result (self.new ≡ record {
          scope = self.old.scope + 1;
          forms = self.old.forms ++ lower ∷ upper ∷ [];
        }) }
        ensures err { OnErr result (self.new ≡ self.old) }
    {
        self.forms.reserve(2)?;
        self.scope += 1;
        self.forms.push(lower).unwrap();
        self.forms.push(upper).unwrap();
        Ok(())
    }

    /// Goes on to the first tree of a choice. A refusal leaves the path as it was.
    pub fn push(&mut self, alloc: Global, form: &Form) -> Result<(), WantOfMemory>
        requires { length form.now ≡ self.old.scope + 1 }
        ensures ok { OnOk result (self.new ≡ record self.old { forms = self.old.forms ++ form.now ∷ [] }) }
        ensures err { OnErr result (self.new ≡ self.old) }
    {
        let form = form.try_clone(alloc)?;
        self.put(form)
    }

    /// Goes on to the second tree of a choice. A refusal leaves the path as it was.
    #[tactic(auto, using(crate::proofs::Lengths::path_lengths))]
    pub fn push_opposite(&mut self, alloc: Global, form: &Form) -> Result<(), FormRefusal>
        requires { length form.now ≡ self.old.scope + 1 }
        ensures listed { IsChecked is_form_overflow (opposite_listed form.now) result }
        ensures ok { OnOk result (self.new ≡ record self.old { forms = self.old.forms ++ opposite form.now ∷ [] }) }
        ensures err { OnErr result (self.new ≡ self.old) }
    {
        let mut opposite = form.try_clone(alloc)?;
        opposite.opposite()?;
        self.put(opposite)?;
        Ok(())
    }

    /// Goes on below the definition of a quotient, with its two bounds. A refusal leaves the path as it was.
    pub fn push_bounds(&mut self, alloc: Global, form: &Form, d: i128) -> Result<(), FormRefusal>
        requires width { length form.now ≡ self.old.scope + 1 }
        requires room { self.old.scope + 1 < 2 ^ 64 }
        requires divisor { pos 1 ≤ℤ d }
        requires fits { Fits d }
        ensures listed { let k : Quotient = record { form = form.now; den = d } in IsChecked is_form_overflow
            (constant (upper_bound_of (self.old.scope + 1) self.old.scope k) ∷ []) result }
        ensures ok { let k : Quotient = record { form = form.now; den = d } in OnOk result (self.new ≡ record {
          scope = self.old.scope + 1;
          forms = self.old.forms ++ lower_bound_of (self.old.scope + 1) self.old.scope k
              ∷ upper_bound_of (self.old.scope + 1) self.old.scope k ∷ [];
        }) }
        ensures err { OnErr result (self.new ≡ self.old) }
    {
        let place = self.scope;
        let lower = lower(alloc, place, form, d)?;
        let upper = upper(alloc, place, form, d)?;
        self.put_bounds(lower, upper)?;
        Ok(())
    }

    /// Goes back to a node with this scope, whose path has n forms.
    pub fn go_back(&mut self, scope: usize, n: usize)
        requires { All (λ c. length c ≤ scope + 1) (take n self.old.forms) }
        ensures { self.new ≡ record { scope = scope; forms = take n self.old.forms } }
    {
        self.forms.truncate(n);
        self.scope = scope;
    }
}
