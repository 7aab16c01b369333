ghost use Rattle.std.specs.Prelude.{◌≡◌, ◌+◌, ◌-◌, ◌^◌, ◌<◌, ◌≤◌, pos, [], ◌∷◌, ◌++◌, length, take, None, IfOk, IfSome, OnOk, OnErr};
ghost use Rattle.pip_model.specs.Forms.{width, entry};
ghost use Rattle.pip_model.specs.Cuts as model;
ghost use Rattle.new_parameters.specs.Scopes.{IsQuotient, quotient_at, size};

use crate::bounds::upper_bound;
use crate::quotient::Quotient;
use affine_forms::{Form, WantOfMemory, lower_bound};
use indexmap::IndexSet;
use std::alloc::Global;
use std::marker::Model;

/// The quotients of a path by key and by place, behind the places of the parameters. Each stands over the places before
/// its own.
#[derive(Drop)]
pub struct Quotients {
    params: usize,
    set: IndexSet<Quotient>,
}

impl Model for Quotients {
    ghost use Rattle.new_parameters.specs.Scopes.{Scope, IsScope};

    ghost Value = { Scope };

    ghost view = { λ s. record { params = s.params; quotients = s.set.keys } };

    ghost invariant = { λ s. IsScope (record { params = s.params; quotients = s.set.keys }) };
}

impl Quotients {
    /// No quotients, behind so many parameters. It takes no memory.
    pub fn new(alloc: Global, np: usize) -> Quotients
        ensures { result ≡ record { params = np; quotients = [] } }
    {
        Quotients {
            params: np,
            set: IndexSet::new(alloc),
        }
    }

    /// The same as `new`.
    pub fn try_new(alloc: Global, np: usize) -> Result<Quotients, WantOfMemory>
        ensures { IfOk result (λ s. s ≡ record { params = np; quotients = [] }) }
    {
        Ok(Quotients::new(alloc, np))
    }

    /// No quotients, behind so many parameters from now on. It takes no memory, and the room stays.
    pub fn restart(&mut self, np: usize)
        ensures { self.new ≡ record { params = np; quotients = [] } }
    {
        self.set.truncate(0);
        self.params = np;
    }

    /// The place of the quotient that equals k. It takes no memory.
    pub fn find(&self, k: &Quotient) -> Option<usize>
        ensures value { result ≡ model.find_from self.now.params self.now.quotients k.now }
        ensures place { IfSome result (λ q. (self.now.params ≤ q) × (q < size self.now)) }
        ensures free { IfSome result (λ q. q < width k.now.form → entry k.now.form q ≡ pos 0) }
    {
        match self.set.get_index_of(k) {
            Some(i) => Some(self.params + i),
            None => None,
        }
    }

    /// Adds a quotient that equals none here, and gives its place.
    pub fn add(&mut self, k: Quotient) -> Result<usize, WantOfMemory>
        requires absent { model.find_from self.old.params self.old.quotients k ≡ None }
        requires quotient { IsQuotient (size self.old) k }
        requires room { size self.old < 2 ^ 64 - 1 }
        ensures place { IfOk result (λ i. i ≡ size self.old) }
        ensures ok { OnOk result (self.new ≡ record self.old { quotients = self.old.quotients ++ k ∷ [] }) }
        ensures err { OnErr result (self.new ≡ self.old) }
    {
        let (i, _) = self.set.insert_full(k)?;
        Ok(self.params + i)
    }

    /// The number of quotients.
    pub fn mark(&self) -> usize
        ensures { result ≡ length self.now.quotients }
    {
        self.set.len()
    }

    /// Keeps the first so many quotients. It takes no memory.
    pub fn back_to(&mut self, mark: usize)
        requires { mark ≤ length self.old.quotients }
        ensures { self.new ≡ record self.old { quotients = take mark self.old.quotients } }
    {
        self.set.truncate(mark);
    }
    // The quotient at place i.
    fn at(&self, i: usize) -> &Quotient
        requires low { self.now.params ≤ i }
        requires high { i < size self.now }
        ensures value { result.now ≡ quotient_at self.now i }
        ensures quotient { IsQuotient i result.now }
        ensures bound { i + 1 < 2 ^ 64 }
    {
        match self.set.get_index(i - self.params) {
            Some(k) => k,
            None => unreachable!(),
        }
    }

    /// The bounds by which the quotient q at place i is the floor of its form g over its divisor d: `g - d*q` and
    /// `d*q + d - 1 - g`, both at least 0.
    pub fn bounds(&self, alloc: Global, i: usize) -> Result<(Form, Form), WantOfMemory>
        requires low { self.now.params ≤ i }
        requires high { i < size self.now }
        ensures lower { IfOk result (λ b. b.0 ≡ model.lower_bound (i + 1) i (quotient_at self.now i)) }
        ensures upper { IfOk result (λ b. b.1 ≡ model.upper_bound (i + 1) i (quotient_at self.now i)) }
    {
        let k = self.at(i);
        let lower = lower_bound(alloc, i + 1, i, k.form.as_slice(), k.den)?;
        let upper = upper_bound(alloc, i + 1, i, k)?;
        Ok((lower, upper))
    }
}
