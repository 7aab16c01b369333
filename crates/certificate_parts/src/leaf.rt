ghost use Rattle.std.specs.Prelude.{◌≡◌, [], ◌∷◌, ◌++◌, true, IsTrue, IfOk, OnOk, OnErr};
ghost use Rattle.pip_model.specs.Printed.{steps_fit, leaf_fits};

use crate::step::Step;
use affine_forms::WantOfMemory;
use std::alloc::Global;
use std::marker::Model;

/// The steps of a refutation, in the order in which they were pushed.
#[derive(Drop)]
pub struct Refutation {
    items: Vec<Step>,
}

impl Model for Refutation {
    ghost use Rattle.std.specs.Prelude.{List, IsTrue};
    ghost use Rattle.pip_model.specs.Certificate as model;
    ghost use Rattle.pip_model.specs.Printed.{steps_fit};

    ghost Value = { List model.Step };

    ghost view = { λ r. r.items.items };

    ghost invariant = { λ r. IsTrue (steps_fit r.items.items) };
}

impl Refutation {
    /// No steps. It takes no memory.
    pub fn new(alloc: Global) -> Refutation
        ensures { result ≡ [] }
    {
        Refutation {
            items: Vec::new(alloc),
        }
    }

    // No steps, in the room of others.
    pub(crate) fn in_room(items: Vec<Step>) -> Refutation
        ensures { result ≡ [] }
    {
        let mut items = items;
        items.clear();
        Refutation { items }
    }

    // The steps, taken out.
    pub(crate) fn into_items(self) -> Vec<Step> {
        self.items
    }

    /// Puts a step behind the others. A refusal leaves them as they were.
    pub fn push(&mut self, item: Step) -> Result<(), WantOfMemory>
        ensures ok { OnOk result (self.new ≡ self.old ++ item ∷ []) }
        ensures err { OnErr result (self.new ≡ self.old) }
    {
        // Reading it tells that its numbers fit.
        let _divisor = item.divisor;
        self.items.push(item)?;
        Ok(())
    }

    /// Puts these steps behind the others. A refusal leaves those as they were.
    pub fn append(&mut self, more: Refutation) -> Result<(), WantOfMemory>
        ensures ok { OnOk result (self.new ≡ self.old ++ more) }
        ensures err { OnErr result (self.new ≡ self.old) }
    {
        let mut more = more;
        if self.items.is_empty() {
            self.items = more.items;
            return Ok(());
        }
        self.items.append(&mut more.items)?;
        Ok(())
    }

    /// The same steps.
    pub fn try_clone(&self, alloc: Global) -> Result<Refutation, WantOfMemory>
        ensures { IfOk result (λ made. made ≡ self.now) }
    {
        let mut made = Refutation::new(alloc);
        let steps = self.as_slice();
        for step in steps {
            made.push(step.try_clone(alloc)?)?;
        }
        Ok(made)
    }

    /// The steps in order.
    pub fn as_slice(&self) -> &[Step]
        ensures value { result.now ≡ self.now }
        ensures fits { IsTrue (steps_fit self.now) }
    {
        &self.items
    }
}

/// The refutations of a leaf, in the order in which they were pushed, and the steps that they share, which come before
/// each of them.
#[derive(Drop)]
pub struct LeafProofs {
    shared: Refutation,
    items: Vec<Refutation>,
}

impl Model for LeafProofs {
    ghost use Rattle.std.specs.Prelude.{IsTrue, true};
    ghost use Rattle.pip_model.specs.Certificate as model;
    ghost use Rattle.pip_model.specs.Printed.{leaf_fits};

    ghost Value = { model.LeafProofs };

    ghost view = { λ p. record { shared = p.shared; refutations = p.items.items } };

    ghost invariant = { λ p. IsTrue (leaf_fits true (record { shared = p.shared; refutations = p.items.items })) };
}

impl LeafProofs {
    /// No refutations, and no shared steps. It takes no memory.
    pub fn new(alloc: Global) -> LeafProofs
        ensures { result ≡ record { shared = []; refutations = [] } }
    {
        LeafProofs::with_shared(alloc, Refutation::new(alloc))
    }

    /// No refutations, and these shared steps. It takes no memory.
    pub fn with_shared(alloc: Global, steps: Refutation) -> LeafProofs
        ensures { result ≡ record { shared = steps; refutations = [] } }
    {
        // Reading them tells that their numbers fit.
        let _steps = steps.as_slice();
        LeafProofs {
            shared: steps,
            items: Vec::new(alloc),
        }
    }

    // The refutations, taken out.
    pub(crate) fn into_items(self) -> Vec<Refutation> {
        self.items
    }

    /// Puts a refutation behind the others. A refusal leaves them as they were.
    pub fn push(&mut self, item: Refutation) -> Result<(), WantOfMemory>
        ensures ok { OnOk result (self.new ≡ record self.old { refutations = self.old.refutations ++ item ∷ [] }) }
        ensures err { OnErr result (self.new ≡ self.old) }
    {
        // Reading it tells that its numbers fit.
        let _steps = item.as_slice();
        self.items.push(item)?;
        Ok(())
    }

    /// The refutations in order.
    pub fn as_slice(&self) -> &[Refutation]
        ensures value { result.now ≡ self.now.refutations }
        ensures fits { IsTrue (leaf_fits true self.now) }
    {
        &self.items
    }

    /// The shared steps.
    pub fn shared(&self) -> &Refutation
        ensures { result.now ≡ self.now.shared }
    {
        &self.shared
    }
}
