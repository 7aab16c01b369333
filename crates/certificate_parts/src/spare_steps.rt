ghost use Rattle.std.specs.Prelude.{◌≡◌, []};

use crate::certificate::Certificate;
use crate::leaf::{LeafProofs, Refutation};
use crate::step::{Step, Terms};
use std::alloc::Global;

// How many lists of steps, and how many of pairs, are kept at most.
const MOST_SPARES: usize = 1024;

/// Lists of steps and of their pairs that are done with, as room for others. What they held tells nothing.
#[derive(Drop)]
pub struct SpareSteps {
    lists: Vec<Vec<Step>>,
    terms: Vec<Terms>,
}

impl SpareSteps {
    /// None yet. It takes no memory.
    pub fn new(alloc: Global) -> SpareSteps {
        SpareSteps {
            lists: Vec::new(alloc),
            terms: Vec::new(alloc),
        }
    }

    /// No steps, in the room of a list where one is kept.
    pub fn take_steps(&mut self) -> Refutation
        ensures { result ≡ [] }
    {
        match self.lists.pop() {
            Some(items) => Refutation::in_room(items),
            None => Refutation::new(*self.lists.allocator()),
        }
    }

    /// No pairs, in the room of others where one is kept.
    pub fn take_terms(&mut self) -> Terms
        ensures { result ≡ [] }
    {
        match self.terms.pop() {
            Some(terms) => terms.cleared(),
            None => Terms::new(*self.terms.allocator()),
        }
    }

    // Keeps the rooms of pairs, as far as there is a place for them.
    fn keep_terms(&mut self, steps: &mut Vec<Step>) {
        while self.terms.len() < MOST_SPARES {
            let Some(step) = steps.pop() else {
                return;
            };
            let Step { divisor: _, terms } = step;
            let _ = self.terms.push(terms);
        }
    }

    // Keeps the rooms of steps.
    fn keep_steps(&mut self, steps: Refutation) {
        let mut items = steps.into_items();
        self.keep_terms(&mut items);
        items.clear();
        let _ = self.lists.push(items);
    }

    // Keeps the rooms of a leaf's refutations, as far as there is a place for them. What is dropped then goes from the first
    // on.
    fn keep_leaf(&mut self, proofs: LeafProofs) {
        let mut items = proofs.into_items();
        while self.lists.len() < MOST_SPARES {
            let Some(steps) = items.pop() else {
                return;
            };
            self.keep_steps(steps);
        }
    }

    /// Keeps the rooms of a certificate's steps, as far as there is a place for them.
    pub fn keep(&mut self, certificate: Certificate) {
        let mut leaves = certificate.into_leaves();
        while let Some(proofs) = leaves.pop() {
            self.keep_leaf(proofs);
        }
    }
}
