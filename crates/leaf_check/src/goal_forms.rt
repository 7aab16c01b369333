ghost use Rattle.std.specs.Prelude.{◌≡◌, ◌^◌, ◌+◌, ◌<◌, ℤ, List, [], length, map, OnOk, IsTrue, slice_index_or, option_copied};
ghost use Rattle.pip_model.specs.Agreement.{Agrees};
ghost use Rattle.pip_model.specs.Check as model;
ghost use Rattle.derivation_steps.specs.Faults.{fault_of};
ghost use Rattle.leaf_check.specs.Leaves.{case_of, own_premises, IsLeaf, nothing};
ghost use Rattle.leaf_check.specs.GoalForms.{AreOf};
ghost use Rattle.leaf_check.specs.Turned.{AreBehind};

use crate::derivation::Derivation;
use crate::known::Known;
use crate::leaf::Leaf;
use affine_forms::FormRefusal;
use certificate_parts::{Refutation, Step};
use derivation_steps::{Fault, Spot};
use std::alloc::Global;

/// The forms of a leaf's refutations, one after the other, as the check keeps them: behind the leaf's and those that the
/// shared steps give. What two of them have in common is made once; what is made is moved there. Their rooms serve the
/// next leaf.
#[derive(Drop)]
pub struct GoalForms {
    pub(crate) made: Known,
    pub(crate) kept: Derivation,
}

impl GoalForms {
    /// Those of no leaf. It takes no memory.
    pub fn new(alloc: Global) -> GoalForms {
        GoalForms {
            made: Known::new(alloc, 0),
            kept: Derivation::new(alloc, 0),
        }
    }

    // Makes of them the leaf's forms, and those that the shared steps give of them.
    pub(crate) fn restart(
        &mut self,
        alloc: Global,
        leaf: &Leaf<'_>,
        shared: &[Step],
    ) -> Result<(), Fault>
        requires { IsLeaf leaf.now.problem.now (case_of leaf.now) }
        ensures gives { Agrees (λ _. self.new.kept.forms) fault_of result (model.after_steps leaf.now.number 0 0
            (leaf.now.scope + leaf.now.problem.now.unknowns)
            (model.scope_forms leaf.now.problem.now (case_of leaf.now)) shared.now) }
        ensures over { OnOk result (AreOf leaf.now self.new) }
    {
        self.made.keep_rooms();
        let width = leaf.width()?;
        self.kept.restart(&mut self.made, width);
        leaf.restart(&mut self.made)?;
        self.kept.reserve(leaf.most_forms())?;
        self.kept.put_all(&mut self.made)?;
        self.kept.add_steps(alloc, leaf.number, 0, shared)?;
        Ok(())
    }

    // Turns those of the refutation before into those of refutation r, from 0.
    fn turn_to(&mut self, leaf: &Leaf<'_>, r: usize) -> Result<(), Fault>
        requires leaf { IsLeaf leaf.now.problem.now (case_of leaf.now) }
        requires whole { IsTrue (model.is_whole_list leaf.now.problem.now.unknowns (option_copied leaf.now.list)) }
        requires over { AreOf leaf.now self.old }
        requires place { r < length (own_premises leaf.now) }
        requires small { r + 1 < 2 ^ 64 }
        ensures listed { Agrees (λ _. tt) fault_of result (model.fit (model.spot leaf.now.number (r + 1) 0)
            (slice_index_or (own_premises leaf.now) r nothing).listed) }
        ensures over { OnOk result (AreOf leaf.now self.new) }
        ensures behind { OnOk result ((front : List (List ℤ)) → AreBehind front leaf.now r self.old.kept
            → AreBehind front leaf.now (r + 1) self.new.kept) }
    {
        self.made.truncate(0);
        match leaf.push_goal(&mut self.made, r) {
            Ok(()) => {}
            Err(FormRefusal::Overflow) => {
                return Err(Fault::Overflow(Spot {
                    leaf: leaf.number,
                    refutation: r + 1,
                    step: 0,
                }));
            }
            Err(FormRefusal::WantOfMemory) => return Err(Fault::WantOfMemory),
        }
        if r > 0 {
            self.kept.drop_last(&mut self.made);
        }
        self.kept.put_all(&mut self.made)?;
        Ok(())
    }

    // Checks refutation r, from 0, where the forms are those of the one before.
    fn refute(
        &mut self,
        alloc: Global,
        leaf: &Leaf<'_>,
        r: usize,
        steps: &[Step],
    ) -> Result<(), Fault>
        requires leaf { IsLeaf leaf.now.problem.now (case_of leaf.now) }
        requires whole { IsTrue (model.is_whole_list leaf.now.problem.now.unknowns (option_copied leaf.now.list)) }
        requires over { AreOf leaf.now self.old }
        requires place { r < length (own_premises leaf.now) }
        requires small { r + 1 < 2 ^ 64 }
        ensures gives { (front : List (List ℤ)) → AreBehind front leaf.now r self.old.kept
            → Agrees (λ _. tt) fault_of result
            (model.check_refutation leaf.now.number (r + 1) (leaf.now.scope + leaf.now.problem.now.unknowns)
            (model.joined (record { known = front; listed = [] }) (slice_index_or (own_premises leaf.now) r nothing))
            steps.now) }
        ensures over { OnOk result (AreOf leaf.now self.new) }
        ensures behind { OnOk result ((front : List (List ℤ)) → AreBehind front leaf.now r self.old.kept
            → AreBehind front leaf.now (r + 1) self.new.kept) }
    {
        self.turn_to(leaf, r)?;
        let before = self.kept.len();
        self.kept.refute(alloc, leaf.number, r + 1, steps)?;
        self.kept.truncate(&mut self.made, before);
        Ok(())
    }

    // Checks the refutations in order, where the forms are the leaf's and those of the shared steps.
    pub(crate) fn refute_all(
        &mut self,
        alloc: Global,
        leaf: &Leaf<'_>,
        refutations: &[Refutation],
    ) -> Result<(), Fault>
        requires leaf { IsLeaf leaf.now.problem.now (case_of leaf.now) }
        requires whole { IsTrue (model.is_whole_list leaf.now.problem.now.unknowns (option_copied leaf.now.list)) }
        requires over { AreOf leaf.now self.old }
        requires count { length refutations.now ≡ length (own_premises leaf.now) }
        ensures { Agrees (λ _. tt) fault_of result (model.check_refutations leaf.now.number 1
            (leaf.now.scope + leaf.now.problem.now.unknowns)
            (map (model.joined (record { known = self.old.kept.forms; listed = [] })) (own_premises leaf.now))
            refutations.now) }
    {
        for r in 0..refutations.len() {
            self.refute(alloc, leaf, r, refutations[r].as_slice())?;
        }
        Ok(())
    }
}
