ghost use Rattle.std.specs.Prelude.{◌≡◌, ◌+◌, ◌<◌, length, take, slice_index_or, IfOk, OnOk, IsTrue, option_copied};
ghost use Rattle.pip_model.specs.Agreement.{IsChecked, AgreesCounted};
ghost use Rattle.pip_model.specs.Check.{is_whole_list};
ghost use Rattle.affine_forms.specs.Checks.{is_form_overflow};
ghost use Rattle.pip_problem.specs.Faults.{run_fault};
ghost use Rattle.certificate_check.specs.Leaves.{case_of, own_premises, nothing};
ghost use Rattle.refuter.specs.Kept.{AreFirst};
ghost use Rattle.solve_certified.specs.Leaves.{made_at, made_proofs, IsBefore, IsMaking};
ghost use Rattle.solve_certified.specs.Goals.{unknowns_at};

use crate::refutation::Scope;
use affine_forms::FormRefusal;
use certificate_check::{Known, Leaf, refutation_count};
use certificate_parts::{LeafProofs, Refutation};
use pip_problem::{Refusal, Work};
use refuter::Refuter;

// The refutations of a leaf are made of its known forms, over what is in scope.
#[derive(Drop)]
pub(crate) struct LeafMaking<'a> {
    pub(crate) leaf: Leaf<'a>,
    pub(crate) scope: Scope<'a>,
}

impl LeafMaking<'_> {
    // Over how many unknowns refutation r is, from 0: over none where a row or a component of a list is below 0.
    fn unknowns(&self, r: usize) -> usize
        requires { IsTrue (is_whole_list self.now.leaf.problem.now.unknowns (option_copied self.now.leaf.list)) }
        ensures { result ≡ unknowns_at self.now.leaf.problem.now (option_copied self.now.leaf.list) r }
    {
        let unknowns = self.leaf.problem.unknowns();
        match self.leaf.list {
            None => unknowns,
            Some(components) => {
                let rows = self.leaf.problem.rows().len();
                if r < rows + components.len() {
                    0
                } else {
                    unknowns
                }
            }
        }
    }

    // How many of so many forms that a refutation starts from are the next one's too: of a list's all but the last.
    fn kept_forms(&self, known: usize) -> usize {
        if self.leaf.list.is_none() {
            return 0;
        }
        known.saturating_sub(1)
    }

    // Turns the forms of the refutation before into those of refutation r, from 0; the first one's stand behind the
    // leaf's. Answers how many of the first ones stay.
    fn turn_to(&self, known: &mut Known, r: usize) -> Result<usize, FormRefusal>
        requires making { IsMaking self.now }
        requires before { IsBefore self.now r known.old }
        requires place { r < length (own_premises self.now.leaf) }
        ensures listed { IsChecked is_form_overflow (slice_index_or (own_premises self.now.leaf) r nothing).listed
            result }
        ensures turned { OnOk result (IsBefore self.now (r + 1) known.new) }
        ensures stay { IfOk result (λ n. take n known.new.forms ≡ take n known.old.forms) }
    {
        if r > 0 {
            known.drop_last();
        }
        let same = known.len();
        self.leaf.push_goal(known, r)?;
        Ok(same)
    }

    // Refutation r, from 0, where the forms are those of the one before.
    fn refute_goal(
        &self,
        refuter: &mut Refuter,
        known: &mut Known,
        r: usize,
        work: &mut Work,
    ) -> Result<Refutation, Refusal>
        requires making { IsMaking self.now }
        requires before { IsBefore self.now r known.old }
        requires place { r < length (own_premises self.now.leaf) }
        requires first { AreFirst refuter.old known.old.forms }
        ensures gives { AgreesCounted (λ steps. steps) run_fault result work.new (made_at self.now.leaf.problem.now
            (case_of self.now.leaf) self.now.scope.quotients.now r work.old) }
        ensures turned { OnOk result (IsBefore self.now (r + 1) known.new) }
        ensures first { OnOk result (AreFirst refuter.new known.new.forms) }
    {
        let same = self.turn_to(known, r)?;
        refuter.keep(self.kept_forms(known.len()));
        refuter.keep_within(same);
        let steps = self.scope.refute(refuter, known, self.unknowns(r), work)?;
        Ok(steps)
    }

    // The refutations of the leaf, in the order of the check, of the leaf's known forms and of no kept ones.
    fn refute_each(
        &self,
        refuter: &mut Refuter,
        known: &mut Known,
        work: &mut Work,
    ) -> Result<LeafProofs, Refusal>
        requires making { IsMaking self.now }
        requires before { IsBefore self.now 0 known.old }
        requires first { AreFirst refuter.old known.old.forms }
        ensures { AgreesCounted (λ proofs. proofs) run_fault result work.new (made_proofs self.now.leaf.problem.now
            (case_of self.now.leaf) self.now.scope.quotients.now work.old) }
    {
        let mut proofs = LeafProofs::new(self.scope.alloc);
        for r in 0..refutation_count(self.leaf.problem, self.leaf.list) {
            let steps = self.refute_goal(refuter, known, r, work)?;
            proofs.push(steps)?;
        }
        Ok(proofs)
    }

    // The refutations of the leaf, in the order of the check, by a refuter that may have made those of others, in the
    // room of others' forms.
    pub(crate) fn refute_all(
        &self,
        refuter: &mut Refuter,
        known: &mut Known,
        work: &mut Work,
    ) -> Result<LeafProofs, Refusal>
        requires { IsMaking self.now }
        ensures { AgreesCounted (λ proofs. proofs) run_fault result work.new (made_proofs self.now.leaf.problem.now
            (case_of self.now.leaf) self.now.scope.quotients.now work.old) }
    {
        known.keep_rooms();
        self.leaf.restart(known)?;
        refuter.forget();
        self.refute_each(refuter, known, work)
    }
}
