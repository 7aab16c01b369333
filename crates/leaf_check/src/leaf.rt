ghost use Rattle.std.specs.Prelude.{◌≡◌, ◌+◌, ◌≤◌, ◌<◌, true, pos, Some, length, IfOk, OnOk, IsTrue, slice_index_or, option_copied};
ghost use Rattle.std.specs.List.{list_all};
ghost use Rattle.pip_model.specs.Numbers.{same_number};
ghost use Rattle.pip_model.specs.Tree.{Component};
ghost use Rattle.pip_model.specs.Agreement.{IsChecked, Agrees};
ghost use Rattle.pip_model.specs.Check as model;
ghost use Rattle.affine_forms.specs.Checks.{is_form_overflow};
ghost use Rattle.derivation_steps.specs.Faults.{fault_of};
ghost use Rattle.leaf_check.specs.Leaves.{case_of, own_premises, AreWide, IsLeaf, nothing, goal_count, has_shape as has_shape_of};
ghost use Rattle.leaf_check.specs.Known.{ArePushed};
ghost use Rattle.leaf_check.specs.Turned.{IsPushedTo};

use crate::goal_forms::GoalForms;
use crate::goals::{row_goal, sign_goal};
use crate::known::Known;
use affine_forms::{Form, FormRefusal, WantOfMemory};
use certificate_parts::LeafProofs;
use derivation_steps::{Fault, Spot};
use pip_problem::Problem;
use quast::Component;
use std::alloc::Global;

/// A leaf of a tree: its number, the problem, the parameters and quotients in scope, the forms of its path, and the
/// components of a list, none for a bottom.
#[derive(Drop)]
pub struct Leaf<'a> {
    pub number: usize,
    pub problem: &'a Problem,
    pub scope: usize,
    pub path: &'a [Form],
    pub list: Option<&'a [Component]>,
}

// Whether the denominator is 1.
fn is_whole_component(component: &Component) -> bool
    ensures { result ≡ same_number component.now.den (pos 1) }
{
    component.den() == 1
}

// Whether all denominators are 1.
fn are_whole(components: &[Component]) -> bool
    ensures { result ≡ list_all (λ (c : Component). same_number c.den (pos 1)) components.now }
{
    components
        .iter()
        .all(|component| is_whole_component(component))
}

// Whether a list has one component for each unknown, all of denominator 1.
fn is_whole(problem: &Problem, list: Option<&[Component]>) -> bool
    ensures { result ≡ model.is_whole_list problem.now.unknowns (option_copied list.entry) }
{
    match list {
        Some(components) => components.len() == problem.unknowns() && are_whole(components),
        None => true,
    }
}

/// How many refutations a leaf has: one at a bottom; of a list one for each row, and two for each unknown.
pub fn refutation_count(problem: &Problem, list: Option<&[Component]>) -> usize
    requires { IsTrue (model.is_whole_list problem.now.unknowns (option_copied list)) }
    ensures { result ≡ goal_count problem.now (option_copied list.entry) }
{
    match list {
        Some(_) => problem.rows().len() + 2 * problem.unknowns(),
        None => 1,
    }
}

/// Whether a list is whole, one component of denominator 1 for each unknown, and the proofs have as many refutations
/// as there are to be.
pub fn has_shape(problem: &Problem, list: Option<&[Component]>, proofs: &LeafProofs) -> bool
    ensures { result ≡ has_shape_of problem.now (option_copied list.entry) proofs.now }
{
    is_whole(problem, list) && proofs.as_slice().len() == refutation_count(problem, list)
}

impl Leaf<'_> {
    // The number of places of its forms: what is in scope, and the unknowns.
    pub(crate) fn width(&self) -> Result<usize, WantOfMemory>
        ensures { IfOk result (λ width. width ≡ self.now.scope + self.now.problem.now.unknowns) }
    {
        self.scope
            .checked_add(self.problem.unknowns())
            .ok_or(WantOfMemory)
    }

    /// Makes of known forms those that each refutation of the leaf starts from: the parameters, the context rows, the
    /// path.
    pub fn restart(&self, known: &mut Known) -> Result<(), WantOfMemory>
        requires { IsLeaf self.now.problem.now (case_of self.now) }
        ensures { OnOk result (known.new ≡ record {
          width = self.now.scope + self.now.problem.now.unknowns;
          forms = model.scope_forms self.now.problem.now (case_of self.now);
        }) }
    {
        let width = self.width()?;
        known.restart(width);
        known.reserve(self.most_forms())?;
        known.push_places(0, self.problem.params())?;
        known.push_widened(self.problem.context())?;
        known.push_widened(self.path)?;
        Ok(())
    }

    // How many forms a refutation starts from at most.
    pub(crate) fn most_forms(&self) -> usize {
        let own = self
            .problem
            .rows()
            .len()
            .saturating_add(self.problem.unknowns());
        self.problem
            .params()
            .saturating_add(self.problem.context().len())
            .saturating_add(self.path.len())
            .saturating_add(own)
            .saturating_add(self.problem.unknowns())
    }

    // Puts the unknowns and the tableau's rows behind the forms.
    fn push_unknowns(&self, known: &mut Known) -> Result<(), WantOfMemory>
        requires leaf { IsLeaf self.now.problem.now (case_of self.now) }
        requires width { known.old.width ≡ self.now.scope + self.now.problem.now.unknowns }
        ensures pushed { ArePushed result
            (model.unknown_forms self.now.problem.now (case_of self.now)) known.old known.new }
    {
        let unknowns = self.problem.unknowns();
        known.push_places(self.scope, unknowns)?;
        known.push_rows(unknowns, self.scope, self.problem.rows())?;
        Ok(())
    }

    // Puts the goal that a tableau row fails behind the forms.
    fn push_row_goal(
        &self,
        known: &mut Known,
        components: &[Component],
        row: &Form,
    ) -> Result<(), FormRefusal>
        requires width { known.old.width ≡ self.now.scope + self.now.problem.now.unknowns }
        requires count { length components.now ≤ self.now.problem.now.unknowns }
        requires widths { AreWide self.now.scope components.now }
        requires some { self.now.problem.now.unknowns < length row.now }
        requires within { length row.now ≤ self.now.problem.now.unknowns + self.now.scope + 1 }
        ensures listed { IsChecked is_form_overflow
            (model.row_premises self.now.problem.now (case_of self.now) components.now row.now).listed result }
        ensures pushed { ArePushed result
            (model.row_premises self.now.problem.now (case_of self.now) components.now row.now).known
            known.old known.new }
    {
        let room = known.room();
        let form = row_goal(room, self.problem.unknowns(), self.scope, row, components)?;
        known.push(form)?;
        Ok(())
    }

    // Puts the goal that a component is below 0 behind the forms.
    fn push_sign_goal(&self, known: &mut Known, component: &Component) -> Result<(), FormRefusal>
        requires width { known.old.width ≡ self.now.scope + self.now.problem.now.unknowns }
        requires wide { length component.now.form ≡ self.now.scope + 1 }
        ensures listed { IsChecked is_form_overflow
            (model.sign_premises self.now.problem.now (case_of self.now) component.now).listed result }
        ensures pushed { ArePushed result
            (model.sign_premises self.now.problem.now (case_of self.now) component.now).known
            known.old known.new }
    {
        let room = known.room();
        let form = sign_goal(room, known.width(), component)?;
        known.push(form)?;
        Ok(())
    }

    // Puts the unknowns, the tableau's rows and the goal of a smaller point behind the forms: it agrees with the
    // components but for the last, which is smaller.
    fn push_least_goal(&self, known: &mut Known, front: &[Component]) -> Result<(), FormRefusal>
        requires leaf { IsLeaf self.now.problem.now (case_of self.now) }
        requires width { known.old.width ≡ self.now.scope + self.now.problem.now.unknowns }
        requires some { 0 < length front.now }
        requires count { length front.now ≤ self.now.problem.now.unknowns }
        requires widths { AreWide self.now.scope front.now }
        ensures listed { IsChecked is_form_overflow
            (model.least_premises self.now.problem.now (case_of self.now) front.now).listed result }
        ensures pushed { ArePushed result
            (model.least_premises self.now.problem.now (case_of self.now) front.now).known
            known.old known.new }
    {
        self.push_unknowns(known)?;
        known.push_smaller(self.scope, front, 0)?;
        Ok(())
    }

    // Puts the forms of a list's refutation, from 0, behind the others: of a row, of a sign, or of a smaller point.
    fn push_list_goal(
        &self,
        known: &mut Known,
        components: &[Component],
        r: usize,
    ) -> Result<(), FormRefusal>
        requires leaf { IsLeaf self.now.problem.now (case_of self.now) }
        requires width { known.old.width ≡ self.now.scope + self.now.problem.now.unknowns }
        requires count { length components.now ≡ self.now.problem.now.unknowns }
        requires widths { AreWide self.now.scope components.now }
        requires place { r < length self.now.problem.now.rows + length components.now + length components.now }
        ensures listed { IsChecked is_form_overflow (slice_index_or
            (model.leaf_premises self.now.problem.now (case_of self.now) (Some components.now)) r nothing).listed
            result }
        ensures pushed { ArePushed result
            (slice_index_or (model.leaf_premises self.now.problem.now (case_of self.now) (Some components.now)) r
            nothing).known known.old known.new }
    {
        let rows = self.problem.rows();
        if r < rows.len() {
            return self.push_row_goal(known, components, &rows[r]);
        }
        let sign = r - rows.len();
        if sign < components.len() {
            return self.push_sign_goal(known, &components[sign]);
        }
        let (front, _) = components.split_at(sign - components.len() + 1);
        self.push_least_goal(known, front)
    }

    // Puts the forms of a refutation, from 0, behind the others.
    #[tactic(auto, using(crate::proofs::Owned::own_place))]
    fn push_own_goal(&self, known: &mut Known, r: usize) -> Result<(), FormRefusal>
        requires leaf { IsLeaf self.now.problem.now (case_of self.now) }
        requires whole { IsTrue (model.is_whole_list self.now.problem.now.unknowns (option_copied self.now.list)) }
        requires width { known.old.width ≡ self.now.scope + self.now.problem.now.unknowns }
        requires place { r < length (own_premises self.now) }
        ensures listed { IsChecked is_form_overflow (slice_index_or
            (own_premises self.now) r nothing).listed result }
        ensures pushed { ArePushed result
            (slice_index_or (own_premises self.now) r nothing).known known.old known.new }
    {
        match self.list {
            Some(components) => self.push_list_goal(known, components, r),
            None => {
                self.push_unknowns(known)?;
                Ok(())
            }
        }
    }

    // Puts behind the forms what the next refutation of a list has behind all but the last form of this one, from 0.
    fn push_next_list_goal(
        &self,
        known: &mut Known,
        components: &[Component],
        r: usize,
    ) -> Result<(), FormRefusal>
        requires leaf { IsLeaf self.now.problem.now (case_of self.now) }
        requires list { option_copied self.now.list ≡ Some components.now }
        requires count { length components.now ≡ self.now.problem.now.unknowns }
        requires width { known.old.width ≡ self.now.scope + self.now.problem.now.unknowns }
        requires place { r + 1 < length (own_premises self.now) }
        ensures listed { IsChecked is_form_overflow (slice_index_or (own_premises self.now) (r + 1) nothing).listed
            result }
        ensures pushed { IsPushedTo result self.now (r + 1) known.old known.new }
    {
        let single = self.problem.rows().len() + components.len();
        if r < single {
            return self.push_list_goal(known, components, r + 1);
        }
        let (front, _) = components.split_at(r - single + 2);
        known.push_smaller(self.scope, front, r - single)
    }

    /// Puts behind the forms what refutation r, from 0, has behind all but the last form of the one before; of the first
    /// one all of its own. It overflows exactly where a number of the refutation's own forms does not fit. After a refusal
    /// some of them may stand behind the others, which stay.
    pub fn push_goal(&self, known: &mut Known, r: usize) -> Result<(), FormRefusal>
        requires leaf { IsLeaf self.now.problem.now (case_of self.now) }
        requires whole { IsTrue (model.is_whole_list self.now.problem.now.unknowns (option_copied self.now.list)) }
        requires width { known.old.width ≡ self.now.scope + self.now.problem.now.unknowns }
        requires place { r < length (own_premises self.now) }
        ensures listed { IsChecked is_form_overflow (slice_index_or (own_premises self.now) r nothing).listed result }
        ensures pushed { IsPushedTo result self.now r known.old known.new }
    {
        if r == 0 {
            return self.push_own_goal(known, r);
        }
        match self.list {
            None => unreachable!(),
            Some(components) => self.push_next_list_goal(known, components, r - 1),
        }
    }

    // Checks the shared steps and the refutations, of which there are as many as the leaf has.
    fn check_proofs(
        &self,
        alloc: Global,
        forms: &mut GoalForms,
        proofs: &LeafProofs,
    ) -> Result<(), Fault>
        requires leaf { IsLeaf self.now.problem.now (case_of self.now) }
        requires whole { IsTrue (model.is_whole_list self.now.problem.now.unknowns (option_copied self.now.list)) }
        requires count { length proofs.now.refutations
            ≡ length (own_premises self.now) }
        ensures { Agrees (λ _. tt) fault_of result (model.check_proofs true self.now.number
            (self.now.scope + self.now.problem.now.unknowns) (model.leaf_forms self.now.problem.now (case_of self.now))
            (own_premises self.now) proofs.now) }
    {
        forms.restart(alloc, self, proofs.shared().as_slice())?;
        forms.refute_all(alloc, self, proofs.as_slice())
    }

    /// Checks the leaf by its proofs: a list is whole, there are as many refutations as there are to be, and each
    /// succeeds behind the shared steps. It ends at the first condition that is false or number that does not fit. Its forms
    /// are made in the rooms of those of other leaves.
    pub fn check(
        &self,
        alloc: Global,
        forms: &mut GoalForms,
        proofs: &LeafProofs,
    ) -> Result<(), Fault>
        requires { IsLeaf self.now.problem.now (case_of self.now) }
        ensures { Agrees (λ _. tt) fault_of result
            (model.check_leaf self.now.problem.now true self.now.number (case_of self.now) proofs.now) }
    {
        if !has_shape(self.problem, self.list, proofs) {
            return Err(Fault::Rejected(Spot {
                leaf: self.number,
                refutation: 0,
                step: 0,
            }));
        }
        self.check_proofs(alloc, forms, proofs)
    }
}
