ghost use Rattle.std.specs.Prelude.{◌≡◌, ◌^◌, ◌+◌, ◌≤◌, [], pos, ◌≤ℤ◌, ◌<ℤ◌, ◌++◌, length, All, IfOk, OnOk};
ghost use Rattle.pip_model.specs.Agreement.{AgreesCounted};
ghost use Rattle.pip_model.specs.Made.{steps_or_none};
ghost use Rattle.affine_forms.specs.Checks.{Fits};
ghost use Rattle.pip_problem.specs.Faults.{run_fault};
ghost use Rattle.refuter.specs.Kept.{AreFirst};
ghost use Rattle.solve_certified.specs.Refutations.{refuted_by, places_of, IsScope};

use crate::quotients::{PathQuotient, quotient_steps};
use affine_forms::WantOfMemory;
use certificate_check::Known;
use certificate_parts::Refutation;
use pip_problem::{Refusal, Work};
use refuter::{PlaceRuns, Places, Refuter};
use std::alloc::Global;

// What is in scope at a leaf: the parameters, and then the quotients of its path. The forms of the path begin at the
// index `front`, and those that a refutation has of its own at `own`.
#[derive(Drop)]
pub(crate) struct Scope<'a> {
    pub(crate) alloc: Global,
    pub(crate) params: usize,
    pub(crate) front: usize,
    pub(crate) own: usize,
    pub(crate) quotients: &'a [PathQuotient],
}

// The index of the form behind n others.
fn index_behind(n: usize) -> i128
    ensures value { result ≡ pos n }
    ensures low { pos 0 ≤ℤ result }
    ensures high { result <ℤ pos (2 ^ 64) }
{
    n as i128
}

// The steps, and behind them those that were found.
fn with_found(steps: Refutation, found: Option<Refutation>) -> Result<Refutation, WantOfMemory>
    ensures { IfOk result (λ made. made ≡ steps ++ steps_or_none found) }
{
    let mut steps = steps;
    match found {
        None => Ok(steps),
        Some(found) => {
            steps.append(found)?;
            Ok(steps)
        }
    }
}

impl Scope<'_> {
    // The indices of the places: the parameters' forms, those that the quotients' steps give behind the known ones, and
    // those of n unknowns. They are made of those of the refutation before.
    fn places(&self, before: Places, count: usize, n: usize) -> Result<Places, WantOfMemory>
        ensures { IfOk result (λ places. places ≡ places_of self.now count n) }
    {
        before.of(PlaceRuns {
            params: self.params,
            first_quotient: count,
            quotients: self.quotients.len(),
            first_unknown: self.own,
            unknowns: n,
        })
    }

    // The steps by which the known forms have no point over what is in scope and n unknowns: those of the quotients,
    // and then those of the point's run. The forms that the refuter keeps are the first of the known ones.
    pub(crate) fn refute(
        &self,
        refuter: &mut Refuter,
        known: &Known,
        n: usize,
        work: &mut Work,
    ) -> Result<Refutation, Refusal>
        requires scope { IsScope self.now }
        requires width { self.now.params + length self.now.quotients.now + n ≤ known.now.width }
        requires first { AreFirst refuter.old known.now.forms }
        ensures gives { AgreesCounted (λ r. r) run_fault result work.new
            (refuted_by self.now n known.now.forms work.old) }
        ensures first { OnOk result (AreFirst refuter.new known.now.forms) }
    {
        let count = known.len();
        let Some(first) = count.checked_add(self.quotients.len()) else {
            return Err(Refusal::WantOfMemory);
        };
        let places = self.places(refuter.take_places(), count, n)?;
        let first = index_behind(first);
        let found = refuter.refute(known.as_slice(), places.as_slice(), first, work)?;
        let steps = quotient_steps(
            self.alloc,
            self.front,
            self.params,
            places.as_slice(),
            self.quotients,
        )?;
        refuter.keep_places(places);
        let made = with_found(steps, found)?;
        Ok(made)
    }

    // The same over no unknowns, of known forms before which no others were refuted.
    pub(crate) fn refute_once(&self, known: &Known, work: &mut Work) -> Result<Refutation, Refusal>
        requires scope { IsScope self.now }
        requires width { self.now.params + length self.now.quotients.now ≤ known.now.width }
        ensures { AgreesCounted (λ r. r) run_fault result work.new (refuted_by self.now 0 known.now.forms work.old) }
    {
        let mut refuter = Refuter::new(self.alloc);
        let steps = self.refute(&mut refuter, known, 0, work);
        refuter.discard();
        steps
    }
}
