ghost use Rattle.std.specs.Prelude.{◌≡◌, true, false, ℤ, List, [], ◌∷◌, Option, None, All, IsTrue, IfOk, IfSome, option_copied};
ghost use Rattle.pip_model.specs.Certificate as certificates;
ghost use Rattle.pip_model.specs.Check as checks;
ghost use Rattle.pip_model.specs.Leaves.{IsReached};
ghost use Rattle.pip_model.specs.Made as model;
ghost use Rattle.pip_model.specs.Made.{unshared};
ghost use Rattle.pip_model.specs.Right.{IsRight};
ghost use Rattle.pip_model.specs.Run.{IsBudget, Outcome, answered};
ghost use Rattle.pip_model.specs.Run.{Work as Counts};
ghost use Rattle.pip_model.specs.Tree.{Void, Solved};
ghost use Rattle.pip_model.specs.Agreement.{Agrees, AgreesCounted};
ghost use Rattle.pip_model.specs.WellFormed.{IsProblem, IsWellFormedAnswer};
ghost use Rattle.pip_problem.specs.Faults.{run_fault};
ghost use Rattle.quast.specs.Answers.{answer_of, IsOver};
ghost use Rattle.affine_forms.specs.Checks.{Fits};
ghost use Rattle.solve_certified.specs.Certified.{certificate_in, certified_of, IsCertificateOf};
ghost use Rattle.solve_certified.specs.Walks.{are_whole, is_whole_answer};

use crate::refutation::Scope;
use crate::trail::Trail;
use crate::walk::{TreeMaking, Walk};
use affine_forms::{Overflow, WantOfMemory};
use certificate_check::{Known, void_forms};
use certificate_parts::{Certificate, LeafProofs, Refutation};
use pip_problem::{Limits, Problem, Refusal, Work};
use pip_solve::Solver;
use quast::{Answer, Quast};
use refuter::{Point, Refuter};
use std::alloc::Global;
use std::mem::swap;

/// The answer of `solve` to an integer problem, and the certificate of it: for each of its leaves, in the order of the
/// check, the derivations along the runs of points that find none. The certificate is `Overflow` exactly where a number
/// that is listed for such a run does not fit. The whole is refused as `solve` is, and after the run by a count of
/// pivots or cuts, which go on. The check of the answer by the certificate does not reject it.
pub fn solve_with_certificate(
    alloc: Global,
    problem: &Problem,
    limits: &Limits,
) -> Result<(Answer, Result<Certificate, Overflow>), Refusal>
    requires integer { problem.now.integer ≡ true }
    ensures gives { Agrees certified_of run_fault result
        (answered (model.solve_with_certificate limits.now problem.now)) }
    ensures right { IfOk result (λ r. IsRight problem.now (answer_of r.0)) }
    ensures reached { IfOk result (λ r. IsReached problem.now (answer_of r.0)) }
    ensures well_formed { IfOk result (λ r. IsWellFormedAnswer problem.now.params (answer_of r.0)) }
    ensures scope { IfOk result (λ r. IsOver problem.now.params r.0) }
    ensures certificate { IfOk result (λ r. IfOk r.1 (IsCertificateOf problem.now (answer_of r.0))) }
{
    let mut certifier = Certifier::new(alloc);
    let certified = certifier.solve_with_certificate(problem, limits);
    certifier.discard();
    certified
}

// The numbers of the point.
fn numbers(point: &Option<Point>) -> Option<&[i128]>
    ensures { option_copied result ≡ point.now }
{
    match point {
        None => None,
        Some(point) => Some(point.as_slice()),
    }
}

// The certificate of `void`, of the steps of its one refutation.
fn certificate_of_steps(alloc: Global, steps: Refutation) -> Result<Certificate, WantOfMemory>
    ensures { IfOk result (λ c. c ≡ record { shares = false; vector = None; leaves = unshared (steps ∷ []) ∷ [] }) }
{
    let mut proofs = LeafProofs::new(alloc);
    proofs.push(steps)?;
    let mut made = Certificate::try_new(alloc, None)?;
    made.push(proofs)?;
    Ok(made)
}

// The certificate of an empty context, of whose forms its refutation is made.
fn certificate_by_forms(
    alloc: Global,
    problem: &Problem,
    known: &Known,
    work: &mut Work,
) -> Result<Certificate, Refusal>
    requires { known.now ≡ record { width = problem.now.params; forms = (checks.void_forms problem.now).known } }
    ensures { (p : Option (List ℤ)) → AgreesCounted (λ c. c) run_fault result work.new
        (model.run_certificate problem.now p Void work.old) }
{
    let scope = Scope {
        alloc,
        params: problem.params(),
        front: known.len(),
        own: known.len(),
        quotients: &[],
    };
    let steps = scope.refute_once(known, work)?;
    let made = certificate_of_steps(alloc, steps)?;
    Ok(made)
}

// The certificate of an empty context.
fn certificate_of_void(
    alloc: Global,
    problem: &Problem,
    work: &mut Work,
) -> Result<Certificate, Refusal>
    ensures { (p : Option (List ℤ)) → AgreesCounted (λ c. c) run_fault result work.new
        (model.run_certificate problem.now p Void work.old) }
{
    let known = void_forms(alloc, problem)?;
    let made = certificate_by_forms(alloc, problem, &known, work);
    drop(known);
    made
}

// The certificate, or that a listed number does not fit; a budget's refusal stays one.
fn if_fits(made: Result<Certificate, Refusal>) -> Result<Result<Certificate, Overflow>, Refusal>
    ensures { (w : Counts) (o : Outcome certificates.Certificate) → AgreesCounted (λ c. c) run_fault made w o
        → AgreesCounted certificate_in run_fault result w (model.if_fits o) }
{
    match made {
        Ok(certificate) => Ok(Ok(certificate)),
        Err(Refusal::Overflow) => Ok(Err(Overflow)),
        Err(refusal) => Err(refusal),
    }
}

/// The room of runs and of their certificates, which is used again from problem to problem. What was solved before
/// changes no answer and no certificate, and a refusal leaves the room for the next problem.
#[derive(Drop)]
pub struct Certifier {
    /// The solver, which also answers without a certificate.
    pub solver: Solver,
    refuter: Refuter,
    known: Known,
}

impl Certifier {
    /// No room yet. It takes no memory.
    pub fn new(alloc: Global) -> Certifier {
        Certifier {
            solver: Solver::new(alloc),
            refuter: Refuter::new(alloc),
            known: Known::new(alloc, 0),
        }
    }

    /// Gives all room back.
    pub fn discard(self) {
        let Certifier {
            solver,
            refuter,
            known: _,
        } = self;
        solver.discard();
        refuter.discard();
    }

    /// Keeps the rooms of a certificate's steps for the next ones.
    pub fn keep(&mut self, certificate: Certificate) {
        self.refuter.keep_steps(certificate);
    }

    // Gives its rooms for those of a walk.
    fn swap_rooms(&mut self, making: &mut TreeMaking)
        ensures { making.new.certificate ≡ making.old.certificate }
    {
        swap(&mut self.refuter, &mut making.refuter);
        swap(&mut self.known, &mut making.known);
    }

    // The certificate of a tree, by the point of the context.
    fn certificate_of_tree(
        &mut self,
        problem: &Problem,
        point: &Option<Point>,
        tree: &Quast,
        work: &mut Work,
    ) -> Result<Certificate, Refusal>
        requires width { tree.now.width ≡ problem.now.params }
        requires whole { IsTrue (are_whole problem.now.unknowns tree.now.tree) }
        requires fits { IfSome point.now (All Fits) }
        ensures { AgreesCounted (λ c. c) run_fault result work.new
            (model.run_certificate problem.now point.now (Solved tree.now.tree) work.old) }
    {
        let alloc = self.solver.allocator();
        let mut making = TreeMaking {
            certificate: Certificate::try_new(alloc, numbers(point))?,
            refuter: Refuter::new(alloc),
            known: Known::new(alloc, 0),
        };
        self.swap_rooms(&mut making);
        let mut trail = Trail::new(alloc, problem.params());
        let walk = Walk { alloc, problem };
        let walked = walk.make_node(&mut trail, tree.root(), &mut making, work);
        drop(trail);
        self.swap_rooms(&mut making);
        let TreeMaking {
            certificate,
            refuter,
            known,
        } = making;
        refuter.discard();
        drop(known);
        walked?;
        Ok(certificate)
    }

    // The certificate of an answer, by the point of the context.
    fn certificate_of(
        &mut self,
        problem: &Problem,
        point: &Option<Point>,
        answer: &Answer,
        work: &mut Work,
    ) -> Result<Certificate, Refusal>
        requires width { IsOver problem.now.params answer.now }
        requires whole { IsTrue (is_whole_answer problem.now.unknowns (answer_of answer.now)) }
        requires fits { IfSome point.now (All Fits) }
        ensures { AgreesCounted (λ c. c) run_fault result work.new
            (model.run_certificate problem.now point.now (answer_of answer.now) work.old) }
    {
        match answer {
            Answer::Void => certificate_of_void(self.solver.allocator(), problem, work),
            Answer::Tree(tree) => self.certificate_of_tree(problem, point, tree, work),
        }
    }

    // The answer and its certificate, from the run's start.
    fn certificate_from_start(
        &mut self,
        problem: &Problem,
        limits: &Limits,
    ) -> Result<(Answer, Result<Certificate, Overflow>), Refusal>
        requires integer { problem.now.integer ≡ true }
        ensures gives { Agrees certified_of run_fault result
            (answered (model.solve_with_certificate limits.now problem.now)) }
        ensures scope { IfOk result (λ r. IsOver problem.now.params r.0) }
        ensures problem { IsProblem problem.now }
        ensures budget { IsBudget limits.now }
    {
        let _ = problem.unknowns();
        let _ = limits.nesting();
        let mut work = Work::start(limits);
        let point = self.solver.context_point(problem, &mut work)?;
        let answer = self.solver.answer_from(problem, &point, limits, &mut work)?;
        let certificate = if_fits(self.certificate_of(problem, &point, &answer, &mut work))?;
        Ok((answer, certificate))
    }

    /// The answer and the certificate that the call of this name gives, in the room that is kept.
    pub fn solve_with_certificate(
        &mut self,
        problem: &Problem,
        limits: &Limits,
    ) -> Result<(Answer, Result<Certificate, Overflow>), Refusal>
        requires integer { problem.now.integer ≡ true }
        ensures gives { Agrees certified_of run_fault result
            (answered (model.solve_with_certificate limits.now problem.now)) }
        ensures right { IfOk result (λ r. IsRight problem.now (answer_of r.0)) }
        ensures reached { IfOk result (λ r. IsReached problem.now (answer_of r.0)) }
        ensures well_formed { IfOk result (λ r. IsWellFormedAnswer problem.now.params (answer_of r.0)) }
        ensures scope { IfOk result (λ r. IsOver problem.now.params r.0) }
        ensures certificate { IfOk result (λ r. IfOk r.1 (IsCertificateOf problem.now (answer_of r.0))) }
    {
        let certified = self.certificate_from_start(problem, limits);
        certified
    }
}
