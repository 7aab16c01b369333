ghost use Rattle.std.specs.Prelude.{◌≤◌, length, IfErr, Some};
ghost use Rattle.pip_model.specs.Check as model;
ghost use Rattle.program_model.specs.ItemKinds as kinds;
ghost use Rattle.quast.specs.Answers.{answer_of};
ghost use Rattle.item_writing.specs.Endings.{IsOfItem};
ghost use Rattle.item_writing.specs.Items.{Finds, FindsItem};
ghost use Rattle.certificate_items.specs.Triples.{IsTriple, triple_of, IsFound};

use crate::needed::needed_certificate;
use certificate_check::{CheckRefusal, GoalForms, Verdict, check_in};
use certificate_parts::{Certificate, SpareSteps};
use item_writing::{Ending, needed_answer};
use pip_problem::Problem;
use pip_reader::{SpareRows, keep_rows, read_problem_in};
use quast::Answer;
use std::alloc::Global;

/// An integer problem, an answer over its parameters, and a certificate.
#[derive(Drop)]
pub struct Triple {
    pub(crate) problem: Problem,
    pub(crate) answer: Answer,
    pub(crate) certificate: Certificate,
}

// What is kept of triples that are done with, as room for the next: rows of problems, and steps of certificates.
#[derive(Drop)]
pub(crate) struct TripleRoom {
    rows: SpareRows,
    steps: SpareSteps,
}

impl TripleRoom {
    // No room yet. It takes no memory.
    pub(crate) fn new(alloc: Global) -> TripleRoom {
        TripleRoom {
            rows: SpareRows::new(alloc),
            steps: SpareSteps::new(alloc),
        }
    }

    // Keeps the rooms of a triple that is done with. Those of its answer are given back.
    pub(crate) fn keep(&mut self, triple: Triple) {
        let Triple {
            problem,
            answer: _,
            certificate,
        } = triple;
        keep_rows(&mut self.rows, problem);
        self.steps.keep(certificate);
    }
}

// What stands behind a problem, and the place behind that. A rational problem is refused before its answer is read.
fn rest_of_triple(
    alloc: Global,
    spare: &mut SpareSteps,
    bytes: &[u8],
    problem: Problem,
    at: usize,
) -> Result<(Triple, usize), Ending>
    requires { at ≤ length bytes.now }
    ensures { Finds (λ x. Some (triple_of x.0, x.1)) IsTriple (kinds.rest_of_triple bytes.now (problem, at)) at
        (length bytes.now) result }
{
    if !problem.integer() {
        return Err(Ending::RationalCertificate);
    }
    let (spoken, at) = needed_answer(alloc, bytes, at, problem.params())?;
    let (certificate, at) = needed_certificate(alloc, spare, bytes, at)?;
    let triple = Triple {
        problem,
        answer: spoken.answer,
        certificate,
    };
    Ok((triple, at))
}

/// The triple that begins with the first `(` at or behind a place, and the place behind it; none exactly where there is
/// no `(`. Its problem's rows and its certificate's steps are read into the rooms of earlier ones.
pub(crate) fn triple_at(
    alloc: Global,
    room: &mut TripleRoom,
    bytes: &[u8],
    at: usize,
) -> Result<Option<(Triple, usize)>, Ending>
    requires { at ≤ length bytes.now }
    ensures { FindsItem triple_of IsTriple (kinds.triple bytes.now at) at (length bytes.now) result }
{
    match read_problem_in(&mut room.rows, bytes, at)? {
        Some((problem, after)) => {
            let found = rest_of_triple(alloc, &mut room.steps, bytes, problem, after)?;
            Ok(Some(found))
        }
        None => Ok(None),
    }
}

/// Nothing where the certificate is accepted, else its first fault. Its forms are made in the rooms of earlier ones.
pub(crate) fn accept(alloc: Global, forms: &mut GoalForms, triple: &Triple) -> Result<(), Ending>
    requires { IsTriple triple.now }
    ensures own { IfErr result IsOfItem }
    ensures found { IsFound result
        (model.check triple.now.problem (answer_of triple.now.answer) triple.now.certificate) }
{
    match check_in(
        alloc,
        forms,
        &triple.problem,
        &triple.answer,
        &triple.certificate,
    ) {
        Ok(Verdict::Accepted) => Ok(()),
        Ok(Verdict::Rejected(spot)) => Err(Ending::Rejected(spot)),
        Err(CheckRefusal::Overflow(spot)) => Err(Ending::OverflowAt(spot)),
        Err(CheckRefusal::WantOfMemory) => Err(Ending::WantOfMemory),
    }
}

/// The same, in rooms of its own, which are given back.
pub(crate) fn accept_alone(alloc: Global, triple: &Triple) -> Result<(), Ending>
    requires { IsTriple triple.now }
    ensures own { IfErr result IsOfItem }
    ensures found { IsFound result
        (model.check triple.now.problem (answer_of triple.now.answer) triple.now.certificate) }
{
    let mut forms = GoalForms::new(alloc);
    accept(alloc, &mut forms, triple)
}
