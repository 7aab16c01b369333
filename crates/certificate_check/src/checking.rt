ghost use Rattle.std.specs.Prelude.{◌≡◌, true, All, OnOk};
ghost use Rattle.pip_model.specs.Right.{IsRight};
ghost use Rattle.pip_model.specs.WellFormed.{IsWellFormedAnswer};
ghost use Rattle.pip_model.specs.Agreement.{Agrees};
ghost use Rattle.pip_model.specs.Check as model;
ghost use Rattle.affine_forms.specs.Checks.{Fits};
ghost use Rattle.quast.specs.Answers.{answer_of, IsOver};
ghost use Rattle.quast.specs.Trees.{IsQuast};
ghost use Rattle.leaf_check.specs.Faults.{fault_of};
ghost use Rattle.certificate_check.specs.Verdicts.{IsVerdict, vector_checked, leaves_checked};

use crate::path::NodePath;
use crate::vector::{START, check_context, is_vector};
use crate::verdict::{CheckRefusal, Verdict};
use crate::walk::{TreeCheck, leaves};
use certificate_parts::Certificate;
use leaf_check::{Fault, GoalForms, check_void};
use pip_problem::Problem;
use quast::{Answer, Quast};
use std::alloc::Global;

// Checks that the vector is one of the context.
fn check_vector(problem: &Problem, vector: &[i128]) -> Result<(), Fault>
    requires { All Fits vector.now }
    ensures { Agrees (λ _. tt) fault_of result (vector_checked problem.now vector.now) }
{
    if !is_vector(problem.params(), vector) {
        return Err(Fault::Rejected(START));
    }
    check_context(problem.context(), vector)
}

// Checks a tree's leaves, of which there are as many as the certificate has.
fn check_leaves(
    alloc: Global,
    forms: &mut GoalForms,
    problem: &Problem,
    tree: &Quast,
    certificate: &Certificate,
) -> Result<(), Fault>
    requires { tree.now.width ≡ problem.now.params }
    ensures gives { Agrees (λ _. tt) fault_of result (leaves_checked problem.now tree.now.tree certificate.now) }
    ensures quast { IsQuast tree.now }
{
    let proofs = certificate.as_slice();
    let Some(count) = leaves(tree.root()) else {
        return Err(Fault::Rejected(START));
    };
    if proofs.len() != count {
        return Err(Fault::Rejected(START));
    }
    let walk = TreeCheck {
        alloc,
        problem,
        shares: certificate.shares(),
        proofs,
    };
    let mut path = NodePath::new(alloc, problem.params());
    let checked = walk.check_node(forms, &mut path, tree.root(), 0);
    drop(path);
    checked?;
    Ok(())
}

// Checks all conditions in order. The word `void` stands exactly with the answer `void`.
fn check_answer(
    alloc: Global,
    forms: &mut GoalForms,
    problem: &Problem,
    answer: &Answer,
    certificate: &Certificate,
) -> Result<(), Fault>
    requires { IsOver problem.now.params answer.now }
    ensures gives { Agrees (λ _. tt) fault_of result (model.check problem.now (answer_of answer.now) certificate.now) }
    ensures answer { OnOk result (IsWellFormedAnswer problem.now.params (answer_of answer.now)) }
{
    match (answer, certificate.vector()) {
        (Answer::Void, None) => check_void(alloc, problem, certificate.as_slice()),
        (Answer::Tree(tree), Some(vector)) => {
            check_vector(problem, vector)?;
            check_leaves(alloc, forms, problem, tree, certificate)
        }
        _ => Err(Fault::Rejected(START)),
    }
}

/// Checks as `check` does, and makes its forms in the rooms of those of earlier checks.
pub fn check_in(
    alloc: Global,
    forms: &mut GoalForms,
    problem: &Problem,
    answer: &Answer,
    certificate: &Certificate,
) -> Result<Verdict, CheckRefusal>
    requires integer { problem.now.integer ≡ true }
    requires width { IsOver problem.now.params answer.now }
    ensures gives { IsVerdict result (model.check problem.now (answer_of answer.now) certificate.now) }
    ensures right { result ≡ Ok Verdict.Accepted → IsRight problem.now (answer_of answer.now) }
{
    // Reading it tells that the problem is within the limits.
    let _unknowns = problem.unknowns();
    match check_answer(alloc, forms, problem, answer, certificate) {
        Ok(()) => Ok(Verdict::Accepted),
        Err(Fault::Rejected(spot)) => Ok(Verdict::Rejected(spot)),
        Err(Fault::Overflow(spot)) => Err(CheckRefusal::Overflow(spot)),
        Err(Fault::WantOfMemory) => Err(CheckRefusal::WantOfMemory),
    }
}

/// Checks an answer to an integer problem by a certificate, in the order of the places. Accepted means that the answer
/// is right, whoever made it and the certificate. Else it answers Rejected with the place of the first condition that
/// is false, or Overflow with that of the first number that does not fit, whichever comes first.
pub fn check(
    alloc: Global,
    problem: &Problem,
    answer: &Answer,
    certificate: &Certificate,
) -> Result<Verdict, CheckRefusal>
    requires integer { problem.now.integer ≡ true }
    requires width { IsOver problem.now.params answer.now }
    ensures gives { IsVerdict result (model.check problem.now (answer_of answer.now) certificate.now) }
    ensures right { result ≡ Ok Verdict.Accepted → IsRight problem.now (answer_of answer.now) }
{
    let mut forms = GoalForms::new(alloc);
    let verdict = check_in(alloc, &mut forms, problem, answer, certificate);
    drop(forms);
    verdict
}
