ghost use Rattle.std.specs.Prelude.{◌≡◌, ◌++◌, [], IfErr, OnOk};
ghost use Rattle.pip_model.specs.Agreement.{Agrees};
ghost use Rattle.pip_model.specs.Certificate.{spell_certificate};
ghost use Rattle.program_model.specs.ItemTexts.{certified_text};
ghost use Rattle.pip_model.specs.TreeText.{spell};
ghost use Rattle.quast.specs.Answers.{answer_of};
ghost use Rattle.item_writing.specs.Endings.{told, IsOfItem};
ghost use Rattle.item_writing.specs.Items.{IsTextOfItem};

use affine_forms::{Bytes, WantOfMemory};
use certificate_parts::Certificate;
use item_writing::Ending;
use leaf_certificate::print_certificate;
use pip_problem::{Limits, Problem};
use quast::Answer;
use quast_text::print_answer;
use solve_certified::Certifier;

// The answer of a problem and its certificate. A rational problem is refused before its run.
#[tactic(auto, using(crate::proofs::Certifying::certified_ok, crate::proofs::Certifying::certified_none, crate::proofs::Certifying::certified_refused))]
fn certify(
    certifier: &mut Certifier,
    limits: &Limits,
    problem: &Problem,
) -> Result<(Answer, Certificate), Ending>
    ensures own { IfErr result IsOfItem }
    ensures gives { Agrees (λ x. spell problem.now.comment (answer_of x.0) ++ spell_certificate x.1) told result
        (certified_text limits.now problem.now) }
{
    if !problem.integer() {
        return Err(Ending::RationalCertificate);
    }
    let made = certifier.solve_with_certificate(problem, limits)?;
    let (answer, certificate) = made;
    let certificate = certificate?;
    Ok((answer, certificate))
}

// Puts the text of an answer, with its comment, and of its certificate into `text`.
fn print_certified(
    comment: &Bytes,
    answer: &Answer,
    certificate: &Certificate,
    text: &mut Vec<u8>,
) -> Result<(), WantOfMemory>
    requires { text.old.items ≡ [] }
    ensures { OnOk result (text.new.items ≡ spell comment.now (answer_of answer.now) ++ spell_certificate certificate.now) }
{
    print_answer(comment, answer, text)?;
    print_certificate(certificate, text)
}

// Puts the text of a problem's answer and of its certificate into `text`.
pub(crate) fn write_certified(
    certifier: &mut Certifier,
    limits: &Limits,
    problem: &Problem,
    text: &mut Vec<u8>,
) -> Result<(), Ending>
    requires { text.old.items ≡ [] }
    ensures own { IfErr result IsOfItem }
    ensures text { IsTextOfItem (certified_text limits.now problem.now) result text.new.items }
{
    let (answer, certificate) = certify(certifier, limits, problem)?;
    let printed = print_certified(problem.comment(), &answer, &certificate, text);
    certifier.solver.keep(answer);
    certifier.keep(certificate);
    printed?;
    Ok(())
}
