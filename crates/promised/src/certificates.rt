ghost use Rattle.std.specs.Prelude.{◌≡◌, true, Ok};
ghost use Rattle.pip_model.specs.Right.{IsRight};
ghost use Rattle.pip_model.specs.Check as model;
ghost use Rattle.quast.specs.Answers.{answer_of, IsOver};
ghost use Rattle.certificate_check.specs.Verdicts.{IsVerdict};

use certificate_check::{CheckRefusal, Verdict};
use certificate_parts::Certificate;
use pip_problem::Problem;
use quast::Answer;
use std::alloc::Global;

/// The verdict on an answer to an integer problem and its certificate.
pub fn check(
    alloc: Global,
    problem: &Problem,
    answer: &Answer,
    certificate: &Certificate,
) -> Result<Verdict, CheckRefusal>
    requires integer { problem.now.integer ≡ true }
    requires width { IsOver problem.now.params answer.now }
    ensures gives { IsVerdict result (model.check problem.now (answer_of answer.now) certificate.now) }
    ensures right { result ≡ Ok Verdict.Accepted → IsRight problem.now (answer_of answer.now) }
{
    certificate_check::check(alloc, problem, answer, certificate)
}
