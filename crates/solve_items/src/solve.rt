ghost use Rattle.std.specs.Prelude.{◌≡◌, true, [], IfErr, ⊤, if◌then◌else◌};
ghost use Rattle.program_model.specs.Commands.{Solve, text_of};
ghost use Rattle.program_model.specs.ItemTexts.{solved_text};
ghost use Rattle.pip_model.specs.Simplified.{simplified};
ghost use Rattle.pip_model.specs.Values.{simplified_by};
ghost use Rattle.quast.specs.Answers.{answer_of};
ghost use Rattle.pip_words.specs.Words.{options_of};
ghost use Rattle.item_writing.specs.Endings.{IsOfItem};
ghost use Rattle.item_writing.specs.Items.{IsTextOfItem};

use crate::certified::write_certified;
use item_writing::{Ending, Items};
use pip_problem::Problem;
use pip_words::SolveOptions;
use polylib_reader::read_matrices;
use quast::Answer;
use quast_simplify::simplify_answer;
use quast_text::print_answer;
use solve_certified::{Certifier, Solver};
use std::alloc::Global;

// The answer, simplified where that is asked for.
fn simplify_if(simplify: bool, answer: Answer) -> Answer
    ensures { answer_of result ≡ (if simplify then simplified_by simplified (answer_of answer) else answer_of answer) }
{
    if simplify {
        simplify_answer(answer)
    } else {
        answer
    }
}

// Puts the text of a problem's answer into `text`.
fn write_answer(
    solver: &mut Solver,
    options: &SolveOptions,
    problem: &Problem,
    text: &mut Vec<u8>,
) -> Result<(), Ending>
    requires { text.old.items ≡ [] }
    ensures own { IfErr result IsOfItem }
    ensures text { IsTextOfItem (solved_text options.now.simplify options.now.limits problem.now)
        result text.new.items }
{
    let answer = solver.solve(problem, &options.limits)?;
    let answer = simplify_if(options.simplify, answer);
    print_answer(problem.comment(), &answer, text)?;
    solver.keep(answer);
    Ok(())
}

// Puts the text of a problem's answer into `text`, with its certificate where that is asked for.
pub(crate) fn write_solution(
    certifier: &mut Certifier,
    options: &SolveOptions,
    problem: &Problem,
    text: &mut Vec<u8>,
) -> Result<(), Ending>
    requires { text.old.items ≡ [] }
    ensures own { IfErr result IsOfItem }
    ensures text { IsTextOfItem (text_of (Solve (options_of options.now)) problem.now) result text.new.items }
{
    if options.certificate {
        write_certified(certifier, &options.limits, problem, text)
    } else {
        write_answer(&mut certifier.solver, options, problem, text)
    }
}

/// `solve` of the one PolyLib problem of an input.
#[derive(Drop)]
pub struct Matrices<'a> {
    pub options: &'a SolveOptions,
    ghost polylib: { options.now.polylib ≡ true },
}

impl Items for Matrices<'_> {
    type Read = Problem;

    type Room = ();

    ghost meaning = { λ m. Solve (options_of m.options.now) };

    ghost seen = { λ _ p. p };

    ghost is_item = { λ _ _. ⊤ };

    ghost last_place = { λ _ _. 1 };

    fn read(
        &self,
        alloc: Global,
        _room: &mut (),
        bytes: &[u8],
        at: usize,
    ) -> Result<Option<(Problem, usize)>, Ending> {
        if at > 0 {
            return Ok(None);
        }
        let problem = read_matrices(alloc, bytes)?;
        Ok(Some((problem, 1)))
    }

    fn room(&self, _alloc: Global) {}

    fn put(
        &self,
        alloc: Global,
        _room: &mut (),
        problem: &mut Problem,
        text: &mut Vec<u8>,
    ) -> Result<(), Ending> {
        let mut certifier = Certifier::new(alloc);
        let written = write_solution(&mut certifier, self.options, problem, text);
        certifier.discard();
        written
    }

    fn keep(&self, _room: &mut (), _problem: Problem) {}

    fn discard(&self, _room: ()) {}
}
