ghost use Rattle.std.specs.Prelude.{◌≡◌, ◌++◌, ◌^◌, IfOk, OnOk, OnErr};
ghost use Rattle.pip_model.specs.Run as run;
ghost use Rattle.program_model.specs.Trial.{tally_outcome, trial_budget, tally, trial_text};
ghost use Rattle.pip_trial.specs.Tallies.{HasRoom, none_counted};

use crate::draw::draw_problem;
use crate::generator::Generator;
use crate::line::line_of;
use crate::tally::Tally;
use affine_forms::WantOfMemory;
use pip_problem::{Limits, Problem, Refusal};
use pip_solve::solve;
use std::alloc::Global;

// Counts the nodes of a problem's answer, or that it is refused.
fn count_problem(
    alloc: Global,
    problem: &Problem,
    limits: &Limits,
    tally: &mut Tally,
) -> Result<(), WantOfMemory>
    requires limits { limits.now ≡ trial_budget }
    requires room { HasRoom (2 ^ 101) tally.old }
    ensures { OnOk result (tally.new ≡ tally_outcome (run.solve trial_budget problem.now) tally.old) }
{
    match solve(alloc, problem, limits) {
        Ok(answer) => tally.count_answer(&answer),
        Err(Refusal::WantOfMemory) => return Err(WantOfMemory),
        Err(_) => tally.count_refused(),
    }
    Ok(())
}

/// Draws so many problems from a seed, solves each with 100,000 pivots, 1,000 cuts, 1,000 splits and a nesting of 100,
/// and counts what the answers hold. Only want of memory refuses it.
pub fn run_trial(alloc: Global, seed: u64, count: u16) -> Result<Tally, WantOfMemory>
    ensures { IfOk result (λ counted. counted ≡ tally count seed none_counted) }
{
    let limits = Limits::new(100_000, 1_000, 1_000, 100);
    let mut generator = Generator::new(seed);
    let mut tally = Tally::new();
    for _ in 0..count {
        let problem = draw_problem(alloc, &mut generator)?;
        count_problem(alloc, &problem, &limits, &mut tally)?;
    }
    Ok(tally)
}

/// Appends the line of a trial, or leaves `out` as it was. Only want of memory refuses it.
pub fn print_trial(
    alloc: Global,
    seed: u64,
    count: u16,
    out: &mut Vec<u8>,
) -> Result<(), WantOfMemory>
    ensures ok { OnOk result (out.new.items ≡ out.old.items ++ trial_text seed count) }
    ensures err { OnErr result (out.new.items ≡ out.old.items) }
{
    let tally = run_trial(alloc, seed, count)?;
    let line = line_of(alloc, count, &tally)?;
    out.extend_from_slice(&line)?;
    Ok(())
}
