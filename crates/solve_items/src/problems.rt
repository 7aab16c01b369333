ghost use Rattle.std.specs.Prelude.{◌≡◌, ◌+◌, ◌-◌, ◌<◌, ◌≤◌, ◌↔◌, true, false, Ok, length, IfOk, IfSome, IsErrOf};
ghost use Rattle.std.specs.Io.KnownBytes.{IsAtEnd};
ghost use Rattle.pip_model.specs.Limits.{most_input_bytes};
ghost use Rattle.program_model.specs.Commands.{Solve};
ghost use Rattle.pip_words.specs.Words.{options_of};
ghost use Rattle.pip_stream.specs.Asked.{CallsFor, is_found};
ghost use Rattle.pip_stream.specs.Windows.{taken_by};
ghost use Rattle.pip_stream.specs.Next.{IsReady};
ghost use Rattle.solve_items.specs.Answered.{AnswersNext};
ghost use Rattle.item_writing.specs.Outputs.{EndsByFaults};
ghost use Rattle.item_writing.specs.ByProblem.{WritesByProblem, FailsInTime, CallsBy};

use crate::kept::Kept;
use crate::solve::write_solution;
use item_writing::Ending;
use pip_outside::{Sink, Source, Window, write_all};
use pip_reader::keep_rows;
use pip_stream::next_problem_in;
use pip_words::SolveOptions;
use std::alloc::Global;

// The same as `answer_next`, in the rooms that are kept.
fn answer_next_in<S: Source, K: Sink>(
    kept: &mut Kept,
    options: &SolveOptions,
    window: &mut Window,
    source: &mut S,
    sink: &mut K,
) -> Result<bool, Ending>
    requires held { length window.old.held ≤ 4095 }
    requires taken { taken_by window.old ≤ most_input_bytes }
    ensures answers { IfSome (S.left source.old) (λ left. AnswersNext (options_of options.now) window.old left window.new
        (S.left source.new) (K.written sink.old) (K.written sink.new) result) }
    ensures kept { ¬ (result ≡ Ok true) → ¬ IsErrOf result Ending.WriteFault → sink.new ≡ sink.old }
    ensures words { ¬ IsErrOf result Ending.Usage }
    ensures end { result ≡ Ok false → IsAtEnd (S.left source.new) }
    ensures ready { IfOk result (λ _. IsReady window.new) }
    ensures dropped { result ≡ Ok true → window.old.base < window.new.base }
    ensures bound { taken_by window.new ≤ most_input_bytes + 1 }
    ensures limit { IsErrOf result Ending.InputTooLong ↔ (most_input_bytes < taken_by window.new) }
    ensures calls { IfSome (S.left source.old) (λ left.
        CallsFor S.calls S.taken source.old source.new window.old window.new left (is_found result)) }
    ensures faults { EndsByFaults (S.faults source.old) (S.faults source.new) (K.faults sink.old) (K.faults sink.new)
        result }
{
    match next_problem_in(&mut kept.spare, window, source)? {
        Some((problem, _)) => {
            kept.text.clear();
            let solved = write_solution(&mut kept.certifier, options, &problem, &mut kept.text);
            keep_rows(&mut kept.spare, problem);
            solved?;
            write_all(sink, &kept.text)?;
            kept.keep_text();
            Ok(true)
        }
        None => Ok(false),
    }
}

/// Reads the next native problem of an input, answers it and writes its answer; false exactly at the end of the input
/// with no `(` left.
///
/// The problem is read as soon as its group has ended, and its answer is written as soon as it is made: what a caller
/// has called for is in the sink before the source is asked again. An answer that is refused writes nothing.
pub fn answer_next<S: Source, K: Sink>(
    alloc: Global,
    options: &SolveOptions,
    window: &mut Window,
    source: &mut S,
    sink: &mut K,
) -> Result<bool, Ending>
    requires held { length window.old.held ≤ 4095 }
    requires taken { taken_by window.old ≤ most_input_bytes }

    // what is read and what is written, where the source tells its bytes
    ensures answers { IfSome (S.left source.old) (λ left. AnswersNext (options_of options.now) window.old left window.new
        (S.left source.new) (K.written sink.old) (K.written sink.new) result) }
    ensures kept { ¬ (result ≡ Ok true) → ¬ IsErrOf result Ending.WriteFault → sink.new ≡ sink.old }
    ensures words { ¬ IsErrOf result Ending.Usage }
    ensures end { result ≡ Ok false → IsAtEnd (S.left source.new) }

    // the window, whatever the source tells
    ensures ready { IfOk result (λ _. IsReady window.new) }
    ensures dropped { result ≡ Ok true → window.old.base < window.new.base }
    ensures bound { taken_by window.new ≤ most_input_bytes + 1 }
    ensures limit { IsErrOf result Ending.InputTooLong ↔ (most_input_bytes < taken_by window.new) }

    // the source and the sink
    ensures calls { IfSome (S.left source.old) (λ left.
        CallsFor S.calls S.taken source.old source.new window.old window.new left (is_found result)) }
    ensures faults { EndsByFaults (S.faults source.old) (S.faults source.new) (K.faults sink.old) (K.faults sink.new)
        result }
{
    let mut kept = Kept::new(alloc);
    let answered = answer_next_in(&mut kept, options, window, source, sink);
    kept.discard();
    answered
}

// The same as `write_problems`, in the rooms that are kept.
fn write_problems_in<S: Source, K: Sink>(
    kept: &mut Kept,
    options: &SolveOptions,
    source: &mut S,
    sink: &mut K,
) -> Result<(), Ending>
    requires { options.now.polylib ≡ false }
    ensures output { IfSome (S.left source.old) (λ bytes. WritesByProblem (Solve (options_of options.now)) bytes
        (S.taken source.new - S.taken source.old) (K.written sink.old) (K.written sink.new) result) }
    ensures words { ¬ IsErrOf result Ending.Usage }
    ensures end { result ≡ Ok tt → IsAtEnd (S.left source.new) }
    ensures calls { CallsBy S.left S.calls S.taken source.old source.new (Solve (options_of options.now)) }
    ensures in_time { IfSome (S.left source.old) (FailsInTime S.calls S.taken source.old source.new
        (K.written sink.old) (K.written sink.new) result (Solve (options_of options.now))) }
    ensures faults { EndsByFaults (S.faults source.old) (S.faults source.new) (K.faults sink.old) (K.faults sink.new)
        result }
{
    let alloc = kept.certifier.solver.allocator();
    let mut window = Window::try_new(alloc)?;
    while answer_next_in(kept, options, &mut window, source, sink)? {}
    Ok(())
}

/// Answers the native problems of an input one by one, up to the first refusal. No more is held than a problem, 4,095
/// bytes, one answer and what is kept for the next: the room of runs and certificates, at most 1,024 rows of at most 64
/// coefficients, and 1 MiB for a text.
pub fn write_problems<S: Source, K: Sink>(
    alloc: Global,
    options: &SolveOptions,
    source: &mut S,
    sink: &mut K,
) -> Result<(), Ending>
    requires { options.now.polylib ≡ false }
    ensures output { IfSome (S.left source.old) (λ bytes. WritesByProblem (Solve (options_of options.now)) bytes
        (S.taken source.new - S.taken source.old) (K.written sink.old) (K.written sink.new) result) }
    ensures words { ¬ IsErrOf result Ending.Usage }
    ensures end { result ≡ Ok tt → IsAtEnd (S.left source.new) }
    ensures calls { CallsBy S.left S.calls S.taken source.old source.new (Solve (options_of options.now)) }
    ensures in_time { IfSome (S.left source.old) (FailsInTime S.calls S.taken source.old source.new
        (K.written sink.old) (K.written sink.new) result (Solve (options_of options.now))) }
    ensures faults { EndsByFaults (S.faults source.old) (S.faults source.new) (K.faults sink.old) (K.faults sink.new)
        result }
{
    let mut kept = Kept::new(alloc);
    let written = write_problems_in(&mut kept, options, source, sink);
    kept.discard();
    written
}
