ghost use Rattle.std.specs.Prelude.{◌≡◌, ◌-◌, Ok, IfSome, IsErrOf};
ghost use Rattle.std.specs.Io.KnownBytes.{IsAtEnd};
ghost use Rattle.pip_outside.specs.Calls.{AsksOn};
ghost use Rattle.pip_words.specs.Words.{meaning_of};
ghost use Rattle.item_writing.specs.Outputs.{TakesInput, TakesInputAtMost, IsRead, EndsByFaults, bytes_read};
ghost use Rattle.item_writing.specs.ByProblem.{WritesOf, ReadsWhole, StopsAtRefused, FailsInTime};

use certificate_items::{Check, Share};
use item_writing::{Ending, write_items, write_over_input};
use pip_outside::{Sink, Source};
use pip_words::Command;
use solve_items::{Matrices, Trial, write_problems};
use std::alloc::Global;
use tree_items::{Eval, Least, Pieces, Restrict, Same, Simplify};

// Writes the text that a command makes of each item, up to the first refusal. Native problems are read and answered
// one by one; any other input is read whole first, and the trial reads none.
pub(crate) fn write_output<S: Source, K: Sink>(
    alloc: Global,
    command: &Command,
    source: &mut S,
    sink: &mut K,
) -> Result<(), Ending>
    ensures output { IfSome (bytes_read (meaning_of command.now) (S.left source.old)) (λ bytes.
        WritesOf (meaning_of command.now) bytes (S.taken source.new - S.taken source.old)
        (K.written sink.old) (K.written sink.new) result) }
    ensures words { ¬ IsErrOf result Ending.Usage }
    ensures end { ReadsWhole (meaning_of command.now) → IsRead result → IsAtEnd (S.left source.new) }
    ensures done { TakesInput (meaning_of command.now) → result ≡ Ok tt → IsAtEnd (S.left source.new) }
    ensures spared { ¬ TakesInput (meaning_of command.now) → source.new ≡ source.old }
    ensures asked { IfSome (bytes_read (meaning_of command.now) (S.left source.old))
        (StopsAtRefused S.calls S.taken source.old source.new (meaning_of command.now)) }
    ensures in_time { IfSome (bytes_read (meaning_of command.now) (S.left source.old))
        (FailsInTime S.calls S.taken source.old source.new (K.written sink.old) (K.written sink.new) result
        (meaning_of command.now)) }
    ensures turns { IfSome (S.left source.old) (λ _. AsksOn S.calls S.taken source.old source.new) }
    ensures taken { TakesInputAtMost (S.left source.old) (S.taken source.old) (S.taken source.new) }
    ensures faults { EndsByFaults (S.faults source.old) (S.faults source.new) (K.faults sink.old) (K.faults sink.new)
        result }
    ensures unread { ReadsWhole (meaning_of command.now) → IsErrOf result Ending.ReadFault → sink.new ≡ sink.old }
{
    match command {
        Command::Solve(options) => {
            if options.polylib {
                write_over_input(alloc, &Matrices { options }, source, sink)
            } else {
                write_problems(alloc, options, source, sink)
            }
        }
        Command::Eval(params) => write_over_input(alloc, &Eval(params), source, sink),
        Command::Simplify(options) => write_over_input(alloc, &Simplify(options), source, sink),
        Command::Check => write_over_input(alloc, &Check, source, sink),
        Command::Share => write_over_input(alloc, &Share, source, sink),
        Command::Pieces(options) => write_over_input(alloc, &Pieces(options), source, sink),
        Command::Restrict(options) => write_over_input(alloc, &Restrict(options), source, sink),
        Command::Same(options) => write_over_input(alloc, &Same(options), source, sink),
        Command::Least(options) => write_over_input(alloc, &Least(options), source, sink),
        Command::Trial(options) => write_items(alloc, &Trial(options), b"", sink),
    }
}
