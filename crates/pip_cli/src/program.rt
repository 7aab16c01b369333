ghost use Rattle.std.specs.Prelude.{◌≡◌, ◌≢◌, ◌⊎◌, ◌-◌, None, Ok, true, IsErrOf, IfSome};
ghost use Rattle.std.specs.Io.KnownBytes.{IsAtEnd};
ghost use Rattle.pip_outside.specs.Calls.{AsksOn};
ghost use Rattle.pip_outside.specs.Faults.{HasRisen};
ghost use Rattle.program_model.specs.Endings.{all_done, wrong_words, read_failed, write_failed, memory_refused, memory_ending};
ghost use Rattle.pip_words.specs.Words.{command_given};
ghost use Rattle.item_writing.specs.Outputs.{TakesInput, TakesInputAtMost, IsRead, EndsByFaults};
ghost use Rattle.item_writing.specs.ByProblem.{WritesOf, ReadsWhole, StopsAtRefused, FailsInTime, WritesInTime, reads_by_problem};
ghost use Rattle.pip_cli.specs.Runs.{IsWordsEnding, WhereTold};
ghost use Rattle.pip_cli.specs.Ends.{GainsLine, IsNoted, IsAfterInput, EndsAs, AnswersRight, Completes};

use crate::output::write_output;
use item_writing::{Ending, Status};
use pip_outside::{Sink, Source};
use pip_words::read_words;
use std::alloc::Global;

// Reads the words, and then lets their command read the input and write its output.
fn run<S: Source, K: Sink>(
    alloc: Global,
    words: &Vec<String>,
    source: &mut S,
    sink: &mut K,
) -> Result<(), Ending>
    ensures usage { IsErrOf result Ending.Usage → command_given words.now ≡ None }
    ensures refused { command_given words.now ≡ None → IsWordsEnding result }
    ensures untouched { command_given words.now ≡ None → (source.new ≡ source.old) × (sink.new ≡ sink.old) }
    ensures end { IfSome (command_given words.now) ReadsWhole → IsRead result → IsAtEnd (S.left source.new) }
    ensures done { IfSome (command_given words.now) TakesInput → result ≡ Ok tt → IsAtEnd (S.left source.new) }
    ensures spared { IfSome (command_given words.now) (λ c. ¬ TakesInput c → source.new ≡ source.old) }
    ensures taken { TakesInputAtMost (S.left source.old) (S.taken source.old) (S.taken source.new) }
    ensures turns { IfSome (S.left source.old) (λ _. AsksOn S.calls S.taken source.old source.new) }
    ensures faults { EndsByFaults (S.faults source.old) (S.faults source.new) (K.faults sink.old) (K.faults sink.new)
        result }
    ensures unread { IfSome (command_given words.now) ReadsWhole → IsErrOf result Ending.ReadFault →
        sink.new ≡ sink.old }
    ensures asked { WhereTold (command_given words.now) (S.left source.old)
        (StopsAtRefused S.calls S.taken source.old source.new) }
    ensures in_time { WhereTold (command_given words.now) (S.left source.old)
        (FailsInTime S.calls S.taken source.old source.new (K.written sink.old) (K.written sink.new) result) }
    ensures output { WhereTold (command_given words.now) (S.left source.old) (λ c bytes.
        WritesOf c bytes (S.taken source.new - S.taken source.old) (K.written sink.old) (K.written sink.new) result) }
{
    let command = read_words(alloc, words)?;
    write_output(alloc, &command, source, sink)
}

/// Does all that the program does and answers its status.
///
/// The words come first. Native problems are read one by one: the answers of all whose groups have ended are written
/// before the source is asked again. Every other input is read whole first; the trial reads none. Each item is read,
/// answered, printed and written, up to the first refusal. Its line goes to the notes; a write of it that fails changes
/// neither the status nor the sink.
pub fn pip_main<S: Source, K: Sink, N: Sink>(
    alloc: Global,
    words: &Vec<String>,
    source: &mut S,
    sink: &mut K,
    notes: &mut N,
) -> u8
    // the words
    ensures usage { result ≡ wrong_words → command_given words.now ≡ None }
    ensures refused { command_given words.now ≡ None → (result ≡ wrong_words) ⊎ (result ≡ memory_refused) }
    ensures untouched { command_given words.now ≡ None → (source.new ≡ source.old) × (sink.new ≡ sink.old) }

    // what is read of the source, whatever it tells; the trial reads nothing
    ensures spared { IfSome (command_given words.now) (λ c. ¬ TakesInput c → source.new ≡ source.old) }
    ensures read_to_end { IfSome (command_given words.now) ReadsWhole → IsAfterInput (S.left source.old) result →
        IsAtEnd (S.left source.new) }
    ensures done_at_end { IfSome (command_given words.now) TakesInput → result ≡ all_done →
        IsAtEnd (S.left source.new) }
    ensures taken { TakesInputAtMost (S.left source.old) (S.taken source.old) (S.taken source.new) }
    ensures turns { IfSome (S.left source.old) (λ _. AsksOn S.calls S.taken source.old source.new) }
    ensures asked { WhereTold (command_given words.now) (S.left source.old)
        (StopsAtRefused S.calls S.taken source.old source.new) }
    ensures in_time { WhereTold (command_given words.now) (S.left source.old) (λ c bytes. result ≡ write_failed →
        reads_by_problem c ≡ true → WritesInTime S.calls S.taken source.old source.new (K.written sink.old)
        (K.written sink.new) c bytes) }

    // the causes of faults, each of which ends the run
    ensures read_fault { result ≡ read_failed → HasRisen (S.faults source.old) (S.faults source.new) }
    ensures write_fault { result ≡ write_failed → HasRisen (K.faults sink.old) (K.faults sink.new) }
    ensures read_fault_ends { S.faults source.new ≢ S.faults source.old → result ≡ read_failed }
    ensures write_fault_ends { K.faults sink.new ≢ K.faults sink.old → result ≡ write_failed }
    ensures nothing_at_read_fault { IfSome (command_given words.now) ReadsWhole → result ≡ read_failed →
        sink.new ≡ sink.old }

    // the headline: each text is right for the item in its place
    ensures right { WhereTold (command_given words.now) (S.left source.old) (λ c bytes.
        AnswersRight c bytes (K.written sink.old) (K.written sink.new) result) }

    // which texts they are, and the line on the notes
    ensures output { let line = GainsLine (N.written notes.old) (N.written notes.new)
        (N.faults notes.old) (N.faults notes.new) in
        WhereTold (command_given words.now) (S.left source.old) (λ c bytes.
        EndsAs c bytes (S.taken source.new - S.taken source.old) (K.written sink.old) (K.written sink.new)
        line result) }
    ensures notes { let line = GainsLine (N.written notes.old) (N.written notes.new)
        (N.faults notes.old) (N.faults notes.new) in IsNoted line result }
    ensures quiet_notes { result ≡ all_done → notes.new ≡ notes.old }

    // where neither the outside nor an item refuses
    ensures complete { ¬ HasRisen (S.faults source.old) (S.faults source.new) →
        ¬ HasRisen (K.faults sink.old) (K.faults sink.new) →
        WhereTold (command_given words.now) (S.left source.old) (λ c bytes.
        Completes c bytes (K.written sink.old) (K.written sink.new) result) }
{
    match run(alloc, words, source, sink) {
        Ok(()) => Status::AllDone.number(),
        Err(ending) => {
            let _ = ending.write_line(notes);
            ending.status().number()
        }
    }
}

/// Ends a run for whose words there was no memory: its line goes to the notes, and its status is answered. A write of
/// the line that fails does not change the status.
pub fn refuse_words<N: Sink>(notes: &mut N) -> u8
    ensures status { result ≡ memory_refused }
    ensures notes { GainsLine (N.written notes.old) (N.written notes.new) (N.faults notes.old) (N.faults notes.new)
        memory_ending }
{
    let ending = Ending::WantOfMemory;
    let _ = ending.write_line(notes);
    ending.status().number()
}
