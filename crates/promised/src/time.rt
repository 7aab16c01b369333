ghost use Rattle.std.specs.Prelude.{◌≡◌, true};
ghost use Rattle.program_model.specs.Endings.{write_failed};
ghost use Rattle.pip_words.specs.Words.{command_given};
ghost use Rattle.pip_cli.specs.ByProblem.{WritesInTime, reads_by_problem};
ghost use Rattle.pip_cli.specs.Runs.{WhereTold};

use pip_cli::pip_main;
use pip_outside::{Sink, Source};
use std::alloc::Global;

/// A run of the program: the text whose write failed was made in time.
pub fn in_time<S: Source, K: Sink, N: Sink>(
    alloc: Global,
    words: &Vec<String>,
    source: &mut S,
    sink: &mut K,
    notes: &mut N,
) -> u8
    ensures { WhereTold (command_given words.now) (S.left source.old) (λ c bytes. result ≡ write_failed →
        reads_by_problem c ≡ true → WritesInTime S.calls S.taken source.old source.new (K.written sink.old)
        (K.written sink.new) c bytes) }
{
    pip_main(alloc, words, source, sink, notes)
}
