ghost use Rattle.std.specs.Prelude.{◌-◌};
ghost use Rattle.pip_words.specs.Words.{command_given};
ghost use Rattle.pip_cli.specs.Runs.{WhereTold};
ghost use Rattle.pip_cli.specs.Ends.{GainsLine, EndsAs};

use pip_cli::pip_main;
use pip_outside::{Sink, Source};
use std::alloc::Global;

/// A run of the program: which texts it writes, its status, and its line on the notes.
pub fn answered<S: Source, K: Sink, N: Sink>(
    alloc: Global,
    words: &Vec<String>,
    source: &mut S,
    sink: &mut K,
    notes: &mut N,
) -> u8
    ensures output { let line = GainsLine (N.written notes.old) (N.written notes.new)
        (N.faults notes.old) (N.faults notes.new) in
        WhereTold (command_given words.now) (S.left source.old) (λ c bytes.
        EndsAs c bytes (S.taken source.new - S.taken source.old) (K.written sink.old) (K.written sink.new)
        line result) }
{
    pip_main(alloc, words, source, sink, notes)
}
