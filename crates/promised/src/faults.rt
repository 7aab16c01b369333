ghost use Rattle.std.specs.Prelude.{◌≡◌};
ghost use Rattle.pip_outside.specs.Faults.{HasRisen};
ghost use Rattle.program_model.specs.Endings.{read_failed, write_failed};

use pip_cli::pip_main;
use pip_outside::{Sink, Source};
use std::alloc::Global;

/// A run of the program: a read fault only where a read failed, and a write fault only where a write did.
pub fn faulted<S: Source, K: Sink, N: Sink>(
    alloc: Global,
    words: &Vec<String>,
    source: &mut S,
    sink: &mut K,
    notes: &mut N,
) -> u8
    ensures read_fault { result ≡ read_failed → HasRisen (S.faults source.old) (S.faults source.new) }
    ensures write_fault { result ≡ write_failed → HasRisen (K.faults sink.old) (K.faults sink.new) }
{
    pip_main(alloc, words, source, sink, notes)
}
