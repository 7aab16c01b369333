ghost use Rattle.std.specs.Prelude.{◌≡◌, ◌-◌, IfSome, IsErrOf};
ghost use Rattle.std.specs.Io.KnownBytes.{IsAtEnd};
ghost use Rattle.item_writing.specs.Outputs.{IsRead, EndsByFaults, bytes_read};
ghost use Rattle.item_writing.specs.ByProblem.{WritesOf, ReadsWhole, FailsInTime, CallsBy};

use crate::ending::Ending;
use crate::input::read_input;
use crate::items::{Items, write_items};
use pip_outside::{Sink, Source};
use std::alloc::Global;

/// Reads the whole input, and then writes the text of each item.
pub fn write_over_input<C: Items, S: Source, K: Sink>(
    alloc: Global,
    command: &C,
    source: &mut S,
    sink: &mut K,
) -> Result<(), Ending>
    requires { ReadsWhole (C.meaning command.now) }
    ensures output { IfSome (bytes_read (C.meaning command.now) (S.left source.old)) (λ bytes.
        WritesOf (C.meaning command.now) bytes (S.taken source.new - S.taken source.old)
        (K.written sink.old) (K.written sink.new) result) }
    ensures words { ¬ IsErrOf result Ending.Usage }
    ensures end { IsRead result → IsAtEnd (S.left source.new) }
    ensures calls { CallsBy S.left S.calls S.taken source.old source.new (C.meaning command.now) }
    ensures in_time { IfSome (bytes_read (C.meaning command.now) (S.left source.old))
        (FailsInTime S.calls S.taken source.old source.new (K.written sink.old) (K.written sink.new) result
        (C.meaning command.now)) }
    ensures faults { EndsByFaults (S.faults source.old) (S.faults source.new) (K.faults sink.old) (K.faults sink.new)
        result }
    ensures unread { IsErrOf result Ending.ReadFault → sink.new ≡ sink.old }
{
    let input = read_input(alloc, source)?;
    write_items(alloc, command, &input, sink)
}
