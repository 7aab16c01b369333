ghost use Rattle.std.specs.Prelude.{IfSome, IsErrOf, OnOk};
ghost use Rattle.std.specs.Io.KnownBytes.{IsAtEnd};
ghost use Rattle.pip_outside.specs.Calls.{AsksOn};
ghost use Rattle.pip_outside.specs.Faults.{CountsFaults};
ghost use Rattle.item_writing.specs.Inputs.{ReadsInput, IsOfInput};
ghost use Rattle.item_writing.specs.Outputs.{TakesInputAtMost};

use crate::ending::Ending;
use pip_outside::Source;
use pip_stream::MOST_INPUT_BYTES;
use std::alloc::Global;

// All bytes that a source has left, up to the most that an input may have. No more is asked for than one byte past
// these.
pub(crate) fn read_input<S: Source>(alloc: Global, source: &mut S) -> Result<Vec<u8>, Ending>
    ensures bytes { IfSome (S.left source.old) (ReadsInput result) }
    ensures own { IsOfInput result }
    ensures end { OnOk result (IsAtEnd (S.left source.new)) }
    ensures taken { TakesInputAtMost (S.left source.old) (S.taken source.old) (S.taken source.new) }
    ensures turns { IfSome (S.left source.old) (λ _. AsksOn S.calls S.taken source.old source.new) }
    ensures faults { CountsFaults (IsErrOf result Ending.ReadFault) (S.faults source.old) (S.faults source.new) }
{
    let mut bytes = Vec::new(alloc);
    let mut buf = [0u8; 2048];
    while bytes.len() <= MOST_INPUT_BYTES {
        let room = buf.len().min(MOST_INPUT_BYTES + 1 - bytes.len());
        let count = match source.read(&mut buf[..room]) {
            Ok(count) => count,
            Err(_) => return Err(Ending::ReadFault),
        };
        if count == 0 {
            return Ok(bytes);
        }
        bytes.extend_from_slice(&buf[..count])?;
    }
    Err(Ending::InputTooLong)
}
