ghost use Rattle.std.specs.Prelude.{◌≡◌, ◌⊎◌, ◌≤◌, IfOk, IfSome, IsErrOf};
ghost use Rattle.std.specs.Io.KnownBytes.{IsAtEnd};
ghost use Rattle.pip_model.specs.Limits.{most_input_bytes};
ghost use Rattle.pip_outside.specs.Faults.{CountsFaults};
ghost use Rattle.pip_stream.specs.Asked.{TakesMore};
ghost use Rattle.pip_stream.specs.Windows.{taken_by, IsMore};

use crate::next::MOST_INPUT_BYTES;
use crate::refusal::NextRefusal;
use pip_outside::{Source, Window};

// Asks the source once for more bytes of the input, one past its limit where that is reached, and answers how many
// came; 0 at the input's end.
pub(crate) fn more<S: Source>(window: &mut Window, source: &mut S) -> Result<usize, NextRefusal>
    requires { taken_by window.old ≤ most_input_bytes }
    ensures window { IsMore window.old window.new result }
    ensures end { IfOk result (λ n. n ≡ 0 → IsAtEnd (S.left source.new)) }

    // the source
    ensures told { IfSome (S.left source.old) (λ left.
        TakesMore S.taken source.old source.new window.old window.new left (S.left source.new)) }
    ensures faults { CountsFaults (IsErrOf result NextRefusal.Failed) (S.faults source.old) (S.faults source.new) }
    ensures asked { (source.new ≡ source.old) ⊎ S.calls source.old source.new }
{
    let taken = window.base() + window.held().len();
    let room = MOST_INPUT_BYTES - taken;
    let count = window.fill(source, room.max(1))?;
    if count > room {
        return Err(NextRefusal::InputBytes);
    }
    Ok(count)
}
