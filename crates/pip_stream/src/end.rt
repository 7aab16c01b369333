ghost use Rattle.std.specs.Prelude.{◌≡◌, ◌≢◌, true, None, Ok, IfOk, IfSome, IsErrOf};
ghost use Rattle.std.specs.Io.KnownBytes.{IsAtEnd};
ghost use Rattle.pip_outside.specs.Faults.{CountsFaults};
ghost use Rattle.pip_reader.specs.Groups.{first_group_end};
ghost use Rattle.pip_stream.specs.Asked.{Seeks, is_ended};
ghost use Rattle.pip_stream.specs.Open.{IsOpened};
ghost use Rattle.pip_stream.specs.Ended.{EndsGroup};

use crate::more::more;
use crate::refusal::NextRefusal;
use pip_outside::{Source, Window};
use pip_reader::GroupScan;

// How many bytes the group has that the held bytes begin with; more are asked for as long as it does not end. All that
// are held where it does not end before the input.
#[tactic(none)]
pub(crate) fn find_end<S: Source>(window: &mut Window, source: &mut S) -> Result<usize, NextRefusal>
    requires { IsOpened window.old (Ok true) }
    ensures window { EndsGroup window.old window.new result }
    ensures end { IfOk result (λ _. first_group_end window.new.held ≡ None → IsAtEnd (S.left source.new)) }

    // the source
    ensures told { IfSome (S.left source.old) (λ left. Seeks S.calls S.taken source.old source.new window.old window.new
        left (S.left source.new) (is_ended result (first_group_end window.new.held))) }
    ensures faults { CountsFaults (IsErrOf result NextRefusal.Failed) (S.faults source.old) (S.faults source.new) }
    ensures untouched { first_group_end window.old.held ≢ None → source.new ≡ source.old }
{
    let mut scan = GroupScan::start();
    let mut seen = 0;
    loop {
        let (_, piece) = window.held().split_at(seen);
        match scan.scan(piece) {
            Some(after) => return Ok(seen + after),
            None => seen = window.held().len(),
        }
        if more(window, source)? == 0 {
            return Ok(seen);
        }
    }
}
