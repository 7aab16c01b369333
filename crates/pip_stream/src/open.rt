ghost use Rattle.std.specs.Prelude.{◌≡◌, ◌≢◌, ◌<◌, ◌≤◌, ◌^◌, true, false, None, IfOk, IfSome, IsErrOf};
ghost use Rattle.std.specs.Io.KnownBytes.{IsAtEnd};
ghost use Rattle.pip_model.specs.Reading.{next_open};
ghost use Rattle.pip_outside.specs.Faults.{CountsFaults};
ghost use Rattle.pip_stream.specs.Asked.{Seeks, is_found};
ghost use Rattle.pip_stream.specs.Windows.{taken_by, HoldsPiece};
ghost use Rattle.pip_stream.specs.Open.{DropsClosed, IsOpened};

use crate::more::more;
use crate::refusal::NextRefusal;
use pip_outside::{Source, Window};
use text_tokens::next_open;

// Drops the held bytes before the first `(`, or all where there is none, and tells which.
fn skip_closed(window: &mut Window) -> bool
    requires { taken_by window.old < 2 ^ 64 }
    ensures { DropsClosed window.old window.new result }
{
    match next_open(window.held(), 0) {
        Some(place) => {
            window.drop_front(place);
            true
        }
        None => {
            let all = window.held().len();
            window.drop_front(all);
            false
        }
    }
}

// Drops the bytes before the next `(`, and asks for more as long as there is none; false at the input's end.
#[tactic(none)]
pub(crate) fn find_open<S: Source>(window: &mut Window, source: &mut S) -> Result<bool, NextRefusal>
    requires { HoldsPiece window.old }
    ensures window { IsOpened window.new result }
    ensures base { window.old.base ≤ window.new.base }
    ensures end { IfOk result (λ found. found ≡ false → IsAtEnd (S.left source.new)) }

    // the source
    ensures told { IfSome (S.left source.old) (λ left. Seeks S.calls S.taken source.old source.new window.old window.new
        left (S.left source.new) (is_found result)) }
    ensures faults { CountsFaults (IsErrOf result NextRefusal.Failed) (S.faults source.old) (S.faults source.new) }
    ensures untouched { next_open 0 window.old.held ≢ None →
        (source.new ≡ source.old) × DropsClosed window.old window.new true }
{
    while !skip_closed(window) {
        if more(window, source)? == 0 {
            return Ok(false);
        }
    }
    Ok(true)
}
