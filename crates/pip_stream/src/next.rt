ghost use Rattle.std.specs.Prelude.{◌≡◌, ◌≢◌, Some, None, Ok, IfSome, IsErrOf};
ghost use Rattle.std.specs.Io.KnownBytes.{IsAtEnd};
ghost use Rattle.pip_model.specs.Reading.{next_open};
ghost use Rattle.pip_outside.specs.Faults.{CountsFaults};
ghost use Rattle.pip_reader.specs.Groups.{first_group_end};
ghost use Rattle.pip_stream.specs.Asked.{CallsFor, is_there};
ghost use Rattle.pip_stream.specs.Ended.{HoldsItem, IsRead};
ghost use Rattle.pip_stream.specs.Next.{FindsNext, LeavesWindow, IsReady};

use crate::end::find_end;
use crate::open::find_open;
use crate::refusal::{NextRefusal, behind};
use pip_outside::{Source, Window};
use pip_problem::Problem;
use pip_reader::{SpareRows, read_problem_in};
use std::alloc::Global;

/// The most bytes that an input may have.
pub const MOST_INPUT_BYTES: usize = 1 << 24;

// Reads the problem that the first n of the held bytes are, and drops them.
fn take_item(
    spare: &mut SpareRows,
    window: &mut Window,
    n: usize,
) -> Result<Option<(Problem, usize)>, NextRefusal>
    requires open_first { next_open 0 window.old.held ≡ Some 0 }
    requires item { HoldsItem window.old n }
    ensures { IsRead window.old window.new n result }
{
    let base = window.base();
    let (item, _) = window.held().split_at(n);
    match read_problem_in(spare, item, 0) {
        Ok(found) => {
            window.drop_front(n);
            Ok(found)
        }
        Err(refusal) => Err(behind(base, refusal)),
    }
}

/// The next problem of an input and the number of bytes of its group; none exactly at the end of the input with no `(`
/// left.
///
/// The window holds the bytes that were taken and belong to no problem before. Bytes before a `(` are dropped at once.
/// The problem is read as soon as its group has ended, before the source is asked again, and its bytes are dropped.
/// Its rows are read into spare rooms. What is read of the item's bytes alone is what is read of the whole input. After a
/// refusal the window holds what it held then.
#[tactic(none)]
pub fn next_problem_in<S: Source>(
    spare: &mut SpareRows,
    window: &mut Window,
    source: &mut S,
) -> Result<Option<(Problem, usize)>, NextRefusal>
    requires { IsReady window.old }

    // what is found, where the source tells its bytes
    ensures finds { IfSome (S.left source.old) (λ left.
        FindsNext window.old left window.new (S.left source.new) result) }

    ensures end { result ≡ Ok None → IsAtEnd (S.left source.new) }

    // the window, whatever the source tells
    ensures window { LeavesWindow window.old window.new result }

    // the source is not called again once the group has ended, and not at all where that is held, nor at the input's end
    ensures calls { IfSome (S.left source.old) (λ left.
        CallsFor S.calls S.taken source.old source.new window.old window.new left (is_there result)) }
    ensures faults { CountsFaults (IsErrOf result NextRefusal.Failed) (S.faults source.old) (S.faults source.new) }
    ensures untouched { first_group_end window.old.held ≢ None → source.new ≡ source.old }
{
    window.restart();
    if !find_open(window, source)? {
        return Ok(None);
    }
    let n = find_end(window, source)?;
    take_item(spare, window, n)
}

/// The same, in new rooms.
pub fn next_problem<S: Source>(
    alloc: Global,
    window: &mut Window,
    source: &mut S,
) -> Result<Option<(Problem, usize)>, NextRefusal>
    requires { IsReady window.old }

    // what is found, where the source tells its bytes
    ensures finds { IfSome (S.left source.old) (λ left.
        FindsNext window.old left window.new (S.left source.new) result) }

    ensures end { result ≡ Ok None → IsAtEnd (S.left source.new) }

    // the window, whatever the source tells
    ensures window { LeavesWindow window.old window.new result }

    // the source is not called again once the group has ended, and not at all where that is held, nor at the input's end
    ensures calls { IfSome (S.left source.old) (λ left.
        CallsFor S.calls S.taken source.old source.new window.old window.new left (is_there result)) }
    ensures faults { CountsFaults (IsErrOf result NextRefusal.Failed) (S.faults source.old) (S.faults source.new) }
    ensures untouched { first_group_end window.old.held ≢ None → source.new ≡ source.old }
{
    let mut spare = SpareRows::new(alloc);
    let next = next_problem_in(&mut spare, window, source);
    drop(spare);
    next
}
