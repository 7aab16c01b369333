ghost use Rattle.pip_stream.specs.Next.{LeavesWindow, IsReady};

use pip_outside::{Source, Window};
use pip_problem::Problem;
use pip_stream::{NextRefusal, SpareRows};

/// The next problem of an input: the window behind the call.
pub fn next_dropped<S: Source>(
    spare: &mut SpareRows,
    window: &mut Window,
    source: &mut S,
) -> Result<Option<(Problem, usize)>, NextRefusal>
    requires { IsReady window.old }
    ensures { LeavesWindow window.old window.new result }
{
    pip_stream::next_problem_in(spare, window, source)
}
