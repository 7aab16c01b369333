ghost use Rattle.std.specs.Prelude.{IfSome};
ghost use Rattle.pip_stream.specs.Asked.{CallsFor, is_there};
ghost use Rattle.pip_stream.specs.Next.{IsReady};

use pip_outside::{Source, Window};
use pip_problem::Problem;
use pip_stream::{NextRefusal, SpareRows};

/// The next problem of an input: the source is not called again once the group has ended.
pub fn next_asked<S: Source>(
    spare: &mut SpareRows,
    window: &mut Window,
    source: &mut S,
) -> Result<Option<(Problem, usize)>, NextRefusal>
    requires { IsReady window.old }
    ensures { IfSome (S.left source.old) (λ left.
        CallsFor S.calls S.taken source.old source.new window.old window.new left (is_there result)) }
{
    pip_stream::next_problem_in(spare, window, source)
}
