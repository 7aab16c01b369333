//! Native problems that are answered one by one, by the call of the library.
ghost use Rattle.std.specs.Prelude.{◌≡◌, []};

use crate::row::{Ends, ends_over};
use pip_cli::answer_next;
use pip_outside::Window;
use pip_problem::Limits;
use pip_words::SolveOptions;
use std::alloc::Global;
use std::test::Fail;

const PROBLEM: &[u8] = b"((a) 1 0 1 0 -1 1 (#[1 -3]) ()) ";

// Whether a problem is answered, and then none is left.
fn are_answered(alloc: Global, window: &mut Window, ends: &mut Ends) -> bool
    requires { window.old ≡ record { held = []; base = 0; peak = 0 } }
{
    let options = SolveOptions {
        polylib: false,
        simplify: false,
        certificate: false,
        limits: Limits::standard(),
    };
    match answer_next(alloc, &options, window, &mut ends.source, &mut ends.sink) {
        Ok(true) => {}
        _ => return false,
    }
    let written = ends.sink.written() == b"((a)\n(list\n#[ 3]\n)\n)\n".as_slice();
    match answer_next(alloc, &options, window, &mut ends.source, &mut ends.sink) {
        Ok(false) => written,
        _ => false,
    }
}

fn is_answered(alloc: Global) -> Result<bool, Fail> {
    let input = PROBLEM.to_vec(alloc)?;
    let mut window = Window::try_new(alloc)?;
    let mut ends = ends_over(alloc, input, 7);
    let are_so = are_answered(alloc, &mut window, &mut ends);
    drop(ends);
    drop(window);
    Ok(are_so)
}

#[test]
fn a_problem_is_answered_and_then_none(rt: HostRuntime) -> Result<(), Fail> {
    assert!(rt; is_answered(rt.alloc())?);
    Ok(())
}
