//! Points that are tested against a problem that was read.
use pip_problem::{Problem, is_feasible};
use pip_reader::read_problem;
use std::alloc::Global;
use std::test::Fail;

// Whether 2 satisfies 2*x - 3 >= 0, and 1 and -1 do not.
fn is_told(problem: &Problem) -> bool {
    problem.unknowns() == 1
        && problem.params() == 0
        && is_feasible(problem, &[2], &[]) == Ok(true)
        && is_feasible(problem, &[1], &[]) == Ok(false)
        && is_feasible(problem, &[-1], &[]) == Ok(false)
}

fn is_read_and_told(alloc: Global) -> Result<bool, Fail> {
    let text = b"((h) 1 0 1 0 -1 0 (#[2 -3]) ())".as_slice();
    let read = read_problem(alloc, text, 0)?;
    let is_so = matches!(&read, Some((problem, _)) if is_told(problem));
    drop(read);
    Ok(is_so)
}

#[test]
fn points_are_tested(rt: HostRuntime) -> Result<(), Fail> {
    assert!(rt; is_read_and_told(rt.alloc())?);
    Ok(())
}
