//! The library without the command line: a problem is made, solved, and its tree is valued.
ghost use Rattle.std.specs.Prelude.{◌≡◌, IfOk};

use affine_rows::{Form, WantOfMemory};
use pip_problem::{Limits, Problem};
use pip_solve::solve;
use quast::{Answer, Place, Quast, Scratch};
use std::alloc::Global;
use std::test::Fail;

// x >= p and x >= q: the coefficients of x, p and q, and the constant.
fn greater_of_two(alloc: Global) -> Result<Problem, WantOfMemory>
    ensures { IfOk result (λ problem. problem.params ≡ 2) }
{
    let above_p = Form::try_new(alloc, &[1, -1, 0, 0])?;
    let above_q = Form::try_new(alloc, &[1, 0, -1, 0])?;
    let rows = [above_p, above_q];
    let problem = Problem::try_new(alloc, 1, 2, &rows, &[], true, b"(the greater of two)");
    drop(rows);
    problem
}

// The tree of a problem whose context has a point.
fn tree_of(alloc: Global, problem: &Problem) -> Result<Quast, Fail>
    ensures { IfOk result (λ tree. tree.width ≡ problem.now.params) }
{
    match solve(alloc, problem, &Limits::standard())? {
        Answer::Tree(tree) => Ok(tree),
        Answer::Void => Err("the context has a point")?,
    }
}

fn solved(alloc: Global) -> Result<Quast, Fail>
    ensures { IfOk result (λ tree. tree.width ≡ 2) }
{
    let problem = greater_of_two(alloc)?;
    let tree = tree_of(alloc, &problem);
    drop(problem);
    tree
}

// Whether the tree's value at 3 and 5 is 5.
fn is_greater(tree: &Quast, scratch: &mut Scratch) -> bool
    requires { tree.now.width ≡ 2 }
{
    match tree.value_at(&[3, 5], scratch) {
        Ok(Place::At(_, values)) => values == [5].as_slice(),
        _ => false,
    }
}

fn is_valued(alloc: Global, tree: &Quast) -> Result<bool, WantOfMemory>
    requires { tree.now.width ≡ 2 }
{
    let mut scratch = Scratch::reserve(alloc)?;
    let is_so = is_greater(tree, &mut scratch);
    drop(scratch);
    Ok(is_so)
}

fn is_answered(alloc: Global) -> Result<bool, Fail> {
    let tree = solved(alloc)?;
    let is_so = is_valued(alloc, &tree);
    drop(tree);
    Ok(is_so?)
}

#[test]
fn the_greater_of_two_parameters(rt: HostRuntime) -> Result<(), Fail> {
    assert!(rt; is_answered(rt.alloc())?);
    Ok(())
}
