//! Trials of problems that are drawn.
use crate::row::all_hold;
use affine_rows::WantOfMemory;
use pip_cli::{Generator, draw_problem};
use std::alloc::Global;
use std::test::Fail;

const DRAWN: &[&str] = &[
    "no problem || pip trial 7 0 ||  || problems 0 lists 0 bottoms 0 quotients 0 refused 0\n",
    "1,000 problems, an input that is not read || pip trial 7 1000 || ((a) 1 0 1 || problems 1000 lists 1421 bottoms 729 quotients 393 refused 0\n",
];

#[test]
fn drawn(rt: HostRuntime) -> Result<(), Fail> {
    all_hold(&rt, rt.alloc(), DRAWN)
}

// The first state of seed 0 gives 167951807, which is 2 modulo 3, and the first problem so many unknowns and one more.
fn is_drawn(alloc: Global) -> Result<bool, WantOfMemory> {
    let problem = draw_problem(alloc, &mut Generator::new(0))?;
    Ok(problem.unknowns() == 3)
}

#[test]
fn the_first_draw_of_seed_0(rt: HostRuntime) -> Result<(), Fail> {
    assert!(rt; Generator::new(0).draw(3) == 2);
    assert!(rt; is_drawn(rt.alloc())?);
    Ok(())
}
