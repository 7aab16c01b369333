//! A context without a point, and the steps that refute it.
ghost use Rattle.std.specs.Prelude.{◌≡◌, ◌+◌, ◌≤◌, length};

use affine_rows::{Form, WantOfMemory};
use certificate_parts::{Refutation, Step};
use context::Refute;
use pip_problem::{Limits, Refusal};
use pip_solve::{Context, Work};
use std::alloc::Global;
use std::test::Fail;

// Adds a form, and makes room for it.
fn add(k: &mut Context, form: Form) -> Result<(), WantOfMemory>
    requires { length form ≤ k.old.width + 1 }
    ensures { k.new.width ≡ k.old.width }
{
    k.reserve(1)?;
    k.add(form);
    Ok(())
}

// Adds 2x - 1 and 1 - 2x, so that x would be one half.
fn add_half(alloc: Global, k: &mut Context) -> Result<(), WantOfMemory>
    requires { k.old.width ≡ 1 }
    ensures { k.new.width ≡ k.old.width }
{
    add(k, Form::try_new(alloc, &[2, -1])?)?;
    add(k, Form::try_new(alloc, &[-2, 1])?)
}

// Whether a step has this divisor and these terms.
fn is_step(step: &Step, divisor: i128, terms: &[(i128, i128)]) -> bool {
    step.divisor == divisor && step.terms.as_slice() == terms
}

// The cut by x, half of form 0's quantity and 1, gives x - 1; form 1 and twice that are below 0.
fn are_steps(found: &Option<Refutation>) -> bool {
    match found {
        None => false,
        Some(steps) => {
            let steps = steps.as_slice();
            steps.len() == 2
                && is_step(&steps[0], 2, &[(0, 1)])
                && is_step(&steps[1], 1, &[(1, 1), (9, 2)])
        }
    }
}

// Whether these steps refute it, where the place x has the index 7 and the first step's form 9.
fn is_refuted_so(alloc: Global, k: &mut Context) -> Result<bool, Refusal>
    requires { k.old.width ≡ 1 }
{
    add_half(alloc, k)?;
    let mut work = Work::start(&Limits::standard());
    let found = k.refute(alloc, &[7], 9, &mut work)?;
    Ok(are_steps(&found))
}

fn is_refuted(alloc: Global) -> Result<bool, Refusal> {
    let mut k = Context::try_new(alloc, 1)?;
    let is_so = is_refuted_so(alloc, &mut k);
    drop(k);
    is_so
}

#[test]
fn a_context_is_refuted(rt: HostRuntime) -> Result<(), Fail> {
    assert!(rt; is_refuted(rt.alloc())?);
    Ok(())
}
