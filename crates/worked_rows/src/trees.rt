//! Nodes whose subtree is nested as deep as may be: all that was given is handed back.
ghost use Rattle.std.specs.Prelude.{◌≡◌, pos, negsuc, [], ◌∷◌, IfOk};

use affine_rows::{Form, MOST_NESTING, WantOfMemory};
use quast::{BuildRefusal, Parts, Quast};
use std::alloc::Global;
use std::test::Fail;

// p - 2, at least 0.
fn condition(alloc: Global) -> Result<Form, WantOfMemory>
    ensures { IfOk result (λ form. form ≡ pos 1 ∷ negsuc 1 ∷ []) }
{
    Form::try_new(alloc, &[1, -2])
}

// 3, to be halved.
fn three(alloc: Global) -> Result<Form, WantOfMemory>
    ensures { IfOk result (λ form. form ≡ pos 3 ∷ []) }
{
    Form::try_new(alloc, &[3])
}

// A choice between the tree and bottom.
fn chosen(alloc: Global, tree: Quast) -> Result<Quast, Fail>
    requires { tree.width ≡ 1 }
    ensures { IfOk result (λ made. made.width ≡ 1) }
{
    match Quast::select(alloc, condition(alloc)?, tree, Quast::bottom(1)) {
        Ok(tree) => Ok(tree),
        Err(refused) => {
            drop(refused);
            Err("select")?
        }
    }
}

// A tree of the most nested choices.
fn deepest(alloc: Global) -> Result<Quast, Fail>
    ensures { IfOk result (λ tree. tree.width ≡ 1) }
{
    let mut tree = Quast::bottom(1);
    for _ in 0..MOST_NESTING {
        tree = chosen(alloc, tree)?;
    }
    Ok(tree)
}

type Made = Result<Quast, (Parts, BuildRefusal)>;

// Whether a choice is refused, and its parts are handed back.
fn is_select_refused(made: &Made) -> bool {
    match made {
        Err((Parts::Select(form, above, below), BuildRefusal::Nesting)) => {
            form.as_slice() == [1, -2].as_slice()
                && above.nesting() == 0
                && below.nesting() == MOST_NESTING
        }
        _ => false,
    }
}

// A choice between bottom and the deepest tree.
fn is_choice_handed_back(alloc: Global) -> Result<bool, Fail> {
    let condition = condition(alloc)?;
    let deepest = deepest(alloc)?;
    let made = Quast::select(alloc, condition, Quast::bottom(1), deepest);
    let is_so = is_select_refused(&made);
    drop(made);
    Ok(is_so)
}

// Whether a definition is refused, and its parts are handed back.
fn is_define_refused(made: &Made) -> bool {
    match made {
        Err((Parts::Define(form, divisor, below), BuildRefusal::Nesting)) => {
            form.as_slice() == [3].as_slice() && *divisor == 2 && below.nesting() == MOST_NESTING
        }
        _ => false,
    }
}

// A new parameter above the deepest tree.
fn is_definition_handed_back(alloc: Global) -> Result<bool, Fail> {
    let dividend = three(alloc)?;
    let deepest = deepest(alloc)?;
    let made = Quast::define(alloc, dividend, 2, deepest);
    let is_so = is_define_refused(&made);
    drop(made);
    Ok(is_so)
}

#[test]
fn a_node_too_deep_is_handed_back(rt: HostRuntime) -> Result<(), Fail> {
    assert!(rt; is_choice_handed_back(rt.alloc())?);
    assert!(rt; is_definition_handed_back(rt.alloc())?);
    Ok(())
}
