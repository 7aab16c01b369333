ghost use Rattle.std.specs.Prelude.{◌≡◌, pos, negsuc, [], ◌∷◌, IfOk};

use affine_rows::{Form, WantOfMemory};
use std::alloc::Global;
use std::test::Fail;

// The form 4*u - 6*v + 7.
fn sample(alloc: Global) -> Result<Form, WantOfMemory>
    ensures { IfOk result (λ form. form ≡ pos 4 ∷ negsuc 5 ∷ pos 7 ∷ []) }
{
    Form::try_new(alloc, &[4, -6, 7])
}

// Its residue over 5.
fn residue(alloc: Global) -> Result<Form, WantOfMemory> {
    sample(alloc)?.residue(alloc, 5)
}

fn is_residue(alloc: Global) -> Result<bool, WantOfMemory> {
    Ok(residue(alloc)?.as_slice() == [1, 1, 3].as_slice())
}

#[test]
fn a_residue_is_made(rt: HostRuntime) -> Result<(), Fail> {
    assert!(rt; is_residue(rt.alloc())?);
    Ok(())
}
