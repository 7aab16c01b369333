//! Rows that are kept, and the cut by a quotient that is known, whose residue is not at hand.
ghost use Rattle.std.specs.Prelude.{◌≡◌, [], length, IfOk};

use affine_rows::{Form, WantOfMemory};
use gomory_cut::{parametric_cut, residue_of};
use std::alloc::Global;
use std::test::Fail;
use tableau::Tableau;

// The row 2x - n, over one unknown and one parameter.
fn started(alloc: Global) -> Result<Tableau, WantOfMemory>
    ensures unknowns { IfOk result (λ t. t.unknowns ≡ 1) }
    ensures width { IfOk result (λ t. t.width ≡ 1) }
{
    let form = Form::try_new(alloc, &[2, -1, 0])?;
    Tableau::start(alloc, 1, 1, &[form])
}

// Puts the rows (2x - 6n + 8) / 4 and x behind it, and a new place before the constants.
fn push_rows(t: &mut Tableau) -> Result<(), WantOfMemory>
    requires unknowns { t.old.unknowns ≡ 1 }
    requires width { t.old.width ≡ 1 }
{
    t.push_row(4, &[2], &[-6, 8])?;
    t.push_row(1, &[1], &[0, 0])?;
    t.widen_params()
}

// The two rows that are no unit rows: each its denominator, its coefficient, the entries of its constant form.
fn are_kept(t: &Tableau) -> bool {
    t.rows() == 4 && t.flat() == [1, 2, -1, 0, 0, 2, 1, -3, 0, 4].as_slice()
}

// Whether a copy of all four rows has them.
fn is_copied(t: &Tableau) -> Result<bool, WantOfMemory> {
    let copy = t.try_clone(t.allocator())?;
    let are_so = are_kept(&copy);
    drop(copy);
    Ok(are_so)
}

fn are_pushed(t: &mut Tableau) -> Result<bool, WantOfMemory>
    requires unknowns { t.old.unknowns ≡ 1 }
    requires width { t.old.width ≡ 1 }
{
    push_rows(t)?;
    is_copied(t)
}

fn are_copied(alloc: Global) -> Result<bool, WantOfMemory> {
    let mut t = started(alloc)?;
    let are_so = are_pushed(&mut t);
    drop(t);
    are_so
}

// Puts the row (y + n) / 2, with a place for a quotient.
fn push_half(t: &mut Tableau) -> Result<(), WantOfMemory>
    requires unknowns { t.old.unknowns ≡ 1 }
    requires width { t.old.width ≡ 2 }
    requires rows { t.old.rows ≡ [] }
    ensures rows { IfOk result (λ _. length t.new.rows ≡ 1) }
    ensures width { IfOk result (λ _. t.new.width ≡ 2) }
{
    t.push_row(2, &[1], &[1, 0, 0])
}

// Adds the cut by the quotient at place 1, at which the row's residue is 0.
fn cut(alloc: Global, t: &mut Tableau) -> Result<(), WantOfMemory>
    requires rows { length t.old.rows ≡ 1 }
    requires width { t.old.width ≡ 2 }
{
    let (residue, _) = residue_of(alloc, t, 0)?;
    if residue.as_slice() == [1, 0, 0].as_slice() && residue.at(1) == 0 {
        parametric_cut(t, 0, 1)
    } else {
        Ok(())
    }
}

fn is_cut(t: &Tableau) -> bool {
    t.flat() == [2, 1, 1, 0, 0, 2, 1, -1, 2, 0].as_slice()
}

// Whether both rows are so once the first is pushed, and cut.
fn are_cut(alloc: Global, t: &mut Tableau) -> Result<bool, WantOfMemory>
    requires unknowns { t.old.unknowns ≡ 1 }
    requires width { t.old.width ≡ 2 }
    requires rows { t.old.rows ≡ [] }
{
    push_half(t)?;
    cut(alloc, t)?;
    Ok(is_cut(t))
}

fn is_half_cut(alloc: Global) -> Result<bool, WantOfMemory> {
    let mut t = Tableau::new(alloc, 1, 2);
    let are_so = are_cut(alloc, &mut t);
    drop(t);
    are_so
}

#[test]
fn rows_are_kept_and_cut(rt: HostRuntime) -> Result<(), Fail> {
    assert!(rt; are_copied(rt.alloc())?);
    assert!(rt; is_half_cut(rt.alloc())?);
    Ok(())
}
