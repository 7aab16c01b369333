ghost use Rattle.std.specs.Prelude.{◌≡◌, ◌+◌, ◌<◌, [], length, max, IfOk, OnOk, OnErr};
ghost use Rattle.tableau.specs.Places as model;

use std::cmp::max;
use tableau_row::WantOfMemory;

// How long the run is from which the rows of columns are lent.
fn run_length(unknowns: usize, width: usize) -> Result<usize, WantOfMemory>
    ensures { IfOk result (λ l. l ≡ unknowns + 1 + max unknowns (width + 1)) }
{
    let places = width.checked_add(1).ok_or(WantOfMemory)?;
    let front = unknowns.checked_add(1).ok_or(WantOfMemory)?;
    front.checked_add(max(unknowns, places)).ok_or(WantOfMemory)
}

// Makes the run of nothing. A refusal leaves nothing.
fn fill_run(units: &mut Vec<i128>, unknowns: usize, width: usize) -> Result<(), WantOfMemory>
    requires { units.old.items ≡ [] }
    ensures ok { OnOk result (units.new.items ≡ model.unit_run unknowns width) }
    ensures err { OnErr result (units.new.items ≡ []) }
{
    let all = run_length(unknowns, width)?;
    units.resize(all, 0)?;
    units[unknowns] = 1;
    Ok(())
}

// Makes the run from which the rows of columns are lent, where there is none yet.
pub(crate) fn make_run(
    units: &mut Vec<i128>,
    unknowns: usize,
    width: usize,
) -> Result<(), WantOfMemory>
    requires run { 0 < length units.old.items → units.old.items ≡ model.unit_run unknowns width }
    ensures run { 0 < length units.new.items → units.new.items ≡ model.unit_run unknowns width }
    ensures ok { OnOk result (units.new.items ≡ model.unit_run unknowns width) }
    ensures kept { 0 < length units.old.items → 0 < length units.new.items }
{
    if units.is_empty() {
        fill_run(units, unknowns, width)?;
    }
    Ok(())
}
