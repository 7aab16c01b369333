ghost use Rattle.std.specs.Prelude.{◌≡◌, ◌+◌, ◌<◌, ◌≤◌, pos, length, replicate, slice_set, map, [], All, OnOk, OnErr};
ghost use Rattle.pip_model.specs.Rows.{count_from};
ghost use Rattle.lanes.specs.Narrow.{AreLanes, IsNarrow};
ghost use Rattle.lane_rows.specs.Laned.{IsVertex};

use affine_forms::WantOfMemory;
use lanes::Lanes;

// Zeros, but for number k.
#[inline(always)]
pub(crate) fn unit(k: usize, z: i32) -> Lanes
    requires number { k < 8 }
    requires narrow { IsNarrow z }
    ensures value { result ≡ slice_set (replicate 8 (pos 0)) k z }
    ensures lanes { AreLanes result }
{
    Lanes::zeros().with(k, z)
}

// Makes of an empty list the rows of all columns.
fn push_units(rows: &mut Vec<Lanes>, places: usize) -> Result<(), WantOfMemory>
    requires few { places ≤ 7 }
    requires empty { rows.old.items ≡ [] }
    ensures { OnOk result (rows.new.items ≡ map (λ c. slice_set (replicate 8 (pos 0)) (c + 1) (pos 1)) (count_from 0 places)) }
{
    for k in 0..places {
        rows.push(unit(k + 1, 1))?;
    }
    Ok(())
}

// The same. A refusal leaves none.
pub(crate) fn start_in(rows: &mut Vec<Lanes>, places: usize) -> Result<(), WantOfMemory>
    requires few { places ≤ 7 }
    requires empty { rows.old.items ≡ [] }
    ensures ok { OnOk result (rows.new.items ≡ map (λ c. slice_set (replicate 8 (pos 0)) (c + 1) (pos 1)) (count_from 0 places)) }
    ensures err { OnErr result (rows.new.items ≡ []) }
{
    let pushed = push_units(rows, places);
    if pushed.is_err() {
        rows.clear();
    }
    pushed
}

// Makes of an empty list these rows. A refusal leaves none.
pub(crate) fn copy_in(rows: &mut Vec<Lanes>, of_rows: &[Lanes]) -> Result<(), WantOfMemory>
    requires { rows.old.items ≡ [] }
    ensures ok { OnOk result (rows.new.items ≡ of_rows.now) }
    ensures err { OnErr result (rows.new.items ≡ []) }
{
    rows.extend_from_slice(of_rows)?;
    Ok(())
}

// The denominator, and behind it the constants of the first n rows.
#[inline(always)]
pub(crate) fn vertex(rows: &[Lanes], n: usize, l: i32) -> Lanes
    requires few { n ≤ 7 }
    requires enough { n ≤ length rows.now }
    requires rows { All AreLanes rows.now }
    requires narrow { IsNarrow l }
    ensures { IsVertex n rows.now l result }
{
    let mut at = unit(0, l);
    for j in 0..n {
        at.set(j + 1, rows[j].get(0));
    }
    at
}
