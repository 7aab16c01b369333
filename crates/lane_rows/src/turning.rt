ghost use Rattle.std.specs.Prelude.{◌≡◌, ◌*◌, ◌^◌, ◌<◌, ◌≤◌, pos, ◌≤ℤ◌, IsTrue, IfSome};
ghost use Rattle.pip_model.specs.Forms.{entry, scale};
ghost use Rattle.scaled_laws.specs.Turned.{turned};
ghost use Rattle.lanes.specs.Narrow.{AreLanes, AreTurnable};
ghost use Rattle.lane_rows.specs.Turned.{AreTurned, CanTurn};

use lanes::{Lanes, with_bits};

// Whether twice the product of such sizes is below 2^31.
#[inline(always)]
pub(crate) fn can_turn(most: u32, size: u32) -> bool
    ensures { IsTrue result → most * size < 2 ^ 30 }
{
    (most as u64) * (size as u64) < 1073741824
}

// The numbers over l, none where l does not divide all.
#[inline(always)]
fn over_scale(numbers: Lanes, l: i32) -> Option<Lanes>
    requires scale { pos 1 ≤ℤ l }
    requires lanes { AreLanes numbers }
    ensures value { IfSome result (λ z. scale l z ≡ numbers) }
    ensures lanes { IfSome result AreLanes }
{
    if l == 1 {
        Some(numbers)
    } else {
        numbers.over(l)
    }
}

// The row with the row of the numbers p over l, solved for a lane's column, put in; none where l does not divide all
// numbers that are made. A row that stays is left alone.
#[inline(always)]
fn turned_row(row: &Lanes, a: i32, p: &Lanes, lane: usize, l: i32) -> Option<Lanes>
    requires number { a ≡ entry p.now lane }
    requires turnable { AreTurnable (entry p.now lane) row.now (entry row.now lane) p.now }
    requires row { AreLanes row.now }
    requires pivot { AreLanes p.now }
    requires lane { lane < 8 }
    requires scale { pos 1 ≤ℤ l }
    ensures made { IfSome result (λ z. scale l z ≡ turned l p.now lane row.now) }
    ensures lanes { IfSome result AreLanes }
{
    let b = row.get(lane);
    if b == 0 && a == l {
        return Some(*row);
    }
    let z = over_scale(row.turned(a, *p, b), l)?;
    Some(z.with(lane, b))
}

// Turns each row; the bits of the sizes of all, with those of others, none where a division leaves something: then some
// are turned and some are not.
#[inline(always)]
pub(crate) fn turn_rows(
    rows: &mut [Lanes],
    p: Lanes,
    lane: usize,
    l: i32,
    start: u32,
) -> Option<u32>
    requires products { CanTurn p rows.old }
    requires lane { lane < 8 }
    requires scale { pos 1 ≤ℤ l }
    requires start { start < 2 ^ 31 }
    ensures made { IfSome result (AreTurned l p lane rows.old rows.new) }
    ensures start { IfSome result (λ m. start ≤ m) }
    ensures narrow { IfSome result (λ m. m < 2 ^ 31) }
{
    let a = p.get(lane);
    let mut sizes = Lanes::zeros();
    for j in 0..rows.len() {
        let row = turned_row(&rows[j], a, &p, lane, l)?;
        sizes = sizes.covering(&row);
        rows[j] = row;
    }
    Some(with_bits(start, sizes.size()))
}
