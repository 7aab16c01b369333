ghost use Rattle.std.specs.Prelude.{◌≡◌, ◌++◌, decimal, IfOk, OnOk};
ghost use Rattle.program_model.specs.Trial.{tally_line};

use crate::tally::Tally;
use affine_forms::WantOfMemory;
use itoa::Buffer;
use std::alloc::Global;

// Appends a name and a count.
fn push_count(line: &mut Vec<u8>, name: &[u8], count: u128) -> Result<(), WantOfMemory>
    ensures { OnOk result (line.new.items ≡ line.old.items ++ (name.now ++ decimal count)) }
{
    line.extend_from_slice(name)?;
    line.extend_from_slice(Buffer::new().format(count).as_bytes())?;
    Ok(())
}

// The line of a trial of so many problems.
pub(crate) fn line_of(alloc: Global, count: u16, tally: &Tally) -> Result<Vec<u8>, WantOfMemory>
    ensures { IfOk result (λ line. line.items ≡ tally_line count tally.now) }
{
    let mut line = Vec::new(alloc);
    push_count(&mut line, b"problems ", count as u128)?;
    push_count(&mut line, b" lists ", tally.lists())?;
    push_count(&mut line, b" bottoms ", tally.bottoms())?;
    push_count(&mut line, b" quotients ", tally.quotients())?;
    push_count(&mut line, b" refused ", tally.refused())?;
    line.push(b'\n')?;
    Ok(line)
}
