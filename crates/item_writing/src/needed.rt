ghost use Rattle.std.specs.Prelude.{◌≤◌, length};
ghost use Rattle.pip_model.specs.Limits.{most_params};
ghost use Rattle.program_model.specs.ItemKinds as kinds;
ghost use Rattle.quast.specs.Answers.{IsOver};
ghost use Rattle.item_writing.specs.Items.{Finds};
ghost use Rattle.item_writing.specs.Needed.{spoken_found};

use crate::ending::Ending;
use quast_text::{Spoken, TextRefusal, read_answer};
use std::alloc::Global;

/// The next answer over so many parameters, which has to be there, and the place behind it.
pub fn needed_answer(
    alloc: Global,
    bytes: &[u8],
    at: usize,
    params: usize,
) -> Result<(Spoken, usize), Ending>
    requires place { at ≤ length bytes.now }
    requires few { params ≤ most_params }
    ensures { Finds spoken_found (λ s. IsOver params s.answer) (kinds.needed_answer bytes.now params at) at
        (length bytes.now) result }
{
    match read_answer(alloc, bytes, at, params)? {
        Some(found) => Ok(found),
        None => Err(Ending::Answer(TextRefusal::Syntax(bytes.len()))),
    }
}
