ghost use Rattle.std.specs.Prelude.{◌≡◌, ◌≤◌, ◌<◌, ◌+◌, length, IfOk};
ghost use Rattle.pip_model.specs.Limits.{most_params, most_nesting};
ghost use Rattle.pip_model.specs.TreeText as model;
ghost use Rattle.text_reading.specs.Steps.{IsRead};
ghost use Rattle.quast_text.specs.Faults.{text_fault};

use crate::refusal::TextRefusal;
use affine_forms::Form;
use std::alloc::Global;
use text_reading::{Reads, row};

// A form over so many places between row brackets, and the place behind it.
pub(crate) fn read_form(
    alloc: Global,
    bytes: &[u8],
    width: usize,
    place: usize,
) -> Reads<Form, TextRefusal>
    requires place { place ≤ length bytes.now }
    requires width { width ≤ most_params + most_nesting }
    ensures reads { IsRead (λ v. v) text_fault bytes.now place result (model.read_form bytes.now width place) }
    ensures width { IfOk result (λ x. length x.0 ≡ width + 1) }
{
    let (entries, after) = row(alloc, bytes, width + 1, place)?;
    Ok((Form::from_entries(entries), after))
}
