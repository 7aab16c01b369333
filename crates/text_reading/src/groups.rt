ghost use Rattle.std.specs.Prelude.{◌≤◌, length};
ghost use Rattle.pip_model.specs.Reading as model;
ghost use Rattle.text_reading.specs.Steps.{fault_of, IsRead};

use crate::fault::{Reads, TextFault};
use crate::steps::expect;
use affine_forms::Bytes;
use std::alloc::Global;
use text_tokens::{Kind, group_end};

/// The group that is next, with its brackets, and the place behind it.
pub fn group(alloc: Global, bytes: &[u8], place: usize) -> Reads<Bytes, TextFault>
    requires { place ≤ length bytes.now }
    ensures { IsRead (λ text. text) fault_of bytes.now place result (model.group bytes.now place) }
{
    let first = expect(bytes, Kind::LeftParen, place)?;
    match group_end(bytes, first) {
        Some(after) => Ok((Bytes::try_new(alloc, &bytes[first - 1..after])?, after)),
        None => Err(TextFault::Syntax(bytes.len())),
    }
}
