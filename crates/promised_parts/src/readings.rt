ghost use Rattle.std.specs.Prelude.{◌≤◌, length};
ghost use Rattle.pip_model.specs.Reading as model;
ghost use Rattle.text_reading.specs.Steps.{fault_of, IsRead};

use std::alloc::Global;
use text_reading::{Reads, TextFault};

/// So many numbers between row brackets, and the place behind them.
pub fn row(alloc: Global, bytes: &[u8], count: usize, place: usize) -> Reads<Vec<i128>, TextFault>
    requires { place ≤ length bytes.now }
    ensures { IsRead (λ v. v.items) fault_of bytes.now place result (model.row bytes.now count place) }
{
    text_reading::row(alloc, bytes, count, place)
}
