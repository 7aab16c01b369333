ghost use Rattle.std.specs.Prelude.{◌≤◌, Some, drop, vec_len};
ghost use Rattle.pip_outside.specs.Bytes.{IsUnread};

use crate::copy::copy_front;
use crate::failed::Failed;
use crate::source::Source;

/// A source in memory that never fails: its count of faults is 0 for good.
#[derive(Drop)]
pub struct SteadySource {
    bytes: Vec<u8>,
    at: usize,
    ghost within: { at ≤ vec_len bytes },
}

impl SteadySource {
    /// A source of these bytes.
    pub fn new(bytes: Vec<u8>) -> SteadySource
        ensures { IsUnread ⟦<SteadySource as Source>⟧.left ⟦<SteadySource as Source>⟧.taken
            ⟦<SteadySource as Source>⟧.faults result (Some bytes.items) }
    {
        SteadySource { bytes, at: 0 }
    }
}

impl Source for SteadySource {
    ghost left = { λ s. Some (drop s.at s.bytes.items) };

    ghost taken = { λ s. s.at };

    ghost faults = { λ _. 0 };

    fn read(&mut self, buf: &mut [u8]) -> Result<usize, Failed> {
        let count = copy_front(&self.bytes[self.at..], usize::MAX, buf);
        self.at += count;
        Ok(count)
    }
}
