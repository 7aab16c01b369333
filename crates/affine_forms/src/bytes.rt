ghost use Rattle.std.specs.Prelude.{◌≡◌, IfOk};

use crate::memory::WantOfMemory;
use std::alloc::Global;
use std::marker::Model;

/// A list of bytes that it owns.
#[derive(Drop)]
pub struct Bytes {
    items: Vec<u8>,
}

impl Model for Bytes {
    ghost use Rattle.std.specs.Prelude.{List, ℕ};

    ghost Value = { List ℕ };

    ghost view = { λ bytes. bytes.items.items };
}

impl Bytes {
    /// A copy of these bytes.
    pub fn try_new(alloc: Global, bytes: &[u8]) -> Result<Bytes, WantOfMemory>
        ensures { IfOk result (λ made. made ≡ bytes.now) }
    {
        let items = Vec::from_slice(alloc, bytes)?;
        Ok(Bytes { items })
    }

    /// The bytes.
    pub fn as_slice(&self) -> &[u8]
        ensures { result.now ≡ self.now }
    {
        &self.items
    }
}
