ghost use Rattle.std.specs.Prelude.{◌≡◌, []};

use std::alloc::Global;
use std::marker::Model;

/// The parameters' values: at most 48 numbers, each from 0 to 2^127 - 1.
#[derive(Drop)]
pub struct ParameterVector {
    entries: Vec<i128>,
}

impl Model for ParameterVector {
    ghost use Rattle.std.specs.Prelude.{ℤ, List};
    ghost use Rattle.pip_words.specs.ParameterVector.{IsParameterVector};

    ghost Value = { List ℤ };

    ghost view = { λ vector. vector.entries.items };

    ghost invariant = { λ vector. IsParameterVector vector.entries.items };
}

impl ParameterVector {
    ghost use Rattle.pip_words.specs.ParameterVector.{IsParameterVector};

    // The vector of no parameters.
    pub(crate) fn new(alloc: Global) -> ParameterVector
        ensures { result ≡ [] }
    {
        ParameterVector {
            entries: Vec::new(alloc),
        }
    }

    // The vector of these entries.
    pub(crate) fn from_entries(entries: Vec<i128>) -> ParameterVector
        requires { IsParameterVector entries.items }
        ensures { result ≡ entries.items }
    {
        ParameterVector { entries }
    }

    /// The entries in order.
    pub fn as_slice(&self) -> &[i128]
        ensures entries { result.now ≡ self.now }
        ensures within { IsParameterVector result.now }
    {
        &self.entries
    }
}
