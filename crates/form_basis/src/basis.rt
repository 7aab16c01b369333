ghost use Rattle.std.specs.Prelude.{◌≡◌, pos, []};

use std::alloc::Global;

/// The numbers of the unknowns' rows over a common multiple of their denominators, column after column, and a number that
/// is no less than the size of any of these; what the multiple has of each denominator.
#[derive(Drop)]
pub struct Basis {
    pub scale: i64,
    pub most: u64,
    pub factors: Vec<i64>,
    pub columns: Vec<i64>,
}

/// A basis of no rows. It takes no memory.
pub fn no_basis(alloc: Global) -> Basis
    ensures scale { result.scale ≡ pos 1 }
    ensures most { result.most ≡ 1 }
    ensures columns { result.columns.items ≡ [] }
{
    Basis {
        scale: 1,
        most: 1,
        factors: Vec::new(alloc),
        columns: Vec::new(alloc),
    }
}
