ghost use Rattle.std.specs.Prelude.{◌≡◌, [], pos};

use crate::trace::Trace;
use short_run::ShortTableau;
use std::alloc::Global;

/// Rooms for refutations, one after the other: the rows of a run, and its trace. What they held before tells nothing.
#[derive(Drop)]
pub struct RefutationRoom {
    pub(crate) alloc: Global,
    pub(crate) rows: ShortTableau,
    pub trace: Trace,
}

impl RefutationRoom {
    /// No rows, and a trace without any. It takes no memory.
    pub fn new(alloc: Global) -> RefutationRoom
        ensures { result.trace ≡ record { rows = []; columns = []; next = pos 0; steps = [] } }
    {
        RefutationRoom {
            alloc,
            rows: ShortTableau::new(alloc, 0),
            trace: Trace::new(alloc),
        }
    }
}
