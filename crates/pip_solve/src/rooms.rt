use crate::pending::Pending;
use node_turn::NonnegativeForms;
use plain_run::{ShortTableau, Spares};
use std::alloc::Global;

// What a run keeps beside its rows and its path: the forms that are known, the frames that wait, and the rows of a
// problem without parameters.
#[derive(Drop)]
pub(crate) struct Rooms {
    pub known: NonnegativeForms,
    pub pending: Pending,
    pub plain: ShortTableau,
    pub spares: Spares,
}

impl Rooms {
    // Nothing is kept. It takes no memory.
    pub(crate) fn new(alloc: Global) -> Rooms {
        Rooms {
            known: NonnegativeForms::new(alloc),
            pending: Pending::new(alloc),
            plain: ShortTableau::new(alloc, 0),
            spares: Spares::new(alloc),
        }
    }

    // Gives all back.
    pub(crate) fn discard(self) {}
}
