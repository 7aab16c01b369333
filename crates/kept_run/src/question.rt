ghost use Rattle.std.specs.Prelude.{◌≡◌, []};

use short_run::ShortTableau;
use std::alloc::Global;

/// Rows whose room is used again from question to question: the row of the form that is asked, and the rows of a run
/// that goes on. What they held before tells nothing.
#[derive(Drop)]
pub struct Question {
    pub row: ShortTableau,
    pub run: ShortTableau,
}

impl Question {
    /// No rows. It takes no memory.
    pub fn new(alloc: Global) -> Question
        ensures row { result.row.rows ≡ [] }
        ensures run { result.run.rows ≡ [] }
    {
        Question {
            row: ShortTableau::new(alloc, 0),
            run: ShortTableau::new(alloc, 0),
        }
    }
}
