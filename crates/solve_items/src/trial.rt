ghost use Rattle.std.specs.Prelude.{⊤};
ghost use Rattle.program_model.specs.Commands.{Trial as model_trial};

use item_writing::{Ending, Items};
use pip_trial::print_trial;
use pip_words::TrialOptions;
use std::alloc::Global;

/// The problems that a trial draws: one text of all.
#[derive(Drop)]
pub struct Trial<'a>(pub &'a TrialOptions);

impl Items for Trial<'_> {
    type Read = ();

    type Room = ();

    ghost meaning = { λ t. model_trial t.0.now.seed t.0.now.count };

    ghost seen = { λ _ _. tt };

    ghost is_item = { λ _ _. ⊤ };

    ghost last_place = { λ _ _. 1 };

    fn read(
        &self,
        _alloc: Global,
        _room: &mut (),
        _bytes: &[u8],
        at: usize,
    ) -> Result<Option<((), usize)>, Ending> {
        if at > 0 {
            return Ok(None);
        }
        Ok(Some(((), 1)))
    }

    fn room(&self, _alloc: Global) {}

    fn put(
        &self,
        alloc: Global,
        _room: &mut (),
        _item: &mut (),
        text: &mut Vec<u8>,
    ) -> Result<(), Ending> {
        print_trial(alloc, self.0.seed, self.0.count, text)?;
        Ok(())
    }

    fn keep(&self, _room: &mut (), _item: ()) {}

    fn discard(&self, _room: ()) {}
}
