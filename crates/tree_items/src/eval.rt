ghost use Rattle.std.specs.Prelude.{length};
ghost use Rattle.program_model.specs.Commands.{Eval as model_eval};
ghost use Rattle.quast.specs.Answers.{IsOver};
ghost use Rattle.quast_text.specs.Spoken.{spoken_of};

use crate::value::value_of;
use item_writing::{Ending, Items};
use pip_words::ParameterVector;
use quast_text::{Spoken, print_answer, read_answer};
use std::alloc::Global;

/// Evaluates answers at a parameter vector.
#[derive(Drop)]
pub struct Eval<'a>(pub &'a ParameterVector);

impl Items for Eval<'_> {
    type Read = Spoken;

    type Room = ();

    ghost meaning = { λ e. model_eval e.0.now };

    ghost seen = { λ _ s. spoken_of s };

    ghost is_item = { λ e s. IsOver (length e.0.now) s.answer };

    ghost last_place = { λ _ bytes. length bytes };

    fn read(
        &self,
        alloc: Global,
        _room: &mut (),
        bytes: &[u8],
        at: usize,
    ) -> Result<Option<(Spoken, usize)>, Ending> {
        Ok(read_answer(alloc, bytes, at, self.0.as_slice().len())?)
    }

    fn room(&self, _alloc: Global) {}

    fn put(
        &self,
        alloc: Global,
        _room: &mut (),
        spoken: &mut Spoken,
        text: &mut Vec<u8>,
    ) -> Result<(), Ending> {
        let value = value_of(alloc, &spoken.answer, self.0.as_slice())?;
        print_answer(&spoken.comment, &value, text)?;
        Ok(())
    }

    fn keep(&self, _room: &mut (), _spoken: Spoken) {}

    fn discard(&self, _room: ()) {}
}
