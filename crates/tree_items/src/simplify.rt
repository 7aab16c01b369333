ghost use Rattle.std.specs.Prelude.{length};
ghost use Rattle.program_model.specs.Commands.{Simplify as model_simplify};
ghost use Rattle.quast.specs.Answers.{IsOver};
ghost use Rattle.quast_text.specs.Spoken.{spoken_of};

use item_writing::{Ending, Items};
use pip_words::SimplifyOptions;
use quast::Answer;
use quast_simplify::simplify_answer;
use quast_text::{Spoken, print_answer, read_answer};
use std::alloc::Global;
use std::mem::replace;

/// Simplifies answers.
#[derive(Drop)]
pub struct Simplify<'a>(pub &'a SimplifyOptions);

impl Items for Simplify<'_> {
    type Read = Spoken;

    type Room = ();

    ghost meaning = { λ s. model_simplify s.0.now.params };

    ghost seen = { λ _ s. spoken_of s };

    ghost is_item = { λ s c. IsOver s.0.now.params c.answer };

    ghost last_place = { λ _ bytes. length bytes };

    fn read(
        &self,
        alloc: Global,
        _room: &mut (),
        bytes: &[u8],
        at: usize,
    ) -> Result<Option<(Spoken, usize)>, Ending> {
        Ok(read_answer(alloc, bytes, at, self.0.params)?)
    }

    fn room(&self, _alloc: Global) {}

    fn put(
        &self,
        _alloc: Global,
        _room: &mut (),
        spoken: &mut Spoken,
        text: &mut Vec<u8>,
    ) -> Result<(), Ending> {
        let answer = simplify_answer(replace(&mut spoken.answer, Answer::Void));
        print_answer(&spoken.comment, &answer, text)?;
        Ok(())
    }

    fn keep(&self, _room: &mut (), _spoken: Spoken) {}

    fn discard(&self, _room: ()) {}
}
