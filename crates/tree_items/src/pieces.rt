ghost use Rattle.std.specs.Prelude.{length};
ghost use Rattle.program_model.specs.Commands.{Pieces as model_pieces};
ghost use Rattle.quast.specs.Answers.{IsOver};
ghost use Rattle.quast_text.specs.Spoken.{spoken_of};

use item_writing::{Ending, Items};
use pip_words::PiecesOptions;
use quast_pieces::print_pieces;
use quast_text::{Spoken, read_answer};
use std::alloc::Global;

/// Takes answers apart.
#[derive(Drop)]
pub struct Pieces<'a>(pub &'a PiecesOptions);

impl Items for Pieces<'_> {
    type Read = Spoken;

    type Room = ();

    ghost meaning = { λ p. model_pieces p.0.now.params };

    ghost seen = { λ _ s. spoken_of s };

    ghost is_item = { λ p s. IsOver p.0.now.params s.answer };

    ghost last_place = { λ _ bytes. length bytes };

    fn read(
        &self,
        alloc: Global,
        _room: &mut (),
        bytes: &[u8],
        at: usize,
    ) -> Result<Option<(Spoken, usize)>, Ending> {
        Ok(read_answer(alloc, bytes, at, self.0.params)?)
    }

    fn room(&self, _alloc: Global) {}

    #[tactic(auto, using(crate::proofs::PieceTexts::pieces_refused))]
    fn put(
        &self,
        _alloc: Global,
        _room: &mut (),
        spoken: &mut Spoken,
        text: &mut Vec<u8>,
    ) -> Result<(), Ending> {
        print_pieces(&spoken.comment, &spoken.answer, text)?;
        Ok(())
    }

    fn keep(&self, _room: &mut (), _spoken: Spoken) {}

    fn discard(&self, _room: ()) {}
}
