ghost use Rattle.std.specs.Prelude.{length};
ghost use Rattle.program_model.specs.Commands.{Least as model_least};
ghost use Rattle.tree_items.specs.Pairs.{IsTrio, trio_of};

use crate::trio::{Trio, trio_at};
use item_writing::{Ending, Items};
use least::least;
use pip_words::WalkOptions;
use quast_text::print_answer;
use std::alloc::Global;

/// Makes of two answers the lesser one, under a context.
#[derive(Drop)]
pub struct Least<'a>(pub &'a WalkOptions);

impl Items for Least<'_> {
    type Read = Trio;

    type Room = ();

    ghost meaning = { λ l. model_least l.0.now.params l.0.now.limits };

    ghost seen = { λ _ t. trio_of t };

    ghost is_item = { λ l t. IsTrio l.0.now.params t };

    ghost last_place = { λ _ bytes. length bytes };

    fn read(
        &self,
        alloc: Global,
        _room: &mut (),
        bytes: &[u8],
        at: usize,
    ) -> Result<Option<(Trio, usize)>, Ending> {
        trio_at(alloc, bytes, at, self.0.params)
    }

    fn room(&self, _alloc: Global) {}

    #[tactic(auto, using(crate::proofs::Walked::made_ok, crate::proofs::Walked::made_refused))]
    fn put(
        &self,
        alloc: Global,
        _room: &mut (),
        trio: &mut Trio,
        text: &mut Vec<u8>,
    ) -> Result<(), Ending> {
        let answer = least(
            alloc,
            &trio.rows,
            &trio.first.answer,
            &trio.second.answer,
            &self.0.limits,
        )?;
        print_answer(&trio.first.comment, &answer, text)?;
        Ok(())
    }

    fn keep(&self, _room: &mut (), _trio: Trio) {}

    fn discard(&self, _room: ()) {}
}
