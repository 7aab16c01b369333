ghost use Rattle.std.specs.Prelude.{length};
ghost use Rattle.program_model.specs.Commands.{Restrict as model_restrict};
ghost use Rattle.tree_items.specs.Pairs.{IsPair, pair_of};

use affine_forms::Forms;
use item_writing::{Ending, Items, needed_answer};
use pip_reader::read_context;
use pip_words::WalkOptions;
use quast_text::{Spoken, print_answer};
use restrict::restrict;
use std::alloc::Global;

/// A context and an answer over as many parameters.
#[derive(Drop)]
pub struct Pair {
    rows: Forms,
    first: Spoken,
}

/// Restricts answers to their contexts.
#[derive(Drop)]
pub struct Restrict<'a>(pub &'a WalkOptions);

impl Items for Restrict<'_> {
    type Read = Pair;

    type Room = ();

    ghost meaning = { λ r. model_restrict r.0.now.params r.0.now.limits };

    ghost seen = { λ _ p. pair_of p };

    ghost is_item = { λ r p. IsPair r.0.now.params p };

    ghost last_place = { λ _ bytes. length bytes };

    fn read(
        &self,
        alloc: Global,
        _room: &mut (),
        bytes: &[u8],
        at: usize,
    ) -> Result<Option<(Pair, usize)>, Ending> {
        match read_context(alloc, bytes, at, self.0.params)? {
            Some((rows, at)) => {
                let (first, after) = needed_answer(alloc, bytes, at, self.0.params)?;
                Ok(Some((Pair { rows, first }, after)))
            }
            None => Ok(None),
        }
    }

    fn room(&self, _alloc: Global) {}

    #[tactic(auto, using(crate::proofs::Walked::made_ok, crate::proofs::Walked::made_refused))]
    fn put(
        &self,
        alloc: Global,
        _room: &mut (),
        pair: &mut Pair,
        text: &mut Vec<u8>,
    ) -> Result<(), Ending> {
        let answer = restrict(alloc, &pair.rows, &pair.first.answer, &self.0.limits)?;
        print_answer(&pair.first.comment, &answer, text)?;
        Ok(())
    }

    fn keep(&self, _room: &mut (), _pair: Pair) {}

    fn discard(&self, _room: ()) {}
}
