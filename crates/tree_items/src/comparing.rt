ghost use Rattle.std.specs.Prelude.{length};
ghost use Rattle.program_model.specs.Commands.{Same as model_same};
ghost use Rattle.program_model.specs.ItemTexts.{sameness_text};
ghost use Rattle.same.specs.Samenesses.{sameness_of};
ghost use Rattle.text_printing.specs.Printing.{Appends};
ghost use Rattle.tree_items.specs.Pairs.{IsTrio, trio_of};

use crate::trio::{Trio, trio_at};
use item_writing::{Ending, Items};
use pip_words::WalkOptions;
use same::{Sameness, same};
use std::alloc::{AllocError, Global};
use text_printing::{put, put_row};

/// Says whether two answers have the same values under a context, or where they differ.
#[derive(Drop)]
pub struct Same<'a>(pub &'a WalkOptions);

// The line of a comparison.
fn put_sameness(sameness: &Sameness, text: &mut Vec<u8>) -> Result<(), AllocError>
    ensures { Appends (sameness_text (sameness_of sameness.now)) text.old.items text.new.items result }
{
    match sameness {
        Sameness::Same => put(text, b"same\n"),
        Sameness::Differ(point) => {
            put(text, b"differ ")?;
            put_row(text, point.as_slice())?;
            put(text, b"\n")
        }
    }
}

impl Items for Same<'_> {
    type Read = Trio;

    type Room = ();

    ghost meaning = { λ s. model_same s.0.now.params s.0.now.limits };

    ghost seen = { λ _ t. trio_of t };

    ghost is_item = { λ s t. IsTrio s.0.now.params t };

    ghost last_place = { λ _ bytes. length bytes };

    fn read(
        &self,
        alloc: Global,
        _room: &mut (),
        bytes: &[u8],
        at: usize,
    ) -> Result<Option<(Trio, usize)>, Ending> {
        trio_at(alloc, bytes, at, self.0.params)
    }

    fn room(&self, _alloc: Global) {}

    #[tactic(auto, using(crate::proofs::Walked::line_ok, crate::proofs::Walked::line_refused))]
    fn put(
        &self,
        alloc: Global,
        _room: &mut (),
        trio: &mut Trio,
        text: &mut Vec<u8>,
    ) -> Result<(), Ending> {
        let sameness = same(
            alloc,
            &trio.rows,
            &trio.first.answer,
            &trio.second.answer,
            &self.0.limits,
        )?;
        put_sameness(&sameness, text)?;
        Ok(())
    }

    fn keep(&self, _room: &mut (), _trio: Trio) {}

    fn discard(&self, _room: ()) {}
}
