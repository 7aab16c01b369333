ghost use Rattle.std.specs.Prelude.{length};
ghost use Rattle.program_model.specs.Commands.{CheckAll};
ghost use Rattle.certificate_items.specs.Triples.{IsTriple, triple_of};

use crate::triple::{Triple, TripleRoom, accept, triple_at};
use certificate_check::GoalForms;
use item_writing::{Ending, Items};
use std::alloc::Global;

/// What a check keeps from triple to triple as room: forms of goals, rows of problems, and steps of certificates.
#[derive(Drop)]
pub struct CheckRoom {
    forms: GoalForms,
    triples: TripleRoom,
}

/// Says of each triple that its certificate is accepted.
pub struct Check;

impl Items for Check {
    type Read = Triple;

    type Room = CheckRoom;

    ghost meaning = { λ _. CheckAll };

    ghost seen = { λ _ t. triple_of t };

    ghost is_item = { λ _ t. IsTriple t };

    ghost last_place = { λ _ bytes. length bytes };

    fn read(
        &self,
        alloc: Global,
        room: &mut CheckRoom,
        bytes: &[u8],
        at: usize,
    ) -> Result<Option<(Triple, usize)>, Ending> {
        triple_at(alloc, &mut room.triples, bytes, at)
    }

    fn room(&self, alloc: Global) -> CheckRoom {
        CheckRoom {
            forms: GoalForms::new(alloc),
            triples: TripleRoom::new(alloc),
        }
    }

    fn put(
        &self,
        alloc: Global,
        room: &mut CheckRoom,
        triple: &mut Triple,
        text: &mut Vec<u8>,
    ) -> Result<(), Ending> {
        accept(alloc, &mut room.forms, triple)?;
        text.extend_from_slice(b"accepted\n")?;
        Ok(())
    }

    fn keep(&self, room: &mut CheckRoom, triple: Triple) {
        room.triples.keep(triple);
    }

    fn discard(&self, _room: CheckRoom) {}
}
