ghost use Rattle.std.specs.Prelude.{length};
ghost use Rattle.program_model.specs.Commands.{ShareAll};
ghost use Rattle.certificate_items.specs.Triples.{IsTriple, triple_of};

use crate::triple::{Triple, TripleRoom, accept_alone, triple_at};
use certificate_check::share;
use item_writing::{Ending, Items};
use leaf_certificate::print_certificate;
use std::alloc::Global;

/// Writes the certificate of each triple with its shared steps, where it is accepted.
pub struct Share;

impl Items for Share {
    type Read = Triple;

    type Room = ();

    ghost meaning = { λ _. ShareAll };

    ghost seen = { λ _ t. triple_of t };

    ghost is_item = { λ _ t. IsTriple t };

    ghost last_place = { λ _ bytes. length bytes };

    fn read(
        &self,
        alloc: Global,
        _room: &mut (),
        bytes: &[u8],
        at: usize,
    ) -> Result<Option<(Triple, usize)>, Ending> {
        triple_at(alloc, &mut TripleRoom::new(alloc), bytes, at)
    }

    fn room(&self, _alloc: Global) {}

    fn put(
        &self,
        alloc: Global,
        _room: &mut (),
        triple: &mut Triple,
        text: &mut Vec<u8>,
    ) -> Result<(), Ending> {
        accept_alone(alloc, triple)?;
        let shared = share(alloc, &triple.problem, &triple.answer, &triple.certificate)?;
        print_certificate(&shared, text)?;
        Ok(())
    }

    fn keep(&self, _room: &mut (), _triple: Triple) {}

    fn discard(&self, _room: ()) {}
}
