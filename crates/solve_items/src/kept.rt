use pip_stream::SpareRows;
use solve_certified::Certifier;
use std::alloc::Global;

// The most bytes that a text's room has that is kept.
const MOST_TEXT: usize = 1 << 20;

// What is kept from problem to problem: the room of runs and of certificates, those of rows and that of the text.
#[derive(Drop)]
pub(crate) struct Kept {
    pub certifier: Certifier,
    pub spare: SpareRows,
    pub text: Vec<u8>,
}

impl Kept {
    // Nothing yet. It takes no memory.
    pub fn new(alloc: Global) -> Kept {
        Kept {
            certifier: Certifier::new(alloc),
            spare: SpareRows::new(alloc),
            text: Vec::new(alloc),
        }
    }

    // Gives all room back.
    pub fn discard(self) {
        let Kept {
            certifier,
            spare: _,
            text: _,
        } = self;
        certifier.discard();
    }

    // Keeps the room of a text that is written, where it is not large.
    pub fn keep_text(&mut self) {
        if self.text.capacity() > MOST_TEXT {
            self.text = Vec::new(self.certifier.solver.allocator());
        }
    }
}
