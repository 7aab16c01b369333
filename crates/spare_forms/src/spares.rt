ghost use Rattle.std.specs.Prelude.{◌≡◌, ◌-◌, ◌≤◌, [], length, take, vec_len, vec_capacity};

use affine_forms::Form;
use std::alloc::Global;

// How many forms are kept, at most.
const MOST_SPARES: usize = 64;

/// Forms that are done with, as room for others. What they held tells nothing.
#[derive(Drop)]
pub struct Spares {
    forms: Vec<Form>,
}

impl Spares {
    /// None yet, and no room for them. It takes no memory.
    pub fn new(alloc: Global) -> Spares {
        Spares {
            forms: Vec::new(alloc),
        }
    }

    /// The allocator that the forms' room is taken from.
    pub fn allocator(&self) -> Global {
        *self.forms.allocator()
    }

    /// No numbers, in the room of a form where one is kept.
    pub fn take(&mut self) -> Vec<i128>
        ensures { result.items ≡ [] }
    {
        match self.forms.pop() {
            Some(form) => {
                let mut room = form.into_entries();
                room.clear();
                room
            }
            None => Vec::new(*self.forms.allocator()),
        }
    }

    /// Makes room for as many forms as are kept at most, where there is none yet and memory for it.
    pub fn make_room(&mut self) {
        if self.forms.capacity() < MOST_SPARES {
            let _ = self.forms.reserve(MOST_SPARES);
        }
    }

    /// Keeps a form, where there is room for it and not many are kept. It takes no memory.
    pub fn keep(&mut self, form: Form) {
        if self.forms.len() < MOST_SPARES && self.forms.len() < self.forms.capacity() {
            self.forms.push_reserved(form);
        }
    }

    // Keeps the last of some forms, which leaves them.
    fn keep_last(&mut self, forms: &mut Vec<Form>)
        ensures forms { forms.new.items ≡ take (vec_len forms.old - 1) forms.old.items }
        ensures room { vec_capacity forms.new ≡ vec_capacity forms.old }
    {
        if let Some(form) = forms.pop() {
            self.keep(form);
        }
    }

    // Whether there is room for one more, and not many are kept.
    fn has_room(&self) -> bool {
        self.forms.len() < MOST_SPARES && self.forms.len() < self.forms.capacity()
    }

    /// Keeps all but the first so many of some forms, as far as there is room for them; all of these leave them.
    pub fn keep_from(&mut self, forms: &mut Vec<Form>, first: usize)
        requires { first ≤ length forms.old.items }
        ensures forms { forms.new.items ≡ take first forms.old.items }
        ensures room { vec_capacity forms.new ≡ vec_capacity forms.old }
    {
        while first < forms.len() && self.has_room() {
            self.keep_last(forms);
        }
        // What is dropped then goes from the first on, so that the last blocks of the heap are free.
        forms.truncate(first);
    }
}
