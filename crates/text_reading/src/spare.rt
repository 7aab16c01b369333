ghost use Rattle.std.specs.Prelude.{◌≡◌, ◌≤◌, [], vec_capacity, IfOk};
ghost use Rattle.text_reading.specs.Spare.{most_spare_rows};

use affine_forms::{Form, WantOfMemory};
use std::alloc::Global;
use std::marker::Model;

// The most rows that are kept.
const MOST_SPARE_ROWS: usize = 1024;

// The most coefficients of a row that is kept.
const MOST_SPARE_WIDTH: usize = 64;

// The fewest numbers that a new room is for, so that it serves most rows.
const LEAST_ROOM: usize = 12;

// How many lists are kept, emptied: that of a problem's rows and that of its context's.
const MOST_SPARE_LISTS: usize = 2;

// Room for so many numbers.
#[inline(never)]
fn new_room(alloc: Global, count: usize) -> Result<Vec<i128>, WantOfMemory>
    ensures items { IfOk result (λ room. room.items ≡ []) }
    ensures room { IfOk result (λ room. count ≤ vec_capacity room) }
{
    let room = Vec::with_capacity(alloc, count.max(LEAST_ROOM))?;
    Ok(room)
}

/// Rows that are done with, as rooms for rows that are read next, and their lists. What they hold tells nothing; a
/// clause sees how many rows they are.
#[derive(Drop)]
pub struct SpareRows {
    rows: Vec<Form>,
    lists: Vec<Vec<Form>>,
}

impl Model for SpareRows {
    ghost use Rattle.std.specs.Prelude.{ℕ, ◌≤◌, length};
    ghost use Rattle.text_reading.specs.Spare.{most_spare_rows};

    ghost Value = { ℕ };

    ghost view = { λ spare. length spare.rows.items };

    ghost invariant = { λ spare. (length spare.rows.items ≤ most_spare_rows) × (length spare.lists.items ≤ 2) };
}

impl SpareRows {
    /// No room yet. It takes no memory.
    pub fn new(alloc: Global) -> SpareRows
        ensures { result ≡ 0 }
    {
        SpareRows {
            rows: Vec::new(alloc),
            lists: Vec::new(alloc),
        }
    }

    /// The allocator that new rooms are taken from.
    pub fn allocator(&self) -> Global {
        *self.rows.allocator()
    }

    /// No numbers, with room for so many: that of a row where one is kept, unless it is too small.
    #[inline(always)]
    pub fn take(&mut self, count: usize) -> Result<Vec<i128>, WantOfMemory>
        ensures items { IfOk result (λ room. room.items ≡ []) }
        ensures room { IfOk result (λ room. count ≤ vec_capacity room) }
    {
        if let Some(row) = self.rows.pop() {
            let mut room = row.into_entries();
            if count <= room.capacity() {
                room.clear();
                return Ok(room);
            }
        }
        new_room(self.allocator(), count)
    }

    /// No forms, with room for so many: that of a list where one is kept, unless it is too small.
    pub fn list(&mut self, count: usize) -> Result<Vec<Form>, WantOfMemory>
        ensures { IfOk result (λ forms. forms.items ≡ []) }
    {
        if let Some(mut forms) = self.lists.pop() {
            if count <= forms.capacity() {
                forms.clear();
                return Ok(forms);
            }
        }
        let forms = Vec::with_capacity(self.allocator(), count)?;
        Ok(forms)
    }

    // Keeps an emptied list, where not many are kept.
    fn keep_list(&mut self, forms: Vec<Form>)
        ensures { self.new ≡ self.old }
    {
        if self.lists.len() < MOST_SPARE_LISTS {
            let _ = self.lists.push(forms);
        }
    }

    /// Keeps these rows and their list, where they would not be too many with those that are kept, none is long and
    /// there is memory for it.
    pub fn keep(&mut self, mut rows: Vec<Form>)
        ensures { self.new ≤ most_spare_rows }
    {
        let few = rows.len() <= MOST_SPARE_ROWS - self.rows.len();
        if few && rows.iter().all(|row| row.width() <= MOST_SPARE_WIDTH) {
            if self.rows.append(&mut rows).is_ok() {
                self.keep_list(rows);
            }
        }
    }
}
