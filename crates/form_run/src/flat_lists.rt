ghost use Rattle.std.specs.Prelude.{◌≡◌, ◌+◌, ◌*◌, ◌^◌, ◌<◌, ◌≤◌, [], ◌∷◌, ◌++◌, length, take, drop, slice_index_or, OnOk, OnErr};

use affine_forms::WantOfMemory;
use std::alloc::Global;
use std::marker::Model;

// Lists of as many numbers each.
#[derive(Drop)]
pub(crate) struct FlatLists {
    size: usize,
    count: usize,
    numbers: Vec<i64>,
}

impl Model for FlatLists {
    ghost use Rattle.std.specs.Prelude.{◌≡◌, ◌*◌, length};
    ghost use Rattle.form_run.specs.FlatLists.{NumberLists, lists_in};

    ghost Value = { NumberLists };

    ghost view = { λ t. record { size = t.size; lists = lists_in t.size t.count t.numbers.items } };

    ghost invariant = { λ t. length t.numbers.items ≡ t.count * t.size };
}

// Where list i of so many begins.
fn place_of(size: usize, count: usize, i: usize, numbers: &[i64]) -> usize
    requires size { length numbers.now ≡ count * size }
    requires list { i < count }
    ensures value { result ≡ i * size }
    ensures within { result + size ≤ length numbers.now }
{
    i * size
}

// Makes of the numbers 0, but of number u 1.
fn make_unit(list: &mut [i64], u: usize)
    requires { u < length list.old }
{
    list.fill(0);
    list[u] = 1;
}

// Puts a list in the place of list i of so many.
fn write_list(numbers: &mut [i64], size: usize, count: usize, i: usize, list: &[i64])
    requires all { length numbers.old ≡ count * size }
    requires list { i < count }
    requires size { length list.now ≡ size }
    ensures { length numbers.new ≡ count * size }
{
    let place = place_of(size, count, i, numbers);
    let (_, behind) = numbers.split_at_mut(place);
    let (to, _) = behind.split_at_mut(size);
    to.copy_from_slice(list);
}

// Makes of list i of so many 0, but 1 at place u.
fn write_unit(numbers: &mut [i64], size: usize, count: usize, i: usize, u: usize)
    requires all { length numbers.old ≡ count * size }
    requires list { i < count }
    requires place { u < size }
    ensures { length numbers.new ≡ count * size }
{
    let place = place_of(size, count, i, numbers);
    let (_, behind) = numbers.split_at_mut(place);
    let (to, _) = behind.split_at_mut(size);
    make_unit(to, u);
}

impl FlatLists {
    // No lists of so many numbers.
    pub(crate) fn new(alloc: Global, size: usize) -> FlatLists
        ensures { result ≡ record { size = size; lists = [] } }
    {
        FlatLists {
            size,
            count: 0,
            numbers: Vec::new(alloc),
        }
    }

    // Drops all lists, and has so many numbers in each from now on. The room stays.
    pub(crate) fn restart(&mut self, size: usize)
        ensures { self.new ≡ record { size = size; lists = [] } }
    {
        self.size = size;
        self.count = 0;
        self.numbers.clear();
    }

    // How many numbers a list has.
    pub(crate) fn size(&self) -> usize
        ensures { result ≡ self.now.size }
    {
        self.size
    }

    // The number of lists.
    pub(crate) fn len(&self) -> usize
        ensures value { result ≡ length self.now.lists }
        ensures room { length self.now.lists * self.now.size < 2 ^ 63 }
    {
        self.count
    }

    // List i.
    pub(crate) fn at(&self, i: usize) -> &[i64]
        requires { i < length self.now.lists }
        ensures value { result.now ≡ slice_index_or self.now.lists i [] }
        ensures length { length result.now ≡ self.now.size }
    {
        let place = place_of(self.size, self.count, i, &self.numbers);
        let (_, behind) = self.numbers.split_at(place);
        let (list, _) = behind.split_at(self.size);
        list
    }

    // Adds a list. A refusal leaves all as it was.
    pub(crate) fn push(&mut self, list: &[i64]) -> Result<(), WantOfMemory>
        requires { length list.now ≡ self.old.size }
        ensures ok { OnOk result (self.new ≡ record self.old { lists = self.old.lists ++ list.now ∷ [] }) }
        ensures err { OnErr result (self.new ≡ self.old) }
    {
        let count = self.count.checked_add(1).ok_or(WantOfMemory)?;
        self.numbers.extend_from_slice(list)?;
        self.count = count;
        Ok(())
    }

    // Puts a list in the place of list i.
    pub(crate) fn set(&mut self, i: usize, list: &[i64])
        requires list { i < length self.old.lists }
        requires size { length list.now ≡ self.old.size }
        ensures size { self.new.size ≡ self.old.size }
        ensures lists { length self.new.lists ≡ length self.old.lists }
    {
        write_list(&mut self.numbers, self.size, self.count, i, list);
    }

    // Makes of list i 0 but at place u, where it becomes 1.
    pub(crate) fn set_unit(&mut self, i: usize, u: usize)
        requires list { i < length self.old.lists }
        requires place { u < self.old.size }
        ensures size { self.new.size ≡ self.old.size }
        ensures lists { length self.new.lists ≡ length self.old.lists }
    {
        write_unit(&mut self.numbers, self.size, self.count, i, u);
    }
}
