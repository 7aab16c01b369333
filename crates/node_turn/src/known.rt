ghost use Rattle.std.specs.Prelude.{◌≡◌, ◌⊎◌, [], ◌∷◌, ◌++◌, Contains, IfSome, IsTrue};

use sign_split::Counts;
use std::alloc::Global;
use std::marker::Model;

// More forms are not remembered, so that the search for one stays short.
const MOST_KNOWN: usize = 64;

// How many have room from the first on.
const FIRST_ROOM: usize = 8;

// Where the entries of a form that was found at least 0 on a context stand among the numbers, the key, by which most others
// are told from it, and what was counted for that.
#[derive(Clone, Copy)]
struct NonnegativePlace {
    start: usize,
    end: usize,
    key: u64,
    counts: Counts,
}

// The low bits of a number.
#[inline(always)]
fn low_bits(x: i128) -> u64 {
    (x & 0x7fff_ffff_ffff_ffff) as u64
}

// A number of the first entry and the last, by which forms are told apart.
#[inline(always)]
fn key_of(entries: &[i128]) -> u64 {
    match (entries.first(), entries.last()) {
        (Some(first), Some(last)) => low_bits(*first).rotate_left(32) ^ low_bits(*last),
        _ => 0,
    }
}

// Whether the entries are the same.
#[inline(always)]
fn are_same(these: &[i128], those: &[i128]) -> bool
    ensures { IsTrue result → these.now ≡ those.now }
{
    if these.len() != those.len() {
        return false;
    }
    for i in 0..these.len() {
        if these[i] != those[i] {
            return false;
        }
    }
    true
}

/// The forms that were found at least 0 on a context, up to some number: their entries behind one another.
///
/// Contracts see the forms in order, each with what was counted for it.
#[derive(Drop)]
pub struct NonnegativeForms {
    numbers: Vec<i128>,
    places: Vec<NonnegativePlace>,
}

impl Model for NonnegativeForms {
    ghost use Rattle.std.specs.Prelude.{◌≤◌, List, All, length, map};
    ghost use Rattle.node_turn.specs.Known.{NonnegativeForm};
    ghost use Rattle.node_turn.specs.KnownPlaces.{form_at, IsPlaceIn};

    ghost Value = { List NonnegativeForm };

    ghost view = { λ known. map (form_at known.numbers.items) known.places.items };

    ghost invariant = { λ known. All (IsPlaceIn known.numbers.items) known.places.items
        × (length known.places.items ≤ 64) };
}

// Makes room for some forms of so many entries before the first, where there is memory for it.
fn make_room(numbers: &mut Vec<i128>, places: &mut Vec<NonnegativePlace>, entries: usize)
    ensures numbers { numbers.new.items ≡ numbers.old.items }
    ensures places { places.new.items ≡ places.old.items }
{
    if places.is_empty() {
        let _ = numbers.reserve(entries.saturating_mul(FIRST_ROOM));
        let _ = places.reserve(FIRST_ROOM);
    }
}

impl NonnegativeForms {
    /// None is known. It takes no memory.
    pub fn new(alloc: Global) -> NonnegativeForms
        ensures { result ≡ [] }
    {
        NonnegativeForms {
            numbers: Vec::new(alloc),
            places: Vec::new(alloc),
        }
    }

    // What was counted for the form of these entries, where it is known.
    #[inline(always)]
    pub(crate) fn find(&self, entries: &[i128]) -> Option<Counts>
        ensures { IfSome result (λ counts. Contains self.now (record { form = entries.now; counts = counts })) }
    {
        let key = key_of(entries);
        for place in &self.places {
            if place.key == key && are_same(&self.numbers[place.start..place.end], entries) {
                return Some(place.counts);
            }
        }
        None
    }

    // The form of these entries is known from then on, with what was counted for it, or nothing changes: where many are
    // known, or memory is wanting.
    pub(crate) fn add(&mut self, entries: &[i128], counts: Counts)
        ensures { (self.new ≡ self.old ++ record { form = entries.now; counts = counts } ∷ []) ⊎ (self.new ≡ self.old) }
    {
        if self.places.len() >= MOST_KNOWN {
            return;
        }
        make_room(&mut self.numbers, &mut self.places, entries.len());
        let start = self.numbers.len();
        if self.numbers.extend_from_slice(entries).is_ok() {
            let end = self.numbers.len();
            let _ = self.places.push(NonnegativePlace {
                start,
                end,
                key: key_of(entries),
                counts,
            });
        }
    }

    /// None is known any more.
    pub fn forget(&mut self)
        ensures { self.new ≡ [] }
    {
        self.places.clear();
        self.numbers.clear();
    }
}
