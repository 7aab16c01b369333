ghost use Rattle.std.specs.Prelude.{◌≡◌, ◌+◌, ◌<◌, ◌≤◌, length, drop, get_or, [], ◌∷◌, ◌++◌, IfSome};
ghost use Rattle.short_numbers.specs.Nonzeros.{AreNonzeros};

use crate::products::is_half;
use std::marker::Model;

/// A list of places at which numbers are not 0, in order: at most 64, each below 64. Contracts see the places.
#[derive(Drop)]
pub struct Nonzeros {
    places: [u8; 64],
    count: usize,
}

impl Model for Nonzeros {
    ghost use Rattle.std.specs.Prelude.{ℕ, ◌≤◌, List, take};

    ghost Value = { List ℕ };

    ghost view = { λ n. take n.count n.places };

    ghost invariant = { λ n. n.count ≤ 64 };
}

impl Nonzeros {
    fn new() -> Nonzeros
        ensures { result ≡ [] }
    {
        Nonzeros {
            places: [0; 64],
            count: 0,
        }
    }

    // Adds a place.
    #[inline(always)]
    fn push(&mut self, place: usize)
        requires count { length self.old < 64 }
        requires place { place < 64 }
        ensures { self.new ≡ self.old ++ place ∷ [] }
    {
        self.places[self.count] = place as u8;
        self.count += 1;
    }

    /// How many there are.
    #[inline(always)]
    pub fn len(&self) -> usize
        ensures { result ≡ length self.now }
    {
        self.count
    }

    /// The place with number k.
    #[inline(always)]
    pub fn place(&self, k: usize) -> usize
        requires { k < length self.now }
        ensures { result ≡ get_or self.now k 0 }
    {
        self.places[k] as usize
    }
}

/// The list of the places behind the denominator of a row, where there are at most 64 and the numbers have 32 bits.
#[inline(never)]
pub fn nonzeros_of(row: &[i64]) -> Option<Nonzeros>
    requires { 1 ≤ length row.now }
    ensures { IfSome result (AreNonzeros (drop 1 row.now)) }
{
    let (_, numbers) = row.split_at(1);
    if numbers.len() > 64 {
        return None;
    }
    let mut found = Nonzeros::new();
    for i in 0..numbers.len() {
        if numbers[i] != 0 {
            if !is_half(numbers[i]) {
                return None;
            }
            found.push(i);
        }
    }
    Some(found)
}
