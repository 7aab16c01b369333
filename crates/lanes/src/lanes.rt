ghost use Rattle.std.specs.Prelude.{◌≡◌, ◌≢◌, ℕ, ◌^◌, ◌<◌, ◌≤◌, pos, ◌≤ℤ◌, nat_lt, All, unsigned_abs, replicate, slice_set, true, false, IsTrue, IsFalse, IfSome, IfNone};
ghost use Rattle.std.specs.List.{list_all};
ghost use Rattle.pip_model.specs.Numbers.{is_nonneg};
ghost use Rattle.pip_model.specs.Forms.{add, combine, dot, entry, negate, scale};
ghost use Rattle.lanes.specs.Narrow.{AreCovered, AreAddable, AreLanes, AreNarrowTimes, AreTurnable, IsFirstBelow, IsNarrow, IsSummable, left_of};

use crate::rows::{
    add_multiple, are_nowhere_below, cover, divide, leave, multiply, oppose, place_below,
    size_of_all, sum_products, turn,
};
use std::marker::Model;

/// Eight numbers of 32 bits, of which none is the most negative. Contracts see the list of the numbers.
#[derive(Clone, Copy)]
pub struct Lanes {
    n: [i32; 8],
}

impl Model for Lanes {
    ghost use Rattle.std.specs.Prelude.{List, ℤ};
    ghost use Rattle.lanes.specs.Narrow.{AreLanes};

    ghost Value = { List ℤ };

    ghost view = { λ t. t.n };

    ghost inverse = { λ v. record { n = v } };

    ghost invariant = { λ t. AreLanes t.n };
}

impl Lanes {
    /// Zeros.
    #[tactic(auto, using(crate::proofs::Writing::zeros_lanes))]
    #[inline(always)]
    pub fn zeros() -> Lanes
        ensures zeros { result ≡ replicate 8 (pos 0) }
        ensures lanes { AreLanes result }
    {
        Lanes { n: [0; 8] }
    }

    /// Number k.
    #[inline(always)]
    pub fn get(&self, k: usize) -> i32
        requires { k < 8 }
        ensures value { result ≡ entry self.now k }
        ensures narrow { IsNarrow result }
        ensures lanes { AreLanes self.now }
    {
        self.n[k]
    }

    /// The same numbers but number k, which becomes another.
    #[tactic(auto, using(crate::proofs::Writing::set_lanes))]
    #[inline(always)]
    pub fn with(self, k: usize, z: i32) -> Lanes
        requires number { k < 8 }
        requires narrow { IsNarrow z }
        ensures value { result ≡ slice_set self k z }
        ensures lanes { AreLanes result }
    {
        let mut n = self.n;
        n[k] = z;
        Lanes { n }
    }

    /// Makes number k another one, in place.
    #[tactic(auto, using(crate::proofs::Writing::set_lanes))]
    #[inline(always)]
    pub fn set(&mut self, k: usize, z: i32)
        requires number { k < 8 }
        requires narrow { IsNarrow z }
        ensures value { self.new ≡ slice_set self.old k z }
        ensures lanes { AreLanes self.new }
    {
        self.n[k] = z;
    }

    /// f times the numbers.
    #[inline(always)]
    pub fn times(self, f: i32) -> Lanes
        requires { AreNarrowTimes f self }
        ensures value { result ≡ scale f self }
        ensures lanes { AreLanes result }
    {
        let mut n = self.n;
        multiply(&mut n, f);
        Lanes { n }
    }

    /// The sums with f times the numbers of a row.
    #[inline(always)]
    pub fn plus_times(self, row: Lanes, f: i32) -> Lanes
        requires { AreAddable self f row }
        ensures value { result ≡ add self (scale f row) }
        ensures lanes { AreLanes result }
    {
        let mut n = self.n;
        add_multiple(&mut n, f, &row.n);
        Lanes { n }
    }

    /// `a*x - b*y` of the numbers x and the numbers y of p.
    #[inline(always)]
    pub fn turned(self, a: i32, p: Lanes, b: i32) -> Lanes
        requires { AreTurnable a self b p }
        ensures value { result ≡ combine a self b p }
        ensures lanes { AreLanes result }
    {
        let mut n = self.n;
        turn(&mut n, a, b, &p.n);
        Lanes { n }
    }

    /// Numbers whose sizes are not less than those of these and of a row's.
    #[inline(always)]
    pub fn covering(self, row: &Lanes) -> Lanes
        ensures own { AreCovered self result }
        ensures row { AreCovered row.now result }
        ensures lanes { AreLanes result }
    {
        let mut n = self.n;
        cover(&mut n, &row.n);
        Lanes { n }
    }

    /// The opposites of the numbers.
    #[inline(always)]
    pub fn minus(self) -> Lanes
        ensures value { result ≡ negate self }
        ensures lanes { AreLanes result }
    {
        let mut n = self.n;
        oppose(&mut n);
        Lanes { n }
    }

    /// The quotients of the numbers by l, none where l does not divide all.
    #[inline(always)]
    pub fn over(self, l: i32) -> Option<Lanes>
        requires { pos 1 ≤ℤ l }
        ensures value { IfSome result (λ z. scale l z ≡ self) }
        ensures lanes { IfSome result AreLanes }
    {
        let mut n = self.n;
        if divide(&mut n, l) {
            Some(Lanes { n })
        } else {
            None
        }
    }

    /// What the quotients of the numbers by l leave: that of number 0 rounded up, the others rounded down.
    #[inline(always)]
    pub fn left(self, l: i32) -> Lanes
        requires { pos 1 ≤ℤ l }
        ensures value { (k : ℕ) → k < 8 → entry result k ≡ left_of l (nat_lt 0 k) (entry self k) }
        ensures lanes { AreLanes result }
    {
        let mut n = self.n;
        leave(&mut n, l);
        Lanes { n }
    }

    /// The sum of the products, place by place.
    #[inline(always)]
    pub fn dot(self, at: Lanes) -> i32
        requires { IsSummable self at }
        ensures { result ≡ dot self at }
    {
        sum_products(&self.n, &at.n)
    }

    /// Whether a number is below 0.
    #[inline(always)]
    pub fn is_below(self) -> bool
        ensures below { IsTrue result → list_all is_nonneg self ≡ false }
        ensures nowhere { IsFalse result → list_all is_nonneg self ≡ true }
    {
        !are_nowhere_below(&self.n)
    }

    /// The first place at which a number is below 0, none where there is no such place.
    #[inline(always)]
    pub fn first_below(self) -> Option<usize>
        ensures some { IfSome result (IsFirstBelow self) }
        ensures none { IfNone result (list_all is_nonneg self ≡ true) }
    {
        if !self.is_below() {
            return None;
        }
        place_below(&self.n)
    }

    /// A number that no number passes in size.
    #[inline(always)]
    pub fn size(self) -> u32
        ensures within { All (λ z. unsigned_abs z ≤ result) self }
        ensures narrow { result < 2 ^ 31 }
    {
        size_of_all(&self.n)
    }

    /// Whether the numbers are the same.
    #[inline(always)]
    pub fn same(self, t: Lanes) -> bool
        ensures same { IsTrue result → self ≡ t }
        ensures other { IsFalse result → self ≢ t }
    {
        self.n == t.n
    }
}
