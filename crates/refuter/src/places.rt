ghost use Rattle.std.specs.Prelude.{◌≡◌, [], ◌++◌, All, IsTrue, IfOk, OnOk};
ghost use Rattle.pip_model.specs.Refuting.{indices};
ghost use Rattle.affine_forms.specs.Checks.{Fits};
ghost use Rattle.refuter.specs.Places.{indices_of};

use affine_forms::WantOfMemory;
use std::alloc::Global;
use std::marker::Model;

/// Where the forms of a refutation's places stand: those of so many parameters from index 0 on, those of so many
/// quotients from one index on, and those of so many unknowns from another.
#[derive(Clone, Copy)]
pub struct PlaceRuns {
    pub params: usize,
    pub first_quotient: usize,
    pub quotients: usize,
    pub first_unknown: usize,
    pub unknowns: usize,
}

/// The indices of the forms of a refutation's places. They are kept from one refutation to the next, which mostly has
/// the same.
#[derive(Drop)]
pub struct Places {
    runs: PlaceRuns,
    list: Vec<i128>,
}

impl Model for Places {
    ghost use Rattle.std.specs.Prelude.{◌≡◌, List, ℤ, All};
    ghost use Rattle.affine_forms.specs.Checks.{Fits};
    ghost use Rattle.refuter.specs.Places.{indices_of};

    ghost Value = { List ℤ };

    ghost view = { λ p. p.list.items };

    ghost invariant = { λ p. (p.list.items ≡ indices_of p.runs) × (All Fits p.list.items) };
}

// Puts n indices from one on behind the others.
fn push_indices(list: &mut Vec<i128>, first: usize, n: usize) -> Result<(), WantOfMemory>
    requires fits { All Fits list.old.items }
    ensures value { OnOk result (list.new.items ≡ list.old.items ++ indices first n) }
    ensures fits { All Fits list.new.items }
{
    for i in 0..n {
        list.push(first as i128 + i as i128)?;
    }
    Ok(())
}

// The indices of these runs, in a room.
fn list_of(room: Vec<i128>, runs: PlaceRuns) -> Result<Vec<i128>, WantOfMemory>
    requires { room.items ≡ [] }
    ensures value { IfOk result (λ list. list.items ≡ indices_of runs) }
    ensures fits { IfOk result (λ list. All Fits list.items) }
{
    let number = runs
        .params
        .saturating_add(runs.quotients)
        .saturating_add(runs.unknowns);
    let mut list = room;
    list.reserve(number)?;
    push_indices(&mut list, 0, runs.params)?;
    push_indices(&mut list, runs.first_quotient, runs.quotients)?;
    push_indices(&mut list, runs.first_unknown, runs.unknowns)?;
    Ok(list)
}

impl PlaceRuns {
    // Whether these have the indices of the others. Where there are no quotients, it is one where they would begin.
    fn is_same(&self, others: &PlaceRuns) -> bool
        ensures { IsTrue result → indices_of self.now ≡ indices_of others.now }
    {
        self.params == others.params
            && self.first_unknown == others.first_unknown
            && self.unknowns == others.unknowns
            && self.quotients == others.quotients
            && (self.first_quotient == others.first_quotient || self.quotients == 0)
    }
}

impl Places {
    /// No places. It takes no memory.
    pub fn new(alloc: Global) -> Places
        ensures { result ≡ [] }
    {
        Places {
            runs: PlaceRuns {
                params: 0,
                first_quotient: 0,
                quotients: 0,
                first_unknown: 0,
                unknowns: 0,
            },
            list: Vec::new(alloc),
        }
    }

    /// The allocator that their room is taken from.
    pub fn allocator(&self) -> Global {
        *self.list.allocator()
    }

    /// The places of these runs: these themselves where they are the same, else in their room.
    pub fn of(self, runs: PlaceRuns) -> Result<Places, WantOfMemory>
        ensures { IfOk result (λ places. places ≡ indices_of runs) }
    {
        if self.runs.is_same(&runs) {
            return Ok(self);
        }
        let mut room = self.list;
        room.clear();
        let list = list_of(room, runs)?;
        Ok(Places { runs, list })
    }

    /// Their indices.
    pub fn as_slice(&self) -> &[i128]
        ensures value { result.now ≡ self.now }
        ensures fits { All Fits result.now }
    {
        self.list.as_slice()
    }
}
