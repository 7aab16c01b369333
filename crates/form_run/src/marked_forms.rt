ghost use Rattle.std.specs.Prelude.{◌≡◌, ◌+◌, ◌-◌, ◌<◌, ◌≤◌, pos, ◌≤ℤ◌, [], ◌∷◌, ◌++◌, length, IsTrue, IfSome, OnOk, OnErr};
ghost use Rattle.form_run.specs.Marks.{NoneLess, NormsWithin};

use crate::flat_lists::FlatLists;
use crate::marks::{Mark, new_mark, renew, stays_above};
use affine_forms::WantOfMemory;
use form_basis::{greater, norm};
use std::alloc::Global;
use std::marker::Model;

// Forms, and marks of whole blocks of 64 of them, from the first on.
#[derive(Drop)]
pub(crate) struct MarkedForms {
    alloc: Global,
    forms: FlatLists,
    marks: Vec<Mark>,
}

impl Model for MarkedForms {
    ghost use Rattle.form_run.specs.FlatLists.{NumberLists};
    ghost use Rattle.form_run.specs.Marks.{IsMarked};

    ghost Value = { NumberLists };

    ghost view = { λ t. t.forms };

    ghost invariant = { λ t. IsMarked t.forms t.marks.items };
}

// The norm of form i without its constant.
fn front_norm(forms: &FlatLists, i: usize) -> Option<u64>
    requires size { 0 < forms.now.size }
    requires form { i < length forms.now.lists }
    ensures { IfSome result (NormsWithin forms.now i (i + 1)) }
{
    let (front, _) = forms.at(i).split_at(forms.size() - 1);
    norm(front)
}

// A number that is no less than the norms of the forms from `at` to the end without their constants.
fn block_norm(forms: &FlatLists, at: usize, end: usize) -> Option<u64>
    requires size { 0 < forms.now.size }
    requires end { end ≤ length forms.now.lists }
    ensures { IfSome result (NormsWithin forms.now at end) }
{
    let mut most: u64 = 0;
    for i in at..end {
        most = greater(most, front_norm(forms, i)?);
    }
    Some(most)
}

impl MarkedForms {
    // These forms, none of which is marked.
    pub(crate) fn new(alloc: Global, forms: FlatLists) -> MarkedForms
        ensures { result ≡ forms }
    {
        MarkedForms {
            alloc,
            forms,
            marks: Vec::new(alloc),
        }
    }

    // The forms.
    pub(crate) fn lists(&self) -> &FlatLists
        ensures { result.now ≡ self.now }
    {
        &self.forms
    }

    // Drops all forms, and has so many numbers in each from now on.
    pub(crate) fn restart(&mut self, size: usize)
        ensures { self.new ≡ record { size = size; lists = [] } }
    {
        self.marks.clear();
        self.forms.restart(size);
    }

    // Adds a form. A refusal leaves all as it was.
    pub(crate) fn push(&mut self, form: &[i64]) -> Result<(), WantOfMemory>
        requires { length form.now ≡ self.old.size }
        ensures ok { OnOk result (self.new ≡ record self.old { lists = self.old.lists ++ form.now ∷ [] }) }
        ensures err { OnErr result (self.new ≡ self.old) }
    {
        self.forms.push(form)?;
        Ok(())
    }

    // Whether a mark tells that none of the 64 forms from `at` on is below 0 at the vertex.
    pub(crate) fn stay_above(&self, at: usize, vertex: &[i64], scale: i64) -> bool
        requires size { length vertex.now + 1 ≡ self.now.size }
        requires scale { pos 1 ≤ℤ scale }
        ensures { IsTrue result → NoneLess self.now vertex.now scale at (at + 64) (pos 0) }
    {
        let block = at / 64;
        block * 64 == at
            && block < self.marks.len()
            && stays_above(&self.marks[block], vertex, scale)
    }

    // Adds a mark of the 64 forms from `at` on, where memory does.
    fn add_mark(&mut self, at: usize, least: i64, vertex: &[i64], scale: i64)
        requires size { length vertex.now + 1 ≡ self.old.size }
        requires scale { pos 1 ≤ℤ scale }
        requires least { pos 0 ≤ℤ least }
        requires values { NoneLess self.old vertex.now scale at (at + 64) least }
        ensures { self.new ≡ self.old }
    {
        if self.marks.len() * 64 != at || self.forms.len() - at < 64 {
            return;
        }
        let Some(norm) = block_norm(&self.forms, at, at + 64) else {
            return;
        };
        if let Some(mark) = new_mark(self.alloc, norm, least, vertex, scale) {
            let _ = self.marks.push(mark);
        }
    }

    // Marks the 64 forms from `at` on, where they are a block and memory does: at the vertex none of them is less than that.
    pub(crate) fn mark(&mut self, at: usize, least: i64, vertex: &[i64], scale: i64)
        requires size { length vertex.now + 1 ≡ self.old.size }
        requires scale { pos 1 ≤ℤ scale }
        requires least { pos 0 ≤ℤ least }
        requires values { NoneLess self.old vertex.now scale at (at + 64) least }
        ensures { self.new ≡ self.old }
    {
        let block = at / 64;
        if block < self.marks.len() {
            if block * 64 == at {
                renew(&mut self.marks[block], least, vertex, scale);
            }
        } else {
            self.add_mark(at, least, vertex, scale);
        }
    }
}
