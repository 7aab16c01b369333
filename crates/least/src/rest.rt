use affine_forms::Form;
use quast::Component;
use std::alloc::Global;

// What is known of the next components of two lists: nothing, or that the first list's is not below the second's, with
// their difference.
#[derive(Clone, Copy)]
pub(crate) enum Asked<'t> {
    Nothing,
    NotBelow(&'t Form),
}

// Two lists of as many components over the same places, from which the lesser is made: which component is next, what is
// known of it, and how many nodes are above in the tree that is made.
#[derive(Clone, Copy)]
pub(crate) struct Rest<'f, 's, 'k> {
    pub alloc: Global,
    pub first: &'f [Component],
    pub second: &'s [Component],
    pub next: usize,
    pub asked: Asked<'k>,
    pub depth: u64,
}
