ghost use Rattle.std.specs.Prelude.{◌≡◌, ◌+◌, ◌-◌, ◌≤◌};

use quast::Component;
use std::alloc::Global;

/// A leaf of an answer: `void`, a bottom, or a list.
#[derive(Clone, Copy)]
pub enum TreeLeaf<'t> {
    Void,
    Bottom,
    List(&'t [Component]),
}

/// How a tree is read: the number of its parameters, and the number of places that stand between these and its own new
/// parameters.
#[derive(Clone, Copy)]
pub struct Reading {
    pub alloc: Global,
    pub parameters: usize,
    pub between: usize,
}

impl Reading {
    /// How a second tree is read over so many places, at a leaf of the first: its own new parameters come behind these
    /// places, of which the parameters are the first.
    pub fn below(&self, places: usize) -> Reading
        requires { self.now.parameters ≤ places }
        ensures value { result ≡ record self.now { between = places - self.now.parameters } }
        ensures places { result.parameters + result.between ≡ places }
    {
        Reading {
            between: places - self.parameters,
            ..*self
        }
    }
}
