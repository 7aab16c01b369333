ghost use Rattle.std.specs.Prelude.{◌≡◌, ◌<◌, ◌≤◌, [], ◌∷◌, length, IfOk, IfSome, IsTrue, ◌↔◌, OnOk, OnErr, None};

use affine_forms::{Form, WantOfMemory};
use node_turn::{ContextMark, NodeRows};
use quast::Quast;
use std::alloc::Global;
use std::marker::Model;

/// What waits for a tree: an if whose second tree is due, from these rows and back at these marks, once its first is
/// made; an if whose first tree is made, and which waits for its second; a new parameter, which waits for the tree
/// below.
#[derive(Drop)]
pub enum Frame {
    SecondDue {
        condition: Form,
        rows: NodeRows,
        context: ContextMark,
        quotients: usize,
    },
    FirstMade {
        condition: Form,
        first: Quast,
    },
    NewParm {
        form: Form,
        den: i128,
    },
}

/// The frames that wait, on a stack with room for all that may. Contracts see them as a list, the one pushed last
/// first, and how many may wait. Rows that are done with are kept as room for others, with the frames no more than may
/// wait.
#[derive(Drop)]
pub struct Pending {
    most: usize,
    stack: Vec<Frame>,
    spares: Vec<NodeRows>,
}

impl Model for Pending {
    ghost use Rattle.std.specs.Prelude.{◌+◌, ◌≤◌, reverse, length};
    ghost use Rattle.std.specs.Vec.{vec_capacity};
    ghost use Rattle.std.specs.Coded.{codes};
    ghost use Rattle.quast.specs.Trees.{scoped_code};
    ghost use Rattle.pip_solve.specs.Waiting.{Waiting};

    ghost Value = { Waiting };

    ghost coded = { Prim.hlevel (codes, scoped_code) };

    ghost view = { λ p. record { frames = reverse p.stack.items; most = p.most } };

    ghost invariant = { λ p.
        (length p.stack.items + length p.spares.items ≤ p.most) × (p.most ≤ vec_capacity p.stack) };
}

impl Pending {
    /// Nothing waits, and nothing may. It takes no memory.
    pub fn new(alloc: Global) -> Pending
        ensures { result ≡ record { frames = []; most = 0 } }
    {
        Pending {
            most: 0,
            stack: Vec::new(alloc),
            spares: Vec::new(alloc),
        }
    }

    /// Nothing waits, and n frames may, for which there is room.
    pub fn reserve(alloc: Global, n: usize) -> Result<Pending, WantOfMemory>
        ensures { IfOk result (λ p. p ≡ record { frames = []; most = n }) }
    {
        let mut made = Pending::new(alloc);
        made.restart(n)?;
        Ok(made)
    }

    /// Nothing waits, and n frames may, for which there is room from now on. A refusal leaves all as it was.
    pub fn restart(&mut self, n: usize) -> Result<(), WantOfMemory>
        ensures ok { OnOk result (self.new ≡ record { frames = []; most = n }) }
        ensures err { OnErr result (self.new ≡ self.old) }
    {
        self.stack.reserve(n.saturating_sub(self.stack.len()))?;
        self.stack.clear();
        self.spares.truncate(n);
        self.most = n;
        Ok(())
    }

    // Rows that were kept, or new ones.
    pub(crate) fn spare(&mut self, alloc: Global) -> NodeRows
        ensures { self.new ≡ self.old }
    {
        match self.spares.pop() {
            Some(spare) => spare,
            None => NodeRows::new(alloc, 0, 0),
        }
    }

    // Keeps the room of rows, where there is a place for it. What others share with them is let go.
    pub(crate) fn keep(&mut self, rows: NodeRows)
        ensures { self.new ≡ self.old }
    {
        if self.stack.len() + self.spares.len() < self.most {
            let mut spare = rows;
            spare.reshape(0, 0);
            let _ = self.spares.push(spare);
        } else {
            drop(rows);
        }
    }

    /// Whether nothing waits.
    pub fn is_empty(&self) -> bool
        ensures { IsTrue result ↔ self.now.frames ≡ [] }
    {
        self.stack.is_empty()
    }

    /// One more frame waits. Takes no memory.
    pub fn push(&mut self, f: Frame)
        requires { length self.old.frames < self.old.most }
        ensures { self.new ≡ record self.old { frames = f ∷ self.old.frames } }
    {
        self.spares.truncate(self.most - 1 - self.stack.len());
        self.stack.push(f).unwrap();
    }

    /// The frame that was pushed last, which waits no more; none where nothing waits. No more than may ever wait.
    pub fn pop(&mut self) -> Option<Frame>
        ensures last { IfSome result (λ f. self.old ≡ record self.new { frames = f ∷ self.new.frames }) }
        ensures none { result ≡ None ↔ self.old.frames ≡ [] }
        ensures empty { result ≡ None → self.new ≡ self.old }
        ensures bound { length self.old.frames ≤ self.old.most }
    {
        self.stack.pop()
    }
}
