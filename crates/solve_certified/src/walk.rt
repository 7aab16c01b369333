ghost use Rattle.std.specs.Prelude.{◌≡◌, false, option_copied, OnOk};
ghost use Rattle.pip_model.specs.Agreement.{AgreesCounted};
ghost use Rattle.pip_problem.specs.Faults.{run_fault};
ghost use Rattle.quast.specs.Trees.{tree_of};
ghost use Rattle.certificate_check.specs.Walks.{leaf_tree};
ghost use Rattle.solve_certified.specs.Walks.{made_below, IsAt};

use crate::leaf::LeafMaking;
use crate::refutation::Scope;
use crate::trail::Trail;
use certificate_check::{Known, Leaf};
use certificate_parts::Certificate;
use pip_problem::{Problem, Refusal, Work};
use quast::{Component, Node};
use refuter::Refuter;
use std::alloc::Global;

// What a walk makes: the certificate of the leaves so far. One refuter makes the refutations of all of them, of forms in
// one room.
#[derive(Drop)]
pub(crate) struct TreeMaking {
    pub(crate) certificate: Certificate,
    pub(crate) refuter: Refuter,
    pub(crate) known: Known,
}

// The walk over the tree of an answer, in whose order the refutations are made.
#[derive(Drop)]
pub(crate) struct Walk<'a> {
    pub(crate) alloc: Global,
    pub(crate) problem: &'a Problem,
}

impl Walk<'_> {
    // Makes the proofs of the leaf at the trail's end: a list, or a bottom.
    fn make_leaf(
        &self,
        trail: &Trail,
        list: Option<&[Component]>,
        making: &mut TreeMaking,
        work: &mut Work,
    ) -> Result<(), Refusal>
        requires at { IsAt self.now.problem.now trail.now (leaf_tree (option_copied list)) }
        requires format { making.old.certificate.shares ≡ false }
        ensures gives { AgreesCounted (λ _. making.new.certificate) run_fault result work.new
            (made_below self.now.problem.now trail.now making.old.certificate (leaf_tree (option_copied list.entry))
            work.old) }
        ensures format { making.new.certificate.shares ≡ false }
    {
        let params = self.problem.params();
        let front = params + self.problem.context().len();
        let Some(own) = front.checked_add(trail.forms().len()) else {
            return Err(Refusal::WantOfMemory);
        };
        let leaf_making = LeafMaking {
            leaf: Leaf {
                number: 1,
                problem: self.problem,
                scope: trail.scope(),
                path: trail.forms(),
                list,
            },
            scope: Scope {
                alloc: self.alloc,
                params,
                front,
                own,
                quotients: trail.quotients(),
            },
        };
        let proofs = leaf_making.refute_all(&mut making.refuter, &mut making.known, work)?;
        making.certificate.push(proofs)?;
        Ok(())
    }

    // Makes the proofs of the leaves below the node at the trail's end.
    pub(crate) fn make_node(
        &self,
        trail: &mut Trail,
        node: &Node,
        making: &mut TreeMaking,
        work: &mut Work,
    ) -> Result<(), Refusal>
        requires at { IsAt self.now.problem.now trail.old (tree_of node.now) }
        requires format { making.old.certificate.shares ≡ false }
        ensures gives { AgreesCounted (λ _. making.new.certificate) run_fault result work.new
            (made_below self.now.problem.now trail.old making.old.certificate (tree_of node.now) work.old) }
        ensures format { making.new.certificate.shares ≡ false }
        ensures trail { OnOk result (trail.new ≡ trail.old) }
    {
        match node {
            Node::Bottom => self.make_leaf(trail, None, making, work),
            Node::Leaf(components) => {
                self.make_leaf(trail, Some(components.as_slice()), making, work)
            }
            Node::Select(v, a, b) => {
                let mark = trail.mark();
                trail.push(self.alloc, v)?;
                self.make_node(trail, a, making, work)?;
                trail.back_to(mark);
                trail.push_opposite(self.alloc, v)?;
                self.make_node(trail, b, making, work)?;
                trail.back_to(mark);
                Ok(())
            }
            Node::Define(v, d, a) => {
                let mark = trail.mark();
                trail.push_quotient(self.alloc, v, *d)?;
                self.make_node(trail, a, making, work)?;
                trail.back_to(mark);
                Ok(())
            }
        }
    }
}
