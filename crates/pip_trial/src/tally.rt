ghost use Rattle.std.specs.Prelude.{◌≡◌, ◌+◌};
ghost use Rattle.pip_model.specs.Tree.{size};
ghost use Rattle.program_model.specs.Trial.{tally_tree, tally_answer};
ghost use Rattle.quast.specs.Answers.{answer_of};
ghost use Rattle.quast.specs.Trees.{tree_of};
ghost use Rattle.pip_trial.specs.Tallies.{HasRoom, none_counted, answer_size};

use quast::{Answer, Node};
use std::marker::Model;

/// How many lists, bottoms and new parameters the answers' trees hold, and how many problems were refused. A tree of
/// the nesting 100 has fewer than 2^101 nodes, so that counts of 128 bits hold those of any trial.
#[derive(Drop)]
pub struct Tally {
    lists: u128,
    bottoms: u128,
    quotients: u128,
    refused: u128,
}

impl Model for Tally {
    ghost use Rattle.program_model.specs.Trial as model;

    ghost Value = { model.Tally };

    ghost view = { λ t. record { lists = t.lists; bottoms = t.bottoms; quotients = t.quotients; refused = t.refused } };
}

impl Tally {
    // Nothing counted.
    pub(crate) fn new() -> Tally
        ensures { result ≡ none_counted }
    {
        Tally {
            lists: 0,
            bottoms: 0,
            quotients: 0,
            refused: 0,
        }
    }

    /// The lists of the answers' trees.
    pub fn lists(&self) -> u128
        ensures { result ≡ self.now.lists }
    {
        self.lists
    }

    /// The bottoms of the answers' trees.
    pub fn bottoms(&self) -> u128
        ensures { result ≡ self.now.bottoms }
    {
        self.bottoms
    }

    /// The new parameters of the answers' trees.
    pub fn quotients(&self) -> u128
        ensures { result ≡ self.now.quotients }
    {
        self.quotients
    }

    /// The problems that were refused.
    pub fn refused(&self) -> u128
        ensures { result ≡ self.now.refused }
    {
        self.refused
    }

    fn count_node(&mut self, node: &Node)
        requires room { HasRoom (size (tree_of node.now)) self.old }
        ensures { self.new ≡ tally_tree (tree_of node.now) self.old }
    {
        match node {
            Node::Bottom => self.bottoms += 1,
            Node::Leaf(_) => self.lists += 1,
            Node::Select(_, first, second) => {
                self.count_node(first);
                self.count_node(second);
            }
            Node::Define(_, _, below) => {
                self.quotients += 1;
                self.count_node(below);
            }
        }
    }

    // Counts the nodes of an answer.
    pub(crate) fn count_answer(&mut self, answer: &Answer)
        requires { HasRoom (answer_size (answer_of answer.now)) self.old }
        ensures { self.new ≡ tally_answer (answer_of answer.now) self.old }
    {
        match answer {
            Answer::Void => {}
            Answer::Tree(tree) => self.count_node(tree.root()),
        }
    }

    // Counts a problem that was refused.
    pub(crate) fn count_refused(&mut self)
        requires { HasRoom 1 self.old }
        ensures { self.new ≡ record self.old { refused = self.old.refused + 1 } }
    {
        self.refused += 1;
    }
}
