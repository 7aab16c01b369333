ghost use Rattle.std.specs.Prelude.{◌≡◌, ◌++◌, OnOk, OnErr, IfOk};
ghost use Rattle.pip_model.specs.Forms.{opposite};
ghost use Rattle.pip_model.specs.Listed.{opposite_listed};
ghost use Rattle.pip_model.specs.Agreement.{IsChecked};
ghost use Rattle.pip_model.specs.PieceText.{Where, answer_listed, pieces_listed, spell_answer_pieces, spell_entry, spell_pieces};
ghost use Rattle.walk_laws.proofs.PieceSteps.{spell_leaf, spell_under};
ghost use Rattle.quast.specs.Answers.{answer_of};
ghost use Rattle.quast.specs.Trees.{tree_of};
ghost use Rattle.text_printing.specs.Printing.{Appends, Begins};
ghost use Rattle.quast_pieces.specs.Pieces.{IsParted, is_pieces_overflow};

use crate::refusal::PiecesRefusal;
use affine_forms::{Bytes, Form};
use quast::{Answer, Node};
use quast_text::{put_comment, put_definition, put_form, put_node};
use std::alloc::{AllocError, Global};
use text_printing::put;

/// Appends the text of an answer's pieces with its comment, or leaves `out` as it was.
///
/// A piece is a leaf, a bottom or a list, with the conditions and the new parameters on its path; they come in the
/// order in which the tree is printed. At each whole vector of the tree's width, negative entries included, all
/// conditions of exactly one piece are at least 0, the new parameters being floors, and the leaf's value is the tree's
/// there. There are as many pieces as leaves. It overflows exactly where the constant of `-v - 1` does not fit for the
/// form v of an `if`.
pub fn print_pieces(
    comment: &Bytes,
    answer: &Answer,
    out: &mut Vec<u8>,
) -> Result<(), PiecesRefusal>
    ensures ok { Appends (spell_pieces comment.now (answer_of answer.now)) out.old.items out.new.items result }
    ensures err { OnErr result (out.new.items ≡ out.old.items) }
    ensures listed { IsChecked is_pieces_overflow (answer_listed (answer_of answer.now)) result }
    ensures parted { OnOk result (IsParted answer.now) }
{
    let start = out.len();
    let put = put_spoken(out, comment, answer);
    if put.is_err() {
        out.truncate(start);
    }
    put
}

fn put_spoken(out: &mut Vec<u8>, comment: &Bytes, answer: &Answer) -> Result<(), PiecesRefusal>
    ensures ok { Appends (spell_pieces comment.now (answer_of answer.now)) out.old.items out.new.items result }
    ensures kept { Begins out.old.items out.new.items }
    ensures listed { IsChecked is_pieces_overflow (answer_listed (answer_of answer.now)) result }
    ensures parted { OnOk result (IsParted answer.now) }
{
    put_comment(out, comment.as_slice())?;
    put_solution(out, answer)?;
    put(out, b")\n")?;
    Ok(())
}

fn put_solution(out: &mut Vec<u8>, answer: &Answer) -> Result<(), PiecesRefusal>
    ensures ok { Appends (spell_answer_pieces (answer_of answer.now)) out.old.items out.new.items result }
    ensures kept { Begins out.old.items out.new.items }
    ensures listed { IsChecked is_pieces_overflow (answer_listed (answer_of answer.now)) result }
    ensures parted { OnOk result (IsParted answer.now) }
{
    match answer {
        Answer::Void => {
            put(out, b"void\n")?;
            Ok(())
        }
        Answer::Tree(tree) => {
            let alloc = *out.allocator();
            put_pieces(alloc, out, &mut Vec::new(alloc), tree.root())
        }
    }
}

// The pieces of the tree below a node, each behind the text of the path to the node. The path is as it was where
// nothing is refused.
#[cycle(pieces)]
fn put_pieces(
    alloc: Global,
    out: &mut Vec<u8>,
    path: &mut Vec<u8>,
    node: &Node,
) -> Result<(), PiecesRefusal>
    ensures ok { Appends (spell_under path.old.items (tree_of node.now)) out.old.items out.new.items result }
    ensures kept { Begins out.old.items out.new.items }
    ensures path { OnOk result (path.new.items ≡ path.old.items) }
    ensures listed { IsChecked is_pieces_overflow (pieces_listed (tree_of node.now)) result }
{
    match node {
        Node::Bottom => put_piece(out, path, node),
        Node::Leaf(_) => put_piece(out, path, node),
        Node::Select(v, a, b) => {
            let opposite = opposite_of(alloc, v)?;
            put_pieces_where(alloc, out, path, v, a)?;
            put_pieces_where(alloc, out, path, &opposite, b)
        }
        Node::Define(v, d, a) => {
            let above = path.len();
            put_definition(path, v, *d)?;
            put_pieces(alloc, out, path, a)?;
            path.truncate(above);
            Ok(())
        }
    }
}

// The same where a condition is at least 0.
#[cycle(pieces)]
fn put_pieces_where(
    alloc: Global,
    out: &mut Vec<u8>,
    path: &mut Vec<u8>,
    condition: &Form,
    node: &Node,
) -> Result<(), PiecesRefusal>
    ensures ok { Appends (spell_under (path.old.items ++ spell_entry (Where condition.now)) (tree_of node.now))
        out.old.items out.new.items result }
    ensures kept { Begins out.old.items out.new.items }
    ensures path { OnOk result (path.new.items ≡ path.old.items) }
    ensures listed { IsChecked is_pieces_overflow (pieces_listed (tree_of node.now)) result }
{
    let above = path.len();
    put_where(path, condition)?;
    put_pieces(alloc, out, path, node)?;
    path.truncate(above);
    Ok(())
}

// `-v - 1`.
fn opposite_of(alloc: Global, v: &Form) -> Result<Form, PiecesRefusal>
    ensures listed { IsChecked is_pieces_overflow (opposite_listed v.now) result }
    ensures value { IfOk result (λ c. c ≡ opposite v.now) }
{
    let mut opposite = v.try_clone(alloc)?;
    opposite.opposite()?;
    Ok(opposite)
}

// A leaf behind the text of its path.
fn put_piece(out: &mut Vec<u8>, path: &[u8], leaf: &Node) -> Result<(), PiecesRefusal>
    ensures ok { Appends (spell_leaf path.now (tree_of leaf.now)) out.old.items out.new.items result }
    ensures kept { Begins out.old.items out.new.items }
    ensures want { OnErr result (result ≡ Err PiecesRefusal.WantOfMemory) }
{
    put(out, b"(piece\n")?;
    put(out, path)?;
    put_node(out, leaf)?;
    put(out, b")\n")?;
    Ok(())
}

fn put_where(out: &mut Vec<u8>, v: &Form) -> Result<(), AllocError>
    ensures ok { Appends (spell_entry (Where v.now)) out.old.items out.new.items result }
    ensures kept { Begins out.old.items out.new.items }
{
    put(out, b"(where ")?;
    put_form(out, v)?;
    put(out, b")\n")
}
