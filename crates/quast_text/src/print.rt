ghost use Rattle.std.specs.Prelude.{◌≡◌, ◌+◌, ◌-◌, ◌≤◌, ◌≤ℤ◌, ◌++◌, ℕ, pos, decimal, codes, OnOk, OnErr};
ghost use Rattle.std.specs.Fmt.{signed_decimal};
ghost use Rattle.pip_model.specs.Forms.{width};
ghost use Rattle.pip_model.specs.TreeText.{newline, spell_form, spell_fraction, spell_fractions, spell_components, spell_tree, spell_answer, spell};
ghost use Rattle.pip_model.specs.Printed.{IsGroup, IsPrintableAnswer};
ghost use Rattle.pip_model.specs.Limits.{most_params};
ghost use Rattle.affine_forms.specs.Checks.{Fits};
ghost use Rattle.quast.specs.Trees.{tree_of};
ghost use Rattle.quast.specs.Answers.{answer_of, IsOver};
ghost use Rattle.text_printing.specs.Printing.{Appends, Begins};
ghost use Rattle.quast_text.specs.Printing.{spell_denominator, spell_term, spell_component, IsReadBack};

use affine_forms::{Bytes, Form, WantOfMemory, floor_div, gcd};
use itoa::Buffer;
use quast::{Answer, Component, Node, Quast};
use std::alloc::AllocError;
use text_printing::{put, put_entry, put_mark, put_number, put_row};

// The room that an answer's text takes at first: most texts need no more.
const FIRST_ROOM: usize = 256;

/// Appends the text of a tree, or leaves `out` as it was.
pub fn print_tree(tree: &Quast, out: &mut Vec<u8>) -> Result<(), WantOfMemory>
    ensures ok { Appends (spell_tree tree.now.tree) out.old.items out.new.items result }
    ensures err { OnErr result (out.new.items ≡ out.old.items) }
{
    let start = out.len();
    if put_node(out, tree.root()).is_err() {
        out.truncate(start);
        return Err(WantOfMemory);
    }
    Ok(())
}

/// Appends the text of an answer with its comment, or leaves `out` as it was. Behind a comment that is a group the text
/// is read back as this answer, whatever stands behind it.
pub fn print_answer(comment: &Bytes, answer: &Answer, out: &mut Vec<u8>) -> Result<(), WantOfMemory>
    ensures ok { Appends (spell comment.now (answer_of answer.now)) out.old.items out.new.items result }
    ensures err { OnErr result (out.new.items ≡ out.old.items) }
    ensures read_back { OnOk result ((np : ℕ) → np ≤ most_params → IsGroup comment.now → IsOver np answer.now
        → IsReadBack (spell comment.now (answer_of answer.now)) np
        (record { comment = comment.now; answer = answer_of answer.now })) }
{
    let start = out.len();
    // Where this is refused, the parts ask for what they need.
    let _ = out.reserve(FIRST_ROOM);
    if put_spoken(out, comment, answer).is_err() {
        out.truncate(start);
        return Err(WantOfMemory);
    }
    Ok(())
}

fn put_spoken(out: &mut Vec<u8>, comment: &Bytes, answer: &Answer) -> Result<(), AllocError>
    ensures printable { OnOk result ((np : ℕ) → np ≤ most_params → IsOver np answer.now
        → IsPrintableAnswer np (answer_of answer.now)) }
    ensures ok { Appends (spell comment.now (answer_of answer.now)) out.old.items out.new.items result }
    ensures kept { Begins out.old.items out.new.items }
{
    put_comment(out, comment.as_slice())?;
    put_solution(out, answer)?;
    put_mark(out, b")\n")
}

/// Appends a `(`, the comment and a newline.
pub fn put_comment(out: &mut Vec<u8>, comment: &[u8]) -> Result<(), AllocError>
    ensures ok { Appends (codes "(" ++ comment.now ++ newline) out.old.items out.new.items result }
    ensures kept { Begins out.old.items out.new.items }
{
    put_mark(out, b"(")?;
    put(out, comment)?;
    put_mark(out, b"\n")
}

fn put_solution(out: &mut Vec<u8>, answer: &Answer) -> Result<(), AllocError>
    ensures printable { OnOk result ((np : ℕ) → np ≤ most_params → IsOver np answer.now
        → IsPrintableAnswer np (answer_of answer.now)) }
    ensures ok { Appends (spell_answer (answer_of answer.now)) out.old.items out.new.items result }
    ensures kept { Begins out.old.items out.new.items }
{
    match answer {
        Answer::Void => put_mark(out, b"void\n"),
        Answer::Tree(tree) => put_node(out, tree.root()),
    }
}

/// Appends the text of the tree below a node.
pub fn put_node(out: &mut Vec<u8>, node: &Node) -> Result<(), AllocError>
    ensures ok { Appends (spell_tree (tree_of node.now)) out.old.items out.new.items result }
    ensures kept { Begins out.old.items out.new.items }
{
    match node {
        Node::Bottom => put_mark(out, b"()\n"),
        Node::Leaf(components) => put_list(out, components.as_slice()),
        Node::Select(v, a, b) => {
            put_condition(out, v)?;
            put_node(out, a)?;
            put_node(out, b)?;
            put_mark(out, b")\n")
        }
        Node::Define(v, d, a) => {
            put_definition(out, v, *d)?;
            put_node(out, a)
        }
    }
}

fn put_condition(out: &mut Vec<u8>, v: &Form) -> Result<(), AllocError>
    ensures ok { Appends (codes "(if " ++ spell_form v.now ++ newline) out.old.items out.new.items result }
    ensures kept { Begins out.old.items out.new.items }
{
    put_mark(out, b"(if ")?;
    put_form(out, v)?;
    put_mark(out, b"\n")
}

/// Appends the line of a new parameter, the floor of `v` over `d`.
pub fn put_definition(out: &mut Vec<u8>, v: &Form, d: i128) -> Result<(), AllocError>
    ensures ok { Appends
        (codes "(newparm " ++ decimal (width v.now) ++ codes " (div " ++ spell_form v.now ++ codes " "
        ++ signed_decimal d ++ codes "))\n")
        out.old.items out.new.items result }
    ensures kept { Begins out.old.items out.new.items }
{
    put_parameter(out, v.width())?;
    put_form(out, v)?;
    put_divisor(out, d)
}

fn put_parameter(out: &mut Vec<u8>, number: usize) -> Result<(), AllocError>
    ensures ok { Appends (codes "(newparm " ++ decimal number ++ codes " (div ") out.old.items out.new.items result }
    ensures kept { Begins out.old.items out.new.items }
{
    put_mark(out, b"(newparm ")?;
    put(out, Buffer::new().format(number).as_bytes())?;
    put_mark(out, b" (div ")
}

fn put_divisor(out: &mut Vec<u8>, d: i128) -> Result<(), AllocError>
    ensures ok { Appends (codes " " ++ signed_decimal d ++ codes "))\n") out.old.items out.new.items result }
    ensures kept { Begins out.old.items out.new.items }
{
    put_entry(out, d)?;
    put_mark(out, b"))\n")
}

/// Appends the numbers of a form between row brackets.
pub fn put_form(out: &mut Vec<u8>, v: &Form) -> Result<(), AllocError>
    ensures ok { Appends (spell_form v.now) out.old.items out.new.items result }
    ensures kept { Begins out.old.items out.new.items }
{
    put_row(out, v.as_slice())
}

fn put_list(out: &mut Vec<u8>, components: &[Component]) -> Result<(), AllocError>
    ensures ok { Appends (codes "(list\n" ++ spell_components components.now ++ codes ")\n")
        out.old.items out.new.items result }
    ensures kept { Begins out.old.items out.new.items }
{
    put_mark(out, b"(list\n")?;
    put_components(out, components)?;
    put_mark(out, b")\n")
}

fn put_components(out: &mut Vec<u8>, components: &[Component]) -> Result<(), AllocError>
    ensures ok { Appends (spell_components components.now) out.old.items out.new.items result }
    ensures kept { Begins out.old.items out.new.items }
{
    for component in components {
        put_component(out, component)?;
    }
    Ok(())
}

fn put_component(out: &mut Vec<u8>, component: &Component) -> Result<(), AllocError>
    ensures ok { Appends (spell_component component.now) out.old.items out.new.items result }
    ensures kept { Begins out.old.items out.new.items }
{
    put_mark(out, b"#[")?;
    put_fractions(out, component)?;
    put_mark(out, b"]\n")
}

fn put_fractions(out: &mut Vec<u8>, component: &Component) -> Result<(), AllocError>
    ensures ok { Appends (spell_fractions component.now.den component.now.form) out.old.items out.new.items result }
    ensures kept { Begins out.old.items out.new.items }
{
    for entry in component.form().as_slice() {
        put_term(out, *entry, component.den())?;
    }
    Ok(())
}

// Appends a blank and c over d in lowest terms, the denominator only where it is not 1.
fn put_term(out: &mut Vec<u8>, c: i128, d: i128) -> Result<(), AllocError>
    requires positive { pos 1 ≤ℤ d }
    requires c_fits { Fits c }
    requires d_fits { Fits d }
    ensures ok { Appends (spell_term d c) out.old.items out.new.items result }
    ensures kept { Begins out.old.items out.new.items }
{
    if d == 1 {
        put_entry(out, c)
    } else {
        put_fraction(out, c, d)
    }
}

// The same, by the greatest common divisor.
fn put_fraction(out: &mut Vec<u8>, c: i128, d: i128) -> Result<(), AllocError>
    requires positive { pos 1 ≤ℤ d }
    requires c_fits { Fits c }
    requires d_fits { Fits d }
    ensures ok { Appends (spell_term d c) out.old.items out.new.items result }
    ensures kept { Begins out.old.items out.new.items }
{
    put_mark(out, b" ")?;
    put_lowest(out, c, d)
}

// Appends c over d in lowest terms.
fn put_lowest(out: &mut Vec<u8>, c: i128, d: i128) -> Result<(), AllocError>
    requires positive { pos 1 ≤ℤ d }
    requires c_fits { Fits c }
    requires d_fits { Fits d }
    ensures ok { Appends (spell_fraction c d) out.old.items out.new.items result }
    ensures kept { Begins out.old.items out.new.items }
{
    let divisor = gcd(c, d);
    put_number(out, floor_div(c, divisor))?;
    put_denominator(out, d, divisor)
}

// What stands behind the numerator: nothing where the divisor is d.
fn put_denominator(out: &mut Vec<u8>, d: i128, divisor: i128) -> Result<(), AllocError>
    requires positive { pos 1 ≤ℤ divisor }
    requires fits { Fits d }
    ensures ok { Appends (spell_denominator d divisor) out.old.items out.new.items result }
    ensures kept { Begins out.old.items out.new.items }
{
    if divisor == d {
        return Ok(());
    }
    put_mark(out, b"/")?;
    put_number(out, floor_div(d, divisor))
}
