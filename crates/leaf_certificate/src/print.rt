ghost use Rattle.std.specs.Prelude.{◌≡◌, ◌++◌, codes, IsTrue, OnErr};
ghost use Rattle.std.specs.Fmt.{signed_decimal};
ghost use Rattle.pip_model.specs.Certificate.{groups, spell_terms, spell_steps, spell_refutations, spell_leaves, spell_vector, spell_certificate};
ghost use Rattle.pip_model.specs.Printed.{certificate_fits};
ghost use Rattle.text_printing.specs.Printing.{Appends, Begins};
ghost use Rattle.leaf_certificate.specs.Printing.{IsReadBack, spell_term, spell_step, spell_refutation, spell_leaf, spell_head};

use affine_forms::WantOfMemory;
use certificate_parts::{Certificate, LeafProofs, Refutation, Step, Terms};
use std::alloc::AllocError;
use text_printing::{put, put_entry, put_mark, put_number, put_row};

/// Appends the text of a certificate, or leaves `out` as it was. The text is read back as this certificate, whatever
/// stands behind it.
#[tactic(auto, using(crate::proofs::Spellings::read_back))]
pub fn print_certificate(c: &Certificate, out: &mut Vec<u8>) -> Result<(), WantOfMemory>
    ensures ok { Appends (spell_certificate c.now) out.old.items out.new.items result }
    ensures err { OnErr result (out.new.items ≡ out.old.items) }
    ensures read_back { IsReadBack (spell_certificate c.now) c.now }
{
    let start = out.len();
    if put_certificate(out, c).is_err() {
        out.truncate(start);
        return Err(WantOfMemory);
    }
    Ok(())
}

fn put_certificate(out: &mut Vec<u8>, c: &Certificate) -> Result<(), AllocError>
    ensures fits { IsTrue (certificate_fits c.now) }
    ensures ok { Appends (spell_certificate c.now) out.old.items out.new.items result }
    ensures kept { Begins out.old.items out.new.items }
{
    let leaves = c.as_slice();
    put_head(out, c)?;
    put_leaves(out, c.shares(), leaves)?;
    put(out, b")\n")
}

// The line of the format and the vector.
fn put_head(out: &mut Vec<u8>, c: &Certificate) -> Result<(), AllocError>
    ensures ok { Appends (spell_head c.now.shares c.now.vector) out.old.items out.new.items result }
    ensures kept { Begins out.old.items out.new.items }
{
    put_format(out, c.format())?;
    put_vector(out, c)?;
    put(out, b"\n")
}

fn put_format(out: &mut Vec<u8>, format: i128) -> Result<(), AllocError>
    ensures ok { Appends (codes "(certificate " ++ signed_decimal format ++ codes " ")
        out.old.items out.new.items result }
    ensures kept { Begins out.old.items out.new.items }
{
    put(out, b"(certificate ")?;
    put_number(out, format)?;
    put(out, b" ")
}

fn put_vector(out: &mut Vec<u8>, c: &Certificate) -> Result<(), AllocError>
    ensures ok { Appends (spell_vector c.now.vector) out.old.items out.new.items result }
    ensures kept { Begins out.old.items out.new.items }
{
    match c.vector() {
        Some(numbers) => put_row(out, numbers),
        None => put(out, b"void"),
    }
}

fn put_leaves(out: &mut Vec<u8>, shares: bool, leaves: &[LeafProofs]) -> Result<(), AllocError>
    ensures ok { Appends (spell_leaves shares leaves.now) out.old.items out.new.items result }
    ensures kept { Begins out.old.items out.new.items }
{
    for leaf in leaves {
        put_leaf(out, shares, leaf)?;
    }
    Ok(())
}

fn put_leaf(out: &mut Vec<u8>, shares: bool, leaf: &LeafProofs) -> Result<(), AllocError>
    ensures ok { Appends (spell_leaf shares leaf.now) out.old.items out.new.items result }
    ensures kept { Begins out.old.items out.new.items }
{
    put_mark(out, b"(\n")?;
    put_groups(out, shares, leaf)?;
    put_mark(out, b")\n")
}

// In format 2 the line of the shared steps stands first.
fn put_groups(out: &mut Vec<u8>, shares: bool, leaf: &LeafProofs) -> Result<(), AllocError>
    ensures ok { Appends (spell_refutations (groups shares leaf.now)) out.old.items out.new.items result }
    ensures kept { Begins out.old.items out.new.items }
{
    if shares {
        put_refutation(out, leaf.shared())?;
    }
    put_refutations(out, leaf.as_slice())
}

fn put_refutations(out: &mut Vec<u8>, refutations: &[Refutation]) -> Result<(), AllocError>
    ensures ok { Appends (spell_refutations refutations.now) out.old.items out.new.items result }
    ensures kept { Begins out.old.items out.new.items }
{
    for refutation in refutations {
        put_refutation(out, refutation)?;
    }
    Ok(())
}

fn put_refutation(out: &mut Vec<u8>, refutation: &Refutation) -> Result<(), AllocError>
    ensures ok { Appends (spell_refutation refutation.now) out.old.items out.new.items result }
    ensures kept { Begins out.old.items out.new.items }
{
    put_mark(out, b"(")?;
    put_steps(out, refutation.as_slice())?;
    put_mark(out, b")\n")
}

fn put_steps(out: &mut Vec<u8>, steps: &[Step]) -> Result<(), AllocError>
    ensures ok { Appends (spell_steps steps.now) out.old.items out.new.items result }
    ensures kept { Begins out.old.items out.new.items }
{
    for step in steps {
        put_step(out, step)?;
    }
    Ok(())
}

fn put_step(out: &mut Vec<u8>, step: &Step) -> Result<(), AllocError>
    ensures ok { Appends (spell_step step.now) out.old.items out.new.items result }
    ensures kept { Begins out.old.items out.new.items }
{
    put_divisor(out, step.divisor)?;
    put_terms(out, step.terms.as_slice())?;
    put_mark(out, b")")
}

fn put_divisor(out: &mut Vec<u8>, divisor: i128) -> Result<(), AllocError>
    ensures ok { Appends (codes "(" ++ signed_decimal divisor) out.old.items out.new.items result }
    ensures kept { Begins out.old.items out.new.items }
{
    put_mark(out, b"(")?;
    put_number(out, divisor)
}

fn put_terms(out: &mut Vec<u8>, terms: &[(i128, i128)]) -> Result<(), AllocError>
    ensures ok { Appends (spell_terms terms.now) out.old.items out.new.items result }
    ensures kept { Begins out.old.items out.new.items }
{
    for term in terms {
        put_term(out, *term)?;
    }
    Ok(())
}

fn put_term(out: &mut Vec<u8>, term: (i128, i128)) -> Result<(), AllocError>
    ensures ok { Appends (spell_term term) out.old.items out.new.items result }
    ensures kept { Begins out.old.items out.new.items }
{
    let (index, multiplier) = term;
    put_entry(out, index)?;
    put_entry(out, multiplier)
}
