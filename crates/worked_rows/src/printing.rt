//! Texts that are printed of what was read: a tree without its answer, a certificate of format 1.
use affine_rows::WantOfMemory;
use leaf_certificate::{print_certificate, read_certificate};
use quast::Answer;
use quast_text::{Spoken, print_tree, read_answer};
use std::alloc::Global;
use std::test::Fail;

// Appends the tree of an answer, if it has one.
fn push_tree(spoken: &Spoken, out: &mut Vec<u8>) -> Result<(), WantOfMemory> {
    match &spoken.answer {
        Answer::Tree(tree) => print_tree(tree, out),
        Answer::Void => Ok(()),
    }
}

// Appends the tree of the answer over one parameter that a text begins with.
fn push_read_tree(alloc: Global, text: &[u8], out: &mut Vec<u8>) -> Result<(), Fail> {
    if let Some((spoken, _)) = read_answer(alloc, text, 0, 1)? {
        push_tree(&spoken, out)?;
    }
    Ok(())
}

#[test]
fn a_tree_is_printed_alone(rt: HostRuntime) -> Result<(), Fail> {
    let mut out = b"x".to_vec(rt.alloc())?;
    push_read_tree(rt.alloc(), b"((a)(if#[1 0](list #[2/4 3])()))", &mut out)?;
    assert!(rt; out.as_slice() == b"x(if #[ 1 0]\n(list\n#[ 1/2 3]\n)\n()\n)\n".as_slice());
    Ok(())
}

// Appends the certificate that a text begins with.
fn push_read_certificate(alloc: Global, text: &[u8], out: &mut Vec<u8>) -> Result<(), Fail> {
    if let Some((certificate, _)) = read_certificate(alloc, text, 0)? {
        print_certificate(&certificate, out)?;
    }
    Ok(())
}

#[test]
fn certificates_are_printed(rt: HostRuntime) -> Result<(), Fail> {
    let mut out = Vec::new(rt.alloc());
    push_read_certificate(
        rt.alloc(),
        b"x(certificate 1 void (((2 1 1) (1 2 1 3 2))))",
        &mut out,
    )?;
    push_read_certificate(
        rt.alloc(),
        b"(certificate 1 #[1] (() ((1 0 -1 1 1))))",
        &mut out,
    )?;
    assert!(rt;
        out.as_slice()
            == b"(certificate 1 void\n(\n((2 1 1)(1 2 1 3 2))\n)\n)\n(certificate 1 #[ 1]\n(\n()\n((1 0 -1 1 1))\n)\n)\n".as_slice()
    );
    Ok(())
}
