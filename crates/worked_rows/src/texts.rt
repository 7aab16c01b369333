//! Texts of many like parts.
use std::alloc::{AllocError, Global};

// Appends so many copies of a piece.
pub(crate) fn repeat(text: &mut Vec<u8>, piece: &[u8], count: usize) -> Result<(), AllocError> {
    for _ in 0..count {
        text.extend_from_slice(piece)?;
    }
    Ok(())
}

// So many copies of a piece between two others.
pub(crate) fn between(
    alloc: Global,
    front: &[u8],
    piece: &[u8],
    count: usize,
    back: &[u8],
) -> Result<Vec<u8>, AllocError> {
    let mut text = front.to_vec(alloc)?;
    repeat(&mut text, piece, count)?;
    text.extend_from_slice(back)?;
    Ok(text)
}
