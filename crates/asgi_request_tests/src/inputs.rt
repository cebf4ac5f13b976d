//! Inputs that are made of parts.
use std::alloc::{AllocError, Global};

/// The parts, one after another.
pub fn joined(alloc: Global, parts: &[&[u8]]) -> Result<Vec<u8>, AllocError> {
    let mut bytes = Vec::new(alloc);
    add_parts(&mut bytes, parts)?;
    Ok(bytes)
}

pub fn add_parts(bytes: &mut Vec<u8>, parts: &[&[u8]]) -> Result<(), AllocError> {
    for part in parts {
        bytes.extend_from_slice(part)?;
    }
    Ok(())
}

/// The front, this many letters, and the end.
pub fn filled(
    alloc: Global,
    front: &[u8],
    letters: usize,
    end: &[u8],
) -> Result<Vec<u8>, AllocError> {
    let mut bytes = Vec::new(alloc);
    add_filled(&mut bytes, front, letters, end)?;
    Ok(bytes)
}

fn add_filled(
    bytes: &mut Vec<u8>,
    front: &[u8],
    letters: usize,
    end: &[u8],
) -> Result<(), AllocError> {
    bytes.extend_from_slice(front)?;
    add_letters(bytes, letters)?;
    bytes.extend_from_slice(end)
}

fn add_letters(bytes: &mut Vec<u8>, letters: usize) -> Result<(), AllocError> {
    for _ in 0..letters {
        bytes.push(b'a')?;
    }
    Ok(())
}
