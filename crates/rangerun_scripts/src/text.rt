//! What the parts of a script stand for.

use crate::fault::Fault;
use std::alloc::Global;

/// Returns the first word of a text, and the others.
pub fn first_word(text: &str) -> (&str, &str) {
    text.split_once(' ').unwrap_or((text, ""))
}

/// Returns the bytes that an argument stands for.
pub fn argument(alloc: Global, text: &str) -> Result<Vec<u8>, Fault> {
    let mut bytes = Vec::new(alloc);
    push_bytes(text, &mut bytes)?;
    Ok(bytes)
}

/// Appends the bytes that lines stand for.
pub fn push_lines(lines: &str, bytes: &mut Vec<u8>) -> Result<(), Fault> {
    let mut is_first = true;
    for line in lines.split(';') {
        if is_first {
            push_bytes(line, bytes)?;
        } else {
            bytes.push(b'\n')?;
            push_bytes(line.strip_prefix(' ').unwrap_or(line), bytes)?;
        }
        is_first = false;
    }
    Ok(())
}

// Appends the bytes that a text without lines stands for.
fn push_bytes(text: &str, bytes: &mut Vec<u8>) -> Result<(), Fault> {
    let mut is_first = true;
    for piece in text.split('\\') {
        let plain = if is_first {
            piece
        } else {
            push_escaped(piece, bytes)?
        };
        bytes.extend_from_slice(plain.as_bytes())?;
        is_first = false;
    }
    Ok(())
}

// Appends the byte that stands behind a backslash, if one does, and returns what stands behind it.
fn push_escaped<'t>(piece: &'t str, bytes: &mut Vec<u8>) -> Result<&'t str, Fault> {
    if let Some(behind) = piece.strip_prefix('e') {
        return Ok(behind);
    }
    let digits = piece.strip_prefix('x').ok_or(Fault::Misread)?;
    let (Some(number), Some(behind)) = (digits.get(..2), digits.get(2..)) else {
        return Err(Fault::Misread);
    };
    bytes.push(u8::from_str_radix(number, 16)?)?;
    Ok(behind)
}
