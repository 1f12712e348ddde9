//! The words of the probe.

use plain_text::hexadecimal::hex_bytes_of;
use std::alloc::{AllocError, Global};

/// What the probe does at a request.
#[derive(Drop)]
pub enum Word {
    /// It ends.
    End,
    /// It says these parts, and its token between each two of them.
    Parts(Vec<Vec<u8>>),
}

/// The word that the text is: `end`, or pairs of hexadecimal digits in either case and `t` for the
/// token, in any order. None where it is neither.
pub fn read_word(alloc: Global, text: &[u8]) -> Result<Option<Word>, AllocError> {
    if text == b"end".as_slice() {
        return Ok(Some(Word::End));
    }
    let mut parts = Vec::new(alloc);
    let mut digits = Vec::new(alloc);
    for byte in text {
        if *byte == b't' {
            let Some(part) = hex_bytes_of(alloc, &digits)? else {
                return Ok(None);
            };
            parts.push(part)?;
            digits.clear();
        } else {
            digits.push(*byte)?;
        }
    }
    let Some(part) = hex_bytes_of(alloc, &digits)? else {
        return Ok(None);
    };
    parts.push(part)?;
    Ok(Some(Word::Parts(parts)))
}

/// The parts, one after another, and the token between each two of them.
pub fn joined(alloc: Global, parts: &[Vec<u8>], token: &[u8]) -> Result<Vec<u8>, AllocError> {
    let mut bytes = Vec::new(alloc);
    for (i, part) in parts.iter().enumerate() {
        if i > 0 {
            bytes.extend_from_slice(token)?;
        }
        bytes.extend_from_slice(part)?;
    }
    Ok(bytes)
}
