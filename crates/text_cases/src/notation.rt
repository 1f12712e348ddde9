//! How bytes are written in a case. `\n`, `\r`, `\t` and `\x` with two lower-case digits are one byte each; `\(COUNT UNIT\)` is
//! the unit so many times, with the number of the time, from 0, in the place of a `\#` in it.

use std::alloc::{AllocError, Global};

fn put_unit(out: &mut String, unit: &str, number: u32) -> Result<(), AllocError> {
    match unit.split_once("\\#") {
        Some((front, behind)) => write!(out, "{front}{number}{behind}"),
        None => out.push_str(unit),
    }
}

/// What stands behind `\(`, written out.
fn put_repeated(out: &mut String, part: &str) -> Result<(), AllocError> {
    let (repeated, rest) = part.split_once("\\)").unwrap_or((part, ""));
    let (count, unit) = repeated.split_once(' ').unwrap_or(("0", repeated));
    for number in 0..count.parse::<u32>().unwrap_or(0) {
        put_unit(out, unit, number)?;
    }
    out.push_str(rest)
}

/// A text with its repetitions written out.
pub fn written_out(alloc: Global, text: &str) -> Result<String, AllocError> {
    let mut out = String::new(alloc);
    let mut parts = text.split("\\(");
    out.push_str(parts.next().unwrap_or(""))?;
    for part in parts {
        put_repeated(&mut out, part)?;
    }
    Ok(out)
}

fn digit_of(byte: u8) -> u8 {
    match byte {
        b'0'..=b'9' => byte.wrapping_sub(b'0'),
        _ => byte.wrapping_sub(b'a').wrapping_add(10),
    }
}

fn put(bytes: &mut Vec<u8>, first: u8, rest: &[u8]) -> Result<(), AllocError> {
    bytes.push(first)?;
    bytes.extend_from_slice(rest)
}

/// What stands behind a backslash.
fn put_escaped(bytes: &mut Vec<u8>, part: &[u8]) -> Result<(), AllocError> {
    match part {
        [b'n', rest @ ..] => put(bytes, b'\n', rest),
        [b'r', rest @ ..] => put(bytes, b'\r', rest),
        [b't', rest @ ..] => put(bytes, b'\t', rest),
        [b'x', high, low, rest @ ..] => {
            let high = digit_of(*high).wrapping_mul(16);
            put(bytes, high.wrapping_add(digit_of(*low)), rest)
        }
        _ => Ok(()),
    }
}

/// The bytes that a text stands for.
pub fn bytes_of(alloc: Global, text: &str) -> Result<Vec<u8>, AllocError> {
    let text = written_out(alloc, text)?;
    let mut bytes = Vec::new(alloc);
    let mut parts = text.as_str().split('\\');
    bytes.extend_from_slice(parts.next().unwrap_or("").as_bytes())?;
    for part in parts {
        put_escaped(&mut bytes, part.as_bytes())?;
    }
    Ok(bytes)
}
