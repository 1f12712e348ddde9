//! Bytes in hexadecimal digits, and escapes.

ghost use Rattle.std.specs.Prelude.{◌≡◌, ◌++◌, ◌<◌, IfOk, IfSome, OnOk, option_map};
ghost use Rattle.hex.specs.Hex.{hex_digit_value};
ghost use Rattle.plain_text.specs.Hexadecimal.{hex_digit, hex_byte, hex, hex_bytes, escaped_byte, escaped, HexIsReadAgain};

use hex::FromHexError;
use std::alloc::{AllocError, Global};

fn digit(n: u8) -> u8
    requires { n < 16 }
    ensures { result ≡ hex_digit n }
{
    if n < 10 { b'0' + n } else { b'a' - 10 + n }
}

fn push_hex_byte(text: &mut Vec<u8>, byte: u8) -> Result<(), AllocError>
    ensures { OnOk result (text.new.items ≡ text.old.items ++ hex_byte byte) }
{
    text.extend_from_slice(&[digit(byte / 16), digit(byte % 16)])
}

/// Puts bytes behind a text, in lower-case hexadecimal digits. Fails only where memory is refused.
pub fn push_hex(text: &mut Vec<u8>, bytes: &[u8]) -> Result<(), AllocError>
    ensures { OnOk result (text.new.items ≡ text.old.items ++ hex bytes.now) }
{
    for byte in bytes {
        push_hex_byte(text, *byte)?;
    }
    Ok(())
}

fn push_escaped_byte(text: &mut Vec<u8>, byte: u8) -> Result<(), AllocError>
    ensures { OnOk result (text.new.items ≡ text.old.items ++ escaped_byte byte) }
{
    if byte < 32 || byte > 126 || byte == b'\\' {
        text.extend_from_slice(&[b'\\', b'x', digit(byte / 16), digit(byte % 16)])
    } else {
        text.push(byte)?;
        Ok(())
    }
}

/// Puts bytes behind a text, of which each one below 32 or above 126 and each backslash stands as a
/// backslash, `x` and two lower-case hexadecimal digits. Fails only where memory is refused.
pub fn push_escaped(text: &mut Vec<u8>, bytes: &[u8]) -> Result<(), AllocError>
    ensures { OnOk result (text.new.items ≡ text.old.items ++ escaped bytes.now) }
{
    for byte in bytes {
        push_escaped_byte(text, *byte)?;
    }
    Ok(())
}

/// What a hexadecimal digit, in either case, stands for.
pub fn hex_value_of(byte: u8) -> Option<u8>
    ensures is { result ≡ hex_digit_value byte }
    ensures below { IfSome result (λ value. value < 16) }
{
    match byte {
        b'0'..=b'9' => Some(byte - b'0'),
        b'a'..=b'f' => Some(byte - b'a' + 10),
        b'A'..=b'F' => Some(byte - b'A' + 10),
        _ => None,
    }
}

/// The bytes that pairs of hexadecimal digits write, in either case; None where a digit has no other
/// or isn't one. Fails only where memory is refused.
pub fn hex_bytes_of(alloc: Global, digits: &[u8]) -> Result<Option<Vec<u8>>, AllocError>
    ensures { IfOk result (λ found. option_map (λ bytes. bytes.items) found ≡ hex_bytes digits.now) }
{
    match hex::decode(alloc, digits) {
        Ok(bytes) => Ok(Some(bytes)),
        Err(FromHexError::OutOfMemory) => Err(AllocError),
        Err(_) => Ok(None),
    }
}

/// The hexadecimal digits of bytes are read as these bytes.
pub fn hex_is_read_again()
    ensures { HexIsReadAgain }
{}
