//! How bytes and values are printed.

use okws_base::value::Value;
use std::alloc::AllocError;

/// Bytes that are printed; of more only how many they are.
const MOST_PRINTED: usize = 300;

fn put_byte(out: &mut String, byte: u8) -> Result<(), AllocError> {
    match byte {
        b'\n' => out.push_str("\\n"),
        b'\r' => out.push_str("\\r"),
        b'\t' => out.push_str("\\t"),
        b'"' | b'\\' | 0..=31 | 127..=255 => write!(out, "\\x{byte:02x}"),
        _ => out.push(char::from(byte)),
    }
}

/// Bytes as a text in quotes.
pub fn put_text(out: &mut String, bytes: &[u8]) -> Result<(), AllocError> {
    if bytes.len() > MOST_PRINTED {
        return put_count(out, bytes.len());
    }
    out.push('"')?;
    for byte in bytes {
        put_byte(out, *byte)?;
    }
    out.push('"')
}

/// Bytes as hexadecimal digits.
pub fn put_digits(out: &mut String, bytes: &[u8]) -> Result<(), AllocError> {
    if bytes.len() > MOST_PRINTED {
        return put_count(out, bytes.len());
    }
    for byte in bytes {
        write!(out, "{byte:02x}")?;
    }
    Ok(())
}

fn put_count(out: &mut String, count: usize) -> Result<(), AllocError> {
    write!(out, "{count} bytes")
}

fn put_value(out: &mut String, value: &Value) -> Result<(), AllocError> {
    match value {
        Value::Int(number) => write!(out, " {number}"),
        Value::Text(text) => {
            out.push(' ')?;
            put_text(out, text.as_bytes())
        }
        Value::Bytes(bytes) => {
            out.push_str(" x")?;
            put_digits(out, bytes.as_slice())
        }
    }
}

/// Values, each with a space before it.
pub fn put_values(out: &mut String, values: &[Value]) -> Result<(), AllocError> {
    for value in values {
        put_value(out, value)?;
    }
    Ok(())
}
