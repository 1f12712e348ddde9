//! The entries as text.

ghost use Rattle.std.specs.Prelude.{◌≡◌, ◌++◌, IfOk, OnOk, option_map};
ghost use Rattle.guestbook.specs.Listing.{entry, line, lines};

use itoa::Buffer;
use okws_base::value::{Row, Text, Value};
use std::alloc::{AllocError, Global};

/// The number and the text of a row that is one INT and one TEXT.
fn entry_of(row: &Row) -> Option<(i64, &Text)>
    ensures { option_map (λ e. (e.0, e.1.now)) result ≡ entry row.now }
{
    match row.as_slice() {
        [Value::Int(id), Value::Text(who)] => Some((*id, who)),
        _ => None,
    }
}

/// Bytes for which the text of the lines has room from its beginning on.
const FIRST_ROOM: usize = 256;

/// Puts the line of an entry behind a text. Fails only where memory is refused.
fn push_line(text: &mut Vec<u8>, id: i64, who: &Text) -> Result<(), AllocError>
    ensures { OnOk result (text.new.items ≡ text.old.items ++ line id who.now) }
{
    let mut digits = Buffer::new();
    text.extend_from_slice(digits.format(id).as_bytes())?;
    text.push(b' ')?;
    text.extend_from_slice(who.as_bytes())?;
    text.push(b'\n')?;
    Ok(())
}

/// A line for each row, where each is one INT and one TEXT; else None. Fails only where memory is refused.
pub fn lines_of(alloc: Global, rows: &[Row]) -> Result<Option<Vec<u8>>, AllocError>
    ensures { IfOk result (λ found. option_map (λ text. text.items) found ≡ lines rows.now) }
{
    let mut text = Vec::with_capacity(alloc, FIRST_ROOM)?;
    for row in rows {
        match entry_of(row) {
            Some((id, who)) => push_line(&mut text, id, who)?,
            None => return Ok(None),
        }
    }
    Ok(Some(text))
}
