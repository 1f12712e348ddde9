//! Where a head that isn't whole ends, so that it's looked at again only where a byte could have
//! completed or broken it.

ghost use Rattle.std.specs.Prelude.{◌≡◌, ◌≤◌, ◌<◌, ◌+◌, ℕ, List, [], ◌∷◌, ◌++◌, length, take, true, IfSome, IsUtf8, ◌^◌};
ghost use Rattle.http_front.specs.Places.{At, Steps, StepsFrom, Stays, StaysOver, IsVersion};

use httparse::{is_header_value_token, is_method_token, is_uri_token};

/// Where the bytes of a head end.
#[derive(Clone, Copy, Drop)]
pub(crate) enum Place {
    /// Among the empty lines before a request line.
    Blanks,
    /// Behind the CR of one of them.
    BlankReturn,
    /// In a method.
    Method,
    /// In a target that begins at this byte.
    Target(usize),
    /// Behind a target and its space, where this byte is the next.
    Version(usize),
    /// Behind a whole line.
    Line,
    /// In the name of a field.
    Name,
    /// In the value of a field.
    Value,
    /// Behind the CR of a field.
    ValueReturn,
    /// Where it isn't known.
    Unknown,
}

fn after_blanks(byte: u8) -> Place
    ensures { Steps Place.Blanks byte result }
{
    if byte == b'\n' {
        Place::Blanks
    } else if byte == b'\r' {
        Place::BlankReturn
    } else if is_method_token(byte) {
        Place::Method
    } else {
        Place::Unknown
    }
}

fn after_blank_return(byte: u8) -> Place
    ensures { Steps Place.BlankReturn byte result }
{
    if byte == b'\n' {
        Place::Blanks
    } else {
        Place::Unknown
    }
}

fn after_method(byte: u8, before: usize) -> Place
    requires { before < 2 ^ 32 }
    ensures { StepsFrom before Place.Method byte result }
{
    if is_method_token(byte) {
        Place::Method
    } else if byte == b' ' {
        Place::Target(before + 1)
    } else {
        Place::Unknown
    }
}

/// Whether bytes are a target that is read to its end.
fn is_whole_target(target: &[u8]) -> bool
    ensures some { result ≡ true → 0 < length target.now }
    ensures text { result ≡ true → IsUtf8 target.now }
{
    !target.is_empty() && str::from_utf8(target).is_ok()
}

fn after_target(start: usize, byte: u8, before: &[u8]) -> Place
    requires { length before.now < 2 ^ 32 }
    ensures { At (Place.Target start) before.now → At result (before.now ++ byte ∷ []) }
{
    if is_uri_token(byte) {
        return Place::Target(start);
    }
    match before.get(start..) {
        Some(target) if byte == b' ' && is_whole_target(target) => Place::Version(before.len() + 1),
        _ => Place::Unknown,
    }
}

/// Whether bytes are a version, as they stand before the LF of a request line.
fn is_version(version: &[u8]) -> bool
    ensures { result ≡ true → IsVersion version.now }
{
    version == b"HTTP/1.1\r".as_slice()
        || version == b"HTTP/1.0\r".as_slice()
        || version == b"HTTP/1.1".as_slice()
        || version == b"HTTP/1.0".as_slice()
}

fn after_version(start: usize, byte: u8, before: &[u8]) -> Place
    ensures { At (Place.Version start) before.now → At result (before.now ++ byte ∷ []) }
{
    if byte != b'\n' {
        return Place::Version(start);
    }
    match before.get(start..) {
        Some(version) if is_version(version) => Place::Line,
        _ => Place::Unknown,
    }
}

fn after_line(byte: u8) -> Place
    ensures { Steps Place.Line byte result }
{
    if is_method_token(byte) {
        Place::Name
    } else {
        Place::Unknown
    }
}

fn after_name(byte: u8) -> Place
    ensures { Steps Place.Name byte result }
{
    if is_method_token(byte) {
        Place::Name
    } else if byte == b':' {
        Place::Value
    } else {
        Place::Unknown
    }
}

fn after_value(byte: u8) -> Place
    ensures { Steps Place.Value byte result }
{
    if is_header_value_token(byte) {
        Place::Value
    } else if byte == b'\r' {
        Place::ValueReturn
    } else if byte == b'\n' {
        Place::Line
    } else {
        Place::Unknown
    }
}

fn after_value_return(byte: u8) -> Place
    ensures { Steps Place.ValueReturn byte result }
{
    if byte == b'\n' {
        Place::Line
    } else {
        Place::Unknown
    }
}

/// Where the bytes end behind one more.
fn step(place: Place, before: &[u8], byte: u8) -> Place
    requires { length before.now < 2 ^ 32 }
    ensures { At place before.now → At result (before.now ++ byte ∷ []) }
{
    match place {
        Place::Blanks => after_blanks(byte),
        Place::BlankReturn => after_blank_return(byte),
        Place::Method => after_method(byte, before.len()),
        Place::Target(start) => after_target(start, byte, before),
        Place::Version(start) => after_version(start, byte, before),
        Place::Line => after_line(byte),
        Place::Name => after_name(byte),
        Place::Value => after_value(byte),
        Place::ValueReturn => after_value_return(byte),
        Place::Unknown => Place::Unknown,
    }
}

/// Where the bytes end, from where their first so many ended.
pub(crate) fn advance(place: Place, bytes: &[u8], from: usize) -> Place
    requires from { from ≤ length bytes.now }
    requires short { length bytes.now < 2 ^ 32 }
    ensures { At place (take from bytes.now) → At result bytes.now }
{
    let mut now = place;
    for end in from..bytes.len() {
        now = step(now, &bytes[..end], bytes[end]);
    }
    now
}

/// Where the bytes end behind one more that settles nothing.
fn stays(place: Place, byte: u8) -> Option<Place>
    ensures { IfSome result (Stays place byte) }
{
    match place {
        Place::Blanks if byte == b'\n' => Some(Place::Blanks),
        Place::Blanks if byte == b'\r' => Some(Place::BlankReturn),
        Place::BlankReturn if byte == b'\n' => Some(Place::Blanks),
        Place::Method if is_method_token(byte) => Some(Place::Method),
        Place::Target(start) if is_uri_token(byte) => Some(Place::Target(start)),
        Place::Name if is_method_token(byte) => Some(Place::Name),
        Place::Name if byte == b':' => Some(Place::Value),
        Place::Value if is_header_value_token(byte) => Some(Place::Value),
        _ => None,
    }
}

/// Where the bytes end behind more of which none settles anything.
pub(crate) fn stays_over(place: Place, piece: &[u8]) -> Option<Place>
    ensures { IfSome result (StaysOver place piece.now) }
{
    let mut now = place;
    for byte in piece {
        now = stays(now, *byte)?;
    }
    Some(now)
}
