//! Writes a response (RFC 9112, sections 4 and 6; RFC 9110, section 15), which takes no memory.

ghost use Rattle.std.specs.Prelude.{◌≡◌, ℕ, List, [], ◌++◌, codes, decimal, ◌+◌, ◌≤◌, length, vec_len, vec_capacity, Ok, IsSome, OnOk, if◌then◌else◌};
ghost use Rattle.okws_outer.specs.Conns.{ConnWire};
ghost use Rattle.http_text.specs.Status.{phrase, phrase_text, status_text};
ghost use Rattle.http_text.specs.Response.{is_head, location_line, response};
ghost use Rattle.http_front.specs.Writing.{Writes, LetsWait, Responds};
ghost use Rattle.http_front.specs.declared.kept.Kept.{Kept};

use crate::kept::Kept;
use crate::looking::is_head;
use http::StatusCode;
use http_text::status::phrase;
use itoa::Buffer;
use okws_outer::conn::Conn;
use okws_outer::stream::Put;

/// What writing a response answers.
#[derive(Clone, Copy, PartialEq, Eq)]
pub enum Responded {
    /// All of it was given.
    Sent,
    /// A put failed and was counted; only a front of it was given.
    ConnFault,
}

/// A put failed and was counted.
#[derive(Clone, Copy)]
struct Cut;

/// Puts bytes now.
fn put<C: Conn>(conn: &mut C, kept: &mut Kept, bytes: &[u8]) -> Result<(), Cut>
    requires { kept.old.waiting.items ≡ [] }
    ensures { (start : ConnWire) (before : Kept) (text : List ℕ) → Writes start before text (C.wire conn.old) kept.old (Ok tt) → Writes start before (text ++ bytes.now) (C.wire conn.new) kept.new result }
{
    match conn.put(bytes) {
        Put::Done => {
            kept.response = kept.response.saturating_add(bytes.len());
            Ok(())
        }
        Put::Stopped(count) => {
            kept.response = kept.response.saturating_add(count);
            Err(Cut)
        }
    }
}

/// Puts what waits.
fn flush<C: Conn>(conn: &mut C, kept: &mut Kept) -> Result<(), Cut>
    ensures written { (start : ConnWire) (before : Kept) (text : List ℕ) → Writes start before text (C.wire conn.old) kept.old (Ok tt) → Writes start before text (C.wire conn.new) kept.new result }
    ensures empty { OnOk result (kept.new.waiting.items ≡ []) }
{
    if kept.waiting.is_empty() {
        return Ok(());
    }
    match conn.put(&kept.waiting) {
        Put::Done => {
            kept.response = kept.response.saturating_add(kept.waiting.len());
            kept.waiting.clear();
            Ok(())
        }
        Put::Stopped(count) => {
            kept.response = kept.response.saturating_add(count);
            Err(Cut)
        }
    }
}

/// Lets a part wait for its put.
fn wait(kept: &mut Kept, part: &[u8])
    requires { vec_len kept.old.waiting + length part.now ≤ vec_capacity kept.old.waiting }
    ensures { LetsWait kept.old kept.new part.now }
{
    let _ = kept.waiting.extend_from_slice(part);
}

/// Lets a part wait for its put, where there is room; else what waits goes out before.
fn add<C: Conn>(conn: &mut C, kept: &mut Kept, part: &[u8]) -> Result<(), Cut>
    ensures { (start : ConnWire) (before : Kept) (text : List ℕ) → Writes start before text (C.wire conn.old) kept.old (Ok tt) → Writes start before (text ++ part.now) (C.wire conn.new) kept.new result }
{
    if part.len() <= kept.waiting.capacity() - kept.waiting.len() {
        wait(kept, part);
        return Ok(());
    }
    match flush(conn, kept) {
        Ok(()) => add_first(conn, kept, part),
        Err(cut) => Err(cut),
    }
}

/// Lets a part wait for its put where nothing waits, or puts one for which there is no room.
fn add_first<C: Conn>(conn: &mut C, kept: &mut Kept, part: &[u8]) -> Result<(), Cut>
    requires { kept.old.waiting.items ≡ [] }
    ensures { (start : ConnWire) (before : Kept) (text : List ℕ) → Writes start before text (C.wire conn.old) kept.old (Ok tt) → Writes start before (text ++ part.now) (C.wire conn.new) kept.new result }
{
    if part.len() <= kept.waiting.capacity() {
        wait(kept, part);
        return Ok(());
    }
    put(conn, kept, part)
}

/// Adds a part, unless one before it failed.
fn then<C: Conn>(
    sent: Result<(), Cut>,
    conn: &mut C,
    kept: &mut Kept,
    part: &[u8],
) -> Result<(), Cut>
    ensures { (start : ConnWire) (before : Kept) (text : List ℕ) → Writes start before text (C.wire conn.old) kept.old sent → Writes start before (text ++ part.now) (C.wire conn.new) kept.new result }
{
    match sent {
        Ok(()) => add(conn, kept, part),
        Err(cut) => Err(cut),
    }
}

/// The status line, but for its end.
fn status_line<C: Conn>(conn: &mut C, kept: &mut Kept, status: StatusCode) -> Result<(), Cut>
    requires { IsSome (phrase status) }
    ensures { (start : ConnWire) (before : Kept) → Writes start before [] (C.wire conn.old) kept.old (Ok tt) → Writes start before (codes "HTTP/1.1 " ++ status_text status) (C.wire conn.new) kept.new result }
{
    let sent = then(Ok(()), conn, kept, b"HTTP/1.1 ");
    let sent = then(sent, conn, kept, status.as_str().as_bytes());
    let sent = then(sent, conn, kept, b" ");
    then(sent, conn, kept, phrase_or_empty(status).as_bytes())
}

/// The phrase of a status, or an empty one.
fn phrase_or_empty(status: StatusCode) -> &'static str
    ensures { result.now ≡ phrase_text (phrase status) }
{
    match phrase(status.as_u16()) {
        Some(text) => text,
        None => "",
    }
}

/// The line of the location, where it isn't empty.
fn then_location<C: Conn>(
    sent: Result<(), Cut>,
    conn: &mut C,
    kept: &mut Kept,
    location: &[u8],
) -> Result<(), Cut>
    ensures { (start : ConnWire) (before : Kept) (text : List ℕ) → Writes start before text (C.wire conn.old) kept.old sent → Writes start before (text ++ location_line location.now) (C.wire conn.new) kept.new result }
{
    if location.is_empty() {
        return sent;
    }
    let sent = then(sent, conn, kept, b"Location: ");
    let sent = then(sent, conn, kept, location);
    then(sent, conn, kept, b"\r\n")
}

/// The decimal digits of a number.
fn then_decimal<C: Conn>(
    sent: Result<(), Cut>,
    conn: &mut C,
    kept: &mut Kept,
    n: usize,
) -> Result<(), Cut>
    ensures { (start : ConnWire) (before : Kept) (text : List ℕ) → Writes start before text (C.wire conn.old) kept.old sent → Writes start before (text ++ decimal n) (C.wire conn.new) kept.new result }
{
    let mut buffer = Buffer::new();
    then(sent, conn, kept, buffer.format(n).as_bytes())
}

/// The content, unless the response is to HEAD.
fn then_content<C: Conn>(
    sent: Result<(), Cut>,
    conn: &mut C,
    kept: &mut Kept,
    content: &[u8],
    method: &[u8],
) -> Result<(), Cut>
    ensures { (start : ConnWire) (before : Kept) (text : List ℕ) → Writes start before text (C.wire conn.old) kept.old sent → Writes start before (text ++ (if is_head method.now then [] else content.now)) (C.wire conn.new) kept.new result }
{
    if is_head(method) {
        return sent;
    }
    then(sent, conn, kept, content)
}

/// Puts what waits, as the last of the text.
fn last_flush<C: Conn>(conn: &mut C, kept: &mut Kept) -> Responded
    ensures { (start : ConnWire) (before : Kept) (text : List ℕ) → Writes start before text (C.wire conn.old) kept.old (Ok tt) → Responds start (C.wire conn.new) before kept.new text result }
{
    match flush(conn, kept) {
        Ok(()) => Responded::Sent,
        Err(_) => Responded::ConnFault,
    }
}

/// Puts what waits, unless a part before failed.
fn then_flush<C: Conn>(sent: Result<(), Cut>, conn: &mut C, kept: &mut Kept) -> Responded
    ensures { (start : ConnWire) (before : Kept) (text : List ℕ) → Writes start before text (C.wire conn.old) kept.old sent → Responds start (C.wire conn.new) before kept.new text result }
{
    match sent {
        Ok(()) => last_flush(conn, kept),
        Err(_) => Responded::ConnFault,
    }
}

/// Writes the response with this status, content type, location and content to a request of this
/// method: in one put where it has no more than 65,536 bytes. An empty location is none; to HEAD the
/// content is left out, and its length stays. How much of it was given is kept. It takes no memory.
#[tactic(auto, unfolding(http_text::specs::Response::response))]
pub fn respond<C: Conn>(
    conn: &mut C,
    kept: &mut Kept,
    status: StatusCode,
    content_type: &[u8],
    location: &[u8],
    content: &[u8],
    method: &[u8],
) -> Responded
    requires { IsSome (phrase status) }
    ensures { Responds (C.wire conn.old) (C.wire conn.new) kept.old kept.new (response status content_type.now location.now content.now method.now) result }
{
    kept.response = 0;
    kept.waiting.clear();
    let sent = status_line(conn, kept, status);
    let sent = then(sent, conn, kept, b"\r\nContent-Type: ");
    let sent = then(sent, conn, kept, content_type);
    let sent = then(sent, conn, kept, b"\r\n");
    let sent = then_location(sent, conn, kept, location);
    let sent = then(sent, conn, kept, b"Content-Length: ");
    let sent = then_decimal(sent, conn, kept, content.len());
    let sent = then(sent, conn, kept, b"\r\nConnection: close\r\n\r\n");
    let sent = then_content(sent, conn, kept, content, method);
    then_flush(sent, conn, kept)
}
