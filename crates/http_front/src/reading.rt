//! Reads a request (RFC 9112).

ghost use Rattle.std.specs.Prelude.{◌≡◌, ◌≤◌, ◌+◌, true, length, take, drop, codes, IfOk, Ok, if◌then◌else◌};
ghost use Rattle.httparse.specs.Spans.{IsWithin, span_bytes};
ghost use Rattle.http_text.specs.Target.{is_target, path};
ghost use Rattle.http_text.specs.Reading.{is_served};
ghost use Rattle.http_front.specs.Requests.{HasTarget, target_text, path_text, Receives, Stands, ReceivesRest, ReceivesContent, PutsInterim};

use crate::kept::Kept;
use crate::looking::WholeHead;
use crate::pulling::{Filled, HeadRead, fill, read_head};
use http::StatusCode;
use http_text::target::path_of;
use httparse::spans::Span;
use okws_base::items::Items;
use okws_outer::conn::Conn;
use okws_outer::stream::Put;
use std::alloc::{AllocError, Global};

/// A request that is whole.
#[derive(Drop)]
pub struct Request {
    /// GET, HEAD or POST.
    pub method: &'static [u8],
    /// All bytes up to and with the empty line.
    pub head: Items<u8>,
    /// Where the target stands in the head.
    pub target: Span,
    /// As many bytes as the head tells, at most 262,144.
    pub content: Items<u8>,
}

impl Request {
    /// The path of the target, without its query string (RFC 9112, section 3.2).
    pub fn path(&self) -> &[u8]
        ensures { HasTarget self.now → result.now ≡ path_text self.now }
    {
        path_or_slash(self.target_bytes())
    }

    fn target_bytes(&self) -> &[u8]
        ensures { IsWithin (length self.now.head) self.now.target → result.now ≡ target_text self.now }
    {
        let head = self.head.as_slice();
        head.get(self.target.start..self.target.end).unwrap_or(b"/")
    }
}

/// The path of a target that is taken, else `/`.
fn path_or_slash(target: &[u8]) -> &[u8]
    ensures { result.now ≡ (if is_target target.now then path target.now else codes "/") }
{
    match path_of(target) {
        Some(path) => path,
        None => b"/",
    }
}

/// What a client asks for.
#[derive(Drop)]
pub enum Incoming {
    Request(Request),
    /// The bytes are refused by this status.
    Refused(StatusCode),
    /// A call of the connection failed and was counted.
    ConnFault,
    /// Memory was refused.
    NoMemory,
}

/// The interim response (RFC 9110, section 15.2.1).
const CONTINUE: &[u8] = b"HTTP/1.1 100 Continue\r\n\r\n";

/// Reads a request, or as many bytes as tell that there is none. To a client that waits for it the
/// interim response is written before its content is read. What was read and written is kept,
/// whatever the answer; what was kept before is forgotten.
///
/// A request is refused by 431, 400, 501 or 413, as its bytes say; it is a fault where a call of the
/// connection failed, which was counted.
pub fn read_request<C: Conn>(alloc: Global, conn: &mut C, kept: &mut Kept) -> Incoming
    ensures { Receives (C.wire conn.old) (C.wire conn.new) kept.new result }
{
    kept.begin();
    match read_head(conn, &mut kept.bytes, &mut kept.room) {
        HeadRead::Whole(head) => {
            kept.to_head = head.to_head;
            read_rest(alloc, conn, kept, &head)
        }
        HeadRead::Refused(status) => Incoming::Refused(status),
        HeadRead::Ended => Incoming::Refused(StatusCode::BAD_REQUEST),
        HeadRead::Failed => Incoming::ConnFault,
        HeadRead::NoMemory => Incoming::NoMemory,
    }
}

/// Reads what follows a whole head, where it passed its checks.
fn read_rest<C: Conn>(alloc: Global, conn: &mut C, kept: &mut Kept, head: &WholeHead) -> Incoming
    requires stands { Stands kept.old.bytes.items head.now }
    requires fresh { kept.old.interim ≡ 0 }
    ensures { ReceivesRest (C.wire conn.old) (C.wire conn.new) kept.old kept.new head.now result }
{
    let size = match &head.checked {
        Ok(size) => *size,
        Err(status) => return Incoming::Refused(*status),
    };
    if !put_due(conn, head.waits, &mut kept.interim) {
        return Incoming::ConnFault;
    }
    read_content(alloc, conn, kept, head, size)
}

/// Writes the interim response where the client waits for it.
fn put_due<C: Conn>(conn: &mut C, waits: bool, written: &mut usize) -> bool
    requires { written.old ≡ 0 }
    ensures { PutsInterim (C.wire conn.old) (C.wire conn.new) waits written.new result }
{
    if waits {
        put_interim(conn, written)
    } else {
        true
    }
}

/// Writes the interim response; or a part of it, where the put failed and was counted.
fn put_interim<C: Conn>(conn: &mut C, written: &mut usize) -> bool
    ensures { PutsInterim (C.wire conn.old) (C.wire conn.new) true written.new result }
{
    match conn.put(CONTINUE) {
        Put::Done => {
            *written = CONTINUE.len();
            true
        }
        Put::Stopped(count) => {
            *written = count;
            false
        }
    }
}

/// Reads the content behind a whole head.
fn read_content<C: Conn>(
    alloc: Global,
    conn: &mut C,
    kept: &mut Kept,
    head: &WholeHead,
    size: usize,
) -> Incoming
    requires stands { Stands kept.old.bytes.items head.now }
    requires passed { head.now.checked ≡ Ok size }
    ensures { ReceivesContent (C.wire conn.old) (C.wire conn.new) kept.old kept.new head.now result }
{
    match fill(conn, &mut kept.bytes, &mut kept.room, head.len + size) {
        Filled::Whole => match request_of(alloc, &kept.bytes, head, size) {
            Ok(request) => Incoming::Request(request),
            Err(_) => Incoming::NoMemory,
        },
        Filled::Ended => Incoming::Refused(StatusCode::BAD_REQUEST),
        Filled::Failed => Incoming::ConnFault,
        Filled::NoMemory => Incoming::NoMemory,
    }
}

fn items(alloc: Global, bytes: &[u8]) -> Result<Items<u8>, AllocError>
    ensures { IfOk result (λ items. items ≡ bytes.now) }
{
    Ok(Items::of(Vec::from_slice(alloc, bytes)?))
}

/// The method that is served and is this one; it stands in the program.
fn served(method: &[u8]) -> &'static [u8]
    ensures { is_served method.now ≡ true → result.now ≡ method.now }
{
    match method {
        b"GET" => b"GET",
        b"HEAD" => b"HEAD",
        _ => b"POST",
    }
}

/// The request of these bytes, which are a head and its content. Fails only where memory is refused.
fn request_of(
    alloc: Global,
    bytes: &[u8],
    head: &WholeHead,
    size: usize,
) -> Result<Request, AllocError>
    requires whole { head.now.len + size ≤ length bytes.now }
    requires method { IsWithin head.now.len head.now.method }
    requires served { is_served (span_bytes bytes.now head.now.method) ≡ true }
    ensures method { IfOk result (λ r. r.method.now ≡ span_bytes bytes.now head.now.method) }
    ensures target { IfOk result (λ r. r.target ≡ head.now.target) }
    ensures head { IfOk result (λ r. r.head ≡ take head.now.len bytes.now) }
    ensures content { IfOk result (λ r. r.content ≡ take size (drop head.now.len bytes.now)) }
{
    Ok(Request {
        method: served(head.method.of(bytes)),
        head: items(alloc, &bytes[..head.len])?,
        target: head.target,
        content: items(alloc, &bytes[head.len..head.len + size])?,
    })
}
