//! Connections whose calls fail, and responses to them.

use crate::holding::{counts, holds, same};
use http::StatusCode;
use http_front::kept::Kept;
use http_front::reading::{Incoming, read_request};
use http_front::writing::{Responded, respond};
use okws_outer::memory::conn::MemoryConn;
use std::alloc::Global;
use std::process::Abort;

/// A connection whose call of this number fails tells a fault, with so many bytes read and so many given of the
/// interim response.
fn fails_at(rt: &impl Abort, alloc: Global, call: u64, read: usize, interim: usize) {
    let bytes =
        b"POST / HTTP/1.1\r\nHost: h\r\nExpect: 100-continue\r\nContent-Length: 2\r\n\r\nok";
    let failing = [call];
    let conn = MemoryConn::new(alloc, bytes, &[69, 1], 1_000, &failing);
    let mut conn = conn.expect(rt, "memory was refused");
    let mut kept = Kept::new(alloc).expect(rt, "memory was refused");
    let incoming = read_request(alloc, &mut conn, &mut kept);
    holds(rt, matches!(incoming, Incoming::ConnFault), "a fault");
    counts(rt, kept.bytes.len(), read);
    counts(rt, kept.interim, interim);
    holds(rt, conn.faults() == 1, "one fault");
}

#[test]
fn faults_are_told(rt: HostRuntime) {
    for (call, read, interim) in [(0, 0, 0), (1, 69, 0), (2, 69, 25), (3, 70, 25)] {
        fails_at(&rt, rt.alloc(), call, read, interim);
    }
}

/// A response over a connection with so much room, to which these bytes are given.
fn is_given(
    rt: &impl Abort,
    alloc: Global,
    method: &[u8],
    room: usize,
    responded: Responded,
    want: &[u8],
) {
    let conn = MemoryConn::new(alloc, b"", &[], room, &[]);
    let mut conn = conn.expect(rt, "memory was refused");
    let mut kept = Kept::new(alloc).expect(rt, "memory was refused");
    let got = respond(
        &mut conn,
        &mut kept,
        StatusCode::SEE_OTHER,
        b"text/plain",
        b"/g",
        b"ok",
        method,
    );
    holds(rt, got == responded, "a response");
    same(rt, conn.given(), want);
    counts(rt, kept.response, want.len());
}

#[test]
fn responses_are_written(rt: HostRuntime) {
    let text =
        b"HTTP/1.1 303 See Other\r\nContent-Type: text/plain\r\nLocation: /g\r\nContent-Length: 2\r\nConnection: close\r\n\r\nok".as_slice();
    let head = &text[..text.len() - 2];
    is_given(&rt, rt.alloc(), b"GET", 1_000, Responded::Sent, text);
    is_given(&rt, rt.alloc(), b"HEAD", 1_000, Responded::Sent, head);
    is_given(
        &rt,
        rt.alloc(),
        b"POST",
        9,
        Responded::ConnFault,
        &text[..9],
    );
}

/// The head of a response with so much content.
fn head_before(rt: &impl Abort, alloc: Global, size: usize) -> String {
    let front = "HTTP/1.1 200 OK\r\nContent-Type: text/plain\r\nContent-Length: ";
    let head = format!(in alloc; "{front}{size}\r\nConnection: close\r\n\r\n");
    head.expect(rt, "memory was refused")
}

/// A response with this content, over a connection with so much room whose call of this number fails, is
/// answered so, and as many bytes as are told of those that are wanted are given.
fn respond_over(
    rt: &impl Abort,
    alloc: Global,
    content: &[u8],
    room: usize,
    failing: u64,
    responded: Responded,
    want: &[u8],
) {
    let failing = [failing];
    let conn = MemoryConn::new(alloc, b"", &[], room, &failing);
    let mut conn = conn.expect(rt, "memory was refused");
    let mut kept = Kept::new(alloc).expect(rt, "memory was refused");
    let got = respond(
        &mut conn,
        &mut kept,
        StatusCode::OK,
        b"text/plain",
        b"",
        content,
        b"GET",
    );
    holds(rt, got == responded, "a response");
    holds(rt, conn.given() == want, "what was given");
}

/// A response with so much content goes out in one put or in two, and as far as there is room.
fn goes_out(rt: &impl Abort, alloc: Global, size: usize, is_one: bool) {
    let content = vec![in alloc; b'a'; size].expect(rt, "memory was refused");
    let head = head_before(rt, alloc, size);
    let whole = Vec::from_slice(alloc, head.as_bytes());
    let mut whole = whole.expect(rt, "memory was refused");
    whole
        .extend_from_slice(&content)
        .expect(rt, "memory was refused");
    let (first, given) = if is_one {
        (Responded::Sent, whole.len())
    } else {
        (Responded::ConnFault, head.len())
    };
    for (room, failing, responded, given) in [
        (400_000, 2, Responded::Sent, whole.len()),
        (400_000, 1, first, given),
        (400_000, 0, Responded::ConnFault, 0),
        (65_000, 2, Responded::ConnFault, 65_000),
    ] {
        let want = whole.get(..given).unwrap_or(b"");
        respond_over(rt, alloc, &content, room, failing, responded, want);
    }
}

#[test]
fn long_responses_go_out_in_two_puts(rt: HostRuntime) {
    // The sizes of content up to which a response goes out in one put, and behind them.
    goes_out(&rt, rt.alloc(), 65_448, true);
    goes_out(&rt, rt.alloc(), 65_449, true);
    goes_out(&rt, rt.alloc(), 65_450, false);
    goes_out(&rt, rt.alloc(), 300_000, false);
}
