//! The guestbook's requests, frame by frame.

use crate::holding::{MEMORY, holds, same};
use crate::outside::{Ended, Plan, bytes, child, client, plain, serve};
use okws_outer::gate::NoGate;
use std::alloc::Global;
use std::process::Abort;
use std::sync::Wait;
use std::thread::Threads;

const GET: &[u8] = b"GET /guest HTTP/1.1\r\nHost: localhost\r\n\r\n";

/// The number 3, which is free.
const FREE: &[u8] =
    b"POST /guest HTTP/1.1\r\nHost: localhost\r\nContent-Length: 18\r\n\r\nid=3&who=cy&note=x";

/// The number 1, which is taken.
const TAKEN: &[u8] =
    b"POST /guest HTTP/1.1\r\nHost: localhost\r\nContent-Length: 18\r\n\r\nid=1&who=cy&note=x";

/// What the guestbook says: Open and Call of query 1, Reply of the lines; Call of query 2 with number 3,
/// Log, Reply of 303; Call of query 2 with number 1, Reply of 409.
const SAYS: &str = "000000174100000000000000000001ade0b876903df1a0e56a5d40\
    0000000a42000000000000000100\
    0000001f4500c80a746578742f706c61696e000000000c3120616e6e0a3220626f620a\
    000000204200000000000000020301000000000000000302000000026379020000000178\
    0000000b4400000006706f73742033\
    0000001945012f0a746578742f706c61696e062f677565737400000000\
    000000204200000000000000020301000000000000000102000000026379020000000178\
    000000194501990a746578742f706c61696e000000000674616b656e0a";

/// What it hears first: Boot, the first Request, Opened and Rows.
const BEGINS: &str = "0000001e010000000000010100000000000000000001ade0b876903df1a0e56a5d40\
    000000310200000028474554202f677565737420485454502f312e310d0a486f73743a206c6f63616c686f73740d0a0d0a00000000\
    000000050400000000\
    000000280502000000020100000000000000010200000003616e6e0100000000000000020200000003626f62";

/// Changed and Logged.
const SIGNED: &str = "000000090600000000000000010000000108";

/// Duplicate.
const REFUSED: &str = "000000010c";

const SHOWN: &[u8] =
    b"HTTP/1.1 200 OK\r\nContent-Type: text/plain\r\nContent-Length: 12\r\nConnection: close\r\n\r\n1 ann\n2 bob\n";

const SEE_OTHER: &[u8] =
    b"HTTP/1.1 303 See Other\r\nContent-Type: text/plain\r\nLocation: /guest\r\nContent-Length: 0\r\nConnection: close\r\n\r\n";

const CONFLICT: &[u8] =
    b"HTTP/1.1 409 Conflict\r\nContent-Type: text/plain\r\nContent-Length: 6\r\nConnection: close\r\n\r\ntaken\n";

/// The guestbook is shown, signed, and signed under a number that is taken.
fn visits<R: Abort + AllocGlobal + Wait + Threads + Sync>(rt: &R) -> Ended {
    let says = bytes(rt, rt.alloc(), SAYS);
    let plan = Plan {
        words: &[
            "serve", "site", "--port", "8080", "--doors", "1", "--serve", "3", "--log", "log",
        ],
        clients: &[client(GET), client(FREE), client(TAKEN)],
        children: &[child(0, 1, &says)],
        ..plain()
    };
    serve(rt, rt.alloc(), &plan, NoGate)
}

#[test]
fn a_guestbook_is_shown_and_signed(rt: HostRuntime) {
    let ended = visits(&rt);
    let [shown, signed, taken] = ended.answers.as_slice() else {
        panic!(rt; "not three answers");
    };
    same(&rt, shown, SHOWN);
    same(&rt, signed, SEE_OTHER);
    same(&rt, taken, CONFLICT);
    let log = ended.log.as_ref().map(|log| log.as_slice());
    holds(&rt, log == Some(b"guest 1 post 3\n".as_slice()), "log");
}

/// The Request frame of a POST of 61 bytes of head and 18 of content, behind these bytes.
fn push_request(rt: &impl Abort, heard: &mut Vec<u8>, request: &[u8]) {
    let (head, content) = request.split_at_checked(61).expect(rt, "a short request");
    for part in [
        b"\0\0\0\x58\x02\0\0\0\x3d".as_slice(),
        head,
        b"\0\0\0\x12",
        content,
    ] {
        heard.extend_from_slice(part).expect(rt, MEMORY);
    }
}

fn wanted(rt: &impl Abort, alloc: Global) -> Vec<u8> {
    let mut heard = bytes(rt, alloc, BEGINS);
    for (request, answer) in [(FREE, SIGNED), (TAKEN, REFUSED)] {
        push_request(rt, &mut heard, request);
        heard
            .extend_from_slice(&bytes(rt, alloc, answer))
            .expect(rt, MEMORY);
    }
    heard
}

#[test]
fn a_guestbook_hears_its_frames(rt: HostRuntime) {
    let ended = visits(&rt);
    let heard = ended.heard.first().expect(&rt, "no child");
    same(&rt, heard, &wanted(&rt, rt.alloc()));
}
