//! Servers whose rows stand in stores.

use crate::holding::{holds, same};
use crate::outside::{Ended, Plan, bytes, child, client, get, plain, serve};
use okws_outer::gate::NoGate;
use okws_server::status::Status;
use std::process::Abort;
use std::sync::Wait;
use std::thread::Threads;

/// The number 3, which is free.
const POST: &[u8] =
    b"POST /guest HTTP/1.1\r\nHost: localhost\r\nContent-Length: 18\r\n\r\nid=3&who=cy&note=x";

/// What the guestbook says to a POST of that number, to the next one, and to a GET: Open and Call of query 2, Reply
/// of 500; Call of query 2, Log, Reply of 303; Call of query 1, Reply of three lines.
const FAILED_FIRST: &str = "000000174100000000000000000001ade0b876903df1a0e56a5d40\
    000000204200000000000000020301000000000000000302000000026379020000000178\
    000000204501f40a746578742f706c61696e000000000d6e6f7420616e73776572656421\
    000000204200000000000000020301000000000000000302000000026379020000000178\
    0000000b4400000006706f73742033\
    0000001945012f0a746578742f706c61696e062f677565737400000000\
    0000000a42000000000000000100\
    000000244500c80a746578742f706c61696e00000000113120616e6e0a3220626f620a33206379\
    0a";

/// A run over stores of a POST, the same again, and a GET, of which such calls of the keepers fail.
fn visits<R: Abort + AllocGlobal + Wait + Threads + Sync>(rt: &R, calls: &[u64]) -> Ended {
    let says = bytes(rt, rt.alloc(), FAILED_FIRST);
    let shown = get(rt, rt.alloc(), "/guest");
    let plan = Plan {
        words: &[
            "serve", "site", "--port", "8080", "--doors", "1", "--serve", "3", "--store", "rows",
        ],
        clients: &[client(POST), client(POST), client(shown.as_bytes())],
        children: &[child(0, 1, &says)],
        calls,
        ..plain()
    };
    serve(rt, rt.alloc(), &plan, NoGate)
}

/// Whether a service was told of a call that failed, and of one that changed a row.
fn failed_and_changed(given: &[u8]) -> bool {
    given
        .windows(5)
        .any(|part| part == b"\0\0\0\x01\x0a".as_slice())
        && given.windows(13).any(|part| part == b"\0\0\0\x09\x06\0\0\0\0\0\0\0\x01".as_slice())
}

/// Whether a client is shown three lines.
fn has_three_lines(answer: &[u8]) -> bool {
    answer.ends_with(b"Content-Length: 17\r\nConnection: close\r\n\r\n1 ann\n2 bob\n3 cy\n")
}

#[test]
fn a_write_that_failed_at_its_store_goes_through_when_asked_again(rt: HostRuntime) {
    let ended = visits(&rt, &[1]);
    holds(&rt, ended.status == Status::Ok, "status");
    let given = ended.heard.first().expect(&rt, "no child");
    holds(
        &rt,
        failed_and_changed(given.as_slice()),
        "a call that failed, and a change",
    );
    let last = ended.answers.last().expect(&rt, "no answer");
    holds(&rt, has_three_lines(last), "the last answer");
}

#[test]
fn a_store_that_cannot_be_read_is_a_fault(rt: HostRuntime) {
    let ended = visits(&rt, &[0]);
    holds(&rt, ended.status == Status::StoreFault, "status");
    same(&rt, &ended.printed, b"store fault\n");
    holds(&rt, ended.started == 0, "started");
}
