//! What clients are answered.

use crate::holding::{MEMORY, holds, same};
use crate::outside::{Plan, REPLIED, REPLY, child, client, get, own, plain, serve};
use okws_outer::gate::NoGate;
use okws_server::status::Status;
use std::process::Abort;
use std::sync::Wait;
use std::thread::Threads;

/// What a server of one door gives one client, whose service replies `ok` to each request.
fn answer<R: Abort + AllocGlobal + Wait + Threads + Sync>(rt: &R, bytes: &[u8]) -> Vec<u8> {
    let bytes = Vec::from_slice(rt.alloc(), bytes).expect(rt, MEMORY);
    let plan = Plan {
        words: &[
            "serve", "site", "--port", "8080", "--doors", "1", "--serve", "1",
        ],
        clients: &[client(&bytes)],
        children: &[child(0, 1, REPLY)],
        ..plain()
    };
    let mut ended = serve(rt, rt.alloc(), &plan, NoGate);
    ended.answers.pop().expect(rt, "nobody was served")
}

#[test]
fn a_head_has_no_content(rt: HostRuntime) {
    let got = answer(&rt, b"HEAD /guest HTTP/1.0\r\n\r\n");
    same(
        &rt,
        &got,
        b"HTTP/1.1 200 OK\r\nContent-Type: text/plain\r\nContent-Length: 2\r\nConnection: close\r\n\r\n",
    );
}

/// What is refused, and the status.
const REFUSED: [(&[u8], &str); 6] = [
    (
        b"GET /guest HTTP/1.1\r\nHost: a\r\nHost: b\r\n\r\n",
        "400 Bad Request",
    ),
    (
        b"PUT /guest HTTP/1.1\r\nHost: a\r\n\r\n",
        "501 Not Implemented",
    ),
    (
        b"POST /guest HTTP/1.1\r\nHost: a\r\nContent-Length: 262145\r\n\r\n",
        "413 Content Too Large",
    ),
    (
        b"POST /guest HTTP/1.1\r\nHost: a\r\nContent-Length: 3\r\n\r\nab",
        "400 Bad Request",
    ),
    (b"", "400 Bad Request"),
    (b"GET /%67uest HTTP/1.1\r\nHost: a\r\n\r\n", "404 Not Found"),
];

#[test]
fn requests_are_refused_by_their_status(rt: HostRuntime) {
    for (bytes, status) in REFUSED {
        let got = answer(&rt, bytes);
        let want = own(&rt, rt.alloc(), status);
        same(&rt, &got, want.as_bytes());
    }
}

#[test]
fn paths_are_owned_by_whole_segments(rt: HostRuntime) {
    for (path, owned) in [("/guest", true), ("/guest/x", true), ("/guestx", false)] {
        let request = get(&rt, rt.alloc(), path);
        let got = answer(&rt, request.as_bytes());
        let is_replied = got.as_slice() == REPLIED.as_bytes();
        holds(&rt, is_replied == owned, path);
    }
}

#[test]
fn a_site_of_no_service_is_served(rt: HostRuntime) {
    let alloc = rt.alloc();
    let request = get(&rt, alloc, "/guest");
    let plan = Plan {
        site: "okws 1\n",
        words: &["serve", "site", "--port", "8080", "--serve", "1"],
        clients: &[client(request.as_bytes())],
        children: &[child(0, 1, REPLY)],
        ..plain()
    };
    let ended = serve(&rt, alloc, &plan, NoGate);
    holds(&rt, ended.status == Status::Ok, "status");
    let [answer] = ended.answers.as_slice() else {
        panic!(rt; "not one answer");
    };
    same(&rt, answer, own(&rt, alloc, "404 Not Found").as_bytes());
    let want = b"connections 1\naccepts 1\nlaunches 0\npublications 0\nlogged 0\n";
    same(&rt, &ended.printed, want);
}

#[test]
fn words_and_files_are_judged_first(rt: HostRuntime) {
    for (words, status) in [
        (["serve", "site"].as_slice(), Status::Usage),
        (
            &["serve", "nowhere", "--port", "1", "--serve", "1"],
            Status::ReadFault,
        ),
        (
            &["serve", "site", "--port", "0", "--serve", "1"],
            Status::Usage,
        ),
    ] {
        let ended = serve(&rt, rt.alloc(), &Plan { words, ..plain() }, NoGate);
        holds(&rt, ended.status == status, "status");
        holds(&rt, ended.started == 0, "started");
    }
}

#[test]
fn a_listing_past_the_room_is_an_out_fault(rt: HostRuntime) {
    let plan = Plan {
        words: &["check", "site"],
        room: 10,
        ..plain()
    };
    let ended = serve(&rt, rt.alloc(), &plan, NoGate);
    holds(&rt, ended.status == Status::OutFault, "status");
    same(&rt, &ended.printed, b"main 1 SEL");
}
