//! Each branch of the guestbook once, over links in memory. The bytes are those of the frames' table. That memory may be
//! refused isn't tested here.

use crate::holding::{MEMORY, holds};
use crate::kit::{decoded, encoded};
use guestbook::guest::guest;
use okws_outer::memory::link::{FedLink, MemoryLink};
use okws_outer::stream::Link;
use std::alloc::Global;
use std::process::Abort;
use std::sync::Wait;
use svc_kit::stop::Stop;

/// A Boot of incarnation 1 of service 0, with its token for proxy 0; and one without tokens.
const BOOT: &str = "0000001e01000000000001010000\
0000000000000001ade0b876903df1a0e56a5d40";

const BARE_BOOT: &str = "0000000801000000000001\
00";
/// What it says to open a session with that token, and two answers.
const OPEN: &str = "0000001741\
00000000000000000001ade0b876903df1a0e56a5d40";

const OPENED: &str = "000000050400000000";

const DENIED: &str = "00000002090b";
/// Query 1 in session 0, and two rows.
const SELECT: &str = "0000000a42000000000000000100";

const ROWS: &str = "000000280502000000020100000000000000010200000003616e6e\
0100000000000000020200000003626f62";
/// Query 2 with entry 3, and answers to it and to others.
const INSERT: &str = "0000002042000000000000000203\
010000000000000003020000000263790200000001\
78";

const CHANGED: &str = "00000009060000000000000001";

const DUPLICATE: &str = "000000010c";

const FAILED: &str = "000000010a";

const NO_MEMORY: &str = "000000010b";
/// What it says to log entry 3, and the answer.
const LOG: &str = "0000000b4400000006706f73742033";

const LOGGED: &str = "0000000108";
/// Replies: 200 with twelve bytes, 303, 400, 409 and 500.
const LISTED: &str = "0000001f4500c80a746578742f706c61696e000000000c\
3120616e6e0a3220626f620a";

const SEE_OTHER: &str = "0000001945012f0a746578742f706c61696e06\
2f677565737400000000";

const BAD_FORM: &str = "0000001c4501900a746578742f706c61696e0000000009\
62616420666f726d0a";

const TAKEN: &str = "000000194501990a746578742f706c61696e0000000006\
74616b656e0a";

const REFUSED: &str = "0000001b4501f40a746578742f706c61696e0000000008\
726566757365640a";
/// `page` with `<p>@{rows}</p>`, another template, and what is replied with the first: 200 with nineteen bytes.
const PAGE: &str = "0000001c03047061676500000001\
0000000e3c703e407b726f77737d3c2f703e";

const OTHER_PAGE: &str = "0000000e030474616765\
0000000900000000";

const BAD_PAGE: &str = "00000012030470616765\
00000002\
00000004407b787d";

const FILLED: &str = "000000254500c809746578742f68746d6c0000000013\
3c703e3120616e6e0a3220626f620a3c2f703e";

/// Puts bytes behind a frame.
fn extend(rt: &impl Abort, frame: &mut Vec<u8>, bytes: &[u8]) {
    frame.extend_from_slice(bytes).expect(rt, MEMORY);
}

/// The digits of a Request.
fn request(rt: &impl Abort, alloc: Global, head: &str, content: &str) -> String {
    let length = (head.len() as u64)
        .saturating_add(content.len() as u64)
        .saturating_add(9);
    let mut frame = Vec::new(alloc);
    extend(rt, &mut frame, &length.to_be_bytes()[4..]);
    frame.push(2).expect(rt, MEMORY);
    extend(rt, &mut frame, &(head.len() as u64).to_be_bytes()[4..]);
    extend(rt, &mut frame, head.as_bytes());
    extend(rt, &mut frame, &(content.len() as u64).to_be_bytes()[4..]);
    extend(rt, &mut frame, content.as_bytes());
    encoded(rt, alloc, &frame)
}

/// One letter for each way to end.
fn letter_of(stop: &Stop) -> char {
    match stop {
        Stop::Ended => 'E',
        Stop::BadFrame => 'B',
        Stop::LinkFault => 'F',
        Stop::Unlooked(_) => 'U',
        Stop::Unsayable => 'S',
        Stop::NoMemory => 'N',
    }
}

/// The guestbook hears these frames, says those, and ends so.
fn says<R: Abort + Wait>(rt: &R, alloc: Global, heard: &[&str], said: &[&str], end: char) {
    for piece in [1, 4096] {
        let mut link = MemoryLink::new(alloc, piece, &[]);
        link.make_room(4096).expect(rt, MEMORY);
        for digits in heard {
            let bytes = decoded(rt, alloc, digits);
            link.feed(&bytes).expect(rt, MEMORY);
        }
        link.feed_end();
        let stop = guest(rt, alloc, &mut link);
        holds(rt, letter_of(&stop) == end, "another end");
        let mut due = String::new(alloc);
        for digits in said {
            due.push_str(digits).expect(rt, MEMORY);
        }
        let given = encoded(rt, alloc, link.given());
        holds(rt, given.as_str() == due.as_str(), "other frames");
    }
}

const GET: &str = "GET /guest HTTP/1.1\r\nHost: localhost\r\n\r\n";

const POST: &str = "\r\nPOST /guest HTTP/1.1\r\nHost: localhost\r\n\r\n";

#[test]
fn entries_are_shown(rt: HostRuntime) {
    let alloc = rt.alloc();
    let get = request(&rt, alloc, GET, "");
    let get = get.as_str();
    let open = [BOOT, get, OPENED];
    says(
        &rt,
        alloc,
        &[BOOT, get, OPENED, ROWS],
        &[OPEN, SELECT, LISTED],
        'E',
    );
    // The session stays.
    says(
        &rt,
        alloc,
        &[BOOT, get, OPENED, ROWS, get, ROWS],
        &[OPEN, SELECT, LISTED, SELECT, LISTED],
        'E',
    );
    for answer in [CHANGED, DUPLICATE, DENIED, FAILED, NO_MEMORY] {
        let heard = [open[0], open[1], open[2], answer];
        says(&rt, alloc, &heard, &[OPEN, SELECT, REFUSED], 'E');
    }
    // A row that is no INT and TEXT.
    let row = "0000000f0501000000010100000000000000\
01";
    says(
        &rt,
        alloc,
        &[BOOT, get, OPENED, row],
        &[OPEN, SELECT, REFUSED],
        'E',
    );
}

#[test]
fn entries_are_made(rt: HostRuntime) {
    let alloc = rt.alloc();
    let post = request(&rt, alloc, POST, "id=3&who=cy&note=x&id=4");
    let post = post.as_str();
    let all = [OPEN, INSERT, LOG, SEE_OTHER];
    says(
        &rt,
        alloc,
        &[BOOT, post, OPENED, CHANGED, LOGGED],
        &all,
        'E',
    );
    says(
        &rt,
        alloc,
        &[BOOT, post, OPENED, DUPLICATE],
        &[OPEN, INSERT, TAKEN],
        'E',
    );
    for answer in [ROWS, DENIED, FAILED, NO_MEMORY] {
        says(
            &rt,
            alloc,
            &[BOOT, post, OPENED, answer],
            &[OPEN, INSERT, REFUSED],
            'E',
        );
    }
    for answer in [DENIED, FAILED, NO_MEMORY] {
        let heard = [BOOT, post, OPENED, CHANGED, answer];
        says(&rt, alloc, &heard, &[OPEN, INSERT, LOG, REFUSED], 'E');
    }
}

#[test]
fn forms_are_judged(rt: HostRuntime) {
    let alloc = rt.alloc();
    for form in [
        "",
        "who=cy&note=x",
        "id=3&note=x",
        "id=3&who=cy",
        "id=&who=cy&note=x",
        "id=-&who=cy&note=x",
        "id=%2B3&who=cy&note=x",
        "id=3.&who=cy&note=x",
        "id=9223372036854775808&who=cy&note=x",
        "id=-9223372036854775809&who=cy&note=x",
    ] {
        let post = request(&rt, alloc, POST, form);
        says(
            &rt,
            alloc,
            &[BOOT, post.as_str(), OPENED],
            &[OPEN, BAD_FORM],
            'E',
        );
    }
    let least = request(&rt, alloc, POST, "note=&who=%26+&id=-9223372036854775808");
    let insert = "0000001f42000000000000000203\
01800000000000000002000000022620\
0200000000";
    let insert = &insert[..];
    says(
        &rt,
        alloc,
        &[BOOT, least.as_str(), OPENED],
        &[OPEN, insert],
        'E',
    );
}

#[test]
fn pages_are_filled(rt: HostRuntime) {
    let alloc = rt.alloc();
    let get = request(&rt, alloc, GET, "");
    let get = get.as_str();
    let heard = [BOOT, PAGE, OTHER_PAGE, get, OPENED, ROWS];
    says(&rt, alloc, &heard, &[OPEN, SELECT, FILLED], 'E');
    let heard = [BOOT, PAGE, BAD_PAGE, get, OPENED, ROWS];
    says(&rt, alloc, &heard, &[OPEN, SELECT, REFUSED], 'E');
}

#[test]
fn sessions_are_tried_again(rt: HostRuntime) {
    let alloc = rt.alloc();
    let get = request(&rt, alloc, GET, "");
    let get = get.as_str();
    says(&rt, alloc, &[BARE_BOOT, get, get], &[REFUSED, REFUSED], 'E');
    for answer in [DENIED, FAILED, NO_MEMORY] {
        says(
            &rt,
            alloc,
            &[BOOT, get, answer, get, OPENED, ROWS],
            &[OPEN, REFUSED, OPEN, SELECT, LISTED],
            'E',
        );
    }
}

#[test]
fn frames_that_are_not_due_end_it(rt: HostRuntime) {
    let alloc = rt.alloc();
    let get = request(&rt, alloc, GET, "");
    let get = get.as_str();
    says(&rt, alloc, &[get], &[], 'U');
    says(&rt, alloc, &[BOOT, BOOT], &[], 'U');
    says(&rt, alloc, &[BOOT, get, ROWS], &[OPEN], 'U');
    says(
        &rt,
        alloc,
        &[BOOT, get, OPENED, LOGGED],
        &[OPEN, SELECT],
        'U',
    );
    says(
        &rt,
        alloc,
        &[BOOT, get, OPENED, ROWS, OPENED],
        &[OPEN, SELECT, LISTED],
        'U',
    );
    says(&rt, alloc, &[], &[], 'E');
    says(&rt, alloc, &[BOOT, "0000"], &[], 'B');
    says(&rt, alloc, &[BOOT, "0000000141"], &[], 'B');
}

#[test]
fn faults_end_it(rt: HostRuntime) {
    let alloc = rt.alloc();
    // The link is asked for four bytes of the Boot and then for the rest; the third call fails. So does a put without room.
    for (failing, room) in [([2u64].as_slice(), 64usize), (&[], 10)] {
        let mut link = MemoryLink::new(alloc, 4096, failing);
        link.make_room(room).expect(&rt, MEMORY);
        let boot = decoded(&rt, alloc, BOOT);
        link.feed(&boot).expect(&rt, MEMORY);
        let get = request(&rt, alloc, GET, "");
        let get = decoded(&rt, alloc, get.as_str());
        link.feed(&get).expect(&rt, MEMORY);
        let stop = guest(&rt, alloc, &mut link);
        holds(&rt, letter_of(&stop) == 'F', "a fault");
        holds(&rt, link.given().len() <= 10, "given");
    }
}
