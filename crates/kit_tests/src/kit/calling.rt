//! Calls over links in memory.

use super::{BOOT, OPENED, REQUEST, ROWS, decoded, encoded, fed};
use crate::holding::{MEMORY, holds};
use okws_outer::memory::sink::MemorySink;
use okws_outer::memory::source::MemorySource;
use okws_outer::stream::Link;
use std::alloc::Global;
use std::process::Abort;
use svc_kit::answer::{Answer, Outcome, Session};
use svc_kit::calling::Event;
use svc_kit::link::over;
use svc_kit::service::{Booting, Service};
use svc_kit::stop::Stop;

/// Session 0 at proxy 0.
const SESSION: Session = Session {
    proxy: 0,
    number: 0,
};

/// The service that this link boots.
fn booted<L: Link + Drop>(rt: &impl Abort, alloc: Global, link: L) -> Service<L> {
    match Service::boot(alloc, link) {
        Booting::Booted(service) => service,
        Booting::Stopped(..) => panic!(rt; "not booted"),
    }
}

fn bytes(rt: &impl Abort, alloc: Global, text: &str) -> Vec<u8> {
    Vec::from_slice(alloc, text.as_bytes()).expect(rt, MEMORY)
}

/// Opens a session at proxy 0, and none at proxy 1, for which there is no token.
fn opens<L: Link>(rt: &impl Abort, service: &mut Service<L>) {
    holds(
        rt,
        matches!(service.open(1), Ok(None)),
        "no number of its own",
    );
    match service.open(0) {
        Ok(Some(Answer::Given(session))) => holds(rt, session == SESSION, "session"),
        _ => panic!(rt; "no session"),
    }
}

/// Calls query 1, which gives two rows.
fn calls<L: Link>(rt: &impl Abort, alloc: Global, service: &mut Service<L>) {
    match service.call(SESSION, 1, Vec::new(alloc)) {
        Ok(Answer::Given(Outcome::Rows { columns, rows })) => {
            holds(rt, columns == 2, "columns");
            holds(rt, rows.as_slice().len() == 2, "rows");
        }
        _ => panic!(rt; "no rows"),
    }
}

/// Whether the server ended the link.
fn has_ended<T: Drop>(heard: Result<T, Stop>) -> bool {
    matches!(heard, Err(Stop::Ended))
}

/// Replies `ok`.
fn replies<L: Link>(rt: &impl Abort, alloc: Global, service: &mut Service<L>) {
    let plain = bytes(rt, alloc, "text/plain");
    let content = bytes(rt, alloc, "ok");
    holds(
        rt,
        service.reply(200, plain, Vec::new(alloc), content).is_ok(),
        "a reply",
    );
}

/// Hears a Request, opens a session, calls query 1 and replies `ok`.
fn one_dialog<L: Link>(rt: &impl Abort, alloc: Global, service: &mut Service<L>) {
    holds(rt, service.incarnation == 1, "incarnation");
    holds(
        rt,
        matches!(service.wait(), Ok(Event::Request { .. })),
        "a request",
    );
    opens(rt, service);
    calls(rt, alloc, service);
    replies(rt, alloc, service);
    holds(rt, has_ended(service.wait()), "ended");
}

/// What `one_dialog` says.
const SAID: &str =
    "000000174100000000000000000001ade0b876903df1a0e56a5d400000000a42000000000000000100000000154500c80a746578742f706c61696e00000000026f6b";

/// One dialog whose frames come in such pieces.
fn dialog_in_pieces(rt: &impl Abort, alloc: Global, piece: usize) {
    let link = fed(rt, alloc, piece, &[BOOT, REQUEST, OPENED, ROWS]);
    let mut service = booted(rt, alloc, link);
    one_dialog(rt, alloc, &mut service);
    let said = encoded(rt, alloc, service.link.given());
    holds(rt, said.as_str() == SAID, "said");
}

#[test]
fn frames_come_in_pieces(rt: HostRuntime) {
    for piece in [1, 50, 4096] {
        dialog_in_pieces(&rt, rt.alloc(), piece);
    }
}

/// The bytes of these frames, one after another.
fn joined(rt: &impl Abort, alloc: Global, frames: &[&str]) -> Vec<u8> {
    let mut bytes = Vec::new(alloc);
    for frame in frames {
        bytes
            .extend_from_slice(&decoded(rt, alloc, frame))
            .expect(rt, MEMORY);
    }
    bytes
}

#[test]
fn one_pull_brings_all(rt: HostRuntime) {
    let alloc = rt.alloc();
    let heard = joined(&rt, alloc, &[BOOT, REQUEST, OPENED, ROWS]);
    // The second pull is the one that finds the end.
    let source = MemorySource::new(&heard, 4096, &[2]);
    let sink = MemorySink::new(alloc, 4096, &[]).expect(&rt, MEMORY);
    let link = over(alloc, source, sink).expect(&rt, MEMORY);
    let mut service = booted(&rt, alloc, link);
    one_dialog(&rt, alloc, &mut service);
}

/// One letter for each answer to a Log, and why there is none.
fn logged(answer: &Result<Answer<()>, Stop>) -> char {
    match answer {
        Ok(Answer::Given(())) => 'g',
        Ok(Answer::Denied(_)) => 'd',
        Ok(Answer::Failed) => 'f',
        Ok(Answer::NoMemory) => 'm',
        Err(Stop::Ended) => 'E',
        Err(Stop::BadFrame) => 'B',
        Err(Stop::LinkFault) => 'F',
        Err(Stop::Unlooked(_)) => 'U',
        Err(Stop::Unsayable) => 'S',
        Err(Stop::NoMemory) => 'N',
    }
}

/// Logs are answered so, where the server says these frames behind its Boot.
fn logs(rt: &impl Abort, alloc: Global, frames: [&str; 2], want: &str) {
    let link = fed(rt, alloc, 4096, &[BOOT, frames[0], frames[1]]);
    let mut service = booted(rt, alloc, link);
    for letter in want.chars() {
        let result = service.log(bytes(rt, alloc, "hi"));
        holds(rt, logged(&result) == letter, want);
    }
}

#[test]
fn answers_of_a_log(rt: HostRuntime) {
    for (frames, want) in [
        (["0000000108", "00000002091f"], "gd"),
        (["000000010a", "000000010b"], "fm"),
        // A Duplicate answers no Log, and a Request no call.
        (["000000010c", REQUEST], "UU"),
        (["0000000108", ""], "gE"),
        (["00000001", ""], "B"),
    ] {
        logs(&rt, rt.alloc(), frames, want);
    }
}

/// A Reply of these fields can't be said.
fn is_unsayable<L: Link>(
    rt: &impl Abort,
    alloc: Global,
    service: &mut Service<L>,
    (status, kind, location): (u16, &str, &str),
) {
    let kind = bytes(rt, alloc, kind);
    let location = bytes(rt, alloc, location);
    let result = service.reply(status, kind, location, Vec::new(alloc));
    holds(rt, matches!(result, Err(Stop::Unsayable)), "unsayable");
}

#[test]
fn what_has_no_spelling_is_not_put(rt: HostRuntime) {
    let alloc = rt.alloc();
    let mut service = booted(&rt, alloc, fed(&rt, alloc, 4096, &[BOOT]));
    for reply in [
        (302, "text/plain", ""),
        (200, "", ""),
        (200, " text/plain", ""),
        (303, "text/plain", "/a b"),
    ] {
        is_unsayable(&rt, alloc, &mut service, reply);
    }
    holds(&rt, service.link.given().is_empty(), "nothing was put");
}
