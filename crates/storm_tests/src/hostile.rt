//! What hostile services and clients come to, whole and in single bytes.

use crate::holding::{MEMORY, holds, same};
use crate::legal::judged;
use crate::site::SEED;
use crate::storm::{Calls, Scene, Storm, run};
use crate::tables::{CLIENTS, SERVICES, frames, is_row, request};
use monitor_model::record::End;
use outer_memory::children::ChildPlan;
use outer_memory::door::Client;
use record_lines::plain::{At, Deed};
use std::alloc::Global;
use std::process::Abort;
use std::sync::Wait;
use std::thread::Threads;
use token_core::token;

/// A guestbook, whose service has five queries, and another service, which has one.
const SITE: &[u8] = b"okws 1\n\
    proxy main\n\
    table main msgs id INT KEY who TEXT note TEXT\n\
    row main msgs 1 'ann' 'hi'\n\
    row main msgs 2 'bob' 'yo'\n\
    query main 1 SELECT id, who FROM msgs ORDER BY id\n\
    query main 2 INSERT INTO msgs (id, who, note) VALUES (?1, ?2, ?3)\n\
    query main 3 DELETE FROM msgs WHERE id = ?1\n\
    query main 4 UPDATE msgs SET note = ?1 WHERE note = 'hi'\n\
    query main 5 SELECT id FROM msgs WHERE note = 'hi'\n\
    service guest ./svc_guest\n\
    service other ./svc_probe\n\
    uri /guest guest\n\
    uri /other other\n\
    grant guest main 1 2 3 4 5\n\
    grant other main 1\n\
    template page\n\
    template secret\n\
    read guest page\n\
    log guest\n";

/// Open with the token.
const OPEN: &str = "00000017 41 0000 t";

/// Opened.
const OPENED: &str = "00000005 04 00000000";

/// Reply of 200 with `ok` as plain text.
const REPLY: &str = "00000015 45 00c8 0a 746578742f706c61696e 00 00000002 6f6b";

/// What a client is told of that Reply.
const REPLIED: &[u8] =
    b"HTTP/1.1 200 OK\r\nContent-Type: text/plain\r\nContent-Length: 2\r\nConnection: close\r\n\r\nok";

const GET: &[u8] = b"GET /guest HTTP/1.1\r\nHost: localhost\r\n\r\n";

/// What a client is told by the server itself, or of that Reply where the status is 200.
fn response(rt: &impl Abort, alloc: Global, status: &str) -> Vec<u8> {
    if status == "200 OK" {
        return Vec::from_slice(alloc, REPLIED).expect(rt, MEMORY);
    }
    let length = status.len() + 1;
    let text = format!(in alloc;
        "HTTP/1.1 {status}\r\nContent-Type: text/plain\r\nContent-Length: {length}\r\nConnection: close\r\n\r\n{status}\n"
    );
    Vec::from_slice(alloc, text.expect(rt, MEMORY).as_bytes()).expect(rt, MEMORY)
}

/// The digits of the first token of guest.
fn token_of_guest(rt: &impl Abort, alloc: Global) -> String {
    let token = token(&SEED, 0, 1, 0);
    hex::encode(alloc, &token.bytes).expect(rt, MEMORY)
}

/// What one client sends, what guest says, the size of the pieces in which both come, what the operator says, which is nothing, and
/// the numbers of the calls that fail, which are none.
#[derive(Drop)]
struct Talk {
    sends: Vec<u8>,
    says: Vec<u8>,
    sizes: Vec<usize>,
    piece: usize,
    console: Vec<u8>,
    calls: Vec<u64>,
}

fn client_of<'a>(rt: &impl Abort, alloc: Global, talk: &'a Talk) -> Vec<Client<'a>> {
    let mut clients = Vec::new(alloc);
    clients
        .push(Client {
            bytes: &talk.sends,
            sizes: &talk.sizes,
            room: 4_096,
            failing: &talk.calls,
        })
        .expect(rt, MEMORY);
    clients
}

fn child_of<'a>(rt: &impl Abort, alloc: Global, talk: &'a Talk) -> Vec<ChildPlan<'a>> {
    let mut children = Vec::new(alloc);
    children
        .push(ChildPlan {
            service: 0,
            incarnation: 1,
            says: &talk.says,
            piece: talk.piece,
            failing: &talk.calls,
            answers: &[],
        })
        .expect(rt, MEMORY);
    children
}

/// A run in which one client sends these bytes, and guest says these, both in pieces of at most so many.
fn meet<R: Abort + Wait + Threads + Sync>(
    rt: &R,
    alloc: Global,
    sends: &[u8],
    says: &[u8],
    piece: usize,
) -> Storm {
    let mut sizes = Vec::new(alloc);
    sizes.push(piece).expect(rt, MEMORY);
    let talk = Talk {
        sends: Vec::from_slice(alloc, sends).expect(rt, MEMORY),
        says: Vec::from_slice(alloc, says).expect(rt, MEMORY),
        sizes,
        piece,
        console: Vec::new(alloc),
        calls: Vec::new(alloc),
    };
    let clients = client_of(rt, alloc, &talk);
    let children = child_of(rt, alloc, &talk);
    let scene = Scene {
        site: SITE,
        clients: &clients,
        children: &children,
        console: &talk.console,
        connections: 1,
        failing: Calls {
            accepts: &talk.calls,
            starts: &talk.calls,
            console: &talk.calls,
            log: &talk.calls,
            rows: &talk.calls,
        },
    };
    run(rt, alloc, &scene)
}

/// What the one client was given.
fn answer<'a>(rt: &impl Abort, storm: &'a Storm) -> &'a [u8] {
    for door in &storm.doors {
        if let [exchange] = door.as_slice() {
            return &exchange.written;
        }
    }
    panic!(rt; "nobody was served")
}

/// How an end is called in a table.
fn name_of(end: End) -> &'static str {
    match end {
        End::Reply => "Reply",
        End::BadFrame => "BadFrame",
        End::FrameLimit => "FrameLimit",
        End::Ended => "Ended",
        End::LinkFault => "LinkFault",
        End::Starved => "Starved",
        End::Superseded(_) => "Superseded",
    }
}

/// How guest's first dialog ended.
fn end_of(rt: &impl Abort, alloc: Global, storm: &Storm) -> &'static str {
    let plain = storm.plain(rt, alloc);
    for line in plain.journal(At::Cell(0)) {
        if line.deed == Deed::Dialog {
            return line.end.map_or("no end", name_of);
        }
    }
    "no dialog"
}

/// A service that says this hears this, and its dialog ends so: its client is told of the Reply, or that the gateway is bad, and
/// then the service is launched anew.
fn try_service<R: Abort + Wait + Threads + Sync>(rt: &R, alloc: Global, row: &str, piece: usize) {
    let (said, rest) = row.split_once(" | ").expect(rt, row);
    let (hears, end) = rest.split_once(" | ").expect(rt, row);
    let said = format!(in alloc; "{OPEN}{said}{REPLY}").expect(rt, MEMORY);
    let hears = format!(in alloc; "{OPENED}{hears}").expect(rt, MEMORY);
    let token = token_of_guest(rt, alloc);
    let says = frames(rt, alloc, said.as_str(), token.as_str());
    let storm = meet(rt, alloc, GET, &says, piece);
    holds(rt, end_of(rt, alloc, &storm) == end, row);
    let heard = storm.heard.first().expect(rt, row);
    let due = frames(rt, alloc, hears.as_str(), "");
    holds(rt, heard.as_slice().ends_with(&due), row);
    let is_reply = end == "Reply";
    let status = if is_reply {
        "200 OK"
    } else {
        "502 Bad Gateway"
    };
    same(rt, answer(rt, &storm), &response(rt, alloc, status));
    let launches = if is_reply { 2 } else { 3 };
    holds(rt, storm.ran.counts.launches == launches, row);
    let plain = storm.plain(rt, alloc);
    holds(rt, judged(rt, alloc, &storm, &[], &plain).is_empty(), row);
}

#[test]
fn hostile_services_harm_their_own_dialog_alone(rt: HostRuntime) {
    for row in SERVICES.split('\n') {
        if is_row(row) {
            try_service(&rt, rt.alloc(), row, usize::MAX);
        }
    }
}

#[test]
fn hostile_services_do_so_in_single_bytes(rt: HostRuntime) {
    for row in SERVICES.split('\n') {
        if is_row(row) {
            try_service(&rt, rt.alloc(), row, 1);
        }
    }
}

/// A client that sends this is told this.
fn try_client<R: Abort + Wait + Threads + Sync>(rt: &R, alloc: Global, row: &str, piece: usize) {
    let (status, text) = row.split_once(" | ").expect(rt, row);
    let sends = request(rt, alloc, text);
    let says = frames(rt, alloc, REPLY, "");
    let storm = meet(rt, alloc, &sends, &says, piece);
    same(rt, answer(rt, &storm), &response(rt, alloc, status));
}

#[test]
fn hostile_clients_are_told_what_is_due(rt: HostRuntime) {
    for row in CLIENTS.split('\n') {
        if is_row(row) {
            try_client(&rt, rt.alloc(), row, usize::MAX);
            try_client(&rt, rt.alloc(), row, 1);
        }
    }
}
