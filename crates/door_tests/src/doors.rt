//! What a client of a door gets, for each thing that can become of its request, and what a door tells of
//! it. The responses are those of RFC 9110 and RFC 9112 with the phrases that the server writes.

ghost use Rattle.std.specs.Prelude.{IsNone};

use crate::holding::{MEMORY, holds, same};
use door_worker::answer::Answer;
use door_worker::handler::{Handler, Outcome};
use door_worker::serving::{Serving, serve_one};
use http_front::kept::Kept;
use http_front::reading::Request;
use http_front::reply::Reply;
use monitor_model::record::End;
use okws_base::items::Items;
use okws_outer::door::{Door, Served};
use okws_outer::network::Network;
use outer_memory::door::{Client, MemoryDoor, MemoryNetwork};
use std::alloc::{AllocError, Global};
use std::process::Abort;

const GET: &[u8] = b"GET /guest HTTP/1.1\r\nHost: localhost\r\n\r\n";

/// What stands behind the door: each request comes to this, and the last one is at hand.
#[derive(Drop)]
struct Site {
    outcome: Outcome,
    location: &'static [u8],
    content: &'static [u8],
    has_room: bool,
    last: Option<Request>,
    handled: u8,
    starved: u8,
}

/// A site at which each request comes to this.
fn site_of(outcome: Outcome) -> Site {
    Site {
        outcome,
        location: b"",
        content: b"ok",
        has_room: true,
        last: None,
        handled: 0,
        starved: 0,
    }
}

impl Handler for Site {
    ghost use Rattle.std.specs.Prelude.{⊤};

    ghost State = { ⊤ };

    ghost state = { λ _. tt };

    ghost has_room = { λ _. ⊤ };

    ghost handles = { λ _ _ _ _ _. ⊤ };

    ghost starves = { λ _ _. ⊤ };

    fn make_room(&mut self) -> Result<(), AllocError> {
        if self.has_room {
            Ok(())
        } else {
            Err(AllocError)
        }
    }

    fn handle(&mut self, request: Request, reply: &mut Reply) -> Outcome {
        self.last = Some(request);
        self.handled = self.handled.saturating_add(1);
        fill(reply, self.location, self.content);
        self.outcome
    }

    fn starve(&mut self) {
        self.starved = self.starved.saturating_add(1);
    }
}

/// A Reply with 200, or with 303 where it has a Location.
fn fill(reply: &mut Reply, location: &[u8], content: &[u8]) {
    if location.len() > 255 || content.len() > 1_000 {
        return;
    }
    let status = if location.is_empty() { 200 } else { 303 };
    reply.fill(status, b"text/plain", location, content);
}

/// What became of one turn at a door, and what the door told of it.
#[derive(Drop)]
struct Turn {
    serving: Serving,
    given: Vec<u8>,
    left: usize,
    faults: u64,
}

/// The bytes that were told.
fn told(told: &Option<Items<u8>>) -> &[u8] {
    match told {
        Some(told) => told.as_slice(),
        None => b"untold",
    }
}

fn turn_of(rt: &impl Abort, alloc: Global, serving: Serving, served: &Served, faults: u64) -> Turn {
    let given = Vec::from_slice(alloc, told(&served.given));
    Turn {
        serving,
        given: given.expect(rt, MEMORY),
        left: told(&served.left).len(),
        faults,
    }
}

/// One turn at a door of these clients.
fn one_turn(rt: &impl Abort, alloc: Global, clients: &[Client<'_>], site: &mut Site) -> Turn {
    let mut door = door(rt, alloc, clients, &[]);
    let mut kept = Kept::new(alloc).expect(rt, MEMORY);
    let mut reply = Reply::new(alloc).expect(rt, MEMORY);
    let serving = serve_one(alloc, &mut door, site, &mut kept, &mut reply);
    match door.finished() {
        Some([served]) => turn_of(rt, alloc, serving, served, door.faults()),
        _ => panic!(rt; "not as planned"),
    }
}

/// One turn at a door of a client that sends this.
fn turn_at(rt: &impl Abort, alloc: Global, bytes: &[u8], site: &mut Site) -> Turn {
    let client = Client {
        bytes,
        sizes: &[],
        room: 400,
        failing: &[],
    };
    one_turn(rt, alloc, &[client], site)
}

const OK: &[u8] =
    b"HTTP/1.1 200 OK\r\nContent-Type: text/plain\r\nContent-Length: 2\r\nConnection: close\r\n\r\nok";

const SEE_OTHER: &[u8] =
    b"HTTP/1.1 100 Continue\r\n\r\nHTTP/1.1 303 See Other\r\nContent-Type: text/plain\r\nLocation: /guest\r\nContent-Length: 0\r\nConnection: close\r\n\r\n";

const BAD_GATEWAY: &[u8] =
    b"HTTP/1.1 502 Bad Gateway\r\nContent-Type: text/plain\r\nContent-Length: 16\r\nConnection: close\r\n\r\n502 Bad Gateway\n";

const UNAVAILABLE: &[u8] =
    b"HTTP/1.1 503 Service Unavailable\r\nContent-Type: text/plain\r\nContent-Length: 24\r\nConnection: close\r\n\r\n503 Service Unavailable\n";

const NO_STORAGE: &[u8] =
    b"HTTP/1.1 507 Insufficient Storage\r\nContent-Type: text/plain\r\nContent-Length: 25\r\nConnection: close\r\n\r\n507 Insufficient Storage\n";

const NOT_FOUND: &[u8] =
    b"HTTP/1.1 404 Not Found\r\nContent-Type: text/plain\r\nContent-Length: 14\r\nConnection: close\r\n\r\n404 Not Found\n";

#[test]
fn outcomes_have_their_responses(rt: HostRuntime) {
    let rows = [
        (Outcome::NotOwned, NOT_FOUND),
        (Outcome::Down, UNAVAILABLE),
        (Outcome::Missed, UNAVAILABLE),
        (Outcome::NoMemory, NO_STORAGE),
        (Outcome::Ended(End::Reply), OK),
        (Outcome::Ended(End::Superseded(2)), UNAVAILABLE),
        (Outcome::Ended(End::BadFrame), BAD_GATEWAY),
        (Outcome::Ended(End::Ended), BAD_GATEWAY),
        (Outcome::Ended(End::LinkFault), BAD_GATEWAY),
        (Outcome::Ended(End::FrameLimit), BAD_GATEWAY),
        (Outcome::Ended(End::Starved), NO_STORAGE),
    ];
    for (outcome, response) in rows {
        let mut behind = site_of(outcome);
        let turn = turn_at(&rt, rt.alloc(), GET, &mut behind);
        holds(&rt, matches!(turn.serving, Serving::Served(_)), "served");
        same(&rt, &turn.given, response);
        holds(
            &rt,
            (turn.left, turn.faults, behind.handled) == (0, 0, 1),
            "counts",
        );
    }
}

#[test]
fn refused_bytes_reach_nobody(rt: HostRuntime) {
    let rows = [
        (
            b"".as_slice(),
            b"HTTP/1.1 400 Bad Request\r\nContent-Type: text/plain\r\nContent-Length: 16\r\nConnection: close\r\n\r\n400 Bad Request\n".as_slice(),
        ),
        (
            b"GET / HTTP/1.1\r\nHost: h\r\nHost: h\r\n\r\n",
            b"HTTP/1.1 400 Bad Request\r\nContent-Type: text/plain\r\nContent-Length: 16\r\nConnection: close\r\n\r\n400 Bad Request\n",
        ),
        (
            b"PUT / HTTP/1.1\r\nHost: h\r\n\r\n",
            b"HTTP/1.1 501 Not Implemented\r\nContent-Type: text/plain\r\nContent-Length: 20\r\nConnection: close\r\n\r\n501 Not Implemented\n",
        ),
        (
            b"POST / HTTP/1.1\r\nHost: h\r\nContent-Length: 262145\r\n\r\n",
            b"HTTP/1.1 413 Content Too Large\r\nContent-Type: text/plain\r\nContent-Length: 22\r\nConnection: close\r\n\r\n413 Content Too Large\n",
        ),
        (
            b"POST / HTTP/1.1\r\nHost: h\r\nContent-Length: 3\r\n\r\nab",
            b"HTTP/1.1 400 Bad Request\r\nContent-Type: text/plain\r\nContent-Length: 16\r\nConnection: close\r\n\r\n400 Bad Request\n",
        ),
    ];
    for (bytes, response) in rows {
        let mut behind = site_of(Outcome::Ended(End::Reply));
        let turn = turn_at(&rt, rt.alloc(), bytes, &mut behind);
        holds(
            &rt,
            matches!(turn.serving, Serving::Served(Answer::Own(_))),
            "served",
        );
        same(&rt, &turn.given, response);
        holds(
            &rt,
            (turn.faults, behind.handled, behind.starved) == (0, 0, 0),
            "counts",
        );
    }
}

#[test]
fn requests_are_handed_on(rt: HostRuntime) {
    let bytes =
        b"POST /guest?a HTTP/1.1\r\nHost: h\r\nContent-Length: 3\r\nExpect: 100-continue\r\n\r\nabcd";
    let head =
        b"POST /guest?a HTTP/1.1\r\nHost: h\r\nContent-Length: 3\r\nExpect: 100-continue\r\n\r\n";
    let mut behind = site_of(Outcome::Ended(End::Reply));
    behind.location = b"/guest";
    behind.content = b"";
    let turn = turn_at(&rt, rt.alloc(), bytes, &mut behind);
    holds(
        &rt,
        matches!(turn.serving, Serving::Served(Answer::Reply)),
        "served",
    );
    same(&rt, &turn.given, SEE_OTHER);
    let Some(request) = behind.last else {
        panic!(rt; "not as planned");
    };
    same(&rt, request.method, b"POST");
    same(&rt, request.path(), b"/guest");
    same(&rt, request.head.as_slice(), head);
    same(&rt, request.content.as_slice(), b"abc");
}

#[test]
fn head_gets_no_content(rt: HostRuntime) {
    let mut behind = site_of(Outcome::Ended(End::Reply));
    let turn = turn_at(
        &rt,
        rt.alloc(),
        b"HEAD /guest HTTP/1.0\r\n\r\n",
        &mut behind,
    );
    same(
        &rt,
        &turn.given,
        b"HTTP/1.1 200 OK\r\nContent-Type: text/plain\r\nContent-Length: 2\r\nConnection: close\r\n\r\n",
    );
}

/// A client whose calls of these numbers fail, with room for so many bytes.
fn failing<'a>(room: usize, failing: &'a [u64]) -> Client<'a> {
    Client {
        bytes: GET,
        sizes: &[],
        room,
        failing,
    }
}

/// A turn ended so, and its client was given this.
fn ends(rt: &impl Abort, turn: &Turn, serving: Serving, given: &[u8]) {
    holds(rt, turn.serving == serving, "another end");
    same(rt, &turn.given, given);
}

#[test]
fn faults_end_their_connection(rt: HostRuntime) {
    let mut behind = site_of(Outcome::Ended(End::Reply));
    let unread = one_turn(&rt, rt.alloc(), &[failing(400, &[0])], &mut behind);
    ends(&rt, &unread, Serving::ConnFault(None), b"");
    holds(
        &rt,
        (unread.left, unread.faults, behind.handled) == (GET.len(), 1, 0),
        "counts",
    );
    let unsent = one_turn(&rt, rt.alloc(), &[failing(400, &[1])], &mut behind);
    ends(&rt, &unsent, Serving::ConnFault(Some(Answer::Reply)), b"");
    holds(&rt, (unsent.faults, behind.handled) == (1, 1), "counts");
    let cut = one_turn(&rt, rt.alloc(), &[failing(12, &[])], &mut behind);
    ends(
        &rt,
        &cut,
        Serving::ConnFault(Some(Answer::Reply)),
        b"HTTP/1.1 200",
    );
    holds(&rt, (cut.faults, behind.handled) == (1, 2), "counts");
}

/// A door of one client, whose accepts of these numbers fail.
fn door<'a>(
    rt: &impl Abort,
    alloc: Global,
    clients: &'a [Client<'a>],
    refusals: &'a [u64],
) -> MemoryDoor<'a>
    ensures { IsNone (⟦<MemoryDoor<'a> as Door>⟧.entrance result).out }
{
    let mut network = MemoryNetwork::new(alloc, clients, refusals, &[]);
    let mut doors = match network.listen(alloc, 8080, 1, None) {
        Ok(doors) => doors,
        Err(_) => panic!(rt; "not as planned"),
    };
    match doors.pop() {
        Some(door) => door,
        None => panic!(rt; "not as planned"),
    }
}

#[test]
fn a_door_goes_on_after_a_fault(rt: HostRuntime) {
    let alloc = rt.alloc();
    let clients = [failing(400, &[0]), failing(400, &[])];
    let mut door = door(&rt, alloc, &clients, &[0]);
    let mut kept = Kept::new(alloc).expect(&rt, MEMORY);
    let mut reply = Reply::new(alloc).expect(&rt, MEMORY);
    let mut behind = site_of(Outcome::NotOwned);
    let none = serve_one(alloc, &mut door, &mut behind, &mut kept, &mut reply);
    holds(&rt, none == Serving::NoConn, "nobody");
    behind.has_room = false;
    let unready = serve_one(alloc, &mut door, &mut behind, &mut kept, &mut reply);
    holds(&rt, unready == Serving::NoMemory, "no room");
    behind.has_room = true;
    let cut = serve_one(alloc, &mut door, &mut behind, &mut kept, &mut reply);
    holds(&rt, cut == Serving::ConnFault(None), "cut");
    let served = serve_one(alloc, &mut door, &mut behind, &mut kept, &mut reply);
    holds(
        &rt,
        matches!(served, Serving::Served(Answer::Own(_))),
        "served",
    );
    let last = serve_one(alloc, &mut door, &mut behind, &mut kept, &mut reply);
    holds(&rt, last == Serving::NoConn, "the last");
    holds(&rt, (door.faults(), behind.handled) == (3, 1), "counts");
    let Some([first, second]) = door.finished() else {
        panic!(rt; "not as planned");
    };
    same(&rt, told(&first.given), b"");
    same(&rt, told(&second.given), NOT_FOUND);
}
