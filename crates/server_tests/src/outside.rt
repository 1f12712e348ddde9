//! A server's outside in memory, what is planned of it, and what a run left.

use crate::holding::MEMORY;
use crate::memory::MemoryObjects;
use crate::shaky::Shaking;
use okws_base::items::Items;
use okws_outer::gate::Gate;
use okws_outer::memory::conn::MemoryConn;
use okws_outer::memory::files::{Entry, MemoryFiles};
use okws_outer::memory::sink::MemorySink;
use okws_outer::world::Outside;
use okws_server::okws;
use okws_server::status::Status;
use okws_world::equipment::Objects;
use okws_world::equipped::Fitted;
use outer_memory::children::{ChildPlan, MemoryChildren};
use outer_memory::door::{Client, MemoryNetwork};
use outer_memory::sinks::MemorySinks;
use outer_memory::stores::MemoryStores;
use std::alloc::Global;
use std::process::Abort;
use std::sync::Wait;
use std::thread::Threads;

/// The site of the worked rows, with a second service.
pub const SITE: &str = "okws 1\n\
    proxy main\n\
    table main msgs id INT KEY who TEXT note TEXT\n\
    row main msgs 1 'ann' 'hi'\n\
    row main msgs 2 'bob' 'yo'\n\
    query main 1 SELECT id, who FROM msgs ORDER BY id\n\
    query main 2 INSERT INTO msgs (id, who, note) VALUES (?1, ?2, ?3)\n\
    service guest ./svc_guest\n\
    service other ./svc_probe\n\
    uri /guest guest\n\
    uri /other other\n\
    grant guest main 1 2\n\
    template page\n\
    read guest page\n\
    log guest\n";

/// Reply of 200 with `ok` as plain text.
pub const REPLY: &[u8] = b"\x00\x00\x00\x15\x45\x00\xc8\x0atext/plain\x00\x00\x00\x00\x02ok";

/// What a client is told of that Reply.
pub const REPLIED: &str =
    "HTTP/1.1 200 OK\r\nContent-Type: text/plain\r\nContent-Length: 2\r\nConnection: close\r\n\r\nok";

/// A request for a path.
pub fn get(rt: &impl Abort, alloc: Global, path: &str) -> String {
    let request = format!(in alloc; "GET {path} HTTP/1.1\r\nHost: localhost\r\n\r\n");
    request.expect(rt, MEMORY)
}

/// The server's own response.
pub fn own(rt: &impl Abort, alloc: Global, status: &str) -> String {
    let length = status.len() + 1;
    let response = format!(in alloc;
        "HTTP/1.1 {status}\r\nContent-Type: text/plain\r\nContent-Length: {length}\r\nConnection: close\r\n\r\n{status}\n"
    );
    response.expect(rt, MEMORY)
}

/// The bytes of these hexadecimal digits.
pub fn bytes(rt: &impl Abort, alloc: Global, digits: &str) -> Vec<u8> {
    match hex::decode(alloc, digits) {
        Ok(bytes) => bytes,
        Err(_) => panic!(rt; "no hexadecimal digits"),
    }
}

/// A client that sends these bytes.
pub fn client(bytes: &[u8]) -> Client<'_> {
    Client {
        bytes,
        sizes: &[],
        room: 65_536,
        failing: &[],
    }
}

/// A child of a service's incarnation that says these bytes.
pub fn child(service: u16, incarnation: u32, says: &[u8]) -> ChildPlan<'_> {
    ChildPlan {
        service,
        incarnation,
        says,
        piece: 4_096,
        failing: &[],
        answers: &[],
    }
}

/// What is planned of a run's outside.
#[derive(Clone, Copy)]
pub struct Plan<'a> {
    pub site: &'a str,
    pub words: &'a [&'a str],
    pub clients: &'a [Client<'a>],
    pub children: &'a [ChildPlan<'a>],
    /// The numbers of the starts that fail.
    pub starts: &'a [u64],
    /// The numbers of the listens that fail.
    pub listens: &'a [u64],
    /// The numbers of the accepts that fail, of each door by its own count.
    pub accepts: &'a [u64],
    /// The numbers of the pulls that fail of the files that are read.
    pub reads: &'a [u64],
    /// The numbers of the sinks' openings that fail.
    pub openings: &'a [u64],
    /// The numbers of the puts of each sink that fail.
    pub logs: &'a [u64],
    /// The numbers of the makings of keepers that fail.
    pub makings: &'a [u64],
    /// The numbers of each keeper's calls that fail.
    pub calls: &'a [u64],
    /// What the operator says.
    pub console: &'a [u8],
    /// The numbers of the console's calls that fail.
    pub slips: &'a [u64],
    /// For how many bytes there is room that are printed.
    pub room: usize,
    /// The numbers of the puts that fail of what is printed.
    pub prints: &'a [u64],
}

/// A server of one door and three connections, of which nothing fails.
pub fn plain() -> Plan<'static> {
    Plan {
        site: SITE,
        words: &[
            "serve", "site", "--port", "8080", "--doors", "1", "--serve", "3",
        ],
        clients: &[],
        children: &[],
        starts: &[],
        listens: &[],
        accepts: &[],
        reads: &[],
        openings: &[],
        logs: &[],
        makings: &[],
        calls: &[],
        console: b"",
        slips: &[],
        room: 65_536,
        prints: &[],
    }
}

/// How a run ended, and what was given to its outside.
pub struct Ended {
    pub status: Status,
    pub printed: Vec<u8>,
    /// What came over the connections, door by door.
    pub asked: Vec<Vec<u8>>,
    /// What these were given, in the same order.
    pub answers: Vec<Vec<u8>>,
    /// What the operator was answered.
    pub console: Vec<u8>,
    /// What the log's sink was given, where one was opened and closed.
    pub log: Option<Vec<u8>>,
    /// How many children were started.
    pub started: usize,
    /// How many keepers the stores were given back.
    pub kept: u64,
    /// What each finished child was given, in the order in which they were finished.
    pub heard: Vec<Vec<u8>>,
}

impl Drop for Ended {
    fn drop(self) {
        let Ended {
            status: _,
            printed,
            asked,
            answers,
            console,
            log,
            started: _,
            kept: _,
            heard,
        } = self;
        drop(printed);
        drop(asked);
        drop(answers);
        drop(console);
        drop(log);
        drop(heard);
    }
}

fn objects<'a, R: Abort, G: Drop>(
    rt: &R,
    alloc: Global,
    plan: &Plan<'a>,
    gate: G,
) -> MemoryObjects<'a, Shaking<'a>, G> {
    let console = MemoryConn::new(alloc, plan.console, &[], 65_536, plan.slips);
    Objects {
        network: MemoryNetwork::new(alloc, plan.clients, plan.accepts, plan.listens),
        children: MemoryChildren::new(alloc, plan.children, plan.starts),
        console: console.expect(rt, MEMORY),
        stores: MemoryStores::new(Shaking { calls: plan.calls }, plan.makings),
        sinks: MemorySinks::new(alloc, 65_536, plan.logs, plan.openings),
        gate,
    }
}

fn copy_of(rt: &impl Abort, alloc: Global, bytes: &[u8]) -> Vec<u8> {
    Vec::from_slice(alloc, bytes).expect(rt, MEMORY)
}

fn told_of(rt: &impl Abort, alloc: Global, told: &Option<Items<u8>>) -> Vec<u8> {
    match told {
        Some(bytes) => copy_of(rt, alloc, bytes.as_slice()),
        None => panic!(rt; "memory was refused"),
    }
}

/// What came over the connections, door by door.
fn asked_of(rt: &impl Abort, alloc: Global, network: &MemoryNetwork<'_>) -> Vec<Vec<u8>> {
    let mut asked = Vec::new(alloc);
    for door in network.doors() {
        for served in door.finished().expect(rt, MEMORY) {
            asked
                .push(told_of(rt, alloc, &served.came))
                .expect(rt, MEMORY);
        }
    }
    asked
}

/// What they were given.
fn answers_of(rt: &impl Abort, alloc: Global, network: &MemoryNetwork<'_>) -> Vec<Vec<u8>> {
    let mut answers = Vec::new(alloc);
    for door in network.doors() {
        for served in door.finished().expect(rt, MEMORY) {
            answers
                .push(told_of(rt, alloc, &served.given))
                .expect(rt, MEMORY);
        }
    }
    answers
}

fn log_of(rt: &impl Abort, alloc: Global, sinks: &MemorySinks<'_>) -> Option<Vec<u8>> {
    match sinks.closed() {
        Some([end, ..]) => Some(told_of(rt, alloc, &end.given)),
        Some([]) => None,
        None => panic!(rt; "memory was refused"),
    }
}

fn heard_of(rt: &impl Abort, alloc: Global, children: &MemoryChildren<'_>) -> Vec<Vec<u8>> {
    let mut heard = Vec::new(alloc);
    for end in children.finished().expect(rt, MEMORY) {
        heard
            .push(told_of(rt, alloc, &end.given))
            .expect(rt, MEMORY);
    }
    heard
}

fn ending<R: Abort, G>(
    rt: &R,
    alloc: Global,
    status: Status,
    printed: &[u8],
    things: &MemoryObjects<'_, Shaking<'_>, G>,
) -> Ended {
    let started = things.children.started();
    Ended {
        status,
        printed: copy_of(rt, alloc, printed),
        asked: asked_of(rt, alloc, &things.network),
        answers: answers_of(rt, alloc, &things.network),
        console: copy_of(rt, alloc, things.console.given()),
        log: log_of(rt, alloc, &things.sinks),
        started: started.expect(rt, MEMORY).len(),
        kept: things.stores.given_back(),
        heard: heard_of(rt, alloc, &things.children),
    }
}

/// The words, each owned.
pub fn owned(rt: &impl Abort, alloc: Global, words: &[&str]) -> Vec<String> {
    let mut all = Vec::new(alloc);
    for word in words {
        let word = String::from_str(alloc, word).expect(rt, MEMORY);
        all.push(word).expect(rt, MEMORY);
    }
    all
}

/// Runs a server as it is planned, with a gate that all of its threads pass.
pub fn serve<R: Abort + Wait + Threads + Sync, G: Gate + Sync + Drop>(
    rt: &R,
    alloc: Global,
    plan: &Plan<'_>,
    gate: G,
) -> Ended {
    let words = owned(rt, alloc, plan.words);
    let entries = [Entry {
        path: "site",
        bytes: plan.site.as_bytes(),
    }];
    let out = MemorySink::new(alloc, plan.room, plan.prints).expect(rt, MEMORY);
    let mut world = Fitted {
        outside: Some(Outside {
            files: MemoryFiles::new(&entries, 4_096, plan.reads),
            out,
            seed: [0; 32],
        }),
        further: Some(objects(rt, alloc, plan, gate)),
    };
    let (status, record) = okws(rt, alloc, &words, &mut world);
    drop(record);
    match (&world.outside, &world.further) {
        (Some(all), Some(things)) => ending(rt, alloc, status, all.out.given(), things),
        _ => panic!(rt; "the objects are out"),
    }
}
