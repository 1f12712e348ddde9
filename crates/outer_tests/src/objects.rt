//! The objects of a server in memory, on the ways that no clause tells: which client comes to which
//! door, which calls fail, and where memory and room end. Not tested here: real sockets and pipes,
//! and what threads do to each other.

ghost use Rattle.std.specs.Prelude.{◌≡◌, [], IsNone, None};

use crate::holding::{MEMORY, has_failed, holds};
use okws_base::items::Items;
use okws_outer::conn::Conn;
use okws_outer::door::{Door, Served};
use okws_outer::error::Fault;
use okws_outer::gate::{Gate, NoGate, Point};
use okws_outer::memory::link::FedLink;
use okws_outer::network::Network;
use okws_outer::sinks::Sinks;
use okws_outer::stores::Stores;
use okws_outer::stream::{Link, Pull, Put, Sink};
use outer_memory::door::{Client, MemoryDoor, MemoryNetwork};
use outer_memory::sinks::MemorySinks;
use outer_memory::stores::{Breaking, MemoryStores};
use std::alloc::Global;
use std::process::Abort;
use std::sync::{Mutex, Wait};
use std::thread;

const CLIENTS: [Client<'static>; 3] = [
    Client {
        bytes: b"one",
        sizes: &[2],
        room: 4,
        failing: &[],
    },
    Client {
        bytes: b"two",
        sizes: &[],
        room: 1,
        failing: &[],
    },
    Client {
        bytes: b"three",
        sizes: &[],
        room: 9,
        failing: &[0, 1],
    },
];

/// Accepts, takes one piece and gives two bytes; the piece's length, or None where no client comes.
fn serve_one<D: Door>(door: &mut D) -> Option<usize>
    requires { IsNone (D.entrance door.old).out }
    ensures { IsNone (D.entrance door.new).out }
{
    match door.accept() {
        Ok(Some(mut conn)) => {
            let mut piece = [0u8; 8];
            let took = match conn.pull(&mut piece) {
                Pull::Took(count) => count,
                Pull::End | Pull::Failed => 0,
            };
            conn.put(b"ok");
            door.finish(conn);
            Some(took)
        }
        Ok(None) | Err(Fault) => None,
    }
}

/// How many connections a door serves until none comes.
fn serve_all<D: Door>(door: &mut D) -> u8
    requires { IsNone (D.entrance door.old).out }
    ensures { IsNone (D.entrance door.new).out }
{
    let mut served = 0u8;
    for _ in 0..8 {
        if serve_one(door).is_some() {
            served = served.saturating_add(1);
        }
    }
    served
}

/// Whether these bytes were told.
pub fn is(told: &Option<Items<u8>>, bytes: &[u8]) -> bool {
    match told {
        Some(told) => told.as_slice() == bytes,
        None => false,
    }
}

fn is_served(served: &Served, came: &[u8], left: &[u8], given: &[u8]) -> bool {
    is(&served.came, came) && is(&served.left, left) && is(&served.given, given)
}

/// The doors of a network that opened two.
#[derive(Drop)]
struct Two<'a> {
    first: MemoryDoor<'a>,
    second: MemoryDoor<'a>,
}

/// Opens two doors, at which no connection is out.
fn two_doors<'a>(rt: &impl Abort, alloc: Global, network: &mut MemoryNetwork<'a>) -> Two<'a>
    ensures first { IsNone (⟦<MemoryDoor<'a> as Door>⟧.entrance result.first).out }
    ensures second { IsNone (⟦<MemoryDoor<'a> as Door>⟧.entrance result.second).out }
{
    let Ok(mut doors) = network.listen(alloc, 8080, 2, None) else {
        panic!(rt; "not as planned");
    };
    let (Some(second), Some(first)) = (doors.pop(), doors.pop()) else {
        panic!(rt; "not as planned");
    };
    Two { first, second }
}

/// The second door holds the client that came first, while the other serves all further ones.
fn serve_beside<D: Door>(rt: &impl Abort, first: &mut D, second: &mut D)
    requires first { IsNone (D.entrance first.old).out }
    requires second { IsNone (D.entrance second.old).out }
{
    let Ok(Some(held)) = second.accept() else {
        panic!(rt; "not as planned");
    };
    holds(rt, serve_one(first) == Some(3), "two");
    holds(rt, serve_one(first) == Some(0), "three");
    holds(rt, serve_one(first) == None, "no client");
    second.finish(held);
    holds(rt, serve_one(second) == None, "no client");
}

/// The first door finished the clients `two` and `three`.
fn tells_two(rt: &impl Abort, door: &MemoryDoor) {
    let Some([two, three]) = door.finished() else {
        panic!(rt; "not as planned");
    };
    holds(rt, is_served(two, b"two", b"", b"o"), "two");
    holds(rt, is_served(three, b"three", b"three", b""), "three");
    holds(rt, (two.faults, three.faults) == (1, 2), "faults");
}

/// The second door finished the client `one`.
fn tells_one(rt: &impl Abort, door: &MemoryDoor) {
    let Some([one]) = door.finished() else {
        panic!(rt; "not as planned");
    };
    holds(rt, is_served(one, b"one", b"one", b""), "one");
}

/// The network was asked twice, and took the two doors back.
fn tells_doors(rt: &impl Abort, network: &MemoryNetwork) {
    holds(rt, network.faults() == 1, "faults");
    let Some([_, last]) = network.listened() else {
        panic!(rt; "not as planned");
    };
    holds(rt, (last.port, last.count) == (8080, 2), "listened");
    let [first, second] = network.doors() else {
        panic!(rt; "not as planned");
    };
    tells_two(rt, first);
    tells_one(rt, second);
}

#[test]
fn doors_take_from_one_line(rt: HostRuntime) {
    let mut network = MemoryNetwork::new(rt.alloc(), &CLIENTS, &[2], &[0]);
    let refused = network.listen(rt.alloc(), 8080, 2, None);
    holds(&rt, has_failed(refused), "refused");
    let Two {
        mut first,
        mut second,
    } = two_doors(&rt, rt.alloc(), &mut network);
    serve_beside(&rt, &mut first, &mut second);
    holds(&rt, first.faults() == 4, "faults");
    holds(&rt, second.faults() == 1, "faults");
    let mut doors = Vec::new(rt.alloc());
    doors.push(first).expect(&rt, MEMORY);
    doors.push(second).expect(&rt, MEMORY);
    network.close(doors);
    tells_doors(&rt, &network);
}

#[test]
fn doors_serve_in_two_threads(rt: HostRuntime) {
    let mut network = MemoryNetwork::new(rt.alloc(), &CLIENTS, &[], &[]);
    let Two {
        mut first,
        mut second,
    } = two_doors(&rt, rt.alloc(), &mut network);
    let (one, other) = thread::join(&rt, || serve_all(&mut first), || serve_all(&mut second));
    holds(&rt, one.saturating_add(other) == 3, "served");
}

/// An opening, one that failed, and a sink that was closed are told.
fn tells_a_sink(rt: &impl Abort, sinks: &MemorySinks) {
    holds(rt, sinks.faults() == 3, "faults");
    let (Some([first, second]), Some([closed])) = (sinks.opened(), sinks.closed()) else {
        panic!(rt; "not as planned");
    };
    holds(
        rt,
        (first.is_open, second.is_open) == (true, false),
        "opened",
    );
    holds(rt, second.path.as_slice() == b"audit".as_slice(), "path");
    holds(rt, is(&closed.given, b"abce"), "given");
    holds(rt, closed.faults == 2, "faults");
}

#[test]
fn sinks_fail_in_turn(rt: HostRuntime) {
    let mut sinks = MemorySinks::new(rt.alloc(), 4, &[1], &[1]);
    let Ok(mut log) = sinks.open("log") else {
        panic!(rt; "not as planned");
    };
    holds(&rt, sinks.open("audit").is_err(), "refused");
    for (put, bytes) in [
        (Put::Done, b"abc".as_slice()),
        (Put::Stopped(0), b"d"),
        (Put::Stopped(1), b"ef"),
    ] {
        holds(&rt, log.put(bytes) == put, "put");
    }
    sinks.close("log", log);
    tells_a_sink(&rt, &sinks);
}

#[test]
fn absent_network_refuses_each_listen(rt: HostRuntime) {
    let mut network = MemoryNetwork::absent(rt.alloc());
    for _ in 0..2 {
        let doors = network.listen(rt.alloc(), 8080, 1, None);
        holds(&rt, has_failed(doors), "refused");
    }
    holds(&rt, network.faults() == 2, "faults");
}

#[test]
fn absent_stores_refuse_each_making(rt: HostRuntime) {
    let mut stores = MemoryStores::absent(Breaking);
    for _ in 0..2 {
        let keeper = stores.make(rt.alloc(), "rows", 0, &[]);
        holds(&rt, has_failed(keeper), "refused");
    }
    holds(&rt, stores.faults() == 2, "faults");
}

#[test]
fn absent_sinks_refuse_each_opening(rt: HostRuntime) {
    let mut sinks = MemorySinks::absent(rt.alloc());
    for _ in 0..2 {
        holds(&rt, sinks.open("log").is_err(), "refused");
    }
    holds(&rt, sinks.faults() == 2, "faults");
}

#[test]
fn stores_fail_in_turn(rt: HostRuntime) {
    let mut stores = MemoryStores::new(Breaking, &[1]);
    let Ok(keeper) = stores.make(rt.alloc(), "rows", 0, &[]) else {
        panic!(rt; "not as planned");
    };
    let refused = stores.make(rt.alloc(), "rows", 1, &[]);
    holds(&rt, has_failed(refused), "refused");
    stores.finish(0, keeper);
    holds(&rt, stores.faults() == 1, "faults");
}

/// A gate that waits for its turn to count.
#[derive(Drop)]
struct Counting<'r, R> {
    rt: &'r R,
    passed: Mutex<u64>,
}

impl<'r, R: Wait> Gate for Counting<'r, R> {
    fn pass(&self, _point: Point, number: u64) {
        let mut passed = self.passed.lock(self.rt);
        *passed = passed.saturating_add(number);
    }
}

fn pass_all<G: Gate>(gate: &G) {
    for point in [
        Point::Requested,
        Point::Answered,
        Point::Raised,
        Point::Called,
    ] {
        gate.pass(point, 2);
    }
}

#[test]
fn gate_may_wait(rt: HostRuntime) {
    pass_all(&NoGate);
    let gate = Counting {
        rt: &rt,
        passed: Mutex::new(0),
    };
    pass_all(&gate);
    holds(&rt, *gate.passed.lock(&rt) == 8, "passed");
}
