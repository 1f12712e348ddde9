//! Storms: the operator orders one relaunch after the other while two doors serve requests. How they differ, and what is planned of
//! their outside: children, clients and the operator.

use crate::holding::MEMORY;
use crate::says::{all_says, other_says};
use crate::site::SITE;
use crate::storm::{Calls, Scene, Storm, run};
use okws_outer::child::Ended;
use outer_memory::children::ChildPlan;
use outer_memory::door::Client;
use record_lines::plain::{At, Deed, Line};
use std::alloc::Global;
use std::process::Abort;
use std::sync::Wait;
use std::thread::Threads;

/// What a storm has.
#[derive(Clone, Copy)]
pub struct Weather<'a> {
    /// How many relaunches are ordered, at most 200.
    pub relaunches: u32,
    /// The service that is relaunched.
    pub relaunched: u16,
    /// The order of a relaunch.
    pub order: &'static [u8],
    /// The last line of the operator, by which the console ends.
    pub last: &'static [u8],
    /// How many requests come, at most 200.
    pub requests: u32,
    /// Each incarnation of guest whose number this divides ends after a dialog; where it is 0 none does.
    pub short: u32,
    /// Each incarnation of guest whose number this divides has a link that fails; where it is 0 none has.
    pub torn: u32,
    /// The numbers of the calls of such a link that fail.
    pub links: &'a [u64],
    /// The numbers of the calls of each client's connection that fail.
    pub conns: &'a [u64],
    /// The sizes of the pieces in which requests come.
    pub sizes: &'static [usize],
    /// Which calls of the other objects fail.
    pub failing: Calls<'a>,
    /// What children answer that are asked whether they have ended.
    pub answers: &'static [Ended],
}

/// The number of the console's worker.
const CONSOLE_WORKER: u16 = 2;

/// Whether a number that is not 0 divides another one.
fn divides(divisor: u32, number: u32) -> bool {
    number.checked_rem(divisor) == Some(0)
}

/// A child of a service's incarnation that says these bytes.
fn child<'a>(
    service: u16,
    incarnation: u32,
    says: &'a [u8],
    links: &'a [u64],
    weather: &Weather<'_>,
) -> ChildPlan<'a> {
    let is_torn = service == 0 && divides(weather.torn, incarnation);
    ChildPlan {
        service,
        incarnation,
        says,
        piece: 4_096,
        failing: if is_torn { links } else { &[] },
        answers: weather.answers,
    }
}

/// The children of guest's incarnations, and the first ones of the other service, which all say the same.
fn plans<'a>(
    rt: &impl Abort,
    alloc: Global,
    stuff: &'a Stuff,
    weather: &Weather<'_>,
) -> Vec<ChildPlan<'a>> {
    let mut plans = Vec::new(alloc);
    let mut incarnation = 0u32;
    for says in &stuff.says {
        incarnation = incarnation.saturating_add(1);
        plans
            .push(child(0, incarnation, says, &stuff.links, weather))
            .expect(rt, MEMORY);
    }
    for incarnation in 1..=40 {
        plans
            .push(child(1, incarnation, &stuff.other, &stuff.links, weather))
            .expect(rt, MEMORY);
    }
    plans
}

/// What the client of this number sends.
fn request(number: u32) -> &'static [u8] {
    match number {
        0 | 1 => b"GET /lost HTTP/1.1\r\nHost: localhost\r\n\r\n",
        n if n % 20 == 7 => b"",
        n if n % 10 == 3 => b"GET /other/x HTTP/1.1\r\nHost: localhost\r\n\r\n",
        _ => b"GET /guest HTTP/1.1\r\nHost: localhost\r\n\r\n",
    }
}

/// The clients, in one line.
fn clients<'a>(
    rt: &impl Abort,
    alloc: Global,
    stuff: &'a Stuff,
    weather: &Weather<'_>,
) -> Vec<Client<'a>> {
    let mut clients = Vec::new(alloc);
    for number in 0..weather.requests {
        clients
            .push(Client {
                bytes: request(number),
                sizes: weather.sizes,
                room: 4_096,
                failing: &stuff.conns,
            })
            .expect(rt, MEMORY);
    }
    clients
}

/// Whether the order of this number comes behind a publication.
fn publishes(number: u32) -> bool {
    number % 9 == 5
}

/// What the operator says.
fn console(rt: &impl Abort, alloc: Global, weather: &Weather<'_>) -> Vec<u8> {
    let mut console = Vec::new(alloc);
    for number in 0..weather.relaunches {
        if publishes(number) {
            console
                .extend_from_slice(b"publish page 3\nabc")
                .expect(rt, MEMORY);
        }
        console.extend_from_slice(weather.order).expect(rt, MEMORY);
    }
    console.extend_from_slice(weather.last).expect(rt, MEMORY);
    console
}

/// What the operator orders, as the console's worker is to carry it out.
pub fn orders<'a>(rt: &impl Abort, alloc: Global, weather: &Weather<'_>) -> Vec<Line<'a>> {
    let mut orders = Vec::new(alloc);
    let worker = CONSOLE_WORKER;
    for number in 0..weather.relaunches {
        if publishes(number) {
            let line = Line::new(At::Pubd, Deed::Publish, 0, 0).with(b"abc");
            orders.push(Line { worker, ..line }).expect(rt, MEMORY);
        }
        let line = Line::new(At::Launcher, Deed::Asked, weather.relaunched, 0);
        orders.push(Line { worker, ..line }).expect(rt, MEMORY);
    }
    orders
}

/// The numbers of the calls that fail in a storm, what its children say, and what the operator does.
#[derive(Drop)]
struct Stuff {
    accepts: Vec<u64>,
    starts: Vec<u64>,
    slips: Vec<u64>,
    log: Vec<u64>,
    rows: Vec<u64>,
    links: Vec<u64>,
    conns: Vec<u64>,
    says: Vec<Vec<u8>>,
    other: Vec<u8>,
    console: Vec<u8>,
}

fn copied(rt: &impl Abort, alloc: Global, numbers: &[u64]) -> Vec<u64> {
    Vec::from_slice(alloc, numbers).expect(rt, MEMORY)
}

fn stuff_of(rt: &impl Abort, alloc: Global, weather: &Weather<'_>) -> Stuff {
    Stuff {
        accepts: copied(rt, alloc, weather.failing.accepts),
        starts: copied(rt, alloc, weather.failing.starts),
        slips: copied(rt, alloc, weather.failing.console),
        log: copied(rt, alloc, weather.failing.log),
        rows: copied(rt, alloc, weather.failing.rows),
        links: copied(rt, alloc, weather.links),
        conns: copied(rt, alloc, weather.conns),
        says: all_says(rt, alloc, weather),
        other: other_says(rt, alloc, weather),
        console: console(rt, alloc, weather),
    }
}

/// A storm.
pub fn rage<R: Abort + Wait + Threads + Sync>(
    rt: &R,
    alloc: Global,
    weather: &Weather<'_>,
) -> Storm {
    let stuff = stuff_of(rt, alloc, weather);
    let clients = clients(rt, alloc, &stuff, weather);
    let children = plans(rt, alloc, &stuff, weather);
    let scene = Scene {
        site: SITE,
        clients: &clients,
        children: &children,
        console: &stuff.console,
        connections: weather.requests,
        failing: Calls {
            accepts: &stuff.accepts,
            starts: &stuff.starts,
            console: &stuff.slips,
            log: &stuff.log,
            rows: &stuff.rows,
        },
    };
    run(rt, alloc, &scene)
}
