//! A run of a server whose outside is in memory: two doors, children, a console, the rows of a proxy and a log, of which some calls
//! may fail.

ghost use Rattle.std.specs.Prelude.{◌≡◌, All, length, map, vec_len};
ghost use Rattle.std.specs.Arc.{arc_value};
ghost use Rattle.okws_outer.specs.Doors.{new_entrance};
ghost use Rattle.site_making.specs.Keepers.{AreKeepers, keeper_of};
ghost use Rattle.site_making.specs.Making.{IsServable};

use crate::holding::MEMORY;
use crate::site::{Ground, SEED, read_ground};
use index_keeper::IndexKeeper;
use okws_outer::door::{Door, Served};
use okws_outer::gate::NoGate;
use okws_outer::keeper::Keeper;
use okws_outer::memory::conn::MemoryConn;
use okws_outer::memory::sink::MemorySink;
use okws_outer::network::Network;
use okws_plan::configuration::Config;
use okws_serve::outfit::{Left, Limits, Outfit, Ran};
use okws_serve::serve::serve_site;
use outer_memory::children::{ChildPlan, MemoryChildren};
use outer_memory::door::{Client, MemoryDoor, MemoryNetwork};
use outer_memory::keeper::FailingKeeper;
use record_lines::case::Incarnation;
use record_lines::plain::{Exchange, Plain, plain_of};
use std::alloc::Global;
use std::process::Abort;
use std::sync::{Arc, Wait};
use std::thread::Threads;

/// The numbers of the calls that fail, of each object by its own count.
#[derive(Clone, Copy)]
pub struct Calls<'a> {
    /// The accepts of each door.
    pub accepts: &'a [u64],
    /// The starts of children.
    pub starts: &'a [u64],
    /// The pulls and puts of the console.
    pub console: &'a [u64],
    /// The puts of the log's sink.
    pub log: &'a [u64],
    /// The runs and pins of the keeper.
    pub rows: &'a [u64],
}

/// None of them fails.
pub const SOUND: Calls<'static> = Calls {
    accepts: &[],
    starts: &[],
    console: &[],
    log: &[],
    rows: &[],
};

/// What is planned of a run.
#[derive(Clone, Copy)]
pub struct Scene<'a> {
    pub site: &'a [u8],
    pub clients: &'a [Client<'a>],
    pub children: &'a [ChildPlan<'a>],
    /// What the operator says.
    pub console: &'a [u8],
    /// How many connections are begun, at most 200.
    pub connections: u32,
    /// Which calls fail.
    pub failing: Calls<'a>,
}

/// How many calls have failed.
#[derive(Clone, Copy)]
pub struct Faults {
    pub accepts: u64,
    pub conns: u64,
    pub starts: u64,
    pub links: u64,
    pub console: u64,
    pub log: u64,
    pub rows: u64,
}

/// What was read from a connection, and what was written on it; and whether it was cut.
pub struct Exchanged {
    pub read: Vec<u8>,
    pub written: Vec<u8>,
    pub is_cut: bool,
}

impl Drop for Exchanged {
    fn drop(self) {
        let Exchanged {
            read,
            written,
            is_cut: _,
        } = self;
        drop(read);
        drop(written);
    }
}

/// What a run leaves: the site, what the run did, what went over each door, what each child was given, in the order
/// in which they were finished, which of them have ended, what the operator was answered, and what failed.
pub struct Storm {
    pub site: Arc<Config, Global>,
    pub ran: Ran,
    pub doors: Vec<Vec<Exchanged>>,
    pub heard: Vec<Vec<u8>>,
    pub ended: Vec<Incarnation>,
    pub answers: Vec<u8>,
    pub faults: Faults,
}

/// What went over the connections of a door.
fn exchanges<'a>(rt: &impl Abort, alloc: Global, door: &'a [Exchanged]) -> Vec<Exchange<'a>> {
    let mut all = Vec::new(alloc);
    for told in door {
        let exchange = Exchange {
            read: &told.read,
            written: &told.written,
            is_cut: told.is_cut,
        };
        all.push(exchange).expect(rt, MEMORY);
    }
    all
}

impl Drop for Storm {
    fn drop(self) {
        let Storm {
            site,
            ran,
            doors,
            heard,
            ended,
            answers,
            faults: _,
        } = self;
        drop(site);
        drop(ran);
        drop(doors);
        drop(heard);
        drop(ended);
        drop(answers);
    }
}

impl Storm {
    /// The lines of its record.
    pub fn plain(&self, rt: &impl Abort, alloc: Global) -> Plain<'_> {
        let mut doors = Vec::new(alloc);
        for door in &self.doors {
            doors.push(exchanges(rt, alloc, door)).expect(rt, MEMORY);
        }
        plain_of(alloc, &self.ran.record, doors).expect(rt, "no record")
    }
}

/// Which children have ended.
fn ended(rt: &impl Abort, alloc: Global, children: &MemoryChildren<'_>) -> Vec<Incarnation> {
    let mut all = Vec::new(alloc);
    for end in children.finished().expect(rt, MEMORY) {
        if end.ended {
            all.push(Incarnation {
                service: end.service,
                number: end.incarnation,
            })
            .expect(rt, MEMORY);
        }
    }
    all
}

fn copy_of(rt: &impl Abort, alloc: Global, bytes: &[u8]) -> Vec<u8> {
    Vec::from_slice(alloc, bytes).expect(rt, MEMORY)
}

/// What each child was given.
fn heard(rt: &impl Abort, alloc: Global, children: &MemoryChildren<'_>) -> Vec<Vec<u8>> {
    let mut all = Vec::new(alloc);
    for end in children.finished().expect(rt, MEMORY) {
        let given = end.given.as_ref().expect(rt, MEMORY);
        all.push(copy_of(rt, alloc, given.as_slice()))
            .expect(rt, MEMORY);
    }
    all
}

/// How many calls of links have failed.
fn link_faults(rt: &impl Abort, children: &MemoryChildren<'_>) -> u64 {
    let mut count = 0u64;
    for end in children.finished().expect(rt, MEMORY) {
        count = count.saturating_add(end.faults);
    }
    count
}

/// How many calls of doors, and how many of their connections, have failed.
fn door_faults(rt: &impl Abort, doors: &[MemoryDoor<'_>]) -> (u64, u64) {
    let (mut all, mut conns) = (0u64, 0u64);
    for door in doors {
        all = all.saturating_add(door.faults());
        for served in door.finished().expect(rt, MEMORY) {
            conns = conns.saturating_add(served.faults);
        }
    }
    (all.saturating_sub(conns), conns)
}

/// How many calls of keepers have failed.
fn row_faults(keepers: &[FailingKeeper<'_, IndexKeeper>]) -> u64 {
    let mut count = 0u64;
    for keeper in keepers {
        count = count.saturating_add(keeper.faults());
    }
    count
}

/// What went over a connection that was served.
fn exchange_of(rt: &impl Abort, alloc: Global, served: &Served) -> Exchanged {
    let (Some(came), Some(left), Some(given)) = (&served.came, &served.left, &served.given) else {
        panic!(rt; "memory was refused");
    };
    let read = came.as_slice().strip_suffix(left.as_slice());
    Exchanged {
        read: copy_of(rt, alloc, read.expect(rt, "other bytes are left")),
        written: copy_of(rt, alloc, given.as_slice()),
        is_cut: served.faults > 0,
    }
}

/// What went over a door.
fn told_at(rt: &impl Abort, alloc: Global, door: &MemoryDoor<'_>) -> Vec<Exchanged> {
    let mut all = Vec::new(alloc);
    for served in door.finished().expect(rt, MEMORY) {
        all.push(exchange_of(rt, alloc, served)).expect(rt, MEMORY);
    }
    all
}

/// What went over each door.
fn told(rt: &impl Abort, alloc: Global, doors: &[MemoryDoor<'_>]) -> Vec<Vec<Exchanged>> {
    let mut all = Vec::new(alloc);
    for door in doors {
        all.push(told_at(rt, alloc, door)).expect(rt, MEMORY);
    }
    all
}

/// The objects that a run gave back.
type Back<'a> = Left<
    MemoryDoor<'a>,
    MemoryConn<'a>,
    MemoryChildren<'a>,
    FailingKeeper<'a, IndexKeeper>,
    MemorySink<'a>,
    NoGate,
>;

/// What failed of them.
fn faults_of(rt: &impl Abort, left: &Back<'_>) -> Faults {
    let (accepts, conns) = door_faults(rt, &left.doors);
    Faults {
        accepts,
        conns,
        starts: left.children.faults(),
        links: link_faults(rt, &left.children),
        console: left.console.faults(),
        log: left.log.as_ref().map_or(0, |log| log.faults()),
        rows: row_faults(&left.keepers),
    }
}

/// What a run left.
fn storm_of(rt: &impl Abort, alloc: Global, site: Arc<Config, Global>, left: Back<'_>) -> Storm {
    Storm {
        site,
        doors: told(rt, alloc, &left.doors),
        heard: heard(rt, alloc, &left.children),
        ended: ended(rt, alloc, &left.children),
        answers: copy_of(rt, alloc, left.console.given()),
        faults: faults_of(rt, &left),
        ran: left.ran.expect(rt, MEMORY),
    }
}

/// Serves a site over these doors, children and console.
fn serve<'a, R: Abort + Wait + Threads + Sync>(
    rt: &R,
    alloc: Global,
    ground: Ground<'a>,
    doors: Vec<MemoryDoor<'a>>,
    children: MemoryChildren<'a>,
    console: MemoryConn<'a>,
    scene: &Scene<'a>,
) -> Storm
    requires servable { IsServable (arc_value ground.site) }
    requires declared { vec_len ground.keepers ≡ length (arc_value ground.site).proxies }
    requires keepers { AreKeepers (arc_value ground.site) 0 (map (keeper_of ⟦<FailingKeeper<'a, IndexKeeper> as Keeper>⟧.tables ⟦<FailingKeeper<'a, IndexKeeper> as Keeper>⟧.told ⟦<FailingKeeper<'a, IndexKeeper> as Keeper>⟧.faults ⟦<FailingKeeper<'a, IndexKeeper> as Keeper>⟧.steady) ground.keepers.items) }
    requires doors { length doors.items ≡ 2 }
    requires new { All (λ d. ⟦<MemoryDoor<'a> as Door>⟧.entrance d ≡ new_entrance) doors.items }
{
    let Ground { site, keepers } = ground;
    let outfit = Outfit {
        doors,
        console,
        children,
        keepers,
        log: MemorySink::new(alloc, 65_536, scene.failing.log).expect(rt, MEMORY),
        gate: NoGate,
    };
    let limits = Limits {
        connections: u64::from(scene.connections.min(200)),
        keeps: true,
    };
    let left = serve_site(rt, alloc, &site, &SEED, limits, outfit);
    storm_of(rt, alloc, site, left)
}

/// A run.
pub fn run<R: Abort + Wait + Threads + Sync>(rt: &R, alloc: Global, scene: &Scene<'_>) -> Storm {
    let failing = scene.failing;
    let ground = read_ground(rt, alloc, scene.site, failing.rows);
    let children = MemoryChildren::new(alloc, scene.children, failing.starts);
    let console = MemoryConn::new(alloc, scene.console, &[], 65_536, failing.console);
    let console = console.expect(rt, MEMORY);
    let mut network = MemoryNetwork::new(alloc, scene.clients, failing.accepts, &[]);
    match network.listen(alloc, 8_080, 2, None) {
        Ok(doors) => serve(rt, alloc, ground, doors, children, console, scene),
        Err(_) => panic!(rt; "memory was refused"),
    }
}
