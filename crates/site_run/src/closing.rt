//! Closing the locks of a run's columns, cells and launcher.

ghost use Rattle.std.specs.Prelude.{◌≡◌, ◌≤◌, ◌<◌, ◌+◌, ℕ, IsTrue, List, [], false, length, map, reverse, slice_index, vec_len, vec_capacity};
ghost use Rattle.okws_base.specs.Turns.{of, Behind};
ghost use Rattle.site_cells.specs.Closing.{AllCellsGrow, HasNumber};
ghost use Rattle.site_cells.specs.Row.{link_at, seen_at};
ghost use Rattle.launch_crew.specs.Coming.{came_up};
ghost use Rattle.launch_crew.specs.Recorded.{AreOwn};
ghost use Rattle.log_daemon.specs.Stopped.{is_stopped};
ghost use Rattle.monitor_model.specs.Cell.{incarnation};
ghost use Rattle.monitor_model.specs.Columns.{OkdLaw, PubdLaw, LogLaw};
ghost use Rattle.monitor_model.specs.Launcher.{LauncherLaw, begun};
ghost use Rattle.monitor_model.specs.Standing.{okd_grant, pubd_grant, log_grant};
ghost use Rattle.named_columns.specs.Counts.{capped, accepts, ups, publications, logged};
ghost use Rattle.named_columns.specs.Held.{HeldProxy};
ghost use Rattle.named_columns.specs.Launched.{by_entry, LaunchedBy};
ghost use Rattle.okld_launch.specs.Causing.{AllCaused};
ghost use Rattle.launch_turns.specs.Deeds.{by_deed, ended_in, entries, up_in};
ghost use Rattle.okld_launch.specs.Failures.{FailuresAreTold, FaultsAreTold};
ghost use Rattle.okld_launch.specs.Kin.{AreKin};
ghost use Rattle.site_run.specs.Pieced.{EndsWhole, ended_among, ended_crew};
ghost use Rattle.site_cells.specs.Held.{by_event};
ghost use Rattle.site_locks.specs.Closing.{AllSaw, SomeIs};
ghost use Rattle.site_locks.specs.Sat.{RiseFrom};
ghost use Rattle.turn_lock.specs.Rows.{AllCount, NoneFrom};
ghost use Rattle.turn_lock.specs.Seats.{AllClosed, AllRest, SomeHas};
ghost use Rattle.monitor_model.specs.Booting.{AllFollow};
ghost use Rattle.monitor_model.specs.Installed.{EachFollows, LogFollows, PubdFollows};
ghost use Rattle.monitor_model.specs.Placed.{EachFrom};
ghost use Rattle.site_run.specs.Journals.{AllProxies, AllCells};
ghost use Rattle.site_making.specs.Keepers.{keeper_of};
ghost use Rattle.site_run.specs.Rooms.{HasRoom};
ghost use Rattle.site_run.specs.Closing.{AllKept, WritesLog};
ghost use Rattle.site_run.specs.Tied.{ColumnsGrown, AreLists};

use launch_crew::crew::Stopped;
use launch_turns::deed::Deed;
use launch_turns::resting::Resting;
use log_daemon::WriteOut;
use monitor_model::record::{CellEvent, Own};
use monitor_model::sent::Sents;
use named_columns::log::SiteLog;
use named_columns::named::Backed;
use named_columns::okd::SiteOkd;
use named_columns::proxy::SiteProxy;
use named_columns::pubd::SitePubd;
use okld_launch::named::Staffed;
use okws_base::journal::{Entry, Past};
use okws_base::told::Told;
use okws_outer::children::Children;
use okws_outer::keeper::Keeper;
use okws_outer::stream::{Link, Sink};
use okws_plan::event::{LauncherEvent, LogEvent, OkdEvent, ProxyEvent, PubdEvent};
use site_cells::cell::SiteCell;
use site_cells::closing::close_cells;
use site_cells::lock_names::CellNames;
use site_cells::locks::CellLocks;
use site_cells::seats::CellSeats;
use site_locks::closing::close;
use site_locks::locks::{Locks, Seats};
use site_locks::named::Site;
use site_locks::note::OkdNote;
use site_locks::noted_link::Noted;
use site_making::order::turned;
use std::marker::Model;
use std::sync::Wait;
use turn_lock::{Seat, Turn};

/// okd's journal, how many requests were accepted, and how many incarnations came up.
#[derive(Drop)]
pub(crate) struct OkdEnd {
    pub(crate) past: Past<Entry<OkdEvent>>,
    pub(crate) accepts: u64,
    pub(crate) launches: u64,
}

// Ends okd.
fn end_okd<N: Backed>(okd: SiteOkd<N>) -> OkdEnd
    ensures past { result.past ≡ okd.past }
    ensures law { OkdLaw result.past × LaunchedBy okd_grant N.launcher result.past }
    ensures accepts { result.accepts ≡ capped (accepts result.past) }
    ensures launches { result.launches ≡ capped (ups result.past) }
{
    let accepts = okd.accepts();
    let launches = okd.ups();
    OkdEnd {
        past: okd.close(),
        accepts,
        launches,
    }
}

/// pubd's journal, and how many editions were published.
#[derive(Drop)]
pub(crate) struct PubdEnd {
    pub(crate) past: Past<Entry<PubdEvent>>,
    pub(crate) publications: u64,
}

// Ends pubd.
fn end_pubd<N: Backed>(pubd: SitePubd<N>) -> PubdEnd
    ensures past { result.past ≡ pubd.past }
    ensures law { PubdLaw N.site result.past × LaunchedBy pubd_grant N.launcher result.past }
    ensures follows { EachFollows PubdFollows result.past }
    ensures publications { result.publications ≡ capped (publications result.past) }
{
    let publications = pubd.publications();
    PubdEnd {
        past: pubd.close(),
        publications,
    }
}

/// oklogd's journal, how many texts were logged, the sink, and whether it lacks some of the log's text.
pub(crate) struct LogEnd<S: Sink> {
    pub(crate) past: Past<Entry<LogEvent>>,
    pub(crate) logged: u64,
    pub(crate) sink: S,
    pub(crate) failed: bool,
}

// Whether the sink lacks some of the log's text.
fn lacks(written: WriteOut) -> bool
    ensures { result ≡ is_stopped written }
{
    match written {
        WriteOut::Written => false,
        WriteOut::LogFault | WriteOut::Stopped => true,
    }
}

// Gives the sink the rest of the log's text, and ends oklogd.
fn end_log<N: Backed, S: Sink>(log: SiteLog<N, S>) -> LogEnd<S>
    ensures past { result.past ≡ log.past }
    ensures law { LogLaw result.past × LaunchedBy log_grant N.launcher result.past }
    ensures follows { EachFollows LogFollows result.past }
    ensures logged { result.logged ≡ capped (logged N.site result.past) }
    ensures written { WritesLog N.site result.past (S.given result.sink) N.sink_faults (S.faults result.sink) result.failed }
{
    let mut log = log;
    let logged = log.logged();
    let written = log.write_out();
    let failed = lacks(written);
    let (past, sink) = log.close();
    LogEnd {
        past,
        logged,
        sink,
        failed,
    }
}

/// The proxies' journals and their keepers, those of proxy 0 first.
#[derive(Drop)]
pub(crate) struct ProxiesEnd<K: Keeper> {
    pub(crate) pasts: Vec<Past<Entry<ProxyEvent>>>,
    pub(crate) keepers: Vec<K>,
}

// Ends the proxies, the last of which comes first, into room for what they kept.
fn end_proxies<N: Backed, K: Keeper>(
    mut proxies: Vec<SiteProxy<N, K>>,
    room: ProxiesEnd<K>,
) -> ProxiesEnd<K>
    requires pasts { HasRoom (vec_len proxies) (vec_len room.pasts) (vec_capacity room.pasts) }
    requires keepers { HasRoom (vec_len proxies) (vec_len room.keepers) (vec_capacity room.keepers) }
    requires numbered { RiseFrom 0 (reverse (map (λ (x : HeldProxy). x.number) proxies.items)) }
    ensures pasts { result.pasts.items ≡ reverse (map (λ (x : HeldProxy). x.past) proxies.items) }
    ensures laws { AllProxies N.site N.run_seed N.launcher 0 result.pasts.items }
    ensures follows { EachFrom (λ p J. AllFollow N.site p J) 0 result.pasts.items }
    ensures kept { AllKept N.site N.tells N.steady N.keeper_faults 0 (map (keeper_of K.tables K.told K.faults K.steady) result.keepers.items) result.pasts.items }
{
    let mut end = room;
    while let Some(proxy) = proxies.pop() {
        let (past, keeper) = proxy.close();
        end.pasts.push_reserved(past);
        end.keepers.push_reserved(keeper);
    }
    proxies.destroy_empty();
    end
}

/// Room for the columns that their locks give back, for what they kept, and for the own items of each number.
/// Contracts see of how many.
#[derive(Drop)]
pub(crate) struct ColumnsRoom<N: Backed, K: Keeper> {
    pub(crate) numbers: usize,
    pub(crate) proxies: Vec<SiteProxy<N, K>>,
    pub(crate) owns: Vec<Past<Own>>,
    pub(crate) room: ProxiesEnd<K>,
}

impl<N: Backed, K: Keeper> Model for ColumnsRoom<N, K> {
    ghost use Rattle.std.specs.Prelude.{ℕ, length, vec_len, vec_capacity};
    ghost use Rattle.site_run.specs.Rooms.{HasRoom};

    ghost Value = { ℕ };

    ghost view = { λ r. r.numbers };

    ghost invariant = { λ r. HasRoom (length N.site.proxies) (vec_len r.proxies) (vec_capacity r.proxies) × HasRoom r.numbers (vec_len r.owns) (vec_capacity r.owns) × HasRoom (length N.site.proxies) (vec_len r.room.pasts) (vec_capacity r.room.pasts) × HasRoom (length N.site.proxies) (vec_len r.room.keepers) (vec_capacity r.room.keepers) };
}

/// What the locks of the columns kept, and the own items of each worker, those of number 0 first.
pub(crate) struct ColumnsEnd<K: Keeper, S: Sink> {
    pub(crate) okd: OkdEnd,
    pub(crate) proxies: ProxiesEnd<K>,
    pub(crate) pubd: PubdEnd,
    pub(crate) oklogd: LogEnd<S>,
    pub(crate) workers: Vec<Past<Own>>,
}

/// Ends the locks of the columns by the seats of all numbers, into room for what they kept. It takes no
/// memory.
pub(crate) fn end_columns<N: Backed, J: Site, K: Keeper, S: Sink>(
    locks: Locks<N, J, K, S>,
    seats: Vec<Seats<N, J, K, S>>,
    count: u16,
    room: ColumnsRoom<N, K>,
) -> ColumnsEnd<K, S>
    requires count { count ≡ N.launcher + 1 }
    requires room { room ≡ count }
    requires many { vec_len seats ≡ count }
    requires all { (k : ℕ) → k < count → SomeIs k seats.items }
    ensures okd { OkdLaw result.okd.past × LaunchedBy okd_grant N.launcher result.okd.past × ((k : ℕ) → count ≤ k → of by_entry k result.okd.past ≡ []) }
    ensures accepts { result.okd.accepts ≡ capped (accepts result.okd.past) }
    ensures launches { result.okd.launches ≡ capped (ups result.okd.past) }
    ensures proxies { AllProxies N.site N.run_seed N.launcher 0 result.proxies.pasts.items × NoneFrom by_entry count result.proxies.pasts.items }
    ensures follows { EachFrom (λ p J. AllFollow N.site p J) 0 result.proxies.pasts.items }
    ensures many { vec_len result.proxies.pasts ≡ length N.site.proxies }
    ensures kept { AllKept N.site N.tells N.steady N.keeper_faults 0 (map (keeper_of K.tables K.told K.faults K.steady) result.proxies.keepers.items) result.proxies.pasts.items }
    ensures pubd { PubdLaw N.site result.pubd.past × LaunchedBy pubd_grant N.launcher result.pubd.past × ((k : ℕ) → count ≤ k → of by_entry k result.pubd.past ≡ []) }
    ensures drains { EachFollows PubdFollows result.pubd.past }
    ensures publications { result.pubd.publications ≡ capped (publications result.pubd.past) }
    ensures oklogd { LogLaw result.oklogd.past × LaunchedBy log_grant N.launcher result.oklogd.past × ((k : ℕ) → count ≤ k → of by_entry k result.oklogd.past ≡ []) }
    ensures logs { EachFollows LogFollows result.oklogd.past }
    ensures logged { result.oklogd.logged ≡ capped (logged N.site result.oklogd.past) }
    ensures written { WritesLog N.site result.oklogd.past (S.given result.oklogd.sink) N.sink_faults (S.faults result.oklogd.sink) result.oklogd.failed }
    ensures workers { vec_len result.workers ≡ N.launcher }
    ensures grown { ColumnsGrown seats.items result.okd.past result.proxies.pasts.items result.pubd.past result.oklogd.past }
    ensures lists { AreLists seats.items result.workers.items }
    ensures saw { (greatest : List ℕ) × AllSaw count greatest seats.items }
{
    let ColumnsRoom {
        numbers: _,
        mut proxies,
        mut owns,
        room,
    } = room;
    let closed = close(locks, seats, &mut proxies, &mut owns, count);
    let mut owns = turned(owns);
    let _launchers = owns.pop();
    ColumnsEnd {
        okd: end_okd(closed.okd),
        proxies: end_proxies(proxies, room),
        pubd: end_pubd(closed.pubd),
        oklogd: end_log(closed.oklogd),
        workers: owns,
    }
}

/// The cells' journals, and what the links of their incarnations were given, those of service 0 first.
#[derive(Drop)]
pub(crate) struct CellsEnd {
    pub(crate) events: Vec<Past<CellEvent>>,
    pub(crate) sents: Vec<Sents>,
}

/// Room for the cells that their locks give back, and for what they kept.
#[derive(Drop)]
pub(crate) struct CellsRoom<N: Backed, L: Link> {
    pub(crate) cells: Vec<SiteCell<N, L>>,
    pub(crate) room: CellsEnd,
}

impl<N: Backed, L: Link> Model for CellsRoom<N, L> {
    ghost use Rattle.std.specs.Prelude.{ℕ, length, vec_len, vec_capacity};
    ghost use Rattle.site_run.specs.Rooms.{HasRoom};

    ghost Value = { ℕ };

    ghost view = { λ r. length N.site.services };

    ghost invariant = { λ r. HasRoom (length N.site.services) (vec_len r.cells) (vec_capacity r.cells) × HasRoom (length N.site.services) (vec_len r.room.events) (vec_capacity r.room.events) × HasRoom (length N.site.services) (vec_len r.room.sents) (vec_capacity r.room.sents) };
}

/// Ends the locks of the cells by the seats of all numbers, into room for what they kept. It takes no memory.
pub(crate) fn end_cells<N: Backed, C: CellNames, L: Link + Drop>(
    locks: CellLocks<N, C, L>,
    seats: Vec<CellSeats<N, C, L>>,
    count: u16,
    room: CellsRoom<N, L>,
) -> CellsEnd
    requires some { 0 < vec_len seats }
    requires counts { AllCount count locks }
    requires all { (k : ℕ) → k < count → HasNumber k seats.items }
    requires services { length locks ≡ length N.site.services }
    ensures cells { AllCells N.site N.run_seed 0 result.events.items result.sents.items }
    ensures none { NoneFrom (by_event N.launcher) count result.events.items }
    ensures many { vec_len result.events ≡ length N.site.services }
    ensures grown { AllCellsGrow N.launcher seats.items result.events.items }
{
    let CellsRoom { cells, room } = room;
    let mut cells = turned(close_cells(locks, seats, cells, count));
    let mut end = room;
    while let Some(cell) = cells.pop() {
        let (events, sents) = cell.close();
        end.events.push_reserved(events);
        end.sents.push_reserved(sents);
    }
    cells.destroy_empty();
    end
}

/// The launcher's journal, and what its crew left.
pub(crate) struct LauncherEnd<N: Staffed, J: Site, C: CellNames, K: Keeper, S: Sink, F: Children> {
    pub(crate) past: Past<Entry<LauncherEvent>>,
    pub(crate) deeds: Told<Deed>,
    pub(crate) stopped: Stopped<N, J, C, K, S, F>,
}

/// Ends the launcher's lock by the workers' seats at it, and stops and finishes all children, of which a fault
/// was told for each Failed of the launcher's journal and for each dialog that a fault of its link ended: no
/// link is in. The launcher's list is whole pieces, and then what retired the cells. Its seat at okd takes in
/// this note.
pub(crate) fn end_launcher<
    R: Wait,
    N: Staffed,
    J: Site,
    C: CellNames,
    K: Keeper,
    S: Sink,
    F: Children,
>(
    rt: &R,
    locks: &Locks<N, J, K, S>,
    cells: &CellLocks<N, C, Noted<N, J, K, S, F>>,
    turn: Turn<Resting<N, J, C, K, S, F>>,
    turns: Vec<Seat<Resting<N, J, C, K, S, F>>>,
    okd: OkdNote<N, J>,
) -> LauncherEnd<N, J, C, K, S, F>
    requires some { 0 < vec_len turns }
    requires rest { AllRest turn.id turns.items }
    requires all { (k : ℕ) → k < turn.count → SomeHas k turns.items }
    ensures law { LauncherLaw N.site result.past }
    ensures entries { result.past ≡ entries result.deeds.past }
    ensures none { (k : ℕ) → turn.count ≤ k → of by_deed k result.deeds.past ≡ [] }
    ensures numbers { (result.stopped.seats.number ≡ N.launcher) × (result.stopped.cells.number ≡ N.launcher) }
    ensures grown { AllClosed by_deed turns.items result.deeds.past }
    ensures met { Behind okd result.stopped.seats.okd }
    ensures shown { (s : ℕ) → s < length N.site.services → slice_index result.stopped.seats.board s ≡ begun result.past s }
    ensures own { AreOwn N.launcher result.stopped.seats result.stopped.cells result.stopped.own }
    ensures whole { EndsWhole N.site N.run_seed (up_in result.deeds.past) result.past result.stopped.cells.cells result.stopped.own }
    ensures ended { (s k : ℕ) → IsTrue (ended_in result.deeds.past s k) → IsTrue (ended_among N.children (F.family result.stopped.children) s k) }
    ensures failed { FailuresAreTold N.children result.past (F.family result.stopped.children) }
    ensures kin { AreKin N.site N.run_seed N.children result.past (ended_crew result.stopped.seats result.stopped.cells (F.family result.stopped.children) result.stopped.own) }
    ensures faults { FaultsAreTold N.children result.past (ended_crew result.stopped.seats result.stopped.cells (F.family result.stopped.children) result.stopped.own) }
    ensures empty { (s : ℕ) → s < length N.site.services → (link_at result.stopped.cells s ≡ false) × (incarnation (seen_at result.stopped.cells s) ≡ 0) }
    ensures caused { AllCaused (came_up result.stopped.seats) result.past result.past }
{
    let launcher = turn.close(turns);
    let (past, crew, deeds) = launcher.close();
    crew.recorder.keeps();
    let mut stopped = crew.stop_all(rt, cells);
    stopped.seats.meet_okd(locks, okd);
    LauncherEnd {
        past,
        deeds,
        stopped,
    }
}
