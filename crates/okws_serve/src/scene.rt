//! A run from its beginning to its end, round the scope of its workers.

ghost use Rattle.std.specs.Prelude.{◌≡◌, ◌≤◌, ◌<◌, ◌+◌, ℕ, true, Some, length, map, IfOk, vec_len, vec_capacity, IfSome, IfErr, IsSome};
ghost use Rattle.std.specs.Arc.{arc_value};
ghost use Rattle.okws_base.specs.declared.limit.TheConstants.{MOST_DOORS};
ghost use Rattle.okws_outer.specs.Conns.{ConnWire};
ghost use Rattle.turn_lock.specs.BoardSeats.{IsFresh};
ghost use Rattle.turn_lock.specs.Rows.{AllCount};
ghost use Rattle.site_locks.specs.Sat.{ids_of};
ghost use Rattle.site_making.specs.Keepers.{keeper_of};
ghost use Rattle.site_making.specs.Making.{IsServable};
ghost use Rattle.site_run.specs.Places.{AllIdle, PlacesAre};
ghost use Rattle.site_run.specs.Rooms.{HasRoom, IsStock};
ghost use Rattle.site_run.specs.Whole.{IsHeld, IsReady};
ghost use Rattle.okws_serve.specs.Manned.{WorkDone};
ghost use Rattle.okws_serve.specs.Runs.{Runs};
ghost use Rattle.okws_serve.specs.declared.outfit.TheConstants.{MOST_BEGUN};

use crate::leaving::Served;
use crate::manning::Console;
use crate::outfit::{Ending, Left, Ran};
use crate::outside::Outside;
use crate::post::PostOf;
use crate::scope::run;
use okld_launch::named::Staffed;
use okws_outer::children::Children;
use okws_outer::conn::Conn;
use okws_outer::door::Door;
use okws_outer::gate::Gate;
use okws_outer::keeper::Keeper;
use okws_outer::stream::{Link, Sink};
use okws_plan::configuration::Config;
use site_cells::lock_names::CellNames;
use site_locks::named::Site;
use site_locks::note::OkdNote;
use site_locks::noted_link::Noted;
use site_run::ended::Ended;
use site_run::kit::{Begun, Kit, begin};
use site_run::places::Doors;
use site_run::room::Room;
use site_run::row::{Chairs, Ground};
use site_run::whole::{Hall, Run};
use std::alloc::Global;
use std::sync::{Arc, Wait};
use std::thread::Threads;
use turn_lock::board::Seat as Place;

/// What the workers of a run are lent.
pub(crate) struct Scene<R, N: Staffed, J: Site, C: CellNames, K: Keeper, S: Sink, F: Children, G> {
    pub(crate) rt: R,
    pub(crate) site: Arc<Config, Global>,
    pub(crate) gate: G,
    pub(crate) hall: Hall<N, J, C, K, S, F>,
}

impl<R: Wait, N: Staffed, J: Site, C: CellNames, K: Keeper, S: Sink, F: Children, G: Gate> Scene<
    R,
    N,
    J,
    C,
    K,
    S,
    F,
    G,
> {
    // What the workers have in common, up to this number of connections.
    fn ground(&self, alloc: Global, most: u64) -> Ground<'_, R, G, N, J, C, K, S, F>
        ensures locks { (result.turn.now ≡ self.now.hall.turn) × (result.numbers.now ≡ self.now.hall.numbers) }
        ensures setting { (result.site.now ≡ arc_value self.now.site) × (result.most ≡ most) }
    {
        Ground {
            rt: &self.rt,
            alloc,
            gate: &self.gate,
            site: &self.site,
            locks: &self.hall.locks,
            cells: &self.hall.cells,
            turn: &self.hall.turn,
            numbers: &self.hall.numbers,
            most,
        }
    }
}

/// A run that began: what its workers are lent, their seats, the doors, the console, and room for the end.
pub(crate) struct Staged<
    R,
    N: Staffed,
    J: Site,
    C: CellNames,
    K: Keeper,
    S: Sink,
    F: Children,
    G,
    D: Door,
    O: Conn,
> {
    pub(crate) scene: Scene<R, N, J, C, K, S, F, G>,
    pub(crate) chairs: Chairs<N, J, C, K, S, F>,
    pub(crate) places: Doors<D>,
    pub(crate) console: Console<O>,
    pub(crate) room: Room<N, K, Noted<N, J, K, S, F>>,
}

/// Stages a run over what stands outside. Where memory is refused, that comes back.
pub(crate) fn stage<
    R: Copy,
    N: Staffed,
    J: Site,
    C: CellNames,
    D: Door,
    O: Conn,
    F: Children + Drop,
    K: Keeper + Drop,
    S: Sink + Drop,
    G: Gate,
>(
    rt: R,
    alloc: Global,
    kit: Kit<N, K, S, Noted<N, J, K, S, F>>,
    outside: Outside<D, O, F, G>,
    keeps: bool,
) -> Result<Staged<R, N, J, C, K, S, F, G, D, O>, Outside<D, O, F, G>>
    requires names { (ids_of kit.columns ≡ J.ids) × (kit.cells.turns ≡ C.cell_turns) }
    requires cells { (kit.cells.numbers ≡ N.launcher + 1) × AllCount (N.launcher + 1) kit.cells.turns × (length kit.cells.turns ≡ length N.site.services) }
    requires stock { IsStock N.site N.run_seed (vec_len outside.doors) kit.stock }
    requires launcher { N.launcher ≡ vec_len outside.doors + 1 }
    requires servable { IsServable N.site }
    requires doors { (0 < vec_len outside.doors) × (vec_len outside.doors ≤ MOST_DOORS) }
    requires idle { AllIdle (map D.entrance outside.doors.items) }
    requires children { F.family outside.children ≡ N.children }
    ensures ready { IfOk result (λ o. IsReady N.site N.launcher o.scene.hall.turn o.scene.hall.numbers o.scene.hall.cells o.chairs o.places) }
    ensures doors { IfOk result (λ o. o.places.entrances ≡ map D.entrance outside.doors.items) }
    ensures beside { IfOk result (λ o. (arc_value o.scene.site ≡ N.site) × (o.console.console ≡ outside.console) × (o.console.reader ≡ 0) × (o.room + 1 ≡ N.launcher)) }
    ensures last { IfOk result (λ o. IsFresh o.scene.hall.numbers.id (vec_len outside.doors) o.console.place) }
    ensures back { IfErr result (λ o. (o.doors.items ≡ outside.doors.items) × (o.console ≡ outside.console) × (F.family o.children ≡ F.family outside.children)) }
{
    let Outside {
        doors,
        console,
        children,
        gate,
    } = outside;
    match begin(alloc, kit, doors, children, keeps) {
        Err((doors, children)) => Err(Outside {
            doors,
            console,
            children,
            gate,
        }),
        Ok(begun) => {
            let Begun {
                run,
                site,
                reader,
                room,
            } = begun;
            let Run {
                hall,
                chairs,
                places,
                last,
            } = run;
            Ok(Staged {
                scene: Scene {
                    rt,
                    site,
                    gate,
                    hall,
                },
                chairs,
                places,
                console: Console {
                    console,
                    reader,
                    place: last,
                },
                room,
            })
        }
    }
}

/// The workers of a run do what is to do at their posts.
pub(crate) fn work_in<
    'a,
    R: Threads + Wait + Sync,
    N: Staffed + Send + Sync,
    J: Site + Send + Sync,
    C: CellNames + Send + Sync,
    D: Door + Send,
    O: Conn + Send,
    F: Children + Send,
    K: Keeper + Send,
    S: Sink + Send,
    G: Gate + Sync,
>(
    scene: &'a Scene<R, N, J, C, K, S, F, G>,
    alloc: Global,
    most: u64,
    chairs: &mut Chairs<N, J, C, K, S, F>,
    places: &mut Doors<D>,
    console: Console<O>,
    posts: Vec<PostOf<'a, R, G, N, J, C, K, S, F, D, O>>,
) -> (O, Served, Ending, OkdNote<N, J>, Place)
where
    D::Conn: Send,
    F::Child: Send,
    F::Link: Send,
    K::Pin: Send,
    requires ready { IsReady N.site N.launcher scene.now.hall.turn scene.now.hall.numbers scene.now.hall.cells chairs.old places.old }
    requires tells { N.tells ≡ true }
    requires site { arc_value scene.now.site ≡ N.site }
    requires servable { IsServable N.site }
    requires most { most ≤ MOST_BEGUN }
    requires posts { HasRoom (length places.old.entrances + 1) (vec_len posts) (vec_capacity posts) }
    requires first { console.reader ≡ 0 }
    requires last { IsFresh scene.now.hall.numbers.id (length places.old.entrances) console.place }
    ensures held { IsHeld N.site N.launcher scene.now.hall.turn scene.now.hall.numbers scene.now.hall.cells chairs.new places.new }
    ensures idle { AllIdle places.new.entrances }
    ensures last { result.4.board ≡ scene.now.hall.numbers.id }
    ensures done { WorkDone D.Conn.wire N.site N.launcher scene.now.hall.numbers.id most chairs.new result.3 places.old places.new (O.wire console.console) (O.wire result.0) result.1.connections result.1.starved result.4 result.2 }
{
    let common = scene.ground(alloc, most);
    run(&common, chairs, places, console, posts)
}

/// Ends a run whose workers left their posts.
pub(crate) fn end_run<
    R: Wait + Copy,
    N: Staffed,
    J: Site,
    C: CellNames,
    D: Door,
    O: Conn,
    F: Children,
    K: Keeper,
    S: Sink,
    G: Gate,
>(
    scene: Scene<R, N, J, C, K, S, F, G>,
    alloc: Global,
    chairs: Chairs<N, J, C, K, S, F>,
    places: Doors<D>,
    room: Room<N, K, Noted<N, J, K, S, F>>,
    console: O,
    served: Served,
    ending: Ending,
    okd: OkdNote<N, J>,
    place: Place,
) -> Left<D, O, F, K, S, G>
    requires held { IsHeld N.site N.launcher scene.hall.turn scene.hall.numbers scene.hall.cells chairs places }
    requires tells { N.tells ≡ true }
    requires room { room + 1 ≡ N.launcher }
    requires idle { AllIdle places.entrances }
    requires last { place.board ≡ scene.hall.numbers.id }
    ensures idle { AllIdle (map D.entrance result.doors.items) }
    ensures some { IsSome result.ran × IsSome result.log }
    ensures ran { IfSome result.ran (λ ran. IfSome result.log (λ log. (most : ℕ) (old : PlacesAre) (w : ConnWire) → most ≤ MOST_BEGUN
        → WorkDone D.Conn.wire N.site N.launcher scene.hall.numbers.id most chairs okd old places w (O.wire console) served.connections served.starved place ending
        → Runs D.Conn.wire N.site N.run_seed N.launcher most (record { steady = N.steady; keeper_faults = N.keeper_faults; sink_faults = N.sink_faults; children = N.children }) old.entrances w ran
        (record { entrances = map D.entrance result.doors.items; console = O.wire result.console; children = F.family result.children; keepers = map (keeper_of K.tables K.told K.faults K.steady) result.keepers.items; given = S.given log; faults = S.faults log }))) }
{
    let Scene {
        rt,
        site: _,
        gate,
        hall,
    } = scene;
    let run = Run {
        hall,
        chairs,
        places,
        last: place,
    };
    let ended = run.end(&rt, alloc, room, served.connections, okd);
    left(ended, console, gate, served, ending)
}

// What is left of a run that ended.
fn left<D: Door, O: Conn, F: Children, K: Keeper, S: Sink, G: Gate>(
    ended: Ended<K, S, F, D>,
    console: O,
    gate: G,
    served: Served,
    ending: Ending,
) -> Left<D, O, F, K, S, G>
    ensures objects { (result.doors.items ≡ ended.doors.items) × (result.console ≡ console) × (result.keepers.items ≡ ended.keepers.items) × (result.log ≡ Some ended.log) }
    ensures children { F.family result.children ≡ F.family ended.children }
    ensures ran { result.ran ≡ Some (record { «record» = ended.record; counts = ended.counts; log_failed = ended.log_failed; console_failed = ending.failed; starved = served.starved }) }
{
    let Ended {
        doors,
        children,
        keepers,
        log,
        record,
        counts,
        log_failed,
    } = ended;
    Left {
        doors,
        console,
        children,
        keepers,
        log: Some(log),
        gate,
        ran: Some(Ran {
            record,
            counts,
            log_failed,
            console_failed: ending.failed,
            starved: served.starved,
        }),
    }
}
