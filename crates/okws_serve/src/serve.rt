//! A run of a server, from its objects to its record.

ghost use Rattle.std.specs.Prelude.{◌≡◌, ◌≤◌, ◌<◌, ◌+◌, [], true, length, map, vec_len, IfSome, IsSome, IfNone};
ghost use Rattle.std.specs.Arc.{arc_value};
ghost use Rattle.okws_base.specs.declared.limit.TheConstants.{MOST_DOORS};
ghost use Rattle.turn_lock.specs.Rows.{AllCount};
ghost use Rattle.site_locks.specs.Sat.{ids_of};
ghost use Rattle.site_making.specs.Keepers.{keeper_of, AreKeepers, are_steady, faults_at, AreBacked};
ghost use Rattle.site_making.specs.Making.{IsServable};
ghost use Rattle.site_run.specs.Places.{AllIdle};
ghost use Rattle.site_run.specs.Rooms.{IsStock};
ghost use Rattle.okws_serve.specs.Runs.{Runs};
ghost use Rattle.okws_serve.specs.declared.outfit.TheConstants.{MOST_BEGUN};

use crate::outfit::{Left, Limits, Outfit};
use crate::outside::Outside;
use crate::scene::{Staged, end_run, stage, work_in};
use okld_launch::named::Staffed;
use okws_outer::children::Children;
use okws_outer::conn::Conn;
use okws_outer::door::Door;
use okws_outer::gate::Gate;
use okws_outer::keeper::Keeper;
use okws_outer::stream::{Link, Sink};
use okws_plan::configuration::Config;
use site_cells::lock_names::CellNames;
use site_locks::making::Made;
use site_locks::named::Site;
use site_locks::noted_link::Noted;
use site_making::making::make_columns;
use site_run::kit::{Kit, make_kit};
use std::alloc::Global;
use std::marker::Brand;
use std::sync::{Arc, Wait};
use std::thread::Threads;
use token_core::Seed;

/// A run of a server: all services are launched, a worker serves each door and one carries out the operator's
/// commands, all at once, until so many connections were begun or they were stopped, and the console has ended; then all children
/// are finished and what happened is told. All memory is taken before the run begins, but for what a request,
/// a launch or a command takes. Where it is refused, nothing was done, and there is nothing to tell.
pub fn serve_site<
    R: Threads + Wait + Sync,
    D: Door + Send + Drop,
    O: Conn + Send + Drop,
    F: Children + Send + Drop,
    K: Keeper + Send + Drop,
    S: Sink + Send + Drop,
    G: Gate + Sync,
>(
    rt: &R,
    alloc: Global,
    site: &Arc<Config, Global>,
    seed: &Seed,
    limits: Limits,
    outfit: Outfit<D, O, F, K, S, G>,
) -> Left<D, O, F, K, S, G>
where
    D::Conn: Send,
    F::Child: Send,
    F::Link: Send,
    K::Pin: Send,
    requires servable { IsServable (arc_value site.now) }
    requires limit { limits.connections ≤ MOST_BEGUN }
    requires doors { (0 < vec_len outfit.doors) × (vec_len outfit.doors ≤ MOST_DOORS) }
    requires idle { AllIdle (map D.entrance outfit.doors.items) }
    requires declared { vec_len outfit.keepers ≡ length (arc_value site.now).proxies }
    requires keepers { AreKeepers (arc_value site.now) 0 (map (keeper_of K.tables K.told K.faults K.steady) outfit.keepers.items) }
    requires log { IfSome (S.given outfit.log) (λ given. given ≡ []) }
    ensures idle { AllIdle (map D.entrance result.doors.items) }
    ensures ran { IfSome result.ran (λ ran. IfSome result.log (λ log.
        Runs D.Conn.wire (arc_value site.now) seed.now (vec_len outfit.doors + 1) limits.connections
        (record { steady = are_steady (map (keeper_of K.tables K.told K.faults K.steady) outfit.keepers.items); keeper_faults = faults_at (map (keeper_of K.tables K.told K.faults K.steady) outfit.keepers.items); sink_faults = S.faults outfit.log; children = F.family outfit.children })
        (map D.entrance outfit.doors.items) (O.wire outfit.console) ran
        (record { entrances = map D.entrance result.doors.items; console = O.wire result.console; children = F.family result.children; keepers = map (keeper_of K.tables K.told K.faults K.steady) result.keepers.items; given = S.given log; faults = S.faults log }))) }
    ensures log { IsSome result.ran → IsSome result.log }
    ensures unserved { IfNone result.ran ((map D.entrance result.doors.items ≡ map D.entrance outfit.doors.items) × (O.wire result.console ≡ O.wire outfit.console) × (F.family result.children ≡ F.family outfit.children)) }
{
    serve_numbered::<R, Brand, D, O, F, K, S, G>(rt, alloc, site, seed, limits, outfit)
}

// The same in a run that has a name: its launcher's number, its site and its seed are known by it.
fn serve_numbered<
    R: Threads + Wait + Sync,
    N: Staffed + Send + Sync,
    D: Door + Send + Drop,
    O: Conn + Send + Drop,
    F: Children + Send + Drop,
    K: Keeper + Send + Drop,
    S: Sink + Send + Drop,
    G: Gate + Sync,
>(
    rt: &R,
    alloc: Global,
    site: &Arc<Config, Global>,
    seed: &Seed,
    limits: Limits,
    outfit: Outfit<D, O, F, K, S, G>,
) -> Left<D, O, F, K, S, G>
where
    D::Conn: Send,
    F::Child: Send,
    F::Link: Send,
    K::Pin: Send,
    requires site { arc_value site.now ≡ N.site }
    requires seed { seed.now ≡ N.run_seed }
    requires tells { N.tells ≡ true }
    requires launcher { N.launcher ≡ vec_len outfit.doors + 1 }
    requires faults { N.sink_faults ≡ S.faults outfit.log }
    requires children { F.family outfit.children ≡ N.children }
    requires servable { IsServable N.site }
    requires limit { limits.connections ≤ MOST_BEGUN }
    requires doors { (0 < vec_len outfit.doors) × (vec_len outfit.doors ≤ MOST_DOORS) }
    requires idle { AllIdle (map D.entrance outfit.doors.items) }
    requires declared { vec_len outfit.keepers ≡ length N.site.proxies }
    requires keepers { AreBacked N.site N.steady N.keeper_faults 0 (map (keeper_of K.tables K.told K.faults K.steady) outfit.keepers.items) }
    requires log { IfSome (S.given outfit.log) (λ given. given ≡ []) }
    ensures idle { AllIdle (map D.entrance result.doors.items) }
    ensures ran { IfSome result.ran (λ ran. IfSome result.log (λ log.
        Runs D.Conn.wire N.site N.run_seed N.launcher limits.connections (record { steady = N.steady; keeper_faults = N.keeper_faults; sink_faults = N.sink_faults; children = N.children })
        (map D.entrance outfit.doors.items) (O.wire outfit.console) ran
        (record { entrances = map D.entrance result.doors.items; console = O.wire result.console; children = F.family result.children; keepers = map (keeper_of K.tables K.told K.faults K.steady) result.keepers.items; given = S.given log; faults = S.faults log }))) }
    ensures log { IsSome result.ran → IsSome result.log }
    ensures unserved { IfNone result.ran ((map D.entrance result.doors.items ≡ map D.entrance outfit.doors.items) × (O.wire result.console ≡ O.wire outfit.console) × (F.family result.children ≡ F.family outfit.children)) }
{
    let Outfit {
        doors,
        console,
        children,
        keepers,
        log,
        gate,
    } = outfit;
    let count = doors.len() as u16;
    let outside = Outside {
        doors,
        console,
        children,
        gate,
    };
    match make_columns::<N, K, S>(alloc, site, seed, count + 1, limits.keeps, keepers, log) {
        Err(_) => outside.unused(alloc),
        Ok(columns) => serve_named::<&R, N, Brand, D, O, F, K, S, G>(
            rt, alloc, site, seed, limits, columns, outside,
        ),
    }
}

// The same in a run whose columns' locks have names, of which the cells' links tell.
fn serve_named<
    R: Threads + Wait + Sync + Copy,
    N: Staffed + Send + Sync,
    J: Site + Send + Sync,
    D: Door + Send + Drop,
    O: Conn + Send + Drop,
    F: Children + Send + Drop,
    K: Keeper + Send + Drop,
    S: Sink + Send + Drop,
    G: Gate + Sync,
>(
    rt: R,
    alloc: Global,
    site: &Arc<Config, Global>,
    seed: &Seed,
    limits: Limits,
    columns: Made<N, K, S>,
    outside: Outside<D, O, F, G>,
) -> Left<D, O, F, K, S, G>
where
    D::Conn: Send,
    F::Child: Send,
    F::Link: Send,
    K::Pin: Send,
    requires names { ids_of columns ≡ J.ids }
    requires site { arc_value site.now ≡ N.site }
    requires seed { seed.now ≡ N.run_seed }
    requires tells { N.tells ≡ true }
    requires limit { limits.connections ≤ MOST_BEGUN }
    requires launcher { N.launcher ≡ vec_len outside.doors + 1 }
    requires servable { IsServable N.site }
    requires doors { (0 < vec_len outside.doors) × (vec_len outside.doors ≤ MOST_DOORS) }
    requires idle { AllIdle (map D.entrance outside.doors.items) }
    requires children { F.family outside.children ≡ N.children }
    ensures idle { AllIdle (map D.entrance result.doors.items) }
    ensures ran { IfSome result.ran (λ ran. IfSome result.log (λ log.
        Runs D.Conn.wire N.site N.run_seed N.launcher limits.connections (record { steady = N.steady; keeper_faults = N.keeper_faults; sink_faults = N.sink_faults; children = N.children })
        (map D.entrance outside.doors.items) (O.wire outside.console) ran
        (record { entrances = map D.entrance result.doors.items; console = O.wire result.console; children = F.family result.children; keepers = map (keeper_of K.tables K.told K.faults K.steady) result.keepers.items; given = S.given log; faults = S.faults log }))) }
    ensures log { IsSome result.ran → IsSome result.log }
    ensures unserved { IfNone result.ran ((map D.entrance result.doors.items ≡ map D.entrance outside.doors.items) × (O.wire result.console ≡ O.wire outside.console) × (F.family result.children ≡ F.family outside.children)) }
{
    let count = outside.doors.len() as u16;
    match make_kit::<N, K, S, Noted<N, J, K, S, F>>(
        alloc,
        site,
        seed,
        count,
        limits.keeps,
        columns,
    ) {
        Err(_) => outside.unused(alloc),
        Ok(kit) => {
            serve_locked::<R, N, J, Brand, D, O, F, K, S, G>(rt, alloc, limits, kit, outside)
        }
    }
}

// The same in a run whose locks all have names.
fn serve_locked<
    R: Threads + Wait + Sync + Copy,
    N: Staffed + Send + Sync,
    J: Site + Send + Sync,
    C: CellNames + Send + Sync,
    D: Door + Send + Drop,
    O: Conn + Send + Drop,
    F: Children + Send + Drop,
    K: Keeper + Send + Drop,
    S: Sink + Send + Drop,
    G: Gate + Sync,
>(
    rt: R,
    alloc: Global,
    limits: Limits,
    kit: Kit<N, K, S, Noted<N, J, K, S, F>>,
    outside: Outside<D, O, F, G>,
) -> Left<D, O, F, K, S, G>
where
    D::Conn: Send,
    F::Child: Send,
    F::Link: Send,
    K::Pin: Send,
    requires names { (ids_of kit.columns ≡ J.ids) × (kit.cells.turns ≡ C.cell_turns) }
    requires cells { (kit.cells.numbers ≡ N.launcher + 1) × AllCount (N.launcher + 1) kit.cells.turns × (length kit.cells.turns ≡ length N.site.services) }
    requires stock { IsStock N.site N.run_seed (vec_len outside.doors) kit.stock }
    requires tells { N.tells ≡ true }
    requires limit { limits.connections ≤ MOST_BEGUN }
    requires launcher { N.launcher ≡ vec_len outside.doors + 1 }
    requires servable { IsServable N.site }
    requires doors { (0 < vec_len outside.doors) × (vec_len outside.doors ≤ MOST_DOORS) }
    requires idle { AllIdle (map D.entrance outside.doors.items) }
    requires children { F.family outside.children ≡ N.children }
    ensures idle { AllIdle (map D.entrance result.doors.items) }
    ensures ran { IfSome result.ran (λ ran. IfSome result.log (λ log.
        Runs D.Conn.wire N.site N.run_seed N.launcher limits.connections (record { steady = N.steady; keeper_faults = N.keeper_faults; sink_faults = N.sink_faults; children = N.children })
        (map D.entrance outside.doors.items) (O.wire outside.console) ran
        (record { entrances = map D.entrance result.doors.items; console = O.wire result.console; children = F.family result.children; keepers = map (keeper_of K.tables K.told K.faults K.steady) result.keepers.items; given = S.given log; faults = S.faults log }))) }
    ensures log { IsSome result.ran → IsSome result.log }
    ensures unserved { IfNone result.ran ((map D.entrance result.doors.items ≡ map D.entrance outside.doors.items) × (O.wire result.console ≡ O.wire outside.console) × (F.family result.children ≡ F.family outside.children)) }
{
    let Ok(posts) = Vec::with_capacity(alloc, outside.doors.len() + 1) else {
        return outside.unused(alloc);
    };
    match stage::<R, N, J, C, D, O, F, K, S, G>(rt, alloc, kit, outside, limits.keeps) {
        Err(outside) => {
            posts.destroy_empty();
            outside.unused(alloc)
        }
        Ok(staged) => {
            let Staged {
                scene,
                mut chairs,
                mut places,
                console,
                room,
            } = staged;
            let (console, served, ending, okd, place) = work_in(
                &scene,
                alloc,
                limits.connections,
                &mut chairs,
                &mut places,
                console,
                posts,
            );
            end_run(
                scene, alloc, chairs, places, room, console, served, ending, okd, place,
            )
        }
    }
}
