//! The launcher's turns, which any worker takes. Nobody takes one while it holds a cell's: the seats at the
//! cells hold none but inside their own calls.

ghost use Rattle.std.specs.Prelude.{◌≡◌, ◌<◌, ◌≤◌, length};
ghost use Rattle.monitor_model.specs.Cell.{last_booted};
ghost use Rattle.turn_lock.specs.Rows.{RestsAt};
ghost use Rattle.okld_launch.specs.Ups.{launch_up_if};
ghost use Rattle.launch_turns.specs.Standing.{BegunBefore, UpsStand};
ghost use Rattle.launch_turns.specs.Turns.{LaunchesBy, RelaunchesBy, ReportsBy, TendsBy};

use crate::deed::Took;
use crate::resting::Resting;
use okld_launch::answer::{Crashed, Launched, Tended};
use okld_launch::entered::Entered;
use okld_launch::named::Staffed;
use okws_outer::children::Children;
use okws_outer::gate::Gate;
use okws_outer::keeper::Keeper;
use okws_outer::stream::Sink;
use site_cells::lock_names::CellNames;
use site_cells::locks::CellLocks;
use site_cells::note::CellNote;
use site_locks::locks::{Locks, Seats};
use site_locks::named::Site;
use site_locks::note::OkdNote;
use site_locks::noted_link::Noted;
use std::sync::Wait;
use turn_lock::{Seat, Turn};

// Whether there was a launch by which an incarnation is up.
fn up_if(answer: Option<Launched>) -> bool
    ensures { result ≡ launch_up_if answer }
{
    match answer {
        Some(launched) => launched.is_up(),
        None => false,
    }
}

/// Launches a service in a turn. Where it is up already, nothing is entered, and the answer is none.
/// Like each turn, it tells what it entered.
pub fn launch_by<
    R: Wait,
    G: Gate,
    N: Staffed,
    J: Site,
    C: CellNames,
    K: Keeper,
    S: Sink,
    F: Children,
>(
    rt: &R,
    gate: &G,
    turn: &Turn<Resting<N, J, C, K, S, F>>,
    seat: &mut Seat<Resting<N, J, C, K, S, F>>,
    locks: &Locks<N, J, K, S>,
    cells: &CellLocks<N, C, Noted<N, J, K, S, F>>,
    service: u16,
) -> (Option<Launched>, Entered)
    requires rest { RestsAt turn.now seat.old }
    requires service { service < length N.site.services }
    ensures goes { LaunchesBy N.site service seat.old result.0 result.1 seat.new }
    ensures seat { seat.new ≡ record seat.old { seen = seat.new.seen } }
{
    let resting = turn.take(rt, seat);
    let (launcher, deeds) = resting.into_parts();
    launcher.keeps();
    let (launcher, answer, entered) = launcher.launch_if_down(rt, gate, locks, cells, service);
    launcher.keeps();
    let took = Took {
        worker: seat.number(),
        entered: &entered,
        up: up_if(answer),
        tended: false,
    };
    turn.give(seat, Resting::after(launcher, &deeds, &took));
    (answer, entered)
}

/// Launches a service that the operator asks for, in a turn. Like each turn below, it tells what the launcher
/// has seen at okd then: all that came up in its turns stands there.
pub fn relaunch_by<
    R: Wait,
    G: Gate,
    N: Staffed,
    J: Site,
    C: CellNames,
    K: Keeper,
    S: Sink,
    F: Children,
>(
    rt: &R,
    gate: &G,
    turn: &Turn<Resting<N, J, C, K, S, F>>,
    seat: &mut Seat<Resting<N, J, C, K, S, F>>,
    locks: &Locks<N, J, K, S>,
    cells: &CellLocks<N, C, Noted<N, J, K, S, F>>,
    service: u16,
) -> (Launched, Entered, OkdNote<N, J>)
    requires rest { RestsAt turn.now seat.old }
    requires service { service < length N.site.services }
    ensures goes { RelaunchesBy N.site service seat.old result.0 result.1 seat.new }
    ensures stand { UpsStand seat.new.seen result.2 }
    ensures seat { seat.new ≡ record seat.old { seen = seat.new.seen } }
{
    let resting = turn.take(rt, seat);
    let (launcher, deeds) = resting.into_parts();
    launcher.keeps();
    let (launcher, answer, entered) = launcher.relaunch(rt, gate, locks, cells, service);
    launcher.keeps();
    let took = Took {
        worker: seat.number(),
        entered: &entered,
        up: answer.is_up(),
        tended: false,
    };
    let mut rested = Resting::after(launcher, &deeds, &took);
    let note = rested.note_okd(locks);
    turn.give(seat, rested);
    (answer, entered, note)
}

/// Enters that an incarnation of a service has crashed, in a turn, and launches the service where it was the
/// greatest. That it was begun is known by a note of the service's cell, at which it was booted.
pub fn report_by<
    R: Wait,
    G: Gate,
    N: Staffed,
    J: Site,
    C: CellNames,
    K: Keeper,
    S: Sink,
    F: Children,
>(
    rt: &R,
    gate: &G,
    turn: &Turn<Resting<N, J, C, K, S, F>>,
    seat: &mut Seat<Resting<N, J, C, K, S, F>>,
    locks: &Locks<N, J, K, S>,
    hands: &mut Seats<N, J, K, S>,
    cells: &CellLocks<N, C, Noted<N, J, K, S, F>>,
    note: CellNote<N, C, Noted<N, J, K, S, F>>,
    service: u16,
    incarnation: u32,
) -> (Crashed, Entered, OkdNote<N, J>)
    requires rest { RestsAt turn.now seat.old }
    requires service { service < length N.site.services }
    requires here { note.service ≡ service }
    requires counted { 0 < incarnation }
    requires booted { incarnation ≤ last_booted note.seen }
    ensures goes { ReportsBy N.site service incarnation seat.old result.0 result.1 seat.new }
    ensures stand { UpsStand seat.new.seen result.2 }
    ensures shown { BegunBefore N.site hands.old.board seat.new.seen }
    ensures hands { hands.new ≡ hands.old }
    ensures seat { seat.new ≡ record seat.old { seen = seat.new.seen } }
{
    let resting = turn.take(rt, seat);
    let (mut launcher, deeds) = resting.into_parts_for(locks, hands);
    launcher.keeps();
    launcher.meet(cells, note);
    let (launcher, answer, entered) = launcher.crashed(
        rt,
        gate,
        locks,
        cells,
        service,
        incarnation,
    );
    launcher.keeps();
    let took = Took {
        worker: seat.number(),
        entered: &entered,
        up: answer.is_up(),
        tended: false,
    };
    let mut rested = Resting::after(launcher, &deeds, &took);
    let note = rested.note_okd(locks);
    turn.give(seat, rested);
    (answer, entered, note)
}

/// Looks after a service in a turn.
pub fn tend_by<
    R: Wait,
    G: Gate,
    N: Staffed,
    J: Site,
    C: CellNames,
    K: Keeper,
    S: Sink,
    F: Children,
>(
    rt: &R,
    gate: &G,
    turn: &Turn<Resting<N, J, C, K, S, F>>,
    seat: &mut Seat<Resting<N, J, C, K, S, F>>,
    locks: &Locks<N, J, K, S>,
    hands: &mut Seats<N, J, K, S>,
    cells: &CellLocks<N, C, Noted<N, J, K, S, F>>,
    service: u16,
) -> (Tended, Entered, OkdNote<N, J>)
    requires rest { RestsAt turn.now seat.old }
    requires service { service < length N.site.services }
    ensures goes { TendsBy N.site service seat.old result.0 result.1 seat.new }
    ensures stand { UpsStand seat.new.seen result.2 }
    ensures shown { BegunBefore N.site hands.old.board seat.new.seen }
    ensures hands { hands.new ≡ hands.old }
    ensures seat { seat.new ≡ record seat.old { seen = seat.new.seen } }
{
    let resting = turn.take(rt, seat);
    let (launcher, deeds) = resting.into_parts_for(locks, hands);
    launcher.keeps();
    let (launcher, answer, entered) = launcher.tend(rt, gate, locks, cells, service);
    launcher.keeps();
    let took = Took {
        worker: seat.number(),
        entered: &entered,
        up: answer.is_up(),
        tended: true,
    };
    let mut rested = Resting::after(launcher, &deeds, &took);
    let note = rested.note_okd(locks);
    turn.give(seat, rested);
    (answer, entered, note)
}
