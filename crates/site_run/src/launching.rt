//! Launching the services of a run before its workers begin.

ghost use Rattle.std.specs.Prelude.{◌≡◌, ◌≤◌, ◌<◌, ◌+◌, ◌*◌, ◌++◌, ◌∷◌, ℕ, List, [], length, map, vec_len, vec_capacity};
ghost use Rattle.okws_base.specs.declared.limit.TheConstants.{MOST_SERVICES, GREATEST_RETRY};
ghost use Rattle.okws_base.specs.Turns.{of, Behind};
ghost use Rattle.monitor_model.specs.declared.record.Own.TheVariants as own;
ghost use Rattle.launch_turns.specs.Deeds.{by_deed};
ghost use Rattle.round_lives.specs.Living.{starved_if};
ghost use Rattle.turn_lock.specs.Rows.{RestsAt};
ghost use Rattle.site_worker.specs.declared.worker.TheConstants.{TURN_ITEMS};
ghost use Rattle.site_run.specs.Opening.{Opening, Opens, IsAlone, IsUnopened, HasOpened, AllSeeMore, AreQuiet, AreTurns, seen_first, wants};
ghost use Rattle.site_run.specs.Rows.{Seated, SameRoom, first_spare};
ghost use Rattle.launch_turns.specs.Standing.{UpsStand};
ghost use Rattle.site_run.specs.Meeting.{AllBooted, AllGo, HasShown, SeesCells};
ghost use Rattle.site_run.specs.Tied.{IsNotedWhere, OnlyLaunches, Unused, Waiting};

use crate::meeting::{meet_cells, meet_okd};
use crate::row::{Chairs, Ground};
use launch_turns::notes::okd_by;
use launch_turns::resting::Resting;
use launch_turns::turns::launch_by;
use monitor_model::record::Own;
use named_columns::named::Backed;
use okld_launch::answer::Launched;
use okld_launch::entered::Entered;
use okld_launch::named::Staffed;
use okws_outer::children::Children;
use okws_outer::gate::Gate;
use okws_outer::keeper::Keeper;
use okws_outer::stream::Sink;
use site_cells::lock_names::CellNames;
use site_cells::seats::CellSeats;
use site_locks::locks::Seats;
use site_locks::named::Site;
use site_locks::note::OkdNote;
use site_locks::noted_link::Noted;
use std::sync::Wait;
use turn_lock::{Seat, Turn};

// Notes events that a turn entered at the launcher, in spare places, the oldest first. Takes no memory.
fn note_entered<N: Backed, J: Site, K: Keeper, S: Sink>(
    seats: &mut Seats<N, J, K, S>,
    entered: Entered,
)
    requires { length entered ≤ seats.old.spare }
    ensures notes { seats.new ≡ record seats.old { own = map own.Launcher entered ++ seats.old.own; spare = seats.new.spare } }
    ensures spends { seats.old.spare ≤ seats.new.spare + length entered }
{
    let mut entered = entered;
    while let Some(event) = entered.pop_oldest() {
        seats.note_spare(Own::Launcher(event));
    }
}

// Notes want of memory so, where there was any. Takes no memory.
fn note_where<N: Backed, J: Site, K: Keeper, S: Sink>(seats: &mut Seats<N, J, K, S>, starved: bool)
    requires { 0 < seats.old.spare }
    ensures seats { seats.new ≡ record seats.old { own = seats.new.own; spare = seats.new.spare } }
    ensures notes { IsNotedWhere starved seats.old.own seats.new.own }
    ensures spends { seats.old.spare ≤ seats.new.spare + 1 }
{
    if starved {
        seats.note_spare(Own::NoMemory);
    }
}

// Whether memory was refused to a launch, if there was one.
fn starved(launched: Option<Launched>) -> bool
    ensures is { result ≡ starved_if launched }
    ensures opens { result ≡ wants launched }
{
    match launched {
        None => false,
        Some(Launched::NoMemory) => true,
        Some(Launched::Up(_) | Launched::Dead(_) | Launched::Spent) => false,
    }
}

// Launches a service that isn't up, in a turn of this seat; what the turn entered is noted, and want of memory.
fn launch_one<R: Wait, G: Gate, N: Staffed, J: Site, C: CellNames, K: Keeper, S: Sink, F: Children>(
    ground: &Ground<'_, R, G, N, J, C, K, S, F>,
    seats: &mut Seats<N, J, K, S>,
    seat: &mut Seat<Resting<N, J, C, K, S, F>>,
    service: u16,
)
    requires retry { N.site.retry ≤ GREATEST_RETRY }
    requires service { service < length N.site.services }
    requires rest { RestsAt ground.now.turn.now seat.old }
    requires spare { TURN_ITEMS ≤ seats.old.spare }
    ensures seat { seat.new ≡ record seat.old { seen = seat.new.seen } }
    ensures seats { seats.new ≡ record seats.old { own = seats.new.own; spare = seats.new.spare } }
    ensures launches { OnlyLaunches seat.old.number seats.old.own seat.old.seen → OnlyLaunches seat.old.number seats.new.own seat.new.seen }
    ensures more { Behind seat.old.seen seat.new.seen }
    ensures opens { (os : List Opening) → length os ≡ service → Opens seat.old.number os seats.old.own seat.old.seen → IsAlone seat.old.number seat.new.seen → (o : Opening) × Opens seat.old.number (o ∷ os) seats.new.own seat.new.seen }
    ensures spends { seats.old.spare ≤ seats.new.spare + TURN_ITEMS }
{
    let (launched, entered) = launch_by(
        ground.rt,
        ground.gate,
        ground.turn,
        seat,
        ground.locks,
        ground.cells,
        service,
    );
    note_entered(seats, entered);
    note_where(seats, starved(launched));
}

// Launches each service that isn't up, in turns of this seat.
fn launch_row<R: Wait, G: Gate, N: Staffed, J: Site, C: CellNames, K: Keeper, S: Sink, F: Children>(
    ground: &Ground<'_, R, G, N, J, C, K, S, F>,
    seats: &mut Seats<N, J, K, S>,
    seat: &mut Seat<Resting<N, J, C, K, S, F>>,
)
    requires site { ground.now.site.now ≡ N.site }
    requires few { length N.site.services ≤ MOST_SERVICES }
    requires retry { N.site.retry ≤ GREATEST_RETRY }
    requires rest { RestsAt ground.now.turn.now seat.old }
    requires spare { length N.site.services * TURN_ITEMS ≤ seats.old.spare }
    ensures seat { seat.new ≡ record seat.old { seen = seat.new.seen } }
    ensures seats { seats.new ≡ record seats.old { own = seats.new.own; spare = seats.new.spare } }
    ensures launches { OnlyLaunches seat.old.number seats.old.own seat.old.seen → OnlyLaunches seat.old.number seats.new.own seat.new.seen }
    ensures opens { Opens seat.old.number [] seats.old.own seat.old.seen → IsAlone seat.old.number seat.new.seen → (os : List Opening) × (length os ≡ length N.site.services) × Opens seat.old.number os seats.new.own seat.new.seen }
{
    let services = ground.site.services.as_slice().len() as u16;
    for service in 0..services {
        launch_one(ground, seats, seat, service);
    }
}

// Launches each service that isn't up, in turns of this seat, and has the seats of all numbers at the cells
// take in what the launcher has seen there. Tells what it has seen at okd then.
fn launch_first<
    R: Wait,
    G: Gate,
    N: Staffed,
    J: Site,
    C: CellNames,
    K: Keeper,
    S: Sink,
    F: Children,
>(
    ground: &Ground<'_, R, G, N, J, C, K, S, F>,
    seats: &mut Seats<N, J, K, S>,
    cells: &mut Vec<CellSeats<N, C, Noted<N, J, K, S, F>>>,
    seat: &mut Seat<Resting<N, J, C, K, S, F>>,
) -> OkdNote<N, J>
    requires site { ground.now.site.now ≡ N.site }
    requires few { length N.site.services ≤ MOST_SERVICES }
    requires retry { N.site.retry ≤ GREATEST_RETRY }
    requires rest { RestsAt ground.now.turn.now seat.old }
    requires spare { length N.site.services * TURN_ITEMS ≤ seats.old.spare }
    ensures seat { seat.new ≡ record seat.old { seen = seat.new.seen } }
    ensures seats { seats.new ≡ record seats.old { own = seats.new.own; spare = seats.new.spare } }
    ensures launches { OnlyLaunches seat.old.number seats.old.own seat.old.seen → OnlyLaunches seat.old.number seats.new.own seat.new.seen }
    ensures opens { Opens seat.old.number [] seats.old.own seat.old.seen → IsAlone seat.old.number seat.new.seen → (os : List Opening) × (length os ≡ length N.site.services) × Opens seat.old.number os seats.new.own seat.new.seen }
    ensures stand { UpsStand seat.new.seen result }
    ensures met { AllGo (SeesCells N.launcher) cells.old.items cells.new.items }
    ensures booted { IsAlone seat.old.number seat.new.seen → (s : ℕ) → s < length N.site.services → AllBooted s seat.new.seen cells.new.items }
    ensures room { vec_capacity cells.new ≡ vec_capacity cells.old }
{
    launch_row(ground, seats, seat);
    meet_cells(ground, cells, seat);
    okd_by(ground.rt, ground.turn, seat, ground.locks)
}

// Has the other seats take in what number 0's has seen at the launcher.
fn tell_all<N: Staffed, J: Site, C: CellNames, K: Keeper, S: Sink, F: Children>(
    turn: &Turn<Resting<N, J, C, K, S, F>>,
    turns: &mut Vec<Seat<Resting<N, J, C, K, S, F>>>,
)
    requires turns { AreTurns turn.now 0 turns.old.items }
    ensures more { AllSeeMore turns.old.items turns.new.items }
    ensures first { seen_first turns.new.items ≡ seen_first turns.old.items }
    ensures told { AreQuiet 0 turns.old.items → (k : ℕ) → 0 < k → k < vec_len turns.old → of by_deed k (seen_first turns.new.items) ≡ [] }
    ensures room { vec_capacity turns.new ≡ vec_capacity turns.old }
{
    for number in 1..turns.len() {
        let note = turn.split(&mut turns[0]);
        turn.meet(&mut turns[number], note);
    }
}

/// Launches each service that isn't up, in number 0's turns at the launcher; number 0 notes what it enters there.
/// It has the places for that. All numbers take in what the launcher has seen at the cells and at okd then, and
/// that of okd is told: what came up stands there, and no number has entered anything.
pub fn launch_all<
    R: Wait,
    G: Gate,
    N: Staffed,
    J: Site,
    C: CellNames,
    K: Keeper,
    S: Sink,
    F: Children,
>(
    ground: &Ground<'_, R, G, N, J, C, K, S, F>,
    chairs: &mut Chairs<N, J, C, K, S, F>,
) -> OkdNote<N, J>
    requires site { ground.now.site.now ≡ N.site }
    requires few { length N.site.services ≤ MOST_SERVICES }
    requires retry { N.site.retry ≤ GREATEST_RETRY }
    requires some { (0 < length chairs.old.seats) × (0 < length chairs.old.turns) }
    requires spare { length N.site.services * TURN_ITEMS ≤ first_spare chairs.old }
    requires seated { Seated ground.now.turn.now (length N.site.services) chairs.old }
    ensures seated { Seated ground.now.turn.now (length N.site.services) chairs.new }
    ensures waiting { Unused N.site chairs.old → Waiting N.site N.launcher chairs.new }
    ensures opened { Unused N.site chairs.old → IsUnopened chairs.old → HasOpened N.site chairs.new }
    ensures shown { Unused N.site chairs.old → HasShown N.site N.launcher chairs.new result }
    ensures room { SameRoom chairs.old chairs.new }
    ensures many { (length chairs.new.seats ≡ length chairs.old.seats) × (length chairs.new.turns ≡ length chairs.old.turns) }
{
    let mut note = launch_first(
        ground,
        &mut chairs.seats[0],
        &mut chairs.cells,
        &mut chairs.turns[0],
    );
    tell_all(ground.turn, &mut chairs.turns);
    meet_okd(ground.locks, &mut chairs.seats, &mut note);
    note
}
