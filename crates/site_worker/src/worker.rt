//! A worker.

ghost use Rattle.std.specs.Prelude.{◌≡◌, ◌<◌, ◌≤◌, ◌+◌, ◌++◌, OnOk, OnErr, length, map, true};
ghost use Rattle.okws_base.specs.declared.limit.TheConstants.{MOST_SERVICES, GREATEST_RETRY};
ghost use Rattle.monitor_model.specs.declared.record.Own.TheVariants as own;
ghost use Rattle.turn_lock.specs.Rows.{RestsAt};
ghost use Rattle.site_locks.specs.Sat.{seen_of};
ghost use Rattle.site_worker.specs.Launching.{with_launches};
ghost use Rattle.site_worker.specs.Lives.{Spends, Starves, StarvesWhere, life_of};

use crate::hands::Hands;
use launch_turns::resting::Resting;
use monitor_model::record::Own;
use named_columns::named::Backed;
use okld_launch::entered::{Entered, MOST_ENTERED};
use okld_launch::named::Staffed;
use okws_outer::children::Children;
use okws_outer::gate::Gate;
use okws_outer::keeper::Keeper;
use okws_outer::stream::Sink;
use site_cells::lock_names::CellNames;
use site_cells::locks::CellLocks;
use site_cells::seats::CellSeats;
use site_locks::locks::{Locks, Seats};
use site_locks::named::Site;
use site_locks::note::OkdNote;
use site_locks::noted_link::Noted;
use std::alloc::{AllocError, Global};
use std::marker::Model;
use std::sync::Wait;
use turn_lock::{Seat, Turn};

/// How many items a worker notes in spare places at most for a turn at the launcher: what the turn entered
/// there, and that memory was refused.
pub const TURN_ITEMS: u32 = MOST_ENTERED as u32 + 1;

/// The same of a round at a door: what a request's handling notes, and what looking after a service does.
pub(crate) const ROUND_ITEMS: u32 = 2 * TURN_ITEMS;

// Notes events as own items in spare places, the oldest first.
fn note_events<R: Wait, G: Gate, N: Backed, J: Site, K: Keeper, S: Sink>(
    hands: &mut Hands<'_, R, G, N, J, K, S>,
    entered: Entered,
)
    requires { length entered ≤ hands.old.spare }
    ensures notes { hands.new ≡ record hands.old { own = map own.Launcher entered ++ hands.old.own; spare = hands.new.spare } }
    ensures spends { hands.old.spare ≤ hands.new.spare + length entered }
{
    let mut entered = entered;
    while let Some(event) = entered.pop_oldest() {
        hands.note_spare(Own::Launcher(event));
    }
}

/// What all workers of a site share.
pub struct Shared<
    'a,
    R: Wait,
    G: Gate,
    N: Staffed,
    J: Site,
    C: CellNames,
    K: Keeper,
    S: Sink,
    F: Children,
> {
    pub rt: &'a R,
    pub gate: &'a G,
    pub locks: &'a Locks<N, J, K, S>,
    pub cells: &'a CellLocks<N, C, Noted<N, J, K, S, F>>,
    pub launcher: &'a Turn<Resting<N, J, C, K, S, F>>,
}

/// The seats of one number at the columns and the board, at the cells, and at the launcher's lock, with these
/// locks. None holds a turn. Contracts see what was seen by it, and how many items it may note without memory.
pub struct Worker<
    'a,
    R: Wait,
    G: Gate,
    N: Staffed,
    J: Site,
    C: CellNames,
    K: Keeper,
    S: Sink,
    F: Children,
> {
    pub(crate) alloc: Global,
    pub(crate) rt: &'a R,
    pub(crate) gate: &'a G,
    pub(crate) locks: &'a Locks<N, J, K, S>,
    pub(crate) cells: &'a CellLocks<N, C, Noted<N, J, K, S, F>>,
    pub(crate) launcher: &'a Turn<Resting<N, J, C, K, S, F>>,
    pub(crate) services: u16,
    pub(crate) hands: Hands<'a, R, G, N, J, K, S>,
    pub(crate) at_cells: CellSeats<N, C, Noted<N, J, K, S, F>>,
    pub(crate) at_launcher: Seat<Resting<N, J, C, K, S, F>>,
    // What the launcher had seen at okd when the worker's last turn there ended; before that, what the worker
    // had seen there when it began.
    pub(crate) shown: OkdNote<N, J>,
}

impl<'a, R: Wait, G: Gate, N: Staffed, J: Site, C: CellNames, K: Keeper, S: Sink, F: Children> Drop
    for Worker<'a, R, G, N, J, C, K, S, F> {
    fn drop(self) {
        let Worker {
            alloc: _,
            rt: _,
            gate: _,
            locks: _,
            cells: _,
            launcher: _,
            services: _,
            hands,
            at_cells,
            at_launcher,
            shown,
        } = self;
        drop(hands);
        drop(at_cells);
        drop(at_launcher);
        drop(shown);
    }
}

impl<'a, R: Wait, G: Gate, N: Staffed, J: Site, C: CellNames, K: Keeper, S: Sink, F: Children> Model
    for Worker<'a, R, G, N, J, C, K, S, F> {
    ghost use Rattle.site_worker.specs.Lives.{Working, IsWorker, life_of};

    ghost Value = { Working };

    ghost view = { λ w. record { life = life_of w.hands w.at_cells w.at_launcher w.shown; spare = w.hands.spare } };

    ghost invariant = { λ w. IsWorker N.site w.services w.hands.number w.launcher.now (life_of w.hands w.at_cells w.at_launcher w.shown) };
}

impl<
    'a,
    R: Wait,
    G: Gate,
    N: Staffed,
    J: Site,
    C: CellNames,
    K: Keeper,
    S: Sink,
    F: Children,
> Worker<'a, R, G, N, J, C, K, S, F> {
    /// The worker of a number whose seats these are, in a run whose keepers tell their rows.
    pub fn new(
        alloc: Global,
        shared: Shared<'a, R, G, N, J, C, K, S, F>,
        seats: Seats<N, J, K, S>,
        at_cells: CellSeats<N, C, Noted<N, J, K, S, F>>,
        at_launcher: Seat<Resting<N, J, C, K, S, F>>,
    ) -> Self
        requires tells { N.tells ≡ true }
        requires cells { at_cells.number ≡ seats.number }
        requires launcher { at_launcher.number ≡ seats.number }
        requires services { length at_cells.cells ≡ length N.site.services }
        requires few { length N.site.services ≤ MOST_SERVICES }
        requires retry { N.site.retry ≤ GREATEST_RETRY }
        requires rest { RestsAt shared.launcher.now at_launcher }
        ensures life { result.life ≡ life_of seats at_cells at_launcher seats.okd }
        ensures spare { result.spare ≡ seats.spare }
    {
        let Shared {
            rt,
            gate,
            locks,
            cells,
            launcher,
        } = shared;
        let services = at_cells.services() as u16;
        let mut seats = seats;
        let shown = seats.note_okd(locks);
        Worker {
            alloc,
            rt,
            gate,
            locks,
            cells,
            launcher,
            services,
            hands: Hands::new(rt, gate, locks, seats),
            at_cells,
            at_launcher,
            shown,
        }
    }

    /// Its seats.
    pub fn into_seats(
        self,
    ) -> (
        Seats<N, J, K, S>,
        CellSeats<N, C, Noted<N, J, K, S, F>>,
        Seat<Resting<N, J, C, K, S, F>>,
    )
        ensures columns { (seen_of result.0 ≡ self.entry.life.seen) × (result.0.board ≡ self.entry.life.board) × (result.0.okd ≡ self.entry.life.okd) × (result.0.pubd ≡ self.entry.life.pubd) × (result.0.oklogd ≡ self.entry.life.oklogd) }
        ensures cells { result.1 ≡ self.entry.life.cells }
        ensures launcher { result.2 ≡ self.entry.life.launcher }
        ensures number { result.0.number ≡ self.entry.life.cells.number }
        ensures rest { length result.1.cells ≡ length N.site.services }
    {
        let Worker {
            alloc: _,
            rt: _,
            gate: _,
            locks: _,
            cells: _,
            launcher: _,
            services: _,
            hands,
            at_cells,
            at_launcher,
            shown,
        } = self;
        drop(shown);
        (hands.into_seats(), at_cells, at_launcher)
    }

    /// Makes so many spare places, in which items are noted without memory. Where memory is refused, nothing
    /// changes.
    pub(crate) fn make_spare(&mut self, places: u32) -> Result<(), AllocError>
        ensures ok { OnOk result (self.new ≡ record self.old { spare = places }) }
        ensures err { OnErr result (self.new ≡ self.old) }
    {
        self.hands.make_spare(places)
    }

    /// Keeps what the launcher had seen at okd when a turn there ended.
    pub(crate) fn keep_shown(&mut self, note: OkdNote<N, J>)
        ensures keeps { self.new.life ≡ record self.old.life { shown = note } }
        ensures spare { self.new.spare ≡ self.old.spare }
    {
        self.shown = note;
    }

    /// Notes events that a turn entered at the launcher, the oldest first. Takes no memory.
    pub(crate) fn note_entered(&mut self, entered: Entered)
        requires { length entered ≤ self.old.spare }
        ensures notes { self.new.life ≡ record self.old.life { seen = with_launches entered self.old.life.seen } }
        ensures spends { Spends (length entered) self.old self.new }
    {
        note_events(&mut self.hands, entered);
    }

    /// Notes want of memory. Takes no memory.
    pub(crate) fn note_starved(&mut self)
        requires { 0 < self.old.spare }
        ensures notes { Starves self.old.life self.new.life }
        ensures spends { Spends 1 self.old self.new }
    {
        self.hands.note_spare(Own::NoMemory);
    }

    /// Notes want of memory so, where there was any. Takes no memory.
    pub(crate) fn note_where(&mut self, starved: bool)
        requires { 0 < self.old.spare }
        ensures notes { StarvesWhere starved self.old.life self.new.life }
        ensures spends { Spends 1 self.old self.new }
    {
        if starved {
            self.note_starved();
        }
    }
}
