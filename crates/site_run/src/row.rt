//! The seats of a run's workers, by their numbers.

ghost use Rattle.std.specs.Prelude.{◌≡◌, ◌≤◌, ◌<◌, ◌+◌, [], ◌∷◌, length, true, vec_capacity};
ghost use Rattle.okws_base.specs.declared.limit.TheConstants.{MOST_SERVICES, GREATEST_RETRY};
ghost use Rattle.turn_lock.specs.Seats.{TurnIs};
ghost use Rattle.site_run.specs.Rows.{Seated, Spacious, SameRoom, WorksAs};
ghost use Rattle.site_run.specs.Tied.{MoreOf};

use launch_turns::resting::Resting;
use okld_launch::named::Staffed;
use okws_outer::children::Children;
use okws_outer::gate::Gate;
use okws_outer::keeper::Keeper;
use okws_outer::stream::Sink;
use okws_plan::configuration::Config;
use site_cells::lock_names::CellNames;
use site_cells::locks::CellLocks;
use site_cells::seats::CellSeats;
use site_locks::locks::{Locks, Seats};
use site_locks::named::Site;
use site_locks::noted_link::Noted;
use site_worker::worker::{Shared, Worker};
use std::alloc::Global;
use std::marker::Model;
use std::sync::Wait;
use turn_lock::board::Board;
use turn_lock::{Seat, Turn};

/// What a run's workers have in common: its site, the locks of its columns, of its cells and of its launcher,
/// the board of the connections' numbers, and the limit of these.
#[derive(Drop)]
pub struct Ground<
    'a,
    R: Wait,
    G: Gate,
    N: Staffed,
    J: Site,
    C: CellNames,
    K: Keeper,
    S: Sink,
    F: Children,
> {
    pub rt: &'a R,
    pub alloc: Global,
    pub gate: &'a G,
    pub site: &'a Config,
    pub locks: &'a Locks<N, J, K, S>,
    pub cells: &'a CellLocks<N, C, Noted<N, J, K, S, F>>,
    pub turn: &'a Turn<Resting<N, J, C, K, S, F>>,
    pub numbers: &'a Board,
    pub most: u64,
}

/// The seats of the workers at the columns, at the cells and at the launcher, those of number 0 first.
#[derive(Drop)]
pub struct Chairs<N: Staffed, J: Site, C: CellNames, K: Keeper, S: Sink, F: Children> {
    pub(crate) seats: Vec<Seats<N, J, K, S>>,
    pub(crate) cells: Vec<CellSeats<N, C, Noted<N, J, K, S, F>>>,
    pub(crate) turns: Vec<Seat<Resting<N, J, C, K, S, F>>>,
}

impl<N: Staffed, J: Site, C: CellNames, K: Keeper, S: Sink, F: Children> Model
    for Chairs<N, J, C, K, S, F> {
    ghost use Rattle.std.specs.Prelude.{vec_capacity};
    ghost use Rattle.site_run.specs.Rows.{ChairsAre};

    ghost Value = { ChairsAre };

    ghost view = { λ x. record { seats = x.seats.items; cells = x.cells.items; turns = x.turns.items; seats_room = vec_capacity x.seats; cells_room = vec_capacity x.cells; turns_room = vec_capacity x.turns } };
}

impl<N: Staffed, J: Site, C: CellNames, K: Keeper, S: Sink, F: Children> Chairs<N, J, C, K, S, F> {
    /// The seats in these rows.
    pub(crate) fn of(
        seats: Vec<Seats<N, J, K, S>>,
        cells: Vec<CellSeats<N, C, Noted<N, J, K, S, F>>>,
        turns: Vec<Seat<Resting<N, J, C, K, S, F>>>,
    ) -> Self
        ensures { result ≡ record { seats = seats.items; cells = cells.items; turns = turns.items; seats_room = vec_capacity seats; cells_room = vec_capacity cells; turns_room = vec_capacity turns } }
    {
        Chairs {
            seats,
            cells,
            turns,
        }
    }

    /// Takes the seats of the greatest number, as a worker.
    pub fn last<'a, R: Wait, G: Gate>(
        &mut self,
        ground: &Ground<'a, R, G, N, J, C, K, S, F>,
    ) -> Worker<'a, R, G, N, J, C, K, S, F>
        requires tells { N.tells ≡ true }
        requires few { length N.site.services ≤ MOST_SERVICES }
        requires retry { N.site.retry ≤ GREATEST_RETRY }
        requires some { 0 < length self.old.seats }
        requires seated { Seated ground.now.turn.now (length N.site.services) self.old }
        ensures seated { Seated ground.now.turn.now (length N.site.services) self.new }
        ensures less { length self.new.seats + 1 ≡ length self.old.seats }
        ensures room { SameRoom self.old self.new }
        ensures worker { WorksAs ground.now.turn.now (length self.new.seats) result.life }
        ensures whose { MoreOf (result.life ∷ []) self.new self.old }
    {
        let Some(seats) = self.seats.pop() else {
            unreachable!()
        };
        let Some(at_cells) = self.cells.pop() else {
            unreachable!()
        };
        let Some(at_launcher) = self.turns.pop() else {
            unreachable!()
        };
        let shared = Shared {
            rt: ground.rt,
            gate: ground.gate,
            locks: ground.locks,
            cells: ground.cells,
            launcher: ground.turn,
        };
        Worker::new(ground.alloc, shared, seats, at_cells, at_launcher)
    }

    /// Takes a worker's seats back, as those of the greatest number.
    pub fn take_back<R: Wait, G: Gate>(&mut self, worker: Worker<'_, R, G, N, J, C, K, S, F>)
        requires room { Spacious (length self.old.seats + 1) self.old }
        requires alike { (length self.old.cells ≡ length self.old.seats) × (length self.old.turns ≡ length self.old.seats) }
        ensures seated { (t : TurnIs) → WorksAs t (length self.old.seats) worker.entry.life → Seated t (length N.site.services) self.old → Seated t (length N.site.services) self.new }
        ensures more { (length self.new.seats ≡ length self.old.seats + 1) × (length self.new.cells ≡ length self.old.seats + 1) × (length self.new.turns ≡ length self.old.seats + 1) }
        ensures whose { MoreOf (worker.entry.life ∷ []) self.old self.new }
        ensures room { SameRoom self.old self.new }
    {
        let (seats, at_cells, at_launcher) = worker.into_seats();
        self.seats.push_reserved(seats);
        self.cells.push_reserved(at_cells);
        self.turns.push_reserved(at_launcher);
    }
}
