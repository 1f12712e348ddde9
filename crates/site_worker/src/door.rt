//! A worker at its door.

ghost use Rattle.std.specs.Prelude.{◌≡◌, ◌<◌, ◌≤◌, ◌+◌, IsNone, length, slice_index};
ghost use Rattle.site_worker.specs.Lives.{SameWorker, Sees};
ghost use Rattle.turn_lock.specs.Board.{most_drawn};
ghost use Rattle.turn_lock.specs.BoardSeats.{MayDraw};
ghost use Rattle.site_worker.specs.Rounds.{Attends, GoesRound, Round, TendsAfter, WhereAwaited, is_awaited, is_starved, taken};
ghost use Rattle.site_worker.specs.declared.worker.TheConstants.{TURN_ITEMS};

use crate::worker::{ROUND_ITEMS, Worker};
use door_worker::serving::{Serving, serve_one};
use http_front::kept::Kept;
use http_front::reply::Reply;
use okld_launch::named::Staffed;
use okws_outer::children::Children;
use okws_outer::door::Door;
use okws_outer::gate::{Gate, Point};
use okws_outer::keeper::Keeper;
use okws_outer::stream::Sink;
use site_cells::lock_names::CellNames;
use site_locks::named::Site;
use std::sync::Wait;
use turn_lock::board::Board;

/// The word of the numbers' board that shows that the run is stopped: it is 0 until then.
pub const STOPPED: u16 = 0;

/// What a worker did at a door.
#[derive(Clone, Copy)]
pub struct Attended {
    /// The connections that it took, whole or cut.
    pub connections: u64,
    /// Whether it ended for want of memory, before it took a connection of its last number.
    pub starved: bool,
}

// Whether memory was refused before a connection was accepted.
fn is_starved(serving: &Serving) -> bool
    ensures { result ≡ is_starved serving.now }
{
    match serving {
        Serving::Served(_) | Serving::ConnFault(_) | Serving::NoConn | Serving::NoneCame => false,
        Serving::NoMemory => true,
    }
}

// Whether no connection came so far.
fn is_awaited(serving: &Serving) -> bool
    ensures { result ≡ is_awaited serving.now }
{
    match serving {
        Serving::Served(_) | Serving::ConnFault(_) | Serving::NoConn | Serving::NoMemory => false,
        Serving::NoneCame => true,
    }
}

// How many connections were taken, whole or cut.
fn taken(serving: &Serving) -> u64
    ensures { result ≡ taken serving.now }
{
    match serving {
        Serving::Served(_) | Serving::ConnFault(_) => 1,
        Serving::NoConn | Serving::NoneCame | Serving::NoMemory => 0,
    }
}

impl<
    'a,
    R: Wait,
    G: Gate,
    N: Staffed,
    J: Site,
    C: CellNames,
    K: Keeper,
    S: Sink,
    F: Children,
> Worker<'a, R, G, N, J, C, K, S, F> {
    // Writes the log out.
    fn write_log(&mut self)
        ensures { Sees self.old.life.seen self.old.life self.new.life }
    {
        self.hands.write_out();
    }

    // Looks after a service, and writes the log out.
    fn look_round(&mut self, number: u64)
        requires { TURN_ITEMS ≤ self.old.spare }
        ensures { GoesRound N.site number self.old.life self.new.life }
    {
        self.tend_next(number);
        self.write_log();
    }

    // What follows when the door was served so under a connection's number.
    fn follow(&mut self, serving: &Serving, number: u64)
        requires { TURN_ITEMS ≤ self.old.spare }
        ensures { TendsAfter N.site number serving.now self.old.life self.new.life }
    {
        match serving {
            Serving::Served(_) => {
                self.gate.pass(Point::Answered, number);
                self.look_round(number)
            }
            Serving::ConnFault(_) => {
                self.gate.pass(Point::Answered, number);
                self.look_round(number)
            }
            Serving::NoConn => self.look_round(number),
            Serving::NoneCame | Serving::NoMemory => {}
        }
    }

    // Serves the door once under a connection's number. All that the round may have to note of want of
    // memory has its place before a connection is accepted.
    fn go_round<D: Door>(
        &mut self,
        door: &mut D,
        kept: &mut Kept,
        reply: &mut Reply,
        number: u64,
    ) -> Serving
        requires { IsNone (D.entrance door.old).out }
        ensures idle { IsNone (D.entrance door.new).out }
        ensures round { Round D.Conn.wire N.site N.launcher number (D.entrance door.old) (D.entrance door.new) self.old.life self.new.life result }
    {
        if self.make_spare(ROUND_ITEMS).is_err() {
            return Serving::NoMemory;
        }
        let serving = serve_one(self.alloc, door, self, kept, reply);
        self.follow(&serving, number);
        serving
    }

    // Serves the door under a connection's number once a connection came, or where none did before the run was
    // stopped, which the seat has then seen.
    fn go_once<D: Door>(
        &mut self,
        door: &mut D,
        kept: &mut Kept,
        reply: &mut Reply,
        numbers: &Board,
        place: &mut turn_lock::board::Seat,
        number: u64,
    ) -> Serving
        requires board { place.old.board ≡ numbers.now.id }
        requires idle { IsNone (D.entrance door.old).out }
        ensures idle { IsNone (D.entrance door.new).out }
        ensures round { Round D.Conn.wire N.site N.launcher number (D.entrance door.old) (D.entrance door.new) self.old.life self.new.life result }
        ensures place { place.new ≡ record place.old { seen = place.new.seen } }
        ensures rises { slice_index place.old.seen STOPPED ≤ slice_index place.new.seen STOPPED }
        ensures awaited { WhereAwaited result (0 < slice_index place.new.seen STOPPED) }
    {
        let rt = self.rt;
        for _ in rt.forever() {
            let serving = self.go_round(door, kept, reply, number);
            if !is_awaited(&serving) {
                return serving;
            }
            let shown = numbers.current(place, STOPPED);
            if shown > 0 {
                return serving;
            }
        }
        unreachable!()
    }

    // The same, one connection after the other, each under a number that it draws of those below the limit.
    fn go_on<D: Door>(
        &mut self,
        door: &mut D,
        kept: &mut Kept,
        reply: &mut Reply,
        numbers: &Board,
        place: &mut turn_lock::board::Seat,
        limit: u64,
    ) -> Attended
        requires limit { limit ≤ most_drawn }
        requires board { place.old.board ≡ numbers.now.id }
        requires may { MayDraw place.old.drawn }
        requires idle { IsNone (D.entrance door.old).out }
        ensures idle { IsNone (D.entrance door.new).out }
        ensures place { place.new ≡ record place.old { seen = place.new.seen; drawn = place.new.drawn } }
        ensures attends { Attends D.Conn.wire N.site N.launcher limit (slice_index place.new.seen STOPPED) (D.entrance door.old) (D.entrance door.new) self.old.life self.new.life place.old.drawn place.new.drawn result }
        ensures same { SameWorker self.old.life self.new.life }
    {
        let rt = self.rt;
        let mut connections = 0;
        for _ in rt.forever() {
            let number = numbers.draw(place);
            if number >= limit {
                return Attended {
                    connections,
                    starved: false,
                };
            }
            let serving = self.go_once(door, kept, reply, numbers, place, number);
            if is_starved(&serving) {
                return Attended {
                    connections,
                    starved: true,
                };
            }
            connections += taken(&serving);
        }
        unreachable!()
    }

    /// Serves the door, one connection after the other, each under a number that it draws of those below the
    /// limit, and then shuts it. An accept that fails is counted at the door, and uses its number up; so does
    /// one to which none came before the run was stopped.
    pub fn attend<D: Door>(
        &mut self,
        door: &mut D,
        kept: &mut Kept,
        reply: &mut Reply,
        numbers: &Board,
        place: &mut turn_lock::board::Seat,
        limit: u64,
    ) -> Attended
        requires limit { limit ≤ most_drawn }
        requires board { place.old.board ≡ numbers.now.id }
        requires may { MayDraw place.old.drawn }
        requires idle { IsNone (D.entrance door.old).out }
        ensures idle { IsNone (D.entrance door.new).out }
        ensures place { place.new ≡ record place.old { seen = place.new.seen; drawn = place.new.drawn } }
        ensures attends { Attends D.Conn.wire N.site N.launcher limit (slice_index place.new.seen STOPPED) (D.entrance door.old) (D.entrance door.new) self.old.life self.new.life place.old.drawn place.new.drawn result }
        ensures same { SameWorker self.old.life self.new.life }
    {
        let attended = self.go_on(door, kept, reply, numbers, place, limit);
        door.shut();
        attended
    }
}
