//! Turns at the launcher in which a site is looked at, and nothing is entered.

ghost use Rattle.std.specs.Prelude.{◌≡◌, ◌<◌, ◌+◌, ◌&&◌, not, if◌then◌else◌, length};
ghost use Rattle.turn_lock.specs.Rows.{RestsAt};
ghost use Rattle.launch_turns.specs.Looking.{LooksBy, Stands, stands_up};

use crate::deed::Took;
use crate::resting::Resting;
use okld_launch::entered::Entered;
use okld_launch::launcher::Launcher;
use okld_launch::named::Staffed;
use okws_outer::children::Children;
use okws_outer::keeper::Keeper;
use okws_outer::stream::Sink;
use site_cells::lock_names::CellNames;
use site_locks::locks::Locks;
use site_locks::named::Site;
use site_locks::note::OkdNote;
use std::sync::Wait;
use turn_lock::{Seat, Turn};

/// How many services of a site are up; how many are not, and were not given up; and how many were given up.
#[derive(Clone, Copy)]
pub struct Standing {
    pub up: u16,
    pub down: u16,
    pub dead: u16,
}

impl Standing {
    // The same with one service more, which is up or not, and was given up or not.
    fn and(self, up: bool, given_up: bool) -> Standing
        requires up { self.up < 65535 }
        requires down { self.down < 65535 }
        requires dead { self.dead < 65535 }
        ensures up { result.up ≡ (if up then self.up + 1 else self.up) }
        ensures down { result.down ≡ (if not up && not given_up then self.down + 1 else self.down) }
        ensures dead { result.dead ≡ (if not up && given_up then self.dead + 1 else self.dead) }
    {
        let mut standing = self;
        if up {
            standing.up += 1;
        } else if given_up {
            standing.dead += 1;
        } else {
            standing.down += 1;
        }
        standing
    }
}

// Whether an incarnation of a service is up.
fn is_up<N: Staffed, J: Site, C: CellNames, K: Keeper, S: Sink, F: Children>(
    launcher: &Launcher<N, J, C, K, S, F>,
    service: u16,
) -> bool
    requires { service < length N.site.services }
    ensures { result ≡ stands_up launcher.now.crew.sat.okd service }
{
    launcher.keeps();
    launcher.up_now(service).is_some()
}

// How the services of a site stand, which are so many.
fn standing_of<N: Staffed, J: Site, C: CellNames, K: Keeper, S: Sink, F: Children>(
    launcher: &Launcher<N, J, C, K, S, F>,
    services: u16,
) -> Standing
    requires { services ≡ length N.site.services }
    ensures { Stands launcher.now.crew.sat.okd launcher.now.journal.past services result }
{
    let mut standing = Standing {
        up: 0,
        down: 0,
        dead: 0,
    };
    for service in 0..services {
        let up = is_up(launcher, service);
        let given_up = launcher.given_up(service).is_some();
        let next = standing.and(up, given_up);
        standing = next;
    }
    standing
}

/// Looks at a site of so many services in a turn: in how many turns a service was looked after, how the
/// services stand, and a note of what the launcher has seen at okd.
pub fn look_by<R: Wait, N: Staffed, J: Site, C: CellNames, K: Keeper, S: Sink, F: Children>(
    rt: &R,
    turn: &Turn<Resting<N, J, C, K, S, F>>,
    seat: &mut Seat<Resting<N, J, C, K, S, F>>,
    locks: &Locks<N, J, K, S>,
    services: u16,
) -> (u64, Standing, OkdNote<N, J>)
    requires rest { RestsAt turn.now seat.old }
    requires services { services ≡ length N.site.services }
    ensures looks { LooksBy N.site seat.old result.0 result.1 result.2 seat.new }
    ensures seat { seat.new ≡ record seat.old { seen = seat.new.seen } }
{
    let resting = turn.take(rt, seat);
    let (mut launcher, deeds) = resting.into_parts();
    launcher.keeps();
    let told = deeds.looks();
    let standing = standing_of(&launcher, services);
    let note = launcher.note_okd(locks);
    let entered = Entered::nothing(0);
    let took = Took {
        worker: seat.number(),
        entered: &entered,
        up: false,
        tended: false,
    };
    turn.give(seat, Resting::after(launcher, &deeds, &took));
    (told, standing, note)
}
