//! Turns at the launcher in which nothing is entered: who takes one is told what the launcher has seen of what came up.

ghost use Rattle.std.specs.Prelude.{◌≡◌, ◌<◌, length};
ghost use Rattle.okws_base.specs.Turns.{GrowsBy};
ghost use Rattle.turn_lock.specs.Rows.{RestsAt};
ghost use Rattle.launch_turns.specs.Deeds.{by_deed};
ghost use Rattle.launch_turns.specs.Standing.{BootsStand, UpsStand};

use crate::resting::Resting;
use okld_launch::named::Staffed;
use okws_outer::children::Children;
use okws_outer::keeper::Keeper;
use okws_outer::stream::Sink;
use site_cells::lock_names::CellNames;
use site_cells::locks::CellLocks;
use site_cells::note::CellNote;
use site_locks::locks::Locks;
use site_locks::named::Site;
use site_locks::note::OkdNote;
use site_locks::noted_link::Noted;
use std::sync::Wait;
use turn_lock::{Seat, Turn};

/// A note of what the launcher has seen at okd: all that came up in its turns stands there. It is made in a
/// turn in which nothing is entered.
pub fn okd_by<R: Wait, N: Staffed, J: Site, C: CellNames, K: Keeper, S: Sink, F: Children>(
    rt: &R,
    turn: &Turn<Resting<N, J, C, K, S, F>>,
    seat: &mut Seat<Resting<N, J, C, K, S, F>>,
    locks: &Locks<N, J, K, S>,
) -> OkdNote<N, J>
    requires { RestsAt turn.now seat.old }
    ensures stand { UpsStand seat.new.seen result }
    ensures grows { GrowsBy by_deed seat.old.number seat.old.seen seat.new.seen }
    ensures seat { seat.new ≡ record seat.old { seen = seat.new.seen } }
{
    let resting = turn.take(rt, seat);
    let (mut launcher, deeds) = resting.into_parts();
    let note = launcher.note_okd(locks);
    turn.give(seat, Resting::new(launcher, deeds));
    note
}

/// A note of what the launcher has seen at the cell of a service: the Boot of each incarnation of it that came
/// up in its turns stands there. It is made in a turn in which nothing is entered.
pub fn cell_by<R: Wait, N: Staffed, J: Site, C: CellNames, K: Keeper, S: Sink, F: Children>(
    rt: &R,
    turn: &Turn<Resting<N, J, C, K, S, F>>,
    seat: &mut Seat<Resting<N, J, C, K, S, F>>,
    cells: &CellLocks<N, C, Noted<N, J, K, S, F>>,
    service: u16,
) -> CellNote<N, C, Noted<N, J, K, S, F>>
    requires rest { RestsAt turn.now seat.old }
    requires service { service < length N.site.services }
    ensures here { result.service ≡ service }
    ensures stand { BootsStand service seat.new.seen result.seen }
    ensures grows { GrowsBy by_deed seat.old.number seat.old.seen seat.new.seen }
    ensures seat { seat.new ≡ record seat.old { seen = seat.new.seen } }
{
    let resting = turn.take(rt, seat);
    let (mut launcher, deeds) = resting.into_parts();
    let note = launcher.note_cell(cells, service);
    turn.give(seat, Resting::new(launcher, deeds));
    note
}
