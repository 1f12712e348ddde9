//! What the launcher has seen of what came up, as the numbers of a run's workers take it in before these begin.

ghost use Rattle.std.specs.Prelude.{◌≡◌, ◌<◌, ◌≤◌, ℕ, length, vec_capacity};
ghost use Rattle.okws_base.specs.Turns.{GrowsBy};
ghost use Rattle.okws_base.specs.declared.limit.TheConstants.{MOST_SERVICES};
ghost use Rattle.turn_lock.specs.Rows.{RestsAt};
ghost use Rattle.launch_turns.specs.Deeds.{by_deed};
ghost use Rattle.site_run.specs.Meeting.{AllBooted, AllGo, MeetsCell, MeetsOkd, SeesCells};

use crate::row::Ground;
use launch_turns::notes::cell_by;
use launch_turns::resting::Resting;
use named_columns::named::Backed;
use okld_launch::named::Staffed;
use okws_outer::children::Children;
use okws_outer::gate::Gate;
use okws_outer::keeper::Keeper;
use okws_outer::stream::{Link, Sink};
use site_cells::lock_names::CellNames;
use site_cells::locks::CellLocks;
use site_cells::named::Numbered;
use site_cells::note::CellNote;
use site_cells::seats::CellSeats;
use site_locks::locks::{Locks, Seats};
use site_locks::named::Site;
use site_locks::note::OkdNote;
use site_locks::noted_link::Noted;
use std::sync::Wait;
use turn_lock::Seat;

// Has the seats of each number take in what was seen at one cell.
fn meet_cell<N: Numbered, C: CellNames, L: Link>(
    cells: &CellLocks<N, C, L>,
    rows: &mut Vec<CellSeats<N, C, L>>,
    note: CellNote<N, C, L>,
)
    ensures met { AllGo (MeetsCell N.launcher note.service note.seen) rows.old.items rows.new.items }
    ensures room { vec_capacity rows.new ≡ vec_capacity rows.old }
{
    let mut note = note;
    for number in 0..rows.len() {
        let again = note.again(cells);
        rows[number].meet(cells, again);
    }
}

/// Has the seats of each number take in what the launcher has seen at each cell, in turns of this seat at the
/// launcher: the Boot of each incarnation that came up before stands there.
pub(crate) fn meet_cells<
    R: Wait,
    G: Gate,
    N: Staffed,
    J: Site,
    C: CellNames,
    K: Keeper,
    S: Sink,
    F: Children,
>(
    ground: &Ground<'_, R, G, N, J, C, K, S, F>,
    rows: &mut Vec<CellSeats<N, C, Noted<N, J, K, S, F>>>,
    seat: &mut Seat<Resting<N, J, C, K, S, F>>,
)
    requires site { ground.now.site.now ≡ N.site }
    requires few { length N.site.services ≤ MOST_SERVICES }
    requires rest { RestsAt ground.now.turn.now seat.old }
    ensures seat { seat.new ≡ record seat.old { seen = seat.new.seen } }
    ensures grows { GrowsBy by_deed seat.old.number seat.old.seen seat.new.seen }
    ensures met { AllGo (SeesCells N.launcher) rows.old.items rows.new.items }
    ensures booted { (s : ℕ) → s < length N.site.services → AllBooted s seat.old.seen rows.new.items }
    ensures room { vec_capacity rows.new ≡ vec_capacity rows.old }
{
    let services = ground.site.services.as_slice().len() as u16;
    for service in 0..services {
        let note = cell_by(ground.rt, ground.turn, seat, ground.cells, service);
        meet_cell(ground.cells, rows, note);
    }
}

/// Has the seats of each number take in what was seen at okd.
pub(crate) fn meet_okd<N: Backed, J: Site, K: Keeper, S: Sink>(
    locks: &Locks<N, J, K, S>,
    rows: &mut Vec<Seats<N, J, K, S>>,
    note: &mut OkdNote<N, J>,
)
    ensures met { AllGo (MeetsOkd note.old) rows.old.items rows.new.items }
    ensures note { note.new ≡ note.old }
    ensures room { vec_capacity rows.new ≡ vec_capacity rows.old }
{
    for number in 0..rows.len() {
        let again = note.again(locks);
        rows[number].meet_okd(locks, again);
    }
}
