//! All that a run has between its beginning and its end.

ghost use Rattle.std.specs.Prelude.{◌≡◌, ◌≤◌, ◌<◌, ◌+◌, List, length, map, IfOk, vec_len, vec_capacity, IfErr, IsTrue};
ghost use Rattle.std.specs.Arc.{arc_value};
ghost use Rattle.okws_base.specs.Turns.{Behind};
ghost use Rattle.okws_base.specs.declared.limit.TheConstants.{MOST_SERVICES, MOST_PROXIES, MOST_DOORS};
ghost use Rattle.turn_lock.specs.Rows.{AllCount};
ghost use Rattle.turn_lock.specs.BoardSeats.{AllAt, IsFresh};
ghost use Rattle.site_locks.specs.Sat.{ids_of};
ghost use Rattle.monitor_model.specs.Causes.{all_were_caused};
ghost use Rattle.monitor_model.specs.Columns.{WithinCount};
ghost use Rattle.monitor_model.specs.Launches.{failures};
ghost use Rattle.okld_launch.specs.Failures.{FailuresAreTold, children_rise};
ghost use Rattle.okld_launch.specs.Heard.{ChildrenAreTold};
ghost use Rattle.site_run.specs.Pieced.{LaunchesAreWhole, ended_among};
ghost use Rattle.site_worker.specs.Lives.{Life};
ghost use Rattle.site_run.specs.Closing.{WritesLog, AllKept};
ghost use Rattle.site_run.specs.Journals.{KeepLaws, NameNumbers, AreCounts};
ghost use Rattle.site_making.specs.Keepers.{keeper_of};
ghost use Rattle.site_run.specs.Places.{AllIdle};
ghost use Rattle.launch_turns.specs.Papers.{ArePapers};
ghost use Rattle.site_run.specs.Rooms.{HasRoom, AreOffered};
ghost use Rattle.site_run.specs.Tied.{AllEnd, LaunchesAreOwn, SeatsOf};
ghost use Rattle.site_run.specs.Whole.{AreNamed, IsHeld, IsReady, AllDrawn};

use crate::closing::{LauncherEnd, end_cells, end_columns, end_launcher};
use crate::ended::{Ended, LocksEnd, counted};
use crate::hiring::{Hired, hire};
use crate::places::Doors;
use crate::room::{Desk, Office, Room};
use crate::row::Chairs;
use launch_turns::papers::Papers;
use launch_turns::resting::Resting;
use named_columns::named::Backed;
use okld_launch::named::Staffed;
use okws_outer::children::Children;
use okws_outer::door::Door;
use okws_outer::keeper::Keeper;
use okws_outer::stream::{Link, Sink};
use site_cells::lock_names::CellNames;
use site_cells::locks::CellLocks;
use site_cells::making::{NewCells, name_cells};
use site_cells::seats::CellSeats;
use site_locks::locks::{Locks, Seats};
use site_locks::making::Made;
use site_locks::named::Site;
use site_locks::note::OkdNote;
use site_locks::noted_link::Noted;
use site_making::order::turned;
use site_worker::worker::TURN_ITEMS;
use std::alloc::{AllocError, Global};
use std::sync::Wait;
use turn_lock::Turn;
use turn_lock::board::{Board, Seat as Place};

/// The locks of a run's columns and of its cells, and the seats of all numbers at them, those of number 0
/// first.
#[derive(Drop)]
pub(crate) struct Named<N: Backed, J: Site, C: CellNames, K: Keeper, S: Sink, L: Link> {
    locks: Locks<N, J, K, S>,
    cells: CellLocks<N, C, L>,
    seats: Vec<Seats<N, J, K, S>>,
    at_cells: Vec<CellSeats<N, C, L>>,
}

/// Gives the locks their names, and each number its seats.
pub(crate) fn name<
    N: Backed,
    J: Site,
    C: CellNames,
    K: Keeper + Drop,
    S: Sink + Drop,
    L: Link + Drop,
>(
    alloc: Global,
    columns: Made<N, K, S>,
    cells: NewCells<N, L>,
    keeps: bool,
) -> Result<Named<N, J, C, K, S, L>, AllocError>
    requires columns { ids_of columns ≡ J.ids }
    requires cells { cells.turns ≡ C.cell_turns }
    requires counts { (cells.numbers ≡ N.launcher + 1) × AllCount (N.launcher + 1) cells.turns }
    requires services { length cells.turns ≡ length N.site.services }
    ensures { IfOk result (λ m. AreNamed N.site N.launcher m.cells m.seats.items m.at_cells.items (vec_capacity m.seats) (vec_capacity m.at_cells)) }
{
    let (locks, seats) = columns.share(alloc, keeps)?;
    let (cells, at_cells) = name_cells(alloc, cells)?;
    Ok(Named {
        locks,
        cells,
        seats,
        at_cells: turned(at_cells),
    })
}

/// What the workers of a run share: its locks, and the board of its connections' numbers.
pub struct Hall<N: Staffed, J: Site, C: CellNames, K: Keeper, S: Sink, F: Children> {
    pub locks: Locks<N, J, K, S>,
    pub cells: CellLocks<N, C, Noted<N, J, K, S, F>>,
    pub turn: Turn<Resting<N, J, C, K, S, F>>,
    pub numbers: Board,
}

/// A run: what its workers share, their seats, its doors, and the console's seat at the board of the
/// connections' numbers.
pub struct Run<N: Staffed, J: Site, C: CellNames, K: Keeper, S: Sink, F: Children, D: Door> {
    pub hall: Hall<N, J, C, K, S, F>,
    pub chairs: Chairs<N, J, C, K, S, F>,
    pub places: Doors<D>,
    pub last: Place,
}

impl<
    N: Staffed,
    J: Site,
    C: CellNames,
    K: Keeper + Drop,
    S: Sink + Drop,
    F: Children + Drop,
    D: Door,
> Run<N, J, C, K, S, F, D> {
    /// A run in which nothing happened. Where memory is refused, the doors and the children come back.
    pub(crate) fn new(
        alloc: Global,
        named: Named<N, J, C, K, S, Noted<N, J, K, S, F>>,
        papers: Papers,
        office: Office,
        doors: Vec<D>,
        children: F,
        keeps: bool,
    ) -> Result<Self, (Vec<D>, F)>
        requires named { AreNamed N.site N.launcher named.cells named.seats.items named.at_cells.items (vec_capacity named.seats) (vec_capacity named.at_cells) }
        requires papers { ArePapers N.site N.run_seed papers.journal (arc_value papers.site) papers.seed }
        requires few { (length N.site.proxies ≤ MOST_PROXIES) × (length N.site.services ≤ MOST_SERVICES) }
        requires children { F.family children ≡ N.children }
        requires launcher { N.launcher ≡ vec_len doors + 1 }
        requires doors { (0 < vec_len doors) × (vec_len doors ≤ MOST_DOORS) }
        requires idle { AllIdle (map D.entrance doors.items) }
        requires office { AreOffered (vec_len doors) office.numbers (map (λ (d : Desk). d.place) office.desks.items) office.last }
        ensures ready { IfOk result (λ r. IsReady N.site N.launcher r.hall.turn r.hall.numbers r.hall.cells r.chairs r.places) }
        ensures doors { IfOk result (λ r. r.places.entrances ≡ map D.entrance doors.items) }
        ensures last { IfOk result (λ r. IsFresh r.hall.numbers.id (vec_len doors) r.last) }
        ensures back { IfErr result (λ b. (b.0.items ≡ doors.items) × (F.family b.1 ≡ F.family children)) }
    {
        let Named {
            locks,
            cells,
            mut seats,
            mut at_cells,
        } = named;
        let Some(own) = seats.pop() else {
            unreachable!()
        };
        let Some(own_cells) = at_cells.pop() else {
            unreachable!()
        };
        let services = papers.services() as u32;
        if seats[0].make_spare(services * TURN_ITEMS).is_err() {
            return Err((doors, children));
        }
        let workers = doors.len() as u16 + 1;
        match hire(alloc, papers, own, own_cells, children, workers, keeps) {
            Err(children) => Err((doors, children)),
            Ok(Hired { turn, turns }) => {
                let Office {
                    numbers,
                    desks,
                    last,
                } = office;
                Ok(Run {
                    hall: Hall {
                        locks,
                        cells,
                        turn,
                        numbers,
                    },
                    chairs: Chairs::of(seats, at_cells, turns),
                    places: Doors { doors, desks },
                    last,
                })
            }
        }
    }
}

// Ends the board of the connections' numbers by its seats.
fn end_numbers(numbers: Board, mut desks: Vec<Desk>, last: Place, room: Vec<Place>) -> u64
    requires at { AllAt numbers.id (map (λ (d : Desk). d.place) desks.items) }
    requires last { last.board ≡ numbers.id }
    requires room { HasRoom (vec_len desks + 1) (vec_len room) (vec_capacity room) }
    ensures { AllDrawn numbers.count (map (λ (d : Desk). d.place) desks.items) last }
{
    let mut places = room;
    while let Some(desk) = desks.pop() {
        places.push_reserved(desk.place);
    }
    places.push_reserved(last);
    numbers.close(places)
}

impl<N: Staffed, J: Site, C: CellNames, K: Keeper, S: Sink, F: Children, D: Door> Run<
    N,
    J,
    C,
    K,
    S,
    F,
    D,
> {
    /// Stops and finishes all children, and ends all locks. So many connections were served. The launcher's
    /// list is whole pieces; for each Failed of its journal, and for each dialog that a fault of its link
    /// ended, a fault was told of the children, and what was begun has its cause. What a note of okd tells was
    /// entered there before all else.
    pub fn end<R: Wait>(
        self,
        rt: &R,
        alloc: Global,
        room: Room<N, K, Noted<N, J, K, S, F>>,
        connections: u64,
        okd: OkdNote<N, J>,
    ) -> Ended<K, S, F, D>
        requires held { IsHeld N.site N.launcher self.hall.turn self.hall.numbers self.hall.cells self.chairs self.places }
        requires last { self.last.board ≡ self.hall.numbers.id }
        requires room { room + 1 ≡ N.launcher }
        ensures doors { map D.entrance result.doors.items ≡ self.places.entrances }
        ensures drawn { AllDrawn self.hall.numbers.count self.places.places self.last }
        ensures laws { KeepLaws N.site N.run_seed N.launcher result.record }
        ensures numbers { NameNumbers N.launcher result.record }
        ensures lives { (lives : List Life) → SeatsOf lives self.chairs → AllEnd N.launcher 0 lives result.record (ended_among N.children (F.family result.children)) }
        ensures pieces { LaunchesAreWhole N.site N.run_seed result.record }
        ensures launched { LaunchesAreOwn N.launcher result.record }
        ensures failed { FailuresAreTold N.children result.record.launcher (F.family result.children) }
        ensures children { ChildrenAreTold N.site N.run_seed result.record N.children (F.family result.children) }
        ensures failures { WithinCount (children_rise N.children (F.family result.children)) (failures result.record) }
        ensures caused { IsTrue (all_were_caused result.record result.record.launcher) }
        ensures first { Behind okd result.record.okd }
        ensures counts { AreCounts N.site result.record result.counts }
        ensures connections { result.counts.connections ≡ connections }
        ensures kept { AllKept N.site N.tells N.steady N.keeper_faults 0 (map (keeper_of K.tables K.told K.faults K.steady) result.keepers.items) result.record.proxies }
        ensures written { WritesLog N.site result.record.oklogd (S.given result.log) N.sink_faults (S.faults result.log) result.log_failed }
    {
        let Run {
            hall,
            chairs,
            places,
            last,
        } = self;
        let Hall {
            locks,
            cells,
            turn,
            numbers,
        } = hall;
        let Chairs {
            mut seats,
            cells: mut at_cells,
            turns,
        } = chairs;
        let Doors { doors, desks } = places;
        let count = doors.len() as u16 + 2;
        let LauncherEnd {
            past,
            deeds: _,
            stopped,
        } = end_launcher(rt, &locks, &cells, turn, turns, okd);
        let Room {
            doors: _,
            columns,
            cells: cells_room,
            places,
        } = room;
        let _drawn = end_numbers(numbers, desks, last, places);
        seats.push_reserved(stopped.seats);
        at_cells.push_reserved(stopped.cells);
        let columns = end_columns(locks, seats, count, columns);
        let cells = end_cells(cells, at_cells, count, cells_room);
        let counts = counted(&columns, connections);
        let kept = LocksEnd {
            columns,
            cells,
            launcher: past,
            launches: stopped.own,
        };
        kept.told(alloc, counts, doors, stopped.children)
    }
}
