//! The launcher's seats, with the list of what was done from them.

ghost use Rattle.std.specs.Prelude.{◌≡◌, ◌<◌, ◌≤◌, ◌+◌, ◌∷◌, length, slice_index, slice_set, OnOk, OnErr};
ghost use Rattle.okws_base.specs.declared.limit.TheConstants.{MOST_PROXIES, MOST_SERVICES};
ghost use Rattle.okws_plan.specs.declared.event.OkdEvent.TheVariants as event;
ghost use Rattle.monitor_model.specs.declared.record.Own.TheVariants as own;
ghost use Rattle.monitor_model.specs.Launches.{with_down};
ghost use Rattle.site_cells.specs.Row.{IsNew};
ghost use Rattle.site_locks.specs.Made.{fresh};
ghost use Rattle.launch_crew.specs.Coming.{Came, NoneCame};
ghost use Rattle.launch_crew.specs.Crews.{up_of};
ghost use Rattle.launch_crew.specs.Recorded.{AreOwn, IsRecorded, IsUnused};
ghost use Rattle.launch_crew.specs.Steps.{Downs, Ups, Looks};

use monitor_model::record::Own;
use named_columns::named::Backed;
use okws_base::journal::{Journal, Past};
use okws_outer::keeper::Keeper;
use okws_outer::stream::{Link, Sink};
use okws_plan::event::OkdEvent;
use site_cells::lock_names::CellNames;
use site_cells::seats::CellSeats;
use site_locks::locks::{Locks, Seats};
use site_locks::named::Site;
use site_locks::noted_link::NotedLink;
use std::alloc::{AllocError, Global};
use std::marker::Model;
use std::sync::Wait;

/// The launcher's seats at the columns and at the cells of a site, whose links tell where the children were
/// installed, and the list of what was done from them.
/// By its type the entries that the launcher's number made, as far as it has seen, are those of its list.
/// Each call that may enter something wants room for one item.
pub struct Recorder<N: Backed, J: Site, C: CellNames, K: Keeper, S: Sink, L: Link> {
    pub(crate) seats: Seats<N, J, K, S>,
    pub(crate) cells: CellSeats<N, C, NotedLink<N, J, K, S, L>>,
    pub(crate) own: Journal<Own>,
}

impl<N: Backed, J: Site, C: CellNames, K: Keeper, S: Sink, L: Link + Drop> Drop
    for Recorder<N, J, C, K, S, L> {
    fn drop(self) {
        let Recorder { seats, cells, own } = self;
        drop(seats);
        drop(cells);
        drop(own);
    }
}

impl<N: Backed, J: Site, C: CellNames, K: Keeper, S: Sink, L: Link> Model
    for Recorder<N, J, C, K, S, L> {
    ghost use Rattle.launch_crew.specs.Recorded.{Recorded, IsRecorded};

    ghost Value = { Recorded };

    ghost view = { λ r. record { sat = r.seats; watch = r.cells; own = r.own.past; room = r.own.room } };

    ghost invariant = { λ r. IsRecorded N.site N.launcher (record { sat = r.seats; watch = r.cells; own = r.own.past; room = r.own.room }) };
}

impl<N: Backed, J: Site, C: CellNames, K: Keeper, S: Sink, L: Link> Recorder<N, J, C, K, S, L> {
    /// The launcher's seats, from which nothing was done. The list is kept in memory or not.
    pub fn new(
        alloc: Global,
        seats: Seats<N, J, K, S>,
        cells: CellSeats<N, C, NotedLink<N, J, K, S, L>>,
        keeps: bool,
    ) -> Self
        requires seats { seats ≡ fresh (length N.site.proxies) N.launcher }
        requires cells { IsNew (length N.site.services) N.launcher cells }
        requires few { (length N.site.proxies ≤ MOST_PROXIES) × (length N.site.services ≤ MOST_SERVICES) }
        ensures { IsUnused N.site N.launcher result }
    {
        Recorder {
            seats,
            cells,
            own: Journal::new(alloc, keeps),
        }
    }

    /// How many services are declared.
    pub fn services(&self) -> usize
        ensures is { result ≡ length N.site.services }
        ensures few { result ≤ MOST_SERVICES }
    {
        let _own = &self.own;
        self.cells.services()
    }

    /// What a recorder's type tells of it.
    pub fn keeps(&self)
        ensures { IsRecorded N.site N.launcher self.now }
    {
        let _own = &self.own;
    }

    /// Makes room for n more items. Where memory is refused, the items are as before.
    pub fn make_room(&mut self, n: usize) -> Result<(), AllocError>
        ensures same { self.new ≡ record self.old { room = self.new.room } }
        ensures ok { OnOk result (n ≤ self.new.room) }
        ensures room { self.old.room ≤ self.new.room }
    {
        self.own.make_room(n)
    }

    /// The seats and the list, at the end of a run.
    pub fn into_parts(
        self,
    ) -> (
        Seats<N, J, K, S>,
        CellSeats<N, C, NotedLink<N, J, K, S, L>>,
        Past<Own>,
    )
        ensures parts { (result.0 ≡ self.sat) × (result.1 ≡ self.watch) × (result.2 ≡ self.own) }
        ensures numbers { (result.0.number ≡ N.launcher) × (result.1.number ≡ N.launcher) }
        ensures own { AreOwn N.launcher result.0 result.1 result.2 }
    {
        let Recorder { seats, cells, own } = self;
        (seats, cells, own.into_past())
    }

    /// Shows on the board that an incarnation of the service has begun.
    pub fn raise(&mut self, locks: &Locks<N, J, K, S>, service: u16, incarnation: u32)
        requires service { service < length N.site.services }
        requires above { slice_index self.old.sat.board service < incarnation }
        ensures is { self.new ≡ record self.old { sat = record self.old.sat { board = slice_set self.old.sat.board service incarnation } } }
        ensures shown { slice_index self.new.sat.board service ≡ incarnation }
    {
        self.seats.raise(locks, service, incarnation);
    }

    /// Has what is up of the service be down.
    pub fn down<R: Wait>(&mut self, rt: &R, locks: &Locks<N, J, K, S>, service: u16)
        requires service { service < length N.site.services }
        requires room { 0 < self.old.room }
        ensures cells { self.new.watch ≡ self.old.watch }
        ensures downs { Downs service self.old.sat self.new.sat }
        ensures came { NoneCame self.old.sat self.new.sat }
        ensures own { self.new.own ≡ with_down service self.old.own }
        ensures room { self.old.room ≤ self.new.room + 1 }
    {
        if let Some(incarnation) = self.seats.down(rt, locks, service) {
            self.own.enter(Own::Okd(OkdEvent::Down {
                service,
                incarnation,
            }));
        }
    }

    /// Has the incarnation be up at okd. Where memory is refused, nothing changes there.
    pub fn up<R: Wait>(
        &mut self,
        rt: &R,
        locks: &Locks<N, J, K, S>,
        service: u16,
        incarnation: u32,
    ) -> Result<(), AllocError>
        requires service { service < length N.site.services }
        requires counted { 0 < incarnation }
        requires room { 0 < self.old.room }
        ensures cells { self.new.watch ≡ self.old.watch }
        ensures ok { OnOk result (Ups service incarnation self.old.sat self.new.sat) }
        ensures err { OnErr result (Looks self.old.sat self.new.sat) }
        ensures came { OnOk result (Came service incarnation self.old.sat self.new.sat) }
        ensures none { OnErr result (NoneCame self.old.sat self.new.sat) }
        ensures added { OnOk result (self.new.own ≡ own.Okd (event.Up service incarnation) ∷ self.old.own) }
        ensures kept { OnErr result (self.new.own ≡ self.old.own) }
        ensures room { self.old.room ≤ self.new.room + 1 }
    {
        self.seats.up(rt, locks, service, incarnation)?;
        self.own.enter(Own::Okd(OkdEvent::Up {
            service,
            incarnation,
        }));
        Ok(())
    }
}
