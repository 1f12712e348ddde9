//! The launcher's crew: its seats and its children.

ghost use Rattle.std.specs.Prelude.{◌≡◌, ◌<◌, ◌≤◌, ℕ, List, None, OnErr, OnOk, IfOk, IfErr, IsErrOf, IsTrue, length};
ghost use Rattle.okws_base.specs.declared.limit.TheConstants.{MOST_PROXIES, MOST_SERVICES};
ghost use Rattle.okws_outer.specs.Families.{IsNewLink};
ghost use Rattle.okws_outer.specs.Lives.{new_life};
ghost use Rattle.okws_outer.specs.declared.children.ChildEnd.{ChildEnd};
ghost use Rattle.monitor_model.specs.Cell.{incarnation as incarnation_of, last_booted, boot_frame};
ghost use Rattle.site_cells.specs.Row.{IsNew, seen_at};
ghost use Rattle.site_locks.specs.Heard.{AreInstalled};
ghost use Rattle.site_locks.specs.Made.{fresh};
ghost use Rattle.launch_crew.specs.Crews.{Below, StandsAt, child_of, crew_of};
ghost use Rattle.launch_crew.specs.Ended.{Attended, family_ended, tells_ended};
ghost use Rattle.launch_crew.specs.Finished.{EndsAll, EndsOf, PlacesNone, StartsChild, StartsNone};
ghost use Rattle.launch_crew.specs.Listed.{CellsGo, EndsPieces};
ghost use Rattle.launch_crew.specs.Recorded.{AreOwn, IsUnused};
ghost use Rattle.launch_crew.specs.Steps.{Empties, Starts, Misses};
ghost use Rattle.launch_crew.specs.Told.{FailsBy, Finishes, FinishesFaulty};

use crate::answer::Missed;
use crate::recorder::Recorder;
use crate::staff::Staff;
use frame_codec::frame::{Issued, ServerFrame};
use monitor_model::record::Own;
use named_columns::named::Backed;
use okws_base::items::Items;
use okws_base::journal::Past;
use okws_base::name::Name;
use okws_outer::children::{Children, Started};
use okws_outer::keeper::Keeper;
use okws_outer::stream::Sink;
use site_cells::lock_names::CellNames;
use site_cells::locks::CellLocks;
use site_cells::seats::CellSeats;
use site_locks::column_notes::ColumnNotes;
use site_locks::locks::{Locks, Seats};
use site_locks::named::Site;
use site_locks::noted_link::Noted;
use std::alloc::Global;
use std::sync::Wait;

/// The launcher's seats at the columns and at the cells of a site, with the list of what was done from
/// them, and the children of its services.
#[derive(Drop)]
pub struct Crew<N: Backed, J: Site, C: CellNames, K: Keeper, S: Sink, F: Children> {
    /// The seats, with the list.
    pub recorder: Recorder<N, J, C, K, S, F::Link>,
    /// The children.
    pub staff: Staff<N, F>,
}

/// What the launcher's crew leaves at the end of a run, when no child runs any more: its seats, the
/// children, and the list of what was done under its number.
#[derive(Drop)]
pub struct Stopped<N: Backed, J: Site, C: CellNames, K: Keeper, S: Sink, F: Children> {
    pub seats: Seats<N, J, K, S>,
    pub cells: CellSeats<N, C, Noted<N, J, K, S, F>>,
    pub children: F,
    pub own: Past<Own>,
}

impl<N: Backed, J: Site, C: CellNames, K: Keeper, S: Sink, F: Children + Drop> Crew<
    N,
    J,
    C,
    K,
    S,
    F,
> {
    /// A crew of which no child runs, with fresh seats of the launcher's number. Its list is kept in memory
    /// or not, and has room for the items of the run's end. Where memory is refused, the children come back.
    pub fn new(
        alloc: Global,
        seats: Seats<N, J, K, S>,
        cells: CellSeats<N, C, Noted<N, J, K, S, F>>,
        children: F,
        keeps: bool,
    ) -> Result<Self, F>
        requires seats { seats ≡ fresh (length N.site.proxies) N.launcher }
        requires cells { IsNew (length N.site.services) N.launcher cells }
        requires few { (length N.site.proxies ≤ MOST_PROXIES) × (length N.site.services ≤ MOST_SERVICES) }
        ensures unused { IfOk result (λ c. IsUnused N.site N.launcher c.recorder) }
        ensures room { IfOk result (λ c. length N.site.services ≤ c.recorder.room) }
        ensures children { IfOk result (λ c. c.staff.family ≡ F.family children) }
        ensures attended { IfOk result (λ c. Attended (crew_of c.recorder c.staff)) }
        ensures idle { IfOk result (λ c. (s : ℕ) → child_of (crew_of c.recorder c.staff) s ≡ None) }
        ensures err { IfErr result (λ f. F.family f ≡ F.family children) }
    {
        let mut recorder = Recorder::new(alloc, seats, cells, keeps);
        let services = recorder.services();
        let Ok(()) = recorder.make_room(services) else {
            return Err(children);
        };
        let staff = Staff::new(alloc, services, children)?;
        Ok(Crew { recorder, staff })
    }

    /// The children of a crew that isn't wanted.
    pub fn into_children(self) -> F
        ensures { F.family result ≡ self.staff.family }
    {
        let Crew { recorder: _, staff } = self;
        staff.into_children()
    }
}

impl<N: Backed, J: Site, C: CellNames, K: Keeper, S: Sink, F: Children> Crew<N, J, C, K, S, F> {
    /// Empties the cell of the service, and finishes its child.
    pub fn empty<R: Wait>(
        &mut self,
        rt: &R,
        cells: &CellLocks<N, C, Noted<N, J, K, S, F>>,
        service: u16,
    )
        requires service { service < length N.site.services }
        requires room { 0 < self.old.recorder.room }
        ensures empties { Empties service (crew_of self.old.recorder self.old.staff) (crew_of self.new.recorder self.new.staff) }
        ensures ended { Attended (crew_of self.old.recorder self.old.staff) → EndsOf N.site N.run_seed self.old.recorder.watch self.new.recorder.watch (child_of (crew_of self.old.recorder self.old.staff) service) self.old.staff.family self.new.staff.family }
    {
        let _ = self.staff.stop(service);
        let link = self.recorder.retire(rt, cells, service);
        self.staff.release(service, link);
    }

    // Boots the cell of the service over the link of a child that was just started, with notes that have seen
    // its incarnation installed.
    fn place<R: Wait>(
        &mut self,
        rt: &R,
        cells: &CellLocks<N, C, Noted<N, J, K, S, F>>,
        service: u16,
        incarnation: u32,
        started: Started<F::Child, F::Link>,
        notes: ColumnNotes<N, J, K, S>,
        tokens: Items<Issued>,
    ) -> Result<(), Missed>
        requires service { service < length N.site.services }
        requires empty { incarnation_of (seen_at self.old.recorder.watch service) ≡ 0 }
        requires later { last_booted (seen_at self.old.recorder.watch service) < incarnation }
        requires child { F.Child.life started.child ≡ new_life service incarnation }
        requires link { IsNewLink service incarnation (F.Link.wire started.link) }
        requires installed { AreInstalled N.site service incarnation notes }
        requires tokens { ServerFrame.Boot service incarnation tokens ≡ boot_frame N.site N.run_seed service incarnation }
        requires few { length tokens ≤ MOST_PROXIES }
        requires room { 0 < self.old.recorder.room }
        ensures ok { OnOk result (Starts service incarnation (crew_of self.old.recorder self.old.staff) (crew_of self.new.recorder self.new.staff)) }
        ensures err { OnErr result (Misses service incarnation (crew_of self.old.recorder self.old.staff) (crew_of self.new.recorder self.new.staff)) }
        ensures cause { IsErrOf result Missed.Failed → FinishesFaulty service incarnation self.old.staff.family self.new.staff.family }
        ensures told { OnOk result (self.new.staff.family ≡ self.old.staff.family) }
        ensures in_vain { OnErr result (PlacesNone N.site N.run_seed service incarnation self.old.staff.family self.new.staff.family) }
    {
        let Started { child, link } = started;
        match self
            .recorder
            .boot(rt, cells, service, incarnation, link, notes, tokens)
        {
            Ok(()) => {
                self.staff.keep(service, incarnation, child);
                Ok(())
            }
            Err((missed, link)) => {
                self.staff.finish(service, incarnation, child, link);
                Err(missed)
            }
        }
    }

    // The same as `start`, with notes that have seen the incarnation installed.
    fn start_noted<R: Wait>(
        &mut self,
        rt: &R,
        cells: &CellLocks<N, C, Noted<N, J, K, S, F>>,
        name: &Name,
        words: &[Items<u8>],
        service: u16,
        incarnation: u32,
        notes: ColumnNotes<N, J, K, S>,
        tokens: Items<Issued>,
    ) -> Result<(), Missed>
        requires service { service < length N.site.services }
        requires empty { incarnation_of (seen_at self.old.recorder.watch service) ≡ 0 }
        requires later { last_booted (seen_at self.old.recorder.watch service) < incarnation }
        requires installed { AreInstalled N.site service incarnation notes }
        requires tokens { ServerFrame.Boot service incarnation tokens ≡ boot_frame N.site N.run_seed service incarnation }
        requires few { length tokens ≤ MOST_PROXIES }
        requires room { 0 < self.old.recorder.room }
        ensures ok { OnOk result (Starts service incarnation (crew_of self.old.recorder self.old.staff) (crew_of self.new.recorder self.new.staff)) }
        ensures err { OnErr result (Misses service incarnation (crew_of self.old.recorder self.old.staff) (crew_of self.new.recorder self.new.staff)) }
        ensures cause { IsErrOf result Missed.Failed → FailsBy service incarnation self.old.staff.family self.new.staff.family }
        ensures started { OnOk result (StartsChild service incarnation words.now self.old.staff.family self.new.staff.family) }
        ensures in_vain { OnErr result (StartsNone N.site N.run_seed service incarnation words.now self.old.staff.family self.new.staff.family) }
    {
        let started = self.staff.start(service, name, incarnation, words)?;
        self.place(rt, cells, service, incarnation, started, notes, tokens)
    }

    /// Starts a child of the service, which has this name, as an incarnation of it, which stands at each of the
    /// service's columns, and boots its cell, which is empty, over a link that tells where it was installed.
    pub fn start<R: Wait>(
        &mut self,
        rt: &R,
        locks: &Locks<N, J, K, S>,
        cells: &CellLocks<N, C, Noted<N, J, K, S, F>>,
        name: &Name,
        words: &[Items<u8>],
        service: u16,
        incarnation: u32,
        tokens: Items<Issued>,
    ) -> Result<(), Missed>
        requires service { service < length N.site.services }
        requires empty { incarnation_of (seen_at self.old.recorder.watch service) ≡ 0 }
        requires later { last_booted (seen_at self.old.recorder.watch service) < incarnation }
        requires stands { StandsAt N.site service incarnation self.old.recorder.sat }
        requires tokens { ServerFrame.Boot service incarnation tokens ≡ boot_frame N.site N.run_seed service incarnation }
        requires few { length tokens ≤ MOST_PROXIES }
        requires room { 0 < self.old.recorder.room }
        ensures ok { OnOk result (Starts service incarnation (crew_of self.old.recorder self.old.staff) (crew_of self.new.recorder self.new.staff)) }
        ensures err { OnErr result (Misses service incarnation (crew_of self.old.recorder self.old.staff) (crew_of self.new.recorder self.new.staff)) }
        ensures cause { IsErrOf result Missed.Failed → FailsBy service incarnation self.old.staff.family self.new.staff.family }
        ensures started { OnOk result (StartsChild service incarnation words.now self.old.staff.family self.new.staff.family) }
        ensures in_vain { OnErr result (StartsNone N.site N.run_seed service incarnation words.now self.old.staff.family self.new.staff.family) }
    {
        let Ok(notes) = self.recorder.note_columns(locks) else {
            return Err(Missed::NoMemory);
        };
        self.start_noted(rt, cells, name, words, service, incarnation, notes, tokens)
    }

    /// Stops and finishes the children of all services, and empties their cells, at the end of a run. Takes
    /// no memory.
    pub fn stop_all<R: Wait>(
        self,
        rt: &R,
        cells: &CellLocks<N, C, Noted<N, J, K, S, F>>,
    ) -> Stopped<N, J, C, K, S, F>
        requires room { length N.site.services ≤ self.recorder.room }
        ensures numbers { (result.seats.number ≡ N.launcher) × (result.cells.number ≡ N.launcher) }
        ensures columns { result.seats ≡ self.recorder.sat }
        ensures cells { (s : ℕ) → s < length N.site.services → incarnation_of (seen_at result.cells s) ≡ 0 }
        ensures below { (s k : ℕ) → Below s k self.recorder.sat self.recorder.watch → Below s k result.seats result.cells }
        ensures own { AreOwn N.launcher result.seats result.cells result.own }
        ensures behind { CellsGo self.recorder.watch result.cells }
        ensures ends { EndsPieces result.cells.cells self.recorder.own result.own }
        ensures children { (ends : List ChildEnd) × Finishes ends self.staff.family (F.family result.children) }
        ensures all { Attended (crew_of self.recorder self.staff) → EndsAll N.site N.run_seed result.cells (crew_of self.recorder self.staff) (F.family result.children) }
        ensures ended { Attended (crew_of self.recorder self.staff) → (old s k : ℕ) → old ≤ length self.staff.family.finished → IsTrue (tells_ended old (crew_of self.recorder self.staff) s k) → IsTrue (family_ended old (F.family result.children) s k) }
    {
        let mut crew = self;
        for service in 0..crew.recorder.services() {
            crew.empty(rt, cells, service as u16);
        }
        crew.recorder.keeps();
        crew.staff.fits();
        let Crew { recorder, staff } = crew;
        let (seats, cells, own) = recorder.into_parts();
        Stopped {
            seats,
            cells,
            children: staff.into_children(),
            own,
        }
    }
}
