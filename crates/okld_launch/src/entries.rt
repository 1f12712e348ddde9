//! What the launcher enters in its journal, and what it knows by it.

ghost use Rattle.std.specs.Prelude.{◌≡◌, ◌<◌, ◌≤◌, ◌+◌, ◌==◌, ℕ, OnOk, IfNone, IfSome, Some, None, true, if◌then◌else◌, length, slice_index};
ghost use Rattle.okws_base.specs.declared.limit.TheConstants.{MOST_INCARNATIONS, MOST_PROXIES};
ghost use Rattle.okws_plan.specs.declared.event.LauncherEvent.TheVariants as event;
ghost use Rattle.monitor_model.specs.Cell.{last_booted};
ghost use Rattle.monitor_model.specs.Launcher.{LauncherLaw, begun, may_give_up, tries};
ghost use Rattle.launch_journal.specs.Launches.{Allows, entered, given_up};
ghost use Rattle.launch_crew.specs.Listed.{AreCounted, CellsGo};
ghost use Rattle.launch_crew.specs.Recorded.{AreOwn};
ghost use Rattle.site_cells.specs.Row.{seen_at};
ghost use Rattle.okld_launch.specs.Acts.{GivesUp};
ghost use Rattle.okld_launch.specs.Children.{StaysAttended};
ghost use Rattle.okld_launch.specs.Launchers.{AreCaused, IsLauncher, MayFail, up_in};
ghost use Rattle.okld_launch.specs.Going.{AsksUp};

use crate::launcher::Launcher;
use crate::named::Staffed;
use launch_journal::Next;
use okws_base::limit::MOST_PROXIES;
use okws_outer::child::Ended;
use okws_outer::children::Children;
use okws_outer::keeper::Keeper;
use okws_outer::stream::Sink;
use okws_plan::event::LauncherEvent;
use site_cells::lock_names::CellNames;
use site_cells::locks::CellLocks;
use site_cells::note::CellNote;
use site_locks::locks::{Locks, Seats};
use site_locks::named::Site;
use site_locks::note::OkdNote;
use site_locks::noted_link::Noted;
use std::alloc::AllocError;

// Items of the launcher's list that one attempt at a launch makes at most: what stood is ended, the
// incarnation is installed, booted and up, or what was installed is revoked.
const LONGEST_PIECE: usize = (MOST_PROXIES + 4) + (MOST_PROXIES + 2) + (MOST_PROXIES + 4);

impl<N: Staffed, J: Site, C: CellNames, K: Keeper, S: Sink, F: Children> Launcher<
    N,
    J,
    C,
    K,
    S,
    F,
> {
    /// Makes room for n more entries. Where memory is refused, the entries are as before.
    pub(crate) fn make_room(&mut self, n: usize) -> Result<(), AllocError>
        ensures same { self.new ≡ record self.old { journal = record self.old.journal { room = self.new.journal.room } } }
        ensures ok { OnOk result (n ≤ self.new.journal.room) }
    {
        self.journal.make_room(n)
    }

    /// Makes room for the entries and the items of one attempt at a launch. Where memory is refused, both are
    /// as before.
    pub(crate) fn reserve(&mut self) -> Result<(), AllocError>
        ensures same { self.new ≡ record self.old { journal = record self.old.journal { room = self.new.journal.room }; crew = record self.old.crew { room = self.new.crew.room } } }
        ensures entries { OnOk result (2 ≤ self.new.journal.room) }
        ensures items { OnOk result (MOST_PROXIES + 4 + (MOST_PROXIES + 2 + (MOST_PROXIES + 4)) + length N.site.services ≤ self.new.crew.room) }
    {
        self.journal.make_room(2)?;
        let services = self.crew.recorder.services();
        self.crew.recorder.make_room(LONGEST_PIECE + services)
    }

    /// The greatest incarnation of the service that was begun, 0 for none.
    pub(crate) fn greatest(&self, service: u16) -> u32
        ensures is { result ≡ begun self.now.journal.past service }
        ensures most { result ≤ MOST_INCARNATIONS }
    {
        self.journal.greatest(service)
    }

    /// What may come next of the service.
    pub(crate) fn next(&self, service: u16) -> Next
        ensures { Allows N.site self.now.journal.past service result }
    {
        self.journal.next(service)
    }

    /// Enters that the operator asked for the service, and gives the event.
    pub(crate) fn ask(&mut self, service: u16) -> LauncherEvent
        requires service { service < length N.site.services }
        requires room { 0 < self.old.journal.room }
        ensures is { result ≡ event.Asked service }
        ensures entered { self.new ≡ record self.old { journal = entered self.old.journal (event.Asked service) } }
    {
        self.journal.asked(service);
        LauncherEvent::Asked { service }
    }

    /// Enters that an incarnation of the service has crashed, which was begun, and gives the event.
    pub(crate) fn crash(&mut self, service: u16, incarnation: u32) -> LauncherEvent
        requires service { service < length N.site.services }
        requires counted { 0 < incarnation }
        requires begun { incarnation ≤ begun self.old.journal.past service }
        requires room { 0 < self.old.journal.room }
        ensures is { result ≡ event.Crashed service incarnation }
        ensures entered { self.new ≡ record self.old { journal = entered self.old.journal (event.Crashed service incarnation) } }
    {
        self.journal.crashed(service, incarnation);
        LauncherEvent::Crashed {
            service,
            incarnation,
        }
    }

    /// Enters that the greatest incarnation of the service failed, for which a fault was told.
    pub(crate) fn fail(&mut self, service: u16, incarnation: u32)
        requires service { service < length N.site.services }
        requires counted { 0 < incarnation }
        requires begun { incarnation ≡ begun self.old.journal.past service }
        requires fault { MayFail N.children service incarnation self.old }
        requires room { 0 < self.old.journal.room }
        ensures { self.new ≡ record self.old { journal = entered self.old.journal (event.Failed service incarnation) } }
    {
        self.journal.failed(service, incarnation);
    }

    /// Gives the service up, and tells after how many tries.
    pub(crate) fn give_up(&mut self, service: u16) -> Result<u32, AllocError>
        requires service { service < length N.site.services }
        requires may { may_give_up N.site self.old.journal.past service (tries self.old.journal.past service) ≡ true }
        ensures { GivesUp service result self.old self.new }
    {
        self.make_room(1)?;
        let tries = self.journal.give_up(service);
        let plan = &self.site.services.as_slice()[service as usize];
        self.crew.staff.give_up(&plan.name, tries);
        Ok(tries)
    }

    /// That this incarnation of the service was begun, where it is the greatest.
    pub(crate) fn last_begun(&self, service: u16, incarnation: u32) -> Option<LauncherEvent>
        ensures { result ≡ (if begun self.now.journal.past service == incarnation then Some (event.Begun service incarnation) else None) }
    {
        if self.greatest(service) != incarnation {
            return None;
        }
        Some(LauncherEvent::Begun {
            service,
            incarnation,
        })
    }

    /// After how many tries the service was given up, where nobody has asked for it since.
    pub fn given_up(&self, service: u16) -> Option<u32>
        ensures { result ≡ given_up self.now.journal.past service }
    {
        self.journal.given_up(service)
    }

    /// The incarnation of the service that is up, which was begun.
    pub fn up_now(&self, service: u16) -> Option<u32>
        requires service { service < length N.site.services }
        ensures none { IfNone result (up_in self.now service ≡ 0) }
        ensures some { IfSome result (λ k. (k ≡ up_in self.now service) × (0 < k) × (k ≤ begun self.now.journal.past service)) }
    {
        match self.ups[service as usize] {
            0 => None,
            incarnation => Some(incarnation),
        }
    }

    /// Asks the child of the service, which is up, whether it has ended.
    pub(crate) fn ended(&mut self, service: u16) -> Ended
        requires service { service < length N.site.services }
        requires up { 0 < up_in self.old service }
        ensures asks { AsksUp service self.old result self.new }
        ensures stays { StaysAttended self.old.crew self.new.crew }
        ensures same { self.new ≡ record self.old { crew = record self.old.crew { running = self.new.crew.running } } }
    {
        match self.crew.staff.ended(service) {
            Some(answer) => answer,
            None => unreachable!(),
        }
    }

    /// What a launcher's type tells of it.
    pub fn keeps(&self)
        ensures is { IsLauncher N.site self.now }
        ensures caused { AreCaused self.now }
        ensures law { LauncherLaw N.site self.now.journal.past }
    {
        let _site = &self.site;
        self.journal.keeps();
    }

    /// Takes in what another number has seen at a cell: what was booted there was begun.
    pub fn meet(
        &mut self,
        cells: &CellLocks<N, C, Noted<N, J, K, S, F>>,
        note: CellNote<N, C, Noted<N, J, K, S, F>>,
    )
        ensures begun { last_booted note.seen ≤ begun self.new.journal.past note.service }
        ensures same { self.new ≡ record self.old { crew = record self.old.crew { watch = self.new.crew.watch } } }
        ensures behind { CellsGo self.old.crew.watch self.new.crew.watch }
        ensures counted { AreCounted self.old.crew.watch self.old.crew.own }
        ensures stays { StaysAttended self.old.crew self.new.crew }
    {
        self.crew.recorder.keeps();
        self.crew.recorder.meet(cells, note);
    }

    /// What another number has seen on the board of each service was begun. It takes no turn and no memory.
    pub fn compare(&mut self, locks: &Locks<N, J, K, S>, other: &mut Seats<N, J, K, S>)
        ensures begun { (s : ℕ) → s < length N.site.services → slice_index other.old.board s ≤ begun self.old.journal.past s }
        ensures same { (self.new ≡ self.old) × (other.new ≡ other.old) }
    {
        self.crew.recorder.compare(locks, other);
    }

    /// A note of what was seen at okd.
    pub fn note_okd(&mut self, locks: &Locks<N, J, K, S>) -> OkdNote<N, J>
        ensures note { result ≡ self.old.crew.sat.okd }
        ensures own { AreOwn N.launcher self.old.crew.sat self.old.crew.watch self.old.crew.own }
        ensures same { self.new ≡ self.old }
    {
        self.crew.recorder.keeps();
        self.crew.recorder.note_okd(locks)
    }

    /// A note of what was seen at the cell of a service.
    pub fn note_cell(
        &mut self,
        cells: &CellLocks<N, C, Noted<N, J, K, S, F>>,
        service: u16,
    ) -> CellNote<N, C, Noted<N, J, K, S, F>>
        requires { service < length N.site.services }
        ensures note { result ≡ record { service = service; seen = seen_at self.old.crew.watch service } }
        ensures own { AreOwn N.launcher self.old.crew.sat self.old.crew.watch self.old.crew.own }
        ensures same { self.new ≡ self.old }
    {
        self.crew.recorder.keeps();
        self.crew.recorder.note_cell(cells, service)
    }
}
