//! A worker's turns at the launcher. It takes none while it holds a turn at a cell.

ghost use Rattle.std.specs.Prelude.{◌≡◌, ◌<◌, ◌≤◌, length};
ghost use Rattle.monitor_model.specs.Cell.{last_booted};
ghost use Rattle.site_cells.specs.Row.{seen_at};
ghost use Rattle.okld_launch.specs.declared.entered.TheConstants.{MOST_ENTERED};
ghost use Rattle.launch_turns.specs.Standing.{BegunBefore, UpsStand};
ghost use Rattle.launch_turns.specs.Turns.{RelaunchesBy, ReportsBy, TendsBy};
ghost use Rattle.site_worker.specs.Launching.{launch_starved, crash_starved, tend_starved, Reports, Tends, Asks};
ghost use Rattle.site_worker.specs.Lives.{Spends};
ghost use Rattle.site_worker.specs.Rounds.{TendsNext};
ghost use Rattle.site_worker.specs.declared.worker.TheConstants.{TURN_ITEMS};

use crate::worker::Worker;
use launch_turns::turns::{relaunch_by, report_by, tend_by};
use okld_launch::answer::{Crashed, Launched, Tended};
use okld_launch::entered::Entered;
use okld_launch::named::Staffed;
use okws_outer::children::Children;
use okws_outer::gate::Gate;
use okws_outer::keeper::Keeper;
use okws_outer::stream::Sink;
use site_cells::lock_names::CellNames;
use site_cells::note::CellNote;
use site_locks::named::Site;
use site_locks::note::OkdNote;
use site_locks::noted_link::Noted;
use std::sync::Wait;

// Whether memory was refused to a launch.
fn launch_starved(answer: Launched) -> bool
    ensures { result ≡ launch_starved answer }
{
    match answer {
        Launched::Up(_) | Launched::Dead(_) | Launched::Spent => false,
        Launched::NoMemory => true,
    }
}

// The same where a crash was told.
fn crash_starved(answer: Crashed) -> bool
    ensures { result ≡ crash_starved answer }
{
    match answer {
        Crashed::Up(_) | Crashed::Dead(_) | Crashed::Spent | Crashed::Later(_) => false,
        Crashed::NoMemory => true,
    }
}

// The same where a service was looked after.
fn tend_starved(answer: Tended) -> bool
    ensures { result ≡ tend_starved answer }
{
    match answer {
        Tended::Alive | Tended::Up(_) | Tended::Dead(_) | Tended::Spent => false,
        Tended::NoMemory => true,
    }
}

impl<
    'a,
    R: Wait,
    G: Gate,
    N: Staffed,
    J: Site,
    C: CellNames,
    K: Keeper,
    S: Sink,
    F: Children,
> Worker<'a, R, G, N, J, C, K, S, F> {
    // A note of what was seen of a service's cell.
    fn note_of(&mut self, service: u16) -> CellNote<N, C, Noted<N, J, K, S, F>>
        requires { service < length N.site.services }
        ensures note { result ≡ record { service = service; seen = seen_at self.old.life.cells service } }
        ensures same { self.new ≡ self.old }
    {
        let cells = self.cells;
        self.at_cells.split(cells, service)
    }

    // A turn in which a crash is told, of an incarnation that the note has seen booted.
    fn report_turn(
        &mut self,
        note: CellNote<N, C, Noted<N, J, K, S, F>>,
        service: u16,
        incarnation: u32,
    ) -> (Crashed, Entered, OkdNote<N, J>)
        requires service { service < length N.site.services }
        requires here { note.service ≡ service }
        requires counted { 0 < incarnation }
        requires booted { incarnation ≤ last_booted note.seen }
        ensures reports { ReportsBy N.site service incarnation self.old.life.launcher result.0 result.1 self.new.life.launcher }
        ensures only { self.new.life ≡ record self.old.life { launcher = record self.old.life.launcher { seen = self.new.life.launcher.seen } } }
        ensures stand { UpsStand self.new.life.launcher.seen result.2 }
        ensures shown { BegunBefore N.site self.old.life.board self.new.life.launcher.seen }
        ensures few { length result.1 ≤ MOST_ENTERED }
        ensures spare { self.new.spare ≡ self.old.spare }
    {
        let rt = self.rt;
        let gate = self.gate;
        let turn = self.launcher;
        let locks = self.locks;
        let cells = self.cells;
        let seat = &mut self.at_launcher;
        let hands = &mut self.hands.seats;
        report_by(
            rt,
            gate,
            turn,
            seat,
            locks,
            hands,
            cells,
            note,
            service,
            incarnation,
        )
    }

    // A turn in which a service is looked after.
    fn tend_turn(&mut self, service: u16) -> (Tended, Entered, OkdNote<N, J>)
        requires { service < length N.site.services }
        ensures tends { TendsBy N.site service self.old.life.launcher result.0 result.1 self.new.life.launcher }
        ensures only { self.new.life ≡ record self.old.life { launcher = record self.old.life.launcher { seen = self.new.life.launcher.seen } } }
        ensures stand { UpsStand self.new.life.launcher.seen result.2 }
        ensures shown { BegunBefore N.site self.old.life.board self.new.life.launcher.seen }
        ensures few { length result.1 ≤ MOST_ENTERED }
        ensures spare { self.new.spare ≡ self.old.spare }
    {
        let rt = self.rt;
        let gate = self.gate;
        let turn = self.launcher;
        let locks = self.locks;
        let cells = self.cells;
        let seat = &mut self.at_launcher;
        let hands = &mut self.hands.seats;
        tend_by(rt, gate, turn, seat, locks, hands, cells, service)
    }

    // A turn in which the operator's service is launched.
    fn relaunch_turn(&mut self, service: u16) -> (Launched, Entered, OkdNote<N, J>)
        requires { service < length N.site.services }
        ensures relaunches { RelaunchesBy N.site service self.old.life.launcher result.0 result.1 self.new.life.launcher }
        ensures only { self.new.life ≡ record self.old.life { launcher = record self.old.life.launcher { seen = self.new.life.launcher.seen } } }
        ensures stand { UpsStand self.new.life.launcher.seen result.2 }
        ensures few { length result.1 ≤ MOST_ENTERED }
        ensures spare { self.new.spare ≡ self.old.spare }
    {
        let rt = self.rt;
        let gate = self.gate;
        let turn = self.launcher;
        let locks = self.locks;
        let cells = self.cells;
        let seat = &mut self.at_launcher;
        relaunch_by(rt, gate, turn, seat, locks, cells, service)
    }

    /// Tells the launcher that an incarnation of a service has crashed, which was seen booted.
    pub(crate) fn report(&mut self, service: u16, incarnation: u32)
        requires service { service < length N.site.services }
        requires counted { 0 < incarnation }
        requires booted { incarnation ≤ last_booted (seen_at self.old.life.cells service) }
        requires spare { TURN_ITEMS ≤ self.old.spare }
        ensures reports { Reports N.site service incarnation self.old.life self.new.life }
        ensures spends { Spends TURN_ITEMS self.old self.new }
    {
        let note = self.note_of(service);
        let (answer, entered, shown) = self.report_turn(note, service, incarnation);
        self.keep_shown(shown);
        self.note_entered(entered);
        self.note_where(crash_starved(answer));
    }

    /// Launches the service that the operator asks for.
    pub(crate) fn ask(&mut self, service: u16) -> Launched
        requires service { service < length N.site.services }
        requires spare { TURN_ITEMS ≤ self.old.spare }
        ensures { Asks N.site service result self.old.life self.new.life }
    {
        let (answer, entered, shown) = self.relaunch_turn(service);
        self.keep_shown(shown);
        self.note_entered(entered);
        self.note_where(launch_starved(answer));
        answer
    }

    // Looks after a service.
    fn tend(&mut self, service: u16)
        requires service { service < length N.site.services }
        requires spare { TURN_ITEMS ≤ self.old.spare }
        ensures { Tends N.site service self.old.life self.new.life }
    {
        let (answer, entered, shown) = self.tend_turn(service);
        self.keep_shown(shown);
        self.note_entered(entered);
        self.note_where(tend_starved(answer));
    }

    /// Looks after the service of a connection's number, counted round.
    pub(crate) fn tend_next(&mut self, number: u64)
        requires { TURN_ITEMS ≤ self.old.spare }
        ensures { TendsNext N.site number self.old.life self.new.life }
    {
        if self.services == 0 {
            return;
        }
        let service = (number % u64::from(self.services)) as u16;
        self.tend(service);
    }
}
