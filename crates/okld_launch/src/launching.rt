//! How the launcher launches.

ghost use Rattle.std.specs.Prelude.{◌≡◌, ◌≢◌, ◌<◌, ◌≤◌, ℕ, Bool, true, false, is_some, length};
ghost use Rattle.monitor_model.specs.Launcher.{begun, fell};
ghost use Rattle.launch_journal.specs.Launches.{Allows, given_up};
ghost use Rattle.launch_journal.specs.declared.next.Next.TheVariants as next;
ghost use Rattle.okld_launch.specs.Acts.{AttemptsSo, ClosesSo, EndsSo, GivesUpSo, GoesSo, TurnsSo};
ghost use Rattle.okld_launch.specs.Launchers.{MayLaunch, up_in};
ghost use Rattle.okld_launch.specs.Entering.{Enters, most_entered};
ghost use Rattle.okld_launch.specs.Ups.{crash_up, launch_up, ups_after};
ghost use Rattle.okld_launch.specs.Pieces.{HasBegun, HasBooted, HasCleared, HasInstalled, IsClosed};
ghost use Rattle.okld_launch.specs.Going.{Goes, GoesAsked, GoesCrashed, crashed_as, tended_as};

use crate::answer::{Attempt, Crashed, Launched, Tended};
use crate::entered::Entered;
use crate::launcher::Launcher;
use crate::named::Staffed;
use crate::states::{Booted, Broken, Installed, Quiet, Revoked};
use launch_crew::answer::Missed;
use launch_journal::Next;
use okws_base::limit::MOST_INCARNATIONS;
use okws_outer::children::Children;
use okws_outer::gate::Gate;
use okws_outer::keeper::Keeper;
use okws_outer::stream::Sink;
use okws_plan::event::LauncherEvent;
use site_cells::lock_names::CellNames;
use site_cells::locks::CellLocks;
use site_locks::locks::Locks;
use site_locks::named::Site;
use site_locks::noted_link::Noted;
use std::sync::Wait;

impl<N: Staffed, J: Site, C: CellNames, K: Keeper, S: Sink, F: Children> Booted<N, J, C, K, S, F> {
    // The rest of an attempt.
    fn close<R: Wait>(
        self,
        rt: &R,
        locks: &Locks<N, J, K, S>,
    ) -> (Launcher<N, J, C, K, S, F>, Attempt)
        ensures { ClosesSo N.site N.run_seed N.children (HasBooted N.site N.run_seed N.children) self result.1 result.0 }
    {
        let incarnation = self.incarnation;
        match self.up(rt, locks) {
            Ok(launcher) => (launcher, Attempt::Up(incarnation)),
            Err(broken) => (broken.revoke(rt, locks), Attempt::NoMemory),
        }
    }
}

impl<N: Staffed, J: Site, C: CellNames, K: Keeper, S: Sink, F: Children> Installed<
    N,
    J,
    C,
    K,
    S,
    F,
> {
    // The rest of an attempt.
    fn close<R: Wait>(
        self,
        rt: &R,
        locks: &Locks<N, J, K, S>,
        cells: &CellLocks<N, C, Noted<N, J, K, S, F>>,
    ) -> (Launcher<N, J, C, K, S, F>, Attempt)
        ensures { ClosesSo N.site N.run_seed N.children (HasInstalled N.site N.run_seed N.children) self result.1 result.0 }
    {
        let Installed {
            mut launcher,
            service,
            incarnation,
        } = self;
        match launcher.start(rt, locks, cells, service, incarnation) {
            Ok(()) => {
                let booted = Booted {
                    launcher,
                    service,
                    incarnation,
                };
                booted.close(rt, locks)
            }
            Err(missed) => {
                let broken = Broken {
                    launcher,
                    service,
                    incarnation,
                };
                match missed {
                    Missed::Failed => (broken.fail(), Attempt::Failed),
                    Missed::NoMemory => (broken.revoke(rt, locks), Attempt::NoMemory),
                }
            }
        }
    }
}

impl<N: Staffed, J: Site, C: CellNames, K: Keeper, S: Sink, F: Children> Revoked<N, J, C, K, S, F> {
    // The rest of an attempt.
    fn close<R: Wait>(
        self,
        rt: &R,
        locks: &Locks<N, J, K, S>,
        cells: &CellLocks<N, C, Noted<N, J, K, S, F>>,
    ) -> (Launcher<N, J, C, K, S, F>, Attempt)
        ensures { ClosesSo N.site N.run_seed N.children (HasCleared N.site N.run_seed N.children) self result.1 result.0 }
    {
        match self.install(rt, locks) {
            Ok(installed) => installed.close(rt, locks, cells),
            Err(broken) => (broken.revoke(rt, locks), Attempt::NoMemory),
        }
    }
}

impl<N: Staffed, J: Site, C: CellNames, K: Keeper, S: Sink, F: Children> Quiet<N, J, C, K, S, F> {
    // The rest of an attempt.
    fn close<R: Wait>(
        self,
        rt: &R,
        locks: &Locks<N, J, K, S>,
        cells: &CellLocks<N, C, Noted<N, J, K, S, F>>,
    ) -> (Launcher<N, J, C, K, S, F>, Attempt)
        ensures { ClosesSo N.site N.run_seed N.children (HasBegun N.site N.run_seed N.children) self result.1 result.0 }
    {
        self.revoke(rt, locks, cells).close(rt, locks, cells)
    }
}

// Whether the next incarnation may begin.
fn begins(what: Next) -> bool
    ensures yes { result ≡ true → what ≡ next.Begin }
    ensures no { result ≡ false → what ≢ next.Begin }
{
    match what {
        Next::Begin => true,
        Next::GiveUp | Next::Dead(_) | Next::Spent => false,
    }
}

// What is answered as a launch is.
fn crashed_as(launched: Launched) -> Crashed
    ensures { result ≡ crashed_as launched }
{
    match launched {
        Launched::Up(incarnation) => Crashed::Up(incarnation),
        Launched::Dead(tries) => Crashed::Dead(tries),
        Launched::Spent => Crashed::Spent,
        Launched::NoMemory => Crashed::NoMemory,
    }
}

pub(crate) fn tended_as(launched: Launched) -> Tended
    ensures { result ≡ tended_as launched }
{
    match launched {
        Launched::Up(incarnation) => Tended::Up(incarnation),
        Launched::Dead(tries) => Tended::Dead(tries),
        Launched::Spent => Tended::Spent,
        Launched::NoMemory => Tended::NoMemory,
    }
}

impl<N: Staffed, J: Site, C: CellNames, K: Keeper, S: Sink, F: Children> Launcher<
    N,
    J,
    C,
    K,
    S,
    F,
> {
    // One attempt at a launch of the service, whose next incarnation may begin.
    fn attempt<R: Wait, G: Gate>(
        self,
        rt: &R,
        gate: &G,
        locks: &Locks<N, J, K, S>,
        cells: &CellLocks<N, C, Noted<N, J, K, S, F>>,
        service: u16,
    ) -> (Self, Attempt)
        requires service { service < length N.site.services }
        requires may { Allows N.site self.journal.past service next.Begin }
        requires cause { MayLaunch service self }
        ensures { AttemptsSo N.site N.run_seed N.children service result.1 self result.0 }
    {
        let mut launcher = self;
        let Ok(()) = launcher.reserve() else {
            return (launcher, Attempt::NoMemory);
        };
        let incarnation = launcher.begin(gate, locks, service);
        let quiet = Quiet {
            launcher,
            service,
            incarnation,
        };
        quiet.close(rt, locks, cells)
    }

    // The end of a launch, where no other incarnation may begin, and what it enters.
    fn end(self, service: u16, what: Next) -> (Self, Launched, Option<LauncherEvent>)
        requires service { service < length N.site.services }
        requires allows { Allows N.site self.journal.past service what }
        requires no_more { what ≢ next.Begin }
        ensures { EndsSo N.site N.run_seed N.children service result.1 result.2 self result.0 }
    {
        let mut launcher = self;
        match what {
            Next::Begin => unreachable!(),
            Next::GiveUp => match launcher.give_up(service) {
                Ok(tries) => {
                    let dead = LauncherEvent::Dead { service, tries };
                    (launcher, Launched::Dead(tries), Some(dead))
                }
                Err(_) => (launcher, Launched::NoMemory, None),
            },
            Next::Dead(tries) => (launcher, Launched::Dead(tries), None),
            Next::Spent => (launcher, Launched::Spent, None),
        }
    }

    // Gives up a service once more that was given up before, and whose greatest incarnation has crashed since.
    fn give_up_again(self, service: u16, crash: LauncherEvent) -> (Self, Crashed, Entered)
        requires service { service < length N.site.services }
        requires dead { is_some (given_up self.journal.past service) ≡ true }
        requires fell { fell self.journal.past service ≡ true }
        ensures { GivesUpSo N.site N.run_seed N.children service crash result.1 result.2 self result.0 }
    {
        let mut launcher = self;
        launcher.keeps();
        match launcher.give_up(service) {
            Ok(tries) => {
                let dead = LauncherEvent::Dead { service, tries };
                let entered = Entered::new(Some(crash), service, 1, 0, Some(dead));
                (launcher, Crashed::Dead(tries), entered)
            }
            Err(_) => {
                let entered = Entered::new(Some(crash), service, 1, 0, None);
                (launcher, Crashed::NoMemory, entered)
            }
        }
    }

    // Begins one incarnation after the other, until one is up or none may begin, and tells what was entered,
    // with the entry that opened the turn.
    pub(crate) fn go_on<R: Wait, G: Gate>(
        self,
        rt: &R,
        gate: &G,
        locks: &Locks<N, J, K, S>,
        cells: &CellLocks<N, C, Noted<N, J, K, S, F>>,
        service: u16,
        opening: Option<LauncherEvent>,
    ) -> (Self, Launched, Entered)
        requires service { service < length N.site.services }
        requires cause { MayLaunch service self }
        ensures { GoesSo N.site N.run_seed N.children service opening result.1 result.2 self result.0 }
    {
        let mut launcher = self;
        launcher.keeps();
        let first = launcher.greatest(service) + 1;
        let mut failed = 0;
        let mut what = launcher.next(service);
        while begins(what) {
            let (after, attempt) = launcher.attempt(rt, gate, locks, cells, service);
            launcher = after;
            match attempt {
                Attempt::Up(incarnation) => {
                    let up = LauncherEvent::Begun {
                        service,
                        incarnation,
                    };
                    let entered = Entered::new(opening, service, first, failed, Some(up));
                    return (launcher, Launched::Up(incarnation), entered);
                }
                Attempt::NoMemory => {
                    let begun = launcher.last_begun(service, first + failed);
                    let entered = Entered::new(opening, service, first, failed, begun);
                    return (launcher, Launched::NoMemory, entered);
                }
                Attempt::Failed => failed += 1,
            }
            what = launcher.next(service);
        }
        let (launcher, answer, closing) = launcher.end(service, what);
        let entered = Entered::new(opening, service, first, failed, closing);
        (launcher, answer, entered)
    }

    /// Launches a service that isn't up.
    pub fn launch<R: Wait, G: Gate>(
        self,
        rt: &R,
        gate: &G,
        locks: &Locks<N, J, K, S>,
        cells: &CellLocks<N, C, Noted<N, J, K, S, F>>,
        service: u16,
    ) -> (Self, Launched, Entered)
        requires service { service < length N.site.services }
        requires down { up_in self service ≡ 0 }
        ensures goes { Goes N.site self.journal.holder service self.journal.past self.crew.family result.1 result.0 }
        ensures enters { Enters self.journal.holder result.2 self.journal.past result.0.journal.past }
        ensures few { length result.2 ≤ most_entered N.site }
        ensures whole { (up ended : ℕ → ℕ → Bool) → IsClosed N.site N.run_seed N.children up ended self → IsClosed N.site N.run_seed N.children (ups_after (launch_up result.1) result.2 up) ended result.0 }
        ensures holder { result.0.journal.holder ≡ self.journal.holder }
    {
        self.keeps();
        self.go_on(rt, gate, locks, cells, service, None)
    }

    /// Launches a service that the operator asks for, whether it is up or was given up. Where its last
    /// incarnation was begun before, nothing is entered.
    pub fn relaunch<R: Wait, G: Gate>(
        self,
        rt: &R,
        gate: &G,
        locks: &Locks<N, J, K, S>,
        cells: &CellLocks<N, C, Noted<N, J, K, S, F>>,
        service: u16,
    ) -> (Self, Launched, Entered)
        requires { service < length N.site.services }
        ensures goes { GoesAsked N.site self.journal.holder service self.journal.past self.crew.family result.1 result.0 }
        ensures enters { Enters self.journal.holder result.2 self.journal.past result.0.journal.past }
        ensures few { length result.2 ≤ most_entered N.site }
        ensures whole { (up ended : ℕ → ℕ → Bool) → IsClosed N.site N.run_seed N.children up ended self → IsClosed N.site N.run_seed N.children (ups_after (launch_up result.1) result.2 up) ended result.0 }
        ensures holder { result.0.journal.holder ≡ self.journal.holder }
    {
        let mut launcher = self;
        if launcher.greatest(service) == MOST_INCARNATIONS {
            return (launcher, Launched::Spent, Entered::nothing(service));
        }
        if launcher.make_room(1).is_err() {
            return (launcher, Launched::NoMemory, Entered::nothing(service));
        }
        let asked = launcher.ask(service);
        launcher.go_on(rt, gate, locks, cells, service, Some(asked))
    }

    /// Enters that an incarnation of a service has crashed, which was begun, and launches the service
    /// where it was the greatest. A service that was given up before is given up once more.
    pub fn crashed<R: Wait, G: Gate>(
        self,
        rt: &R,
        gate: &G,
        locks: &Locks<N, J, K, S>,
        cells: &CellLocks<N, C, Noted<N, J, K, S, F>>,
        service: u16,
        incarnation: u32,
    ) -> (Self, Crashed, Entered)
        requires service { service < length N.site.services }
        requires counted { 0 < incarnation }
        requires begun { incarnation ≤ begun self.journal.past service }
        ensures goes { GoesCrashed N.site self.journal.holder service incarnation self.journal.past self.crew.family result.1 result.0 }
        ensures enters { Enters self.journal.holder result.2 self.journal.past result.0.journal.past }
        ensures few { length result.2 ≤ most_entered N.site }
        ensures whole { (up ended : ℕ → ℕ → Bool) → IsClosed N.site N.run_seed N.children up ended self → IsClosed N.site N.run_seed N.children (ups_after (crash_up result.1) result.2 up) ended result.0 }
        ensures holder { result.0.journal.holder ≡ self.journal.holder }
    {
        self.note_crash(rt, gate, locks, cells, service, incarnation)
    }

    // The same, with one clause.
    fn note_crash<R: Wait, G: Gate>(
        self,
        rt: &R,
        gate: &G,
        locks: &Locks<N, J, K, S>,
        cells: &CellLocks<N, C, Noted<N, J, K, S, F>>,
        service: u16,
        incarnation: u32,
    ) -> (Self, Crashed, Entered)
        requires service { service < length N.site.services }
        requires counted { 0 < incarnation }
        requires begun { incarnation ≤ begun self.journal.past service }
        ensures { TurnsSo (GoesCrashed N.site self.journal.holder service incarnation self.journal.past self.crew.family result.1 result.0) N.site N.run_seed N.children (crash_up result.1) (λ ended. ended) result.2 self result.0 }
    {
        let mut launcher = self;
        if launcher.make_room(1).is_err() {
            return (launcher, Crashed::NoMemory, Entered::nothing(service));
        }
        let crash = launcher.crash(service, incarnation);
        let greatest = launcher.greatest(service);
        if incarnation < greatest {
            let entered = Entered::new(Some(crash), service, 1, 0, None);
            return (launcher, Crashed::Later(greatest), entered);
        }
        if launcher.given_up(service).is_some() {
            return launcher.give_up_again(service, crash);
        }
        let (launcher, launched, entered) = launcher.go_on(
            rt,
            gate,
            locks,
            cells,
            service,
            Some(crash),
        );
        (launcher, crashed_as(launched), entered)
    }
}
