//! How the launcher looks after a service.

ghost use Rattle.std.specs.Prelude.{◌≡◌, ◌<◌, ◌≤◌, ℕ, Bool, true, length};
ghost use Rattle.okld_launch.specs.Acts.{TurnsSo};
ghost use Rattle.okld_launch.specs.Going.{GoesIf, GoesTended};
ghost use Rattle.okld_launch.specs.Ups.{ends_after, launch_up_if, tend_up, ups_after};
ghost use Rattle.okld_launch.specs.Pieces.{IsClosed};
ghost use Rattle.okld_launch.specs.Entering.{Enters, most_entered};

use crate::answer::{Launched, Tended};
use crate::entered::Entered;
use crate::launcher::Launcher;
use crate::launching::tended_as;
use crate::named::Staffed;
use okws_outer::child::Ended;
use okws_outer::children::Children;
use okws_outer::gate::Gate;
use okws_outer::keeper::Keeper;
use okws_outer::stream::Sink;
use site_cells::lock_names::CellNames;
use site_cells::locks::CellLocks;
use site_locks::locks::Locks;
use site_locks::named::Site;
use site_locks::noted_link::Noted;
use std::sync::Wait;

impl<N: Staffed, J: Site, C: CellNames, K: Keeper, S: Sink, F: Children> Launcher<
    N,
    J,
    C,
    K,
    S,
    F,
> {
    /// Looks after a service: launches one that isn't up, unless it was given up, and asks the child of one
    /// that is whether it has ended, which is a crash.
    pub fn tend<R: Wait, G: Gate>(
        self,
        rt: &R,
        gate: &G,
        locks: &Locks<N, J, K, S>,
        cells: &CellLocks<N, C, Noted<N, J, K, S, F>>,
        service: u16,
    ) -> (Self, Tended, Entered)
        requires { service < length N.site.services }
        ensures goes { GoesTended N.site self.journal.holder service self result.1 result.0 }
        ensures enters { Enters self.journal.holder result.2 self.journal.past result.0.journal.past }
        ensures few { length result.2 ≤ most_entered N.site }
        ensures whole { (up ended : ℕ → ℕ → Bool) → IsClosed N.site N.run_seed N.children up ended self → IsClosed N.site N.run_seed N.children (ups_after (tend_up result.1) result.2 up) (ends_after true result.2 ended) result.0 }
        ensures holder { result.0.journal.holder ≡ self.journal.holder }
    {
        self.tend_service(rt, gate, locks, cells, service)
    }

    // The same, with one clause.
    fn tend_service<R: Wait, G: Gate>(
        self,
        rt: &R,
        gate: &G,
        locks: &Locks<N, J, K, S>,
        cells: &CellLocks<N, C, Noted<N, J, K, S, F>>,
        service: u16,
    ) -> (Self, Tended, Entered)
        requires { service < length N.site.services }
        ensures { TurnsSo (GoesTended N.site self.journal.holder service self result.1 result.0) N.site N.run_seed N.children (tend_up result.1) (ends_after true result.2) result.2 self result.0 }
    {
        let mut launcher = self;
        launcher.keeps();
        if let Some(tries) = launcher.given_up(service) {
            return (launcher, Tended::Dead(tries), Entered::nothing(service));
        }
        let Some(incarnation) = launcher.up_now(service) else {
            let (launcher, launched, entered) = launcher.go_on(
                rt, gate, locks, cells, service, None,
            );
            return (launcher, tended_as(launched), entered);
        };
        match launcher.ended(service) {
            Ended::No | Ended::Failed => return (
                launcher,
                Tended::Alive,
                Entered::nothing(service),
            ),
            Ended::Yes => {}
        }
        if launcher.make_room(1).is_err() {
            return (launcher, Tended::NoMemory, Entered::nothing(service));
        }
        let crash = launcher.crash(service, incarnation);
        let (launcher, launched, entered) = launcher.go_on(
            rt,
            gate,
            locks,
            cells,
            service,
            Some(crash),
        );
        (launcher, tended_as(launched), entered)
    }

    /// Launches a service, unless it is up already.
    pub fn launch_if_down<R: Wait, G: Gate>(
        self,
        rt: &R,
        gate: &G,
        locks: &Locks<N, J, K, S>,
        cells: &CellLocks<N, C, Noted<N, J, K, S, F>>,
        service: u16,
    ) -> (Self, Option<Launched>, Entered)
        requires { service < length N.site.services }
        ensures goes { GoesIf N.site self.journal.holder service self result.1 result.0 }
        ensures enters { Enters self.journal.holder result.2 self.journal.past result.0.journal.past }
        ensures few { length result.2 ≤ most_entered N.site }
        ensures whole { (up ended : ℕ → ℕ → Bool) → IsClosed N.site N.run_seed N.children up ended self → IsClosed N.site N.run_seed N.children (ups_after (launch_up_if result.1) result.2 up) ended result.0 }
        ensures holder { result.0.journal.holder ≡ self.journal.holder }
    {
        match self.up_now(service) {
            Some(_) => (self, None, Entered::nothing(service)),
            None => {
                let (launcher, answer, entered) = self.launch(rt, gate, locks, cells, service);
                (launcher, Some(answer), entered)
            }
        }
    }
}
