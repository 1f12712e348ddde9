//! The launcher between its turns, as it stands behind its lock.

ghost use Rattle.std.specs.Prelude.{◌≡◌, ◌<◌, ◌≤◌, [], ◌∷◌, ℕ, false, length, slice_index};
ghost use Rattle.monitor_model.specs.Launcher.{LauncherLaw, begun};
ghost use Rattle.launch_crew.specs.Coming.{came_up};
ghost use Rattle.launch_crew.specs.Crews.{Below, crew_of};
ghost use Rattle.launch_crew.specs.Ended.{Attended};
ghost use Rattle.okld_launch.specs.Causing.{AllCaused};
ghost use Rattle.launch_turns.specs.Deeds.{ended_in, entries, up_in};
ghost use Rattle.okld_launch.specs.Failures.{FailuresAreTold, FaultsAreTold};
ghost use Rattle.okld_launch.specs.Kin.{AreKin};
ghost use Rattle.okld_launch.specs.Pieces.{EndsAreTold, IsClosed, IsWhole};
ghost use Rattle.launch_turns.specs.Resting.{Rests};
ghost use Rattle.launch_turns.specs.Standing.{UpsStand};

use crate::deed::{Deed, Deeds, Took};
use launch_crew::crew::Crew;
use okld_launch::launcher::Launcher;
use okld_launch::named::Staffed;
use okws_base::journal::{Entry, Past};
use okws_base::told::Told;
use okws_outer::children::Children;
use okws_outer::keeper::Keeper;
use okws_outer::stream::Sink;
use okws_plan::event::LauncherEvent;
use site_cells::lock_names::CellNames;
use site_locks::locks::{Locks, Seats};
use site_locks::named::Site;
use site_locks::note::OkdNote;
use std::marker::Model;
use turn_lock::Journaled;

/// A launcher that launches nothing right now, with the turns that were taken at it.
/// By its type its list is made of whole pieces, one for each Begun of its journal, each of which went as
/// the turns tell, and of each child that has ended by what they tell, that is told of the children.
pub struct Resting<N: Staffed, J: Site, C: CellNames, K: Keeper, S: Sink, F: Children> {
    launcher: Launcher<N, J, C, K, S, F>,
    deeds: Deeds,
}

impl<N: Staffed, J: Site, C: CellNames, K: Keeper, S: Sink, F: Children + Drop> Drop
    for Resting<N, J, C, K, S, F> {
    fn drop(self) {
        let Resting { launcher, deeds } = self;
        drop(launcher);
        drop(deeds);
    }
}

impl<N: Staffed, J: Site, C: CellNames, K: Keeper, S: Sink, F: Children> Model
    for Resting<N, J, C, K, S, F> {
    ghost use Rattle.launch_turns.specs.Resting.{RestingIs, Rests};

    ghost Value = { RestingIs };

    ghost view = { λ r. record { launcher = r.launcher; deeds = r.deeds.past } };

    ghost invariant = { λ r. Rests N.site N.run_seed N.children r.deeds.past r.launcher };
}

impl<N: Staffed, J: Site, C: CellNames, K: Keeper, S: Sink, F: Children> Resting<N, J, C, K, S, F> {
    /// The launcher as it rests behind these turns.
    pub(crate) fn new(launcher: Launcher<N, J, C, K, S, F>, deeds: Deeds) -> Self
        requires { Rests N.site N.run_seed N.children deeds.past launcher }
        ensures { result ≡ record { launcher = launcher; deeds = deeds.past } }
    {
        Resting { launcher, deeds }
    }

    /// A launcher at which nothing was launched.
    pub(crate) fn first(launcher: Launcher<N, J, C, K, S, F>) -> Self
        requires none { launcher.journal.past ≡ [] }
        requires closed { IsClosed N.site N.run_seed N.children (λ s k. false) (λ s k. false) launcher }
        ensures { result ≡ record { launcher = launcher; deeds = [] } }
    {
        Resting::new(launcher, Deeds::new())
    }

    /// The launcher behind one turn more.
    pub(crate) fn after(
        launcher: Launcher<N, J, C, K, S, F>,
        deeds: &Deeds,
        took: &Took<'_>,
    ) -> Self
        requires { Rests N.site N.run_seed N.children (record { worker = took.now.worker; entered = took.now.entered.now; up = took.now.up; tended = took.now.tended } ∷ deeds.now.past) launcher }
        ensures { result ≡ record { launcher = launcher; deeds = record { worker = took.now.worker; entered = took.now.entered.now; up = took.now.up; tended = took.now.tended } ∷ deeds.now.past } }
    {
        Resting {
            launcher,
            deeds: deeds.and(took),
        }
    }

    /// A note of what the launcher has seen at okd: all that came up in its turns stands there. It takes no
    /// turn and no memory.
    pub(crate) fn note_okd(&mut self, locks: &Locks<N, J, K, S>) -> OkdNote<N, J>
        ensures stand { UpsStand self.old.deeds result }
        ensures same { self.new ≡ self.old }
    {
        self.launcher.note_okd(locks)
    }

    /// The launcher, for a turn at it, and the turns before.
    pub(crate) fn into_parts(self) -> (Launcher<N, J, C, K, S, F>, Deeds)
        ensures launcher { result.0 ≡ self.launcher }
        ensures deeds { result.1.past ≡ self.deeds }
        ensures rests { Rests N.site N.run_seed N.children result.1.past result.0 }
    {
        let Resting { launcher, deeds } = self;
        (launcher, deeds)
    }

    /// The same, where what another number has seen on the board of each service was begun in the turns before.
    pub(crate) fn into_parts_for(
        self,
        locks: &Locks<N, J, K, S>,
        other: &mut Seats<N, J, K, S>,
    ) -> (Launcher<N, J, C, K, S, F>, Deeds)
        ensures launcher { result.0 ≡ self.launcher }
        ensures deeds { result.1.past ≡ self.deeds }
        ensures rests { Rests N.site N.run_seed N.children result.1.past result.0 }
        ensures begun { (s : ℕ) → s < length N.site.services → slice_index other.old.board s ≤ begun (entries self.deeds) s }
        ensures other { other.new ≡ other.old }
    {
        let (mut launcher, deeds) = self.into_parts();
        launcher.compare(locks, other);
        (launcher, deeds)
    }

    /// What was entered, which keeps the launcher's law, and the crew, by which nothing was launched that
    /// was not begun, of whose children a fault was told for each Failed and for each dialog that ended by a
    /// fault of a link that is out, and whose list is whole pieces.
    /// What was begun has its cause, what came up did so as the turns tell, and of each child that has
    /// ended by what they tell, that is told of the children that were finished in this run or run.
    pub fn close(
        self,
    ) -> (
        Past<Entry<LauncherEvent>>,
        Crew<N, J, C, K, S, F>,
        Told<Deed>,
    )
        ensures past { result.0 ≡ entries self.deeds }
        ensures deeds { result.2.past ≡ self.deeds }
        ensures law { LauncherLaw N.site result.0 }
        ensures crew { crew_of result.1.recorder result.1.staff ≡ self.launcher.crew }
        ensures failed { FailuresAreTold N.children result.0 result.1.staff.family }
        ensures kin { AreKin N.site N.run_seed N.children result.0 (crew_of result.1.recorder result.1.staff) }
        ensures faults { FaultsAreTold N.children result.0 (crew_of result.1.recorder result.1.staff) }
        ensures caused { AllCaused (came_up result.1.recorder.sat) result.0 result.0 }
        ensures below { (s : ℕ) → Below s (begun result.0 s) result.1.recorder.sat result.1.recorder.watch }
        ensures shown { (s : ℕ) → s < length N.site.services → slice_index result.1.recorder.sat.board s ≡ begun result.0 s }
        ensures whole { IsWhole N.site N.run_seed (up_in self.deeds) result.0 result.1.recorder.watch.cells result.1.recorder.own }
        ensures attended { Attended (crew_of result.1.recorder result.1.staff) }
        ensures ended { EndsAreTold N.children (ended_in self.deeds) (crew_of result.1.recorder result.1.staff) }
        ensures spare { length N.site.services ≤ result.1.recorder.room }
    {
        let Resting { launcher, deeds } = self;
        let (past, crew) = launcher.close();
        (past, crew, deeds.into_told())
    }
}

impl<N: Staffed, J: Site, C: CellNames, K: Keeper, S: Sink, F: Children> Journaled
    for Resting<N, J, C, K, S, F> {
    ghost use Rattle.launch_turns.specs.Deeds.{by_deed};

    type Entry = Deed;

    ghost journal = { λ r. r.deeds };

    ghost by = { by_deed };

    ghost holder = { λ r. r.launcher.journal.holder };

    ghost label = { λ _. 0 };

    ghost held = { λ r n. record r { launcher = record r.launcher { journal = record r.launcher.journal { holder = n } } } };

    fn hold(&mut self, number: u16)
        ensures same { self.new.deeds ≡ self.old.deeds }
        ensures holder { self.new.launcher.journal.holder ≡ number }
        ensures all { self.new ≡ record self.old { launcher = record self.old.launcher { journal = record self.old.launcher.journal { holder = number } } } }
    {
        self.launcher.hold(number);
    }

    fn label(&self) -> u16 {
        0
    }

    fn holder(&self) -> u16 {
        self.launcher.holder()
    }
}
