//! The launcher's value.

ghost use Rattle.std.specs.Prelude.{◌≡◌, ◌<◌, ◌≤◌, ℕ, Bool, false, [], length, slice_index, IfOk, IfErr};
ghost use Rattle.std.specs.Arc.{arc_value};
ghost use Rattle.okws_base.specs.declared.limit.TheConstants.{MOST_PROXIES};
ghost use Rattle.monitor_model.specs.Launcher.{LauncherLaw, begun};
ghost use Rattle.launch_crew.specs.Coming.{came_up};
ghost use Rattle.launch_crew.specs.Crews.{Below, crew_of};
ghost use Rattle.launch_crew.specs.Ended.{Attended};
ghost use Rattle.launch_crew.specs.Recorded.{IsUnused};
ghost use Rattle.okld_launch.specs.Causing.{AllCaused};
ghost use Rattle.okld_launch.specs.Failures.{FailuresAreTold, FaultsAreTold};
ghost use Rattle.okld_launch.specs.Kin.{AreKin};
ghost use Rattle.okld_launch.specs.Pieces.{IsClosed, IsWhole};

use crate::named::Staffed;
use launch_crew::crew::Crew;
use launch_journal::LaunchJournal;
use okws_base::journal::{Entry, Past};
use okws_outer::children::Children;
use okws_outer::keeper::Keeper;
use okws_outer::stream::Sink;
use okws_plan::configuration::Config;
use okws_plan::event::LauncherEvent;
use site_cells::lock_names::CellNames;
use site_locks::named::Site;
use std::alloc::Global;
use std::marker::Model;
use std::sync::Arc;
use token_core::Seed;
use turn_lock::Journaled;

/// The launcher of a site: its journal, its crew, and which incarnation of each service is up. By its type
/// the journal keeps the launcher's law, nothing was launched that was not begun, what is up stands, and for
/// each Failed that was entered, and for each dialog that a fault of its link ended, a fault of the children
/// was counted once that link was out, and what was begun has its cause.
pub struct Launcher<N: Staffed, J: Site, C: CellNames, K: Keeper, S: Sink, F: Children> {
    pub(crate) alloc: Global,
    pub(crate) journal: LaunchJournal,
    pub(crate) crew: Crew<N, J, C, K, S, F>,
    // The incarnation of each service that is up, 0 for none.
    pub(crate) ups: Vec<u32>,
    pub(crate) site: Arc<Config, Global>,
    pub(crate) seed: Seed,
}

impl<N: Staffed, J: Site, C: CellNames, K: Keeper, S: Sink, F: Children + Drop> Drop
    for Launcher<N, J, C, K, S, F> {
    fn drop(self) {
        let Launcher {
            alloc: _,
            journal,
            crew,
            ups,
            site,
            seed: _,
        } = self;
        drop(journal);
        drop(crew);
        drop(ups);
        drop(site);
    }
}

impl<N: Staffed, J: Site, C: CellNames, K: Keeper, S: Sink, F: Children> Model
    for Launcher<N, J, C, K, S, F> {
    ghost use Rattle.std.specs.Arc.{arc_value};
    ghost use Rattle.launch_crew.specs.Crews.{crew_of};
    ghost use Rattle.okld_launch.specs.Launchers.{LauncherIs, IsPlaced};

    ghost Value = { LauncherIs };

    ghost view = { λ l. record { journal = l.journal; crew = crew_of l.crew.recorder l.crew.staff; ups = l.ups.items } };

    ghost invariant = { λ l. IsPlaced N.site N.run_seed N.children (record { journal = l.journal; crew = crew_of l.crew.recorder l.crew.staff; ups = l.ups.items }) (arc_value l.site) l.seed };
}

impl<N: Staffed, J: Site, C: CellNames, K: Keeper, S: Sink, F: Children + Drop> Launcher<
    N,
    J,
    C,
    K,
    S,
    F,
> {
    /// The launcher of a site at which nothing was launched. Where memory is refused, the crew comes back.
    pub fn new(
        alloc: Global,
        journal: LaunchJournal,
        crew: Crew<N, J, C, K, S, F>,
        site: Arc<Config, Global>,
        seed: Seed,
    ) -> Result<Self, Crew<N, J, C, K, S, F>>
        requires config { journal.config ≡ N.site }
        requires none { journal.past ≡ [] }
        requires unused { IsUnused N.site N.launcher crew.recorder }
        requires spare { length N.site.services ≤ crew.recorder.room }
        requires attended { Attended (crew_of crew.recorder crew.staff) }
        requires few { length N.site.proxies ≤ MOST_PROXIES }
        requires children { crew.staff.family ≡ N.children }
        requires site { arc_value site ≡ N.site }
        requires seed { seed ≡ N.run_seed }
        ensures ok { IfOk result (λ l. (l.journal ≡ journal) × (l.crew ≡ crew_of crew.recorder crew.staff)) }
        ensures closed { IfOk result (λ l. IsClosed N.site N.run_seed N.children (λ s k. false) (λ s k. false) l) }
        ensures err { IfErr result (λ c. c ≡ crew) }
    {
        let services = crew.recorder.services();
        let Ok(ups) = vec![in alloc; 0; services] else {
            return Err(crew);
        };
        Ok(Launcher {
            alloc,
            journal,
            crew,
            ups,
            site,
            seed,
        })
    }
}

impl<N: Staffed, J: Site, C: CellNames, K: Keeper, S: Sink, F: Children> Launcher<
    N,
    J,
    C,
    K,
    S,
    F,
> {
    /// What was entered, which keeps the launcher's law, and the crew, by which nothing was launched that
    /// was not begun, and of whose children a fault was told for each Failed and for each dialog that ended by
    /// a fault of a link that is out. What was begun has its cause.
    pub fn close(self) -> (Past<Entry<LauncherEvent>>, Crew<N, J, C, K, S, F>)
        ensures past { result.0 ≡ self.journal.past }
        ensures law { LauncherLaw N.site result.0 }
        ensures crew { crew_of result.1.recorder result.1.staff ≡ self.crew }
        ensures failed { FailuresAreTold N.children result.0 result.1.staff.family }
        ensures kin { AreKin N.site N.run_seed N.children result.0 (crew_of result.1.recorder result.1.staff) }
        ensures faults { FaultsAreTold N.children result.0 (crew_of result.1.recorder result.1.staff) }
        ensures caused { AllCaused (came_up result.1.recorder.sat) result.0 result.0 }
        ensures below { (s : ℕ) → Below s (begun result.0 s) result.1.recorder.sat result.1.recorder.watch }
        ensures shown { (s : ℕ) → s < length N.site.services → slice_index result.1.recorder.sat.board s ≡ begun result.0 s }
        ensures whole { (up ended : ℕ → ℕ → Bool) → IsClosed N.site N.run_seed N.children up ended self → IsWhole N.site N.run_seed up result.0 result.1.recorder.watch.cells result.1.recorder.own }
        ensures spare { length N.site.services ≤ result.1.recorder.room }
    {
        let Launcher {
            alloc: _,
            journal,
            crew,
            ups,
            site,
            seed: _,
        } = self;
        drop(ups);
        drop(site);
        (journal.close(), crew)
    }

    /// Names the number under which is entered from now on.
    pub fn hold(&mut self, number: u16)
        ensures { self.new ≡ record self.old { journal = record self.old.journal { holder = number } } }
    {
        self.journal.hold(number);
    }

    /// The number under which is entered.
    pub fn holder(&self) -> u16
        ensures { result ≡ self.now.journal.holder }
    {
        self.journal.holder()
    }
}
