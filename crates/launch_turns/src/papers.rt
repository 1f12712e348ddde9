//! What a launcher takes memory for before its seats and children are handed to it.

ghost use Rattle.std.specs.Prelude.{◌≡◌, ◌≤◌, [], IfOk, IfErr, length};
ghost use Rattle.std.specs.Arc.{arc_value};
ghost use Rattle.okws_base.specs.declared.limit.TheConstants.{MOST_PROXIES, MOST_SERVICES};
ghost use Rattle.site_cells.specs.Row.{IsNew};
ghost use Rattle.site_locks.specs.Made.{fresh};
ghost use Rattle.launch_turns.specs.Papers.{ArePapers};

use crate::resting::Resting;
use launch_crew::crew::Crew;
use launch_journal::LaunchJournal;
use okld_launch::launcher::Launcher;
use okld_launch::named::Staffed;
use okws_outer::children::Children;
use okws_outer::keeper::Keeper;
use okws_outer::stream::Sink;
use okws_plan::configuration::Config;
use site_cells::lock_names::CellNames;
use site_cells::seats::CellSeats;
use site_locks::locks::Seats;
use site_locks::named::Site;
use site_locks::noted_link::Noted;
use std::alloc::{AllocError, Global};
use std::sync::Arc;
use token_core::Seed;

/// The journal of a launcher that did nothing yet, the site, and the seed of its tokens.
pub struct Papers {
    pub journal: LaunchJournal,
    pub site: Arc<Config, Global>,
    pub seed: Seed,
}

impl Drop for Papers {
    fn drop(self) {
        let Papers {
            journal,
            site,
            seed: _,
        } = self;
        drop(journal);
        drop(site);
    }
}

impl Papers {
    /// Those of a launcher of this site.
    pub fn new(
        alloc: Global,
        site: &Arc<Config, Global>,
        seed: &Seed,
        keeps: bool,
    ) -> Result<Papers, AllocError>
        ensures { IfOk result (λ p. ArePapers (arc_value site.now) seed.now p.journal (arc_value p.site) p.seed) }
    {
        let judged = site.clone()?;
        let shown = site.clone()?;
        Ok(Papers {
            journal: LaunchJournal::new(alloc, judged, keeps)?,
            site: shown,
            seed: *seed,
        })
    }

    /// How many services the site has.
    pub fn services(&self) -> usize
        ensures { result ≡ length (arc_value self.now.site).services }
    {
        self.site.services.as_slice().len()
    }

    /// The launcher, at which nothing was launched. Where memory is refused, the children come back.
    pub fn launcher<N: Staffed, J: Site, C: CellNames, K: Keeper, S: Sink, F: Children + Drop>(
        self,
        alloc: Global,
        seats: Seats<N, J, K, S>,
        cells: CellSeats<N, C, Noted<N, J, K, S, F>>,
        children: F,
        keeps: bool,
    ) -> Result<Resting<N, J, C, K, S, F>, F>
        requires papers { ArePapers N.site N.run_seed self.journal (arc_value self.site) self.seed }
        requires seats { seats ≡ fresh (length N.site.proxies) N.launcher }
        requires cells { IsNew (length N.site.services) N.launcher cells }
        requires few { (length N.site.proxies ≤ MOST_PROXIES) × (length N.site.services ≤ MOST_SERVICES) }
        requires children { F.family children ≡ N.children }
        ensures ok { IfOk result (λ l. (l.deeds ≡ []) × (l.launcher.crew.family ≡ F.family children)) }
        ensures err { IfErr result (λ f. F.family f ≡ F.family children) }
    {
        let Papers {
            journal,
            site,
            seed,
        } = self;
        let crew = Crew::new(alloc, seats, cells, children, keeps)?;
        match Launcher::new(alloc, journal, crew, site, seed) {
            Ok(launcher) => Ok(Resting::first(launcher)),
            Err(crew) => Err(crew.into_children()),
        }
    }
}
