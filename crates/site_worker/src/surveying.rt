//! A worker that counts what was done in its site, and how the services stand.

ghost use Rattle.std.specs.Prelude.{◌≡◌};
ghost use Rattle.launch_turns.specs.Looking.{LooksBy};
ghost use Rattle.site_worker.specs.Steering.{Counts};

use crate::hands::Counted;
use crate::worker::Worker;
use launch_turns::looking::{Standing, look_by};
use okld_launch::named::Staffed;
use okws_outer::children::Children;
use okws_outer::gate::Gate;
use okws_outer::keeper::Keeper;
use okws_outer::stream::Sink;
use site_cells::lock_names::CellNames;
use site_locks::named::Site;
use site_locks::note::OkdNote;
use std::sync::Wait;

impl<
    'a,
    R: Wait,
    G: Gate,
    N: Staffed,
    J: Site,
    C: CellNames,
    K: Keeper,
    S: Sink,
    F: Children,
> Worker<'a, R, G, N, J, C, K, S, F> {
    /// A turn at the launcher in which the site is looked at.
    pub(crate) fn look_turn(&mut self) -> (u64, Standing, OkdNote<N, J>)
        ensures looks { LooksBy N.site self.old.life.launcher result.0 result.1 result.2 self.new.life.launcher }
        ensures only { self.new.life ≡ record self.old.life { launcher = record self.old.life.launcher { seen = self.new.life.launcher.seen } } }
    {
        let rt = self.rt;
        let turn = self.launcher;
        let locks = self.locks;
        let services = self.services;
        let seat = &mut self.at_launcher;
        look_by(rt, turn, seat, locks, services)
    }

    /// Counts what stands in the columns' journals, where it takes in what the launcher has seen at okd.
    pub(crate) fn count(&mut self, note: OkdNote<N, J>) -> Counted
        ensures { Counts N.site note result self.old.life self.new.life }
    {
        self.hands.count(note)
    }
}
