//! The steps of a launch.

ghost use Rattle.std.specs.Prelude.{◌≡◌, ◌<◌, ◌≤◌, ◌+◌, None, length, IfOk};
ghost use Rattle.okws_base.specs.declared.limit.TheConstants.{MOST_INCARNATIONS, MOST_PROXIES};
ghost use Rattle.monitor_model.specs.Cell.{incarnation as incarnation_of, last_booted, boot_frame};
ghost use Rattle.monitor_model.specs.Launcher.{begun};
ghost use Rattle.site_cells.specs.Row.{seen_at};
ghost use Rattle.launch_journal.specs.Launches.{Allows};
ghost use Rattle.launch_journal.specs.declared.next.Next.TheVariants as next;
ghost use Rattle.launch_crew.specs.Crews.{NoneStands, Under, StandsAt, RunsAs, child_of};
ghost use Rattle.okld_launch.specs.Acts.{Begins, Clears, ComesUp, InstallsAll, RevokesAll, StartsAs};
ghost use Rattle.okld_launch.specs.Kin.{Unstarted};
ghost use Rattle.okld_launch.specs.Launchers.{MayLaunch, up_in};

use crate::launcher::Launcher;
use crate::named::Staffed;
use frame_codec::frame::{Issued, ServerFrame};
use launch_crew::answer::Missed;
use okws_base::items::Items;
use okws_outer::children::Children;
use okws_outer::gate::{Gate, Point};
use okws_outer::keeper::Keeper;
use okws_outer::stream::Sink;
use service_cell::tokens::tokens_of;
use site_cells::lock_names::CellNames;
use site_cells::locks::CellLocks;
use site_locks::locks::Locks;
use site_locks::named::Site;
use site_locks::noted_link::Noted;
use std::alloc::AllocError;
use std::sync::Wait;

impl<N: Staffed, J: Site, C: CellNames, K: Keeper, S: Sink, F: Children> Launcher<
    N,
    J,
    C,
    K,
    S,
    F,
> {
    /// Begins the next incarnation of the service, and shows it on the board.
    pub(crate) fn begin<G: Gate>(
        &mut self,
        gate: &G,
        locks: &Locks<N, J, K, S>,
        service: u16,
    ) -> u32
        requires service { service < length N.site.services }
        requires may { Allows N.site self.old.journal.past service next.Begin }
        requires cause { MayLaunch service self.old }
        requires room { 0 < self.old.journal.room }
        ensures { Begins service result N.children self.old self.new }
    {
        let incarnation = self.journal.begin(service);
        self.crew.recorder.raise(locks, service, incarnation);
        gate.pass(Point::Raised, u64::from(service));
        incarnation
    }

    /// Ends what stands of the service everywhere, stops and finishes its child, and empties its cell.
    pub(crate) fn clear<R: Wait>(
        &mut self,
        rt: &R,
        locks: &Locks<N, J, K, S>,
        cells: &CellLocks<N, C, Noted<N, J, K, S, F>>,
        service: u16,
    )
        requires service { service < length N.site.services }
        requires cause { MayLaunch service self.old }
        requires room { MOST_PROXIES + 4 + length N.site.services ≤ self.old.crew.room }
        ensures { Clears N.site service self.old self.new }
    {
        self.crew.recorder.keeps();
        self.crew.recorder.down(rt, locks, service);
        self.ups[service as usize] = 0;
        self.crew.recorder.revoke(rt, locks, service);
        self.crew.empty(rt, cells, service);
    }

    /// Installs the incarnation, which was begun, at each column of the service, where nothing of it stands.
    pub(crate) fn install<R: Wait>(
        &mut self,
        rt: &R,
        locks: &Locks<N, J, K, S>,
        service: u16,
        incarnation: u32,
    ) -> Result<(), AllocError>
        requires service { service < length N.site.services }
        requires most { incarnation ≤ MOST_INCARNATIONS }
        requires begun { incarnation ≤ begun self.old.journal.past service }
        requires under { Under service incarnation self.old.crew }
        requires vacant { NoneStands N.site service self.old.crew.sat }
        requires down { up_in self.old service ≡ 0 }
        requires room { MOST_PROXIES + 2 + length N.site.services ≤ self.old.crew.room }
        ensures { InstallsAll N.site N.run_seed service incarnation result self.old self.new }
    {
        let site = &self.site;
        let seed = &self.seed;
        self.crew
            .recorder
            .install(rt, locks, site, seed, service, incarnation)
    }

    /// Revokes what stands of the service, which isn't up, at each column.
    pub(crate) fn revoke<R: Wait>(&mut self, rt: &R, locks: &Locks<N, J, K, S>, service: u16)
        requires service { service < length N.site.services }
        requires down { up_in self.old service ≡ 0 }
        requires room { MOST_PROXIES + 2 + length N.site.services ≤ self.old.crew.room }
        ensures { RevokesAll N.site service self.old self.new }
    {
        self.crew.recorder.revoke(rt, locks, service);
    }

    // The tokens of the incarnation, which its Boot frame carries.
    fn tokens(&self, service: u16, incarnation: u32) -> Result<Items<Issued>, AllocError>
        requires counted { 0 < incarnation }
        requires most { incarnation ≤ MOST_INCARNATIONS }
        ensures tokens { IfOk result (λ v. ServerFrame.Boot service incarnation v ≡ boot_frame N.site N.run_seed service incarnation) }
        ensures few { IfOk result (λ v. length v ≤ MOST_PROXIES) }
    {
        let tokens = tokens_of(self.alloc, &self.site, &self.seed, service, incarnation)?;
        Ok(Items::of(tokens))
    }

    /// Starts a child of the service as the incarnation, which stands at each of its columns, and boots its
    /// cell.
    pub(crate) fn start<R: Wait>(
        &mut self,
        rt: &R,
        locks: &Locks<N, J, K, S>,
        cells: &CellLocks<N, C, Noted<N, J, K, S, F>>,
        service: u16,
        incarnation: u32,
    ) -> Result<(), Missed>
        requires service { service < length N.site.services }
        requires counted { 0 < incarnation }
        requires most { incarnation ≤ MOST_INCARNATIONS }
        requires begun { incarnation ≤ begun self.old.journal.past service }
        requires empty { incarnation_of (seen_at self.old.crew.watch service) ≡ 0 }
        requires later { last_booted (seen_at self.old.crew.watch service) < incarnation }
        requires stands { StandsAt N.site service incarnation self.old.crew.sat }
        requires down { up_in self.old service ≡ 0 }
        requires child { child_of self.old.crew service ≡ None }
        requires unstarted { Unstarted service incarnation N.children self.old.crew.family }
        requires room { 1 + length N.site.services ≤ self.old.crew.room }
        ensures { StartsAs service incarnation N.children result self.old self.new }
    {
        self.crew.recorder.keeps();
        let Ok(tokens) = self.tokens(service, incarnation) else {
            return Err(Missed::NoMemory);
        };
        let plan = &self.site.services.as_slice()[service as usize];
        let words = plan.words.as_slice();
        self.crew.start(
            rt,
            locks,
            cells,
            &plan.name,
            words,
            service,
            incarnation,
            tokens,
        )
    }

    /// Has the incarnation be up.
    pub(crate) fn up<R: Wait>(
        &mut self,
        rt: &R,
        locks: &Locks<N, J, K, S>,
        service: u16,
        incarnation: u32,
    ) -> Result<(), AllocError>
        requires service { service < length N.site.services }
        requires counted { 0 < incarnation }
        requires begun { incarnation ≡ begun self.old.journal.past service }
        requires stands { StandsAt N.site service incarnation self.old.crew.sat }
        requires child { RunsAs incarnation (child_of self.old.crew service) }
        requires down { up_in self.old service ≡ 0 }
        requires room { 1 + length N.site.services ≤ self.old.crew.room }
        ensures { ComesUp service incarnation result self.old self.new }
    {
        self.crew.recorder.up(rt, locks, service, incarnation)?;
        self.ups[service as usize] = incarnation;
        Ok(())
    }
}
