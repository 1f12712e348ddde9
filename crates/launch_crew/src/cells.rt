//! What the launcher does at the cells.

ghost use Rattle.std.specs.Prelude.{◌≡◌, ◌<◌, ◌≤◌, ◌+◌, ◌&&◌, ℕ, true, false, is_some, option_map, IfSome, length};
ghost use Rattle.okws_base.specs.declared.limit.TheConstants.{MOST_PROXIES};
ghost use Rattle.okws_outer.specs.Families.{IsNewLink};
ghost use Rattle.okws_outer.specs.Wire.{Wire};
ghost use Rattle.monitor_model.specs.Cell.{incarnation as incarnation_of, last_booted, boot_frame};
ghost use Rattle.monitor_model.specs.Launches.{with_retired};
ghost use Rattle.site_cells.specs.Held.{IsLinkOf, is_broken};
ghost use Rattle.site_cells.specs.Row.{seen_at, link_at, OnlyAt};
ghost use Rattle.site_locks.specs.Heard.{AreInstalled};
ghost use Rattle.launch_crew.specs.Acts.{BootsCell, IsBare};
ghost use Rattle.launch_crew.specs.Finished.{all_out, one_if};
ghost use Rattle.launch_crew.specs.Listed.{CellsGo, of_cells};

use crate::answer::Missed;
use crate::recorder::Recorder;
use frame_codec::frame::{Issued, ServerFrame};
use monitor_model::record::Own;
use named_columns::named::Backed;
use okws_base::items::Items;
use okws_outer::keeper::Keeper;
use okws_outer::stream::{Link, Sink};
use service_cell::answer::Booting;
use site_cells::answer::Launched;
use site_cells::lock_names::CellNames;
use site_cells::locks::CellLocks;
use site_cells::note::CellNote;
use site_locks::column_notes::ColumnNotes;
use site_locks::named::Site;
use site_locks::noted_link::NotedLink;
use std::sync::Wait;

// The link alone, where there is one.
fn bare_link<N: Backed, J: Site, K: Keeper, S: Sink, L: Link>(
    link: Option<NotedLink<N, J, K, S, L>>,
) -> Option<L>
    ensures { option_map L.wire result ≡ link }
{
    match link {
        Some(noted) => Some(noted.into_link()),
        None => None,
    }
}

// The same answer, with the link alone.
fn bare<N: Backed, J: Site, K: Keeper, S: Sink, L: Link>(
    answer: Result<(), (Missed, NotedLink<N, J, K, S, L>)>,
) -> Result<(), (Missed, L)>
    ensures { IsBare L.wire answer result }
{
    match answer {
        Ok(()) => Ok(()),
        Err((missed, noted)) => Err((missed, noted.into_link())),
    }
}

impl<N: Backed, J: Site, C: CellNames, K: Keeper, S: Sink, L: Link + Drop> Recorder<
    N,
    J,
    C,
    K,
    S,
    L,
> {
    /// Retires the incarnation at the cell of the service, where there is one, and takes out the link, which
    /// is there where the cell was booted since the last one was taken out: it was given what the last
    /// incarnation heard, and what that said was taken from it.
    pub fn retire<R: Wait>(
        &mut self,
        rt: &R,
        cells: &CellLocks<N, C, NotedLink<N, J, K, S, L>>,
        service: u16,
    ) -> Option<L>
        requires service { service < length N.site.services }
        requires room { 0 < self.old.room }
        ensures columns { self.new.sat ≡ self.old.sat }
        ensures only { OnlyAt service self.old.watch self.new.watch }
        ensures empty { incarnation_of (seen_at self.new.watch service) ≡ 0 }
        ensures last { last_booted (seen_at self.new.watch service) ≡ last_booted (seen_at self.old.watch service) }
        ensures behind { CellsGo self.old.watch self.new.watch }
        ensures own { self.new.own ≡ with_retired (of_cells self.new.watch.cells) service self.old.own }
        ensures link { is_some result ≡ link_at self.old.watch service }
        ensures unlinked { link_at self.new.watch service ≡ false }
        ensures out { (n : ℕ) → all_out self.new.watch n ≤ all_out self.old.watch n + one_if (link_at self.old.watch service && is_broken (seen_at self.new.watch service)) }
        ensures holds { IfSome (option_map L.wire result) (IsLinkOf N.site N.run_seed service (seen_at self.new.watch service)) }
        ensures room { self.old.room ≤ self.new.room + 1 }
    {
        self.cells.keeps();
        let (was, noted) = self.cells.retire(rt, cells, service);
        let link = bare_link(noted);
        if was != 0 {
            self.own.enter(Own::Retired(service));
        }
        link
    }

    /// Boots the cell of the service, which is empty, over the link of a child that was just started, with
    /// notes that have seen its incarnation installed. Where it isn't booted, the link comes back, to which at
    /// most a front of the Boot frame was given, and from which nothing was taken.
    pub fn boot<R: Wait>(
        &mut self,
        rt: &R,
        cells: &CellLocks<N, C, NotedLink<N, J, K, S, L>>,
        service: u16,
        incarnation: u32,
        link: L,
        notes: ColumnNotes<N, J, K, S>,
        tokens: Items<Issued>,
    ) -> Result<(), (Missed, L)>
        requires service { service < length N.site.services }
        requires empty { incarnation_of (seen_at self.old.watch service) ≡ 0 }
        requires later { last_booted (seen_at self.old.watch service) < incarnation }
        requires link { IsNewLink service incarnation (L.wire link) }
        requires installed { AreInstalled N.site service incarnation notes }
        requires tokens { ServerFrame.Boot service incarnation tokens ≡ boot_frame N.site N.run_seed service incarnation }
        requires few { length tokens ≤ MOST_PROXIES }
        requires room { 0 < self.old.room }
        ensures { BootsCell L.wire N.site N.run_seed service incarnation result self.old self.new }
    {
        let noted = NotedLink::new(link, notes);
        bare(self.boot_cell(rt, cells, service, incarnation, noted, tokens))
    }

    // The same over a link with notes.
    fn boot_cell<R: Wait>(
        &mut self,
        rt: &R,
        cells: &CellLocks<N, C, NotedLink<N, J, K, S, L>>,
        service: u16,
        incarnation: u32,
        link: NotedLink<N, J, K, S, L>,
        tokens: Items<Issued>,
    ) -> Result<(), (Missed, NotedLink<N, J, K, S, L>)>
        requires service { service < length N.site.services }
        requires empty { incarnation_of (seen_at self.old.watch service) ≡ 0 }
        requires later { last_booted (seen_at self.old.watch service) < incarnation }
        requires link { IsNewLink service incarnation link }
        requires tokens { ServerFrame.Boot service incarnation tokens ≡ boot_frame N.site N.run_seed service incarnation }
        requires few { length tokens ≤ MOST_PROXIES }
        requires room { 0 < self.old.room }
        ensures { BootsCell (λ (w : Wire). w) N.site N.run_seed service incarnation result self.old self.new }
    {
        let Launched { booting, left } = self
            .cells
            .boot(rt, cells, service, link, incarnation, tokens);
        drop(left);
        match booting {
            Booting::Booted => {
                self.own.enter(Own::Boot {
                    service,
                    incarnation,
                });
                Ok(())
            }
            Booting::LinkFault(link) => Err((Missed::Failed, link)),
            Booting::NoMemory(link) => Err((Missed::NoMemory, link)),
        }
    }

    /// Takes in what another number has seen at a cell.
    pub fn meet(
        &mut self,
        cells: &CellLocks<N, C, NotedLink<N, J, K, S, L>>,
        note: CellNote<N, C, NotedLink<N, J, K, S, L>>,
    )
        ensures columns { self.new.sat ≡ self.old.sat }
        ensures only { OnlyAt note.service self.old.watch self.new.watch }
        ensures last { last_booted (seen_at self.new.watch note.service) ≡ last_booted (seen_at self.old.watch note.service) }
        ensures link { link_at self.new.watch note.service ≡ link_at self.old.watch note.service }
        ensures out { (n : ℕ) → all_out self.new.watch n ≤ all_out self.old.watch n }
        ensures met { last_booted note.seen ≤ last_booted (seen_at self.new.watch note.service) }
        ensures behind { CellsGo self.old.watch self.new.watch }
        ensures own { self.new.own ≡ self.old.own }
        ensures room { self.new.room ≡ self.old.room }
    {
        self.cells.keeps();
        self.cells.meet(cells, note);
    }
}
