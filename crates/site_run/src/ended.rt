//! What a run leaves when its locks are closed.

ghost use Rattle.std.specs.Prelude.{◌≡◌, []};

use crate::closing::{CellsEnd, ColumnsEnd, LogEnd};
use monitor_model::record::{Own, Record};
use okws_base::items::Items;
use okws_base::journal::{Entry, Past};
use okws_outer::children::Children;
use okws_outer::door::Door;
use okws_outer::keeper::Keeper;
use okws_outer::stream::Sink;
use okws_plan::event::LauncherEvent;
use std::alloc::Global;

/// What is counted of a run.
#[derive(Clone, Copy)]
pub struct Counts {
    /// Connections of the doors.
    pub connections: u64,
    /// Accepts of okd.
    pub accepts: u64,
    /// Ups of okd.
    pub launches: u64,
    /// Publications.
    pub publications: u64,
    /// Texts that were logged.
    pub logged: u64,
}

/// What a run's locks leave.
pub struct Ended<K: Keeper, S: Sink, F: Children, D: Door> {
    pub doors: Vec<D>,
    pub children: F,
    pub keepers: Vec<K>,
    pub log: S,
    pub record: Record,
    pub counts: Counts,
    pub log_failed: bool,
}

/// The counts of a run that served so many connections.
pub(crate) fn counted<K: Keeper, S: Sink>(columns: &ColumnsEnd<K, S>, connections: u64) -> Counts
    ensures { result ≡ record { connections = connections; accepts = columns.now.okd.accepts; launches = columns.now.okd.launches; publications = columns.now.pubd.publications; logged = columns.now.oklogd.logged } }
{
    Counts {
        connections,
        accepts: columns.okd.accepts,
        launches: columns.okd.launches,
        publications: columns.pubd.publications,
        logged: columns.oklogd.logged,
    }
}

/// What the locks of a run kept: those of its columns, of its cells and of its launcher, and what the launcher
/// did from its seats.
pub(crate) struct LocksEnd<K: Keeper, S: Sink> {
    pub(crate) columns: ColumnsEnd<K, S>,
    pub(crate) cells: CellsEnd,
    pub(crate) launcher: Past<Entry<LauncherEvent>>,
    pub(crate) launches: Past<Own>,
}

impl<K: Keeper, S: Sink> LocksEnd<K, S> {
    /// What is left of a run with these counts: its record, beside its objects.
    pub(crate) fn told<F: Children, D: Door>(
        self,
        alloc: Global,
        counts: Counts,
        doors: Vec<D>,
        children: F,
    ) -> Ended<K, S, F, D>
        ensures objects { (result.doors.items ≡ doors.items) × (result.keepers.items ≡ self.columns.proxies.keepers.items) × (result.log ≡ self.columns.oklogd.sink) × (result.log_failed ≡ self.columns.oklogd.failed) }
        ensures children { F.family result.children ≡ F.family children }
        ensures counts { result.counts ≡ counts }
        ensures journals { result.record ≡ record { okd = self.columns.okd.past; proxies = self.columns.proxies.pasts.items; pubd = self.columns.pubd.past; oklogd = self.columns.oklogd.past; launcher = self.launcher; cells = self.cells.events.items; sents = self.cells.sents.items; doors = []; workers = self.columns.workers.items; launches = self.launches } }
    {
        let LocksEnd {
            columns,
            cells,
            launcher,
            launches,
        } = self;
        let ColumnsEnd {
            okd,
            proxies,
            pubd,
            oklogd,
            workers,
        } = columns;
        let LogEnd {
            past: oklogd,
            logged: _,
            sink,
            failed,
        } = oklogd;
        Ended {
            doors,
            children,
            keepers: proxies.keepers,
            log: sink,
            log_failed: failed,
            counts,
            record: Record {
                okd: okd.past,
                proxies: Items::of(proxies.pasts),
                pubd: pubd.past,
                oklogd,
                launcher,
                cells: Items::of(cells.events),
                sents: Items::of(cells.sents),
                doors: Items::of(Vec::new(alloc)),
                workers: Items::of(workers),
                launches,
            },
        }
    }
}
