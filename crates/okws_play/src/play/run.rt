//! The state of a run: its columns, its cells and its requests.

ghost use Rattle.std.specs.Prelude.{◌≡◌, ℕ, ◌<◌, IfOk, length, slice_get};
ghost use Rattle.std.specs.Arc.{arc_value};
ghost use Rattle.okws_base.specs.Runs.{Each};
ghost use Rattle.okws_plan.specs.Rules.{QueriesKeepRules};
ghost use Rattle.okws_plan.specs.Sound.{IsSound};
ghost use Rattle.monitor_model.specs.Merged.{cell_past};
ghost use Rattle.monitor_model.specs.Played.{IsFaultless, record_of};
ghost use Rattle.monitor_model.specs.Script.{request_method};
ghost use Rattle.monitor_model.specs.Sent.{AreSent, IsToldOf, sents_of};
ghost use Rattle.monitor_model.specs.Stage.{stand, first_stage};
ghost use Rattle.okws_play.specs.Cells.{IsSeat, stand_by};

use crate::play::cells::{cells_of, close_cells};
use crate::play::request::{Request, method_name};
use monitor_model::record::Record;
use okws_base::items::Items;
use okws_base::pairing::both;
use okws_outer::memory::passing::PassingLink;
use okws_plan::configuration::Config;
use service_cell::cell::Cell;
use site_columns::columns::SiteColumns;
use std::alloc::{AllocError, Global};
use std::marker::Model;
use std::sync::Arc;
use token_core::Seed;

/// Whether a run keeps what it leaves in memory. No code reads it, so it stands in contracts alone.
pub(crate) const KEEPS: bool = false;

/// A run of a script in one thread, as far as it has come.
pub struct Play {
    pub(crate) alloc: Global,
    pub(crate) config: Arc<Config, Global>,
    pub(crate) seed: Seed,
    pub(crate) columns: SiteColumns,
    pub(crate) cells: Vec<Cell<PassingLink>>,
    pub(crate) requests: Vec<Request>,
}

impl Drop for Play {
    fn drop(self) {
        let Play {
            alloc: _,
            config,
            seed: _,
            columns,
            cells,
            requests,
        } = self;
        drop(config);
        drop(columns);
        drop(cells);
        drop(requests);
    }
}

impl Model for Play {
    ghost use Rattle.std.specs.Arc.{arc_value};
    ghost use Rattle.okws_play.specs.Cells.{stands_by};
    ghost use Rattle.okws_play.specs.Run.{Run, IsRun};

    ghost Value = { Run };

    ghost view = { λ a. record { config = arc_value a.config; seed = a.seed; stage = record { seen = a.columns.seen; stands = stands_by a.cells.items; requests = a.requests.items } } };

    ghost invariant = { λ a. IsRun (arc_value a.config) a.seed a.columns a.cells.items a.requests.items };
}

impl Play {
    /// The run before its first line.
    pub fn new(alloc: Global, config: Arc<Config, Global>, seed: Seed) -> Result<Self, AllocError>
        requires sound { IsSound (arc_value config) }
        requires rules { (p : ℕ) → QueriesKeepRules (arc_value config) p }
        ensures { IfOk result (λ run. run ≡ record { config = arc_value config; seed = seed; stage = first_stage (arc_value config) }) }
    {
        let columns = SiteColumns::new(alloc, &config, seed, KEEPS)?;
        let cells = cells_of(alloc, &config, seed)?;
        Ok(Play {
            alloc,
            config,
            seed,
            columns,
            cells,
            requests: Vec::new(alloc),
        })
    }

    /// What the run leaves.
    pub fn into_record(self) -> Result<Record, AllocError>
        ensures record { IfOk result (λ r. r ≡ record (record_of self.stage) { sents = r.sents }) }
        ensures sent { IfOk result (λ r. (s : ℕ) → s < length self.config.services → AreSent self.config self.seed s (cell_past r s) (sents_of r s)) }
        ensures told { IfOk result (λ r. (s : ℕ) → Each IsToldOf (sents_of r s)) }
        ensures many { IfOk result (λ r. length r.sents ≡ length self.config.services) }
        ensures faultless { IsFaultless self.stage }
    {
        let Play {
            alloc,
            config: _,
            seed: _,
            columns,
            cells,
            requests: _,
        } = self;
        let record = columns.into_record()?;
        let (mut whole, left) = both(record, close_cells(alloc, cells))?;
        whole.cells = Items::of(left.pasts);
        whole.sents = Items::of(left.sents);
        Ok(whole)
    }

    // The method of a request, as a response is written for it.
    pub(crate) fn method_of(&self, request: u32) -> &'static [u8]
        ensures { result.now ≡ request_method (slice_get self.now.stage.requests request) }
    {
        match self.requests.get(request as usize) {
            None => &[],
            Some(asked) => method_name(asked.method()),
        }
    }

    /// The cell of a service.
    pub(crate) fn cell(&self, service: u16) -> &Cell<PassingLink>
        requires { service < length self.now.config.services }
        ensures seat { IsSeat self.now.config self.now.seed service result.now }
        ensures stand { stand_by result.now ≡ stand self.now.stage service }
    {
        &self.cells[service as usize]
    }
}
