//! The cells of a run, one for each service, over links in memory.

ghost use Rattle.std.specs.Prelude.{◌≡◌, ◌≤◌, ◌<◌, ℕ, List, IfOk, OnOk, OnErr, None, length, replicate};
ghost use Rattle.std.specs.Arc.{arc_value};
ghost use Rattle.okws_base.specs.declared.limit.TheConstants.{MOST_INCARNATIONS, MOST_PROXIES, MOST_SERVICES};
ghost use Rattle.monitor_model.specs.Cell.{incarnation, last_booted};
ghost use Rattle.monitor_model.specs.Stage.{empty_stand};
ghost use Rattle.okws_plan.specs.declared.configuration.Config.{Config};
ghost use Rattle.okws_play.specs.Cells.{AreLeft, AreSeats, IsSeat, booted_stand, stand_by, stands_by};

use crate::play::run::KEEPS;
use monitor_model::record::CellEvent;
use monitor_model::sent::Sents;
use okws_base::items::Items;
use okws_base::journal::Past;
use okws_outer::memory::passing::PassingLink;
use okws_plan::configuration::Config;
use service_cell::answer::Booting;
use service_cell::cell::Cell;
use site_columns::opening::shared;
use std::alloc::{AllocError, Global};
use std::sync::Arc;
use token_core::Seed;

/// The cells of a site's services, at which nothing happened. Their tokens are those of the seed.
pub fn cells_of(
    alloc: Global,
    config: &Arc<Config, Global>,
    seed: Seed,
) -> Result<Vec<Cell<PassingLink>>, AllocError>
    requires { length (arc_value config.now).services ≤ MOST_SERVICES }
    ensures seats { IfOk result (λ v. AreSeats (arc_value config.now) seed 0 v.items) }
    ensures stands { IfOk result (λ v. stands_by v.items ≡ replicate (length (arc_value config.now).services) empty_stand) }
{
    let mut cells = Vec::new(alloc);
    for i in 0..config.services.as_slice().len() {
        cells.push(Cell::new(alloc, shared(config)?, seed, i as u16, KEEPS))?;
    }
    Ok(cells)
}

/// What the cells of a run leave, those of service 0 first: what happened at each, and what the links of its
/// incarnations were given.
#[derive(Drop)]
pub struct CellsLeft {
    pub pasts: Vec<Past<CellEvent>>,
    pub sents: Vec<Sents>,
}

/// Closes the cells of a run.
pub fn close_cells(alloc: Global, cells: Vec<Cell<PassingLink>>) -> Result<CellsLeft, AllocError>
    ensures { IfOk result (λ left. (C : Config) (seed : List ℕ) → AreSeats C seed 0 cells.items → AreLeft C seed (stands_by cells.items) left.pasts.items left.sents.items) }
{
    let mut pasts = Vec::new(alloc);
    let mut sents = Vec::new(alloc);
    for cell in cells {
        let (past, sent) = cell.close();
        pasts.push(past)?;
        sents.push(sent)?;
    }
    Ok(CellsLeft { pasts, sents })
}

/// A fresh link of an empty cell gets Boot of the incarnation, with one token for each proxy where the
/// service has a grant. Where memory is refused, nothing happened at the cell.
pub fn boot_cell(alloc: Global, cell: &mut Cell<PassingLink>, number: u32) -> Result<(), AllocError>
    requires seat { IsSeat cell.old.config cell.old.seed cell.old.service cell.old }
    requires closed { cell.old.open_dialog ≡ None }
    requires empty { incarnation cell.old.past ≡ 0 }
    requires later { last_booted cell.old.past < number }
    requires most { number ≤ MOST_INCARNATIONS }
    requires few { length cell.old.config.proxies ≤ MOST_PROXIES }
    ensures seat { IsSeat cell.old.config cell.old.seed cell.old.service cell.new }
    ensures ok { OnOk result (stand_by cell.new ≡ booted_stand (stand_by cell.old) number) }
    ensures err { OnErr result (cell.new.past ≡ cell.old.past) }
{
    let tokens = cell.tokens(number)?;
    // A cell that crashed has its link still.
    cell.discard();
    match cell.boot(PassingLink::new(alloc), number, Items::of(tokens)) {
        Booting::Booted => Ok(()),
        Booting::NoMemory(_) => Err(AllocError),
        Booting::LinkFault(_) => unreachable!(),
    }
}
