//! What was entered at a cell's lock.

ghost use Rattle.std.specs.Prelude.{◌≡◌, [], ◌∷◌};
ghost use Rattle.monitor_model.specs.declared.record.CellEvent.TheVariants as event;
ghost use Rattle.site_cells.specs.Held.{newest, with_boot, with_dialog};

use monitor_model::record::CellEvent;
use okws_base::told::{Says, Told, Whole};
use okws_outer::stream::Link;
use service_cell::answer::{Booting, Spoken};
use service_cell::cell::Cell;
use std::marker::Model;

/// What was entered at a cell's lock, the newest first: the cell's events, and a Retired also where its
/// link was taken out when it had no incarnation any more. It has no bytes: contracts alone see it.
#[derive(Drop)]
pub(crate) struct Entered {
    told: Told<CellEvent>,
}

impl Model for Entered {
    ghost use Rattle.std.specs.Prelude.{List};
    ghost use Rattle.monitor_model.specs.declared.record.CellEvent.{CellEvent};

    ghost Value = { List CellEvent };

    ghost view = { λ a. a.told.past };
}

/// The last event of a cell.
#[derive(Drop)]
struct Last<'a, L: Link> {
    cell: &'a Cell<L>,
}

impl<'a, L: Link> Says for Last<'a, L> {
    ghost use Rattle.monitor_model.specs.declared.record.CellEvent.{CellEvent};
    ghost use Rattle.site_cells.specs.Held.{newest};

    type Item = CellEvent;

    ghost item = { λ g. newest g.cell.now.past };
}

impl Entered {
    /// Nothing was entered.
    pub(crate) fn new() -> Self
        ensures { result ≡ [] }
    {
        Entered { told: Told::new() }
    }

    /// Enters a Retired.
    pub(crate) fn enter_retired(&mut self)
        ensures { self.new ≡ event.Retired ∷ self.old }
    {
        self.told = self.told.and(&Whole {
            item: CellEvent::Retired,
        });
    }

    /// Enters the Boot of an incarnation, where it was booted.
    pub(crate) fn enter_boot<L>(&mut self, booting: &Booting<L>, number: u32)
        ensures { self.new ≡ with_boot booting.now number self.old }
    {
        if let Booting::Booted = booting {
            self.told = self.told.and(&Whole {
                item: CellEvent::Boot(number),
            });
        }
    }

    /// Enters the event that a dialog made, which is the cell's last one.
    pub(crate) fn enter_dialog<L: Link>(&mut self, spoken: Spoken, cell: &Cell<L>)
        ensures { self.new ≡ with_dialog spoken (newest cell.now.past) self.old }
    {
        match spoken {
            Spoken::NoMemory => {}
            Spoken::Reply
            | Spoken::Crashed(_)
            | Spoken::Missed { .. }
            | Spoken::Superseded { .. } => {
                self.told = self.told.and(&Last { cell });
            }
        }
    }
}
