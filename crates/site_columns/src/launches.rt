//! The launcher's journal.

ghost use Rattle.std.specs.Prelude.{◌≡◌, ◌<◌, ◌≤◌, ◌+◌, [], IfOk, OnOk, OnErr};
ghost use Rattle.okws_base.specs.declared.limit.TheConstants.{MOST_INCARNATIONS};
ghost use Rattle.okws_plan.specs.declared.event.LauncherEvent.TheVariants as event;
ghost use Rattle.monitor_model.specs.Launcher.{begun};
ghost use Rattle.site_columns.specs.Launches.{launched};

use okws_base::journal::{Entry, Journal, Past};
use okws_plan::event::LauncherEvent;
use std::alloc::{AllocError, Global};
use std::marker::Model;

/// The launcher's journal, with the greatest incarnation of each service that was begun.
pub struct Launches {
    journal: Journal<Entry<LauncherEvent>>,
    greatest: Vec<u32>,
    holder: u16,
}

impl Drop for Launches {
    fn drop(self) {
        let Launches {
            journal,
            greatest,
            holder: _,
        } = self;
        drop(journal);
        drop(greatest);
    }
}

impl Model for Launches {
    ghost use Rattle.std.specs.Prelude.{length};
    ghost use Rattle.site_columns.specs.Launches.{Launched, IsCounted};

    ghost Value = { Launched };

    ghost view = { λ a. record { services = length a.greatest.items; past = a.journal.past; holder = a.holder } };

    ghost invariant = { λ a. IsCounted (length a.greatest.items) a.journal.past a.greatest.items };
}

impl Launches {
    /// The journal of so many services, of which none has begun, which keeps its entries in memory or
    /// not. New entries name number 0 until `hold`.
    pub fn new(alloc: Global, services: usize, keeps: bool) -> Result<Self, AllocError>
        ensures { IfOk result (λ l. l ≡ record { services = services; past = []; holder = 0 }) }
    {
        Ok(Launches {
            journal: Journal::new(alloc, keeps),
            greatest: vec![in alloc; 0; services]?,
            holder: 0,
        })
    }

    /// Has new entries name this number.
    pub fn hold(&mut self, number: u16)
        ensures { self.new ≡ record self.old { holder = number } }
    {
        self.holder = number;
    }

    /// The greatest incarnation of the service that was begun, 0 for none.
    pub fn greatest(&self, service: u16) -> u32
        ensures is { result ≡ begun self.now.past service }
        ensures most { result ≤ MOST_INCARNATIONS }
    {
        self.greatest.get(service as usize).copied().unwrap_or(0)
    }

    /// Begins the next incarnation of the service. Where memory is refused, all is as before.
    pub fn begin(&mut self, service: u16) -> Result<(), AllocError>
        requires service { service < self.old.services }
        requires more { begun self.old.past service < MOST_INCARNATIONS }
        ensures ok { OnOk result (self.new ≡ launched self.old (event.Begun service (begun self.old.past service + 1))) }
        ensures err { OnErr result (self.new ≡ self.old) }
    {
        self.journal.make_room(1)?;
        let incarnation = self.greatest[service as usize] + 1;
        self.greatest[service as usize] = incarnation;
        self.journal.enter(Entry {
            worker: self.holder,
            event: LauncherEvent::Begun {
                service,
                incarnation,
            },
        });
        Ok(())
    }

    /// What was entered.
    pub fn into_past(self) -> Past<Entry<LauncherEvent>>
        ensures { result ≡ self.past }
    {
        let Launches {
            journal,
            greatest: _,
            holder: _,
        } = self;
        journal.into_past()
    }
}
