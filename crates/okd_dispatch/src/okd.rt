//! The column of the dispatcher.

ghost use Rattle.std.specs.Prelude.{◌≡◌, ◌≤◌, ◌<◌, ◌^◌, ◌∷◌, [], IfOk, OnOk, OnErr, Some, None, if◌then◌else◌, length};
ghost use Rattle.okws_base.specs.Past.{is_just};
ghost use Rattle.okws_base.specs.declared.limit.TheConstants.{MOST_SERVICES};
ghost use Rattle.okws_plan.specs.Configuration.{owner};
ghost use Rattle.okws_plan.specs.declared.event.OkdEvent.TheVariants as event;
ghost use Rattle.monitor_model.specs.Standing.{up_at_okd};
ghost use Rattle.monitor_model.specs.Okd.{accept_verdict};
ghost use Rattle.monitor_model.specs.Columns.{OkdLaw};
ghost use Rattle.std.specs.Arc.{arc_value};
ghost use Rattle.okd_dispatch.specs.Seen.{entered};
ghost use Rattle.okd_dispatch.specs.Tied.{places};

use crate::owner::longest_owner;
use monitor_model::verdict::Way;
use okws_base::items::Items;
use okws_base::journal::{Entry, Journal, Past};
use okws_plan::configuration::Config;
use okws_plan::event::OkdEvent;
use std::alloc::{AllocError, Global};
use std::marker::Model;
use std::sync::Arc;
use turn_lock::Journaled;

/// The column of okd, which tells where requests go: a value that stands for its journal.
pub struct Okd {
    config: Arc<Config, Global>,
    journal: Journal<Entry<OkdEvent>>,
    // The incarnation of each service that is up.
    ups: Vec<Option<u32>>,
    holder: u16,
}

impl Drop for Okd {
    fn drop(self) {
        let Okd {
            config,
            journal,
            ups,
            holder: _,
        } = self;
        drop(config);
        drop(journal);
        drop(ups);
    }
}

impl Model for Okd {
    ghost use Rattle.std.specs.Arc.{arc_value};
    ghost use Rattle.okd_dispatch.specs.Seen.{Seen};
    ghost use Rattle.okd_dispatch.specs.Tied.{Tied};

    ghost Value = { Seen };

    ghost view = { λ a. record { config = arc_value a.config; past = a.journal.past; keeps = a.journal.keeps; holder = a.holder } };

    ghost invariant = { λ a. Tied (arc_value a.config) a.journal.past a.journal.room a.ups.items };
}

impl Okd {
    /// The column of a site of at most 64 services, with an empty journal, which keeps its entries in
    /// memory or not. New entries name number 0 until `hold`.
    pub fn new(alloc: Global, config: Arc<Config, Global>, keeps: bool) -> Result<Self, AllocError>
        requires { length (arc_value config).services ≤ MOST_SERVICES }
        ensures { IfOk result (λ o. o ≡ record { config = arc_value config; past = []; keeps = keeps; holder = 0 }) }
    {
        let ups = vec![in alloc; None; config.services.as_slice().len()]?;
        Ok(Okd {
            config,
            journal: Journal::new(alloc, keeps),
            ups,
            holder: 0,
        })
    }

    /// The incarnation of the service that is up.
    pub fn standing(&self, service: u16) -> Option<u32>
        ensures { result ≡ up_at_okd self.now.past service }
    {
        self.ups.get(service as usize).copied().unwrap_or(None)
    }

    /// Has the incarnation be up, in the place of the one that was, and keeps the place of its `down`.
    /// Incarnations count from 1. Where memory is refused, all is as before.
    pub fn up(&mut self, service: u16, incarnation: u32) -> Result<(), AllocError>
        requires service { service < length self.old.config.services }
        requires counted { 0 < incarnation }
        ensures ok { OnOk result (self.new ≡ entered self.old (event.Up service incarnation)) }
        ensures err { OnErr result (self.new ≡ self.old) }
    {
        self.journal.make_room(places_of(&self.ups) + 2)?;
        self.ups[service as usize] = Some(incarnation);
        self.journal.enter(Entry {
            worker: self.holder,
            event: OkdEvent::Up {
                service,
                incarnation,
            },
        });
        Ok(())
    }

    /// Has the incarnation be up no longer. Where it isn't up, nothing changes. Takes no memory.
    pub fn down(&mut self, service: u16, incarnation: u32)
        requires { service < length self.old.config.services }
        ensures { self.new ≡ (if is_just incarnation (up_at_okd self.old.past service) then entered self.old (event.Down service incarnation) else self.old) }
    {
        if self.ups[service as usize] == Some(incarnation) {
            self.ups[service as usize] = None;
            self.journal.enter(Entry {
                worker: self.holder,
                event: OkdEvent::Down {
                    service,
                    incarnation,
                },
            });
        }
    }

    /// The service of the longest configured path that owns this one.
    pub fn owner(&self, path: &[u8]) -> Option<u16>
        ensures { result ≡ owner self.now.config path.now }
    {
        match longest_owner(self.config.paths.as_slice(), path) {
            None => None,
            Some(owned) => Some(owned.service),
        }
    }

    fn way(&self, path: &[u8]) -> Way
        ensures { result ≡ accept_verdict self.now.config self.now.past path.now }
    {
        let Some(service) = self.owner(path) else {
            return Way::NotOwned;
        };
        match self.standing(service) {
            None => Way::Down(service),
            Some(incarnation) => Way::To {
                service,
                incarnation,
            },
        }
    }

    /// Where a request for the path goes: to nobody where no service owns the path, else to the owner's
    /// incarnation that is up, if one is. Where memory is refused, all is as before.
    pub fn accept(&mut self, path: Items<u8>) -> Result<Way, AllocError>
        ensures verdict { IfOk result (λ way. way ≡ accept_verdict self.old.config self.old.past path) }
        ensures ok { OnOk result (self.new ≡ entered self.old (event.Accept path)) }
        ensures err { OnErr result (self.new ≡ self.old) }
    {
        self.journal.make_room(places_of(&self.ups) + 1)?;
        let way = self.way(path.as_slice());
        self.journal.enter(Entry {
            worker: self.holder,
            event: OkdEvent::Accept(path),
        });
        Ok(way)
    }

    /// What was entered: each entry fits the entries before it.
    pub fn close(self) -> Past<Entry<OkdEvent>>
        ensures past { result ≡ self.past }
        ensures law { OkdLaw result }
    {
        let Okd {
            config: _,
            journal,
            ups: _,
            holder: _,
        } = self;
        journal.into_past()
    }
}

// How many of these services are up.
fn places_of(ups: &[Option<u32>]) -> usize
    requires { length ups.now < 2 ^ 16 }
    ensures count { result ≡ places ups.now }
    ensures few { result ≤ length ups.now }
{
    ups.iter().filter(|up| up.is_some()).count()
}

impl Journaled for Okd {
    type Entry = Entry<OkdEvent>;

    ghost journal = { λ a. a.past };

    ghost by = { λ e. e.worker };

    ghost holder = { λ a. a.holder };

    ghost label = { λ _. 0 };

    ghost held = { λ a n. record a { holder = n } };

    fn hold(&mut self, number: u16)
        ensures same { self.new.past ≡ self.old.past }
        ensures holder { self.new.holder ≡ number }
        ensures all { self.new ≡ record self.old { holder = number } }
    {
        self.holder = number;
    }

    fn label(&self) -> u16 {
        0
    }

    fn holder(&self) -> u16 {
        self.holder
    }
}
