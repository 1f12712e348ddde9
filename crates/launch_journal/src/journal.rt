//! The journal, with what is kept of each service.

ghost use Rattle.std.specs.Prelude.{◌≡◌, ◌≤◌, ◌<◌, ◌+◌, ◌-◌, ◌^◌, [], IfOk, OnOk, length, true};
ghost use Rattle.std.specs.Arc.{arc_value};
ghost use Rattle.okws_base.specs.declared.limit.TheConstants.{MOST_INCARNATIONS};
ghost use Rattle.okws_plan.specs.declared.event.LauncherEvent.TheVariants as event;
ghost use Rattle.monitor_model.specs.Launcher.{LauncherLaw, begun, tries, is_dead, may_begin, may_give_up};
ghost use Rattle.launch_journal.specs.Launches.{Allows, entered, given_up};
ghost use Rattle.launch_journal.specs.Tallies.{fallen, tally_of};

use crate::next::Next;
use okws_base::journal::{Entry, Journal, Past};
use okws_base::limit::MOST_INCARNATIONS;
use okws_plan::configuration::Config;
use okws_plan::event::LauncherEvent;
use std::alloc::{AllocError, Global};
use std::marker::Model;
use std::sync::Arc;
use turn_lock::Journaled;

// What is kept of a service: the greatest incarnation that was begun; how many were tried since it was
// asked for last; whether the greatest has fallen since it began or was asked for; after how many tries it
// was given up, where it was.
#[derive(Clone, Copy)]
pub struct Tally {
    greatest: u32,
    tries: u32,
    fell: bool,
    given_up: Option<u32>,
}

const BLANK: Tally = Tally {
    greatest: 0,
    tries: 0,
    fell: false,
    given_up: None,
};

/// The launcher's journal of a site, which keeps the launcher's law. Each call enters at most one event,
/// under the holder's number, and takes no memory: the room for it is made before.
pub struct LaunchJournal {
    config: Arc<Config, Global>,
    journal: Journal<Entry<LauncherEvent>>,
    tallies: Vec<Tally>,
    holder: u16,
}

impl Drop for LaunchJournal {
    fn drop(self) {
        let LaunchJournal {
            config,
            journal,
            tallies,
            holder: _,
        } = self;
        drop(config);
        drop(journal);
        drop(tallies);
    }
}

impl Model for LaunchJournal {
    ghost use Rattle.std.specs.Arc.{arc_value};
    ghost use Rattle.launch_journal.specs.Launches.{Launches};
    ghost use Rattle.launch_journal.specs.Tallies.{Tallied};

    ghost Value = { Launches };

    ghost view = { λ a. record {
      config = arc_value a.config;
      past = a.journal.past;
      room = a.journal.room;
      keeps = a.journal.keeps;
      holder = a.holder;
    } };

    ghost invariant = { λ a. Tallied (arc_value a.config) a.journal.past a.tallies.items };
}

impl LaunchJournal {
    /// The empty journal of a site, which keeps its entries in memory or not. New entries name number 0
    /// until `hold`.
    pub fn new(alloc: Global, config: Arc<Config, Global>, keeps: bool) -> Result<Self, AllocError>
        ensures { IfOk result (λ l. l ≡ record { config = arc_value config; past = []; room = l.room; keeps = keeps; holder = 0 }) }
    {
        let tallies = vec![in alloc; BLANK; config.services.as_slice().len()]?;
        Ok(LaunchJournal {
            config,
            journal: Journal::new(alloc, keeps),
            tallies,
            holder: 0,
        })
    }

    /// Makes room for n more entries. Where memory is refused, the entries are as before.
    pub fn make_room(&mut self, n: usize) -> Result<(), AllocError>
        ensures same { self.new ≡ record self.old { room = self.new.room } }
        ensures ok { OnOk result (n ≤ self.new.room) }
        ensures room { self.old.room ≤ self.new.room }
    {
        self.journal.make_room(n)
    }

    // What is kept of the service.
    fn tally(&self, service: u16) -> Tally
        ensures { result ≡ tally_of self.now.past service }
    {
        self.tallies.get(service as usize).copied().unwrap_or(BLANK)
    }

    /// The greatest incarnation of the service that was begun, 0 for none.
    pub fn greatest(&self, service: u16) -> u32
        ensures is { result ≡ begun self.now.past service }
        ensures most { result ≤ MOST_INCARNATIONS }
    {
        let _tallies = &self.tallies;
        self.tally(service).greatest
    }

    /// After how many tries the service was given up, where nobody has asked for it since.
    pub fn given_up(&self, service: u16) -> Option<u32>
        ensures { result ≡ given_up self.now.past service }
    {
        self.tally(service).given_up
    }

    /// Whether the service may be given up.
    pub fn may_give_up(&self, service: u16) -> bool
        ensures { result ≡ may_give_up self.now.config self.now.past service (tries self.now.past service) }
    {
        let tally = self.tally(service);
        u32::from(self.config.retry) <= tally.tries && tally.fell
    }

    /// What may come next of the service. One whose last incarnation was begun can't begin another.
    pub fn next(&self, service: u16) -> Next
        ensures { Allows self.now.config self.now.past service result }
    {
        let _tallies = &self.tallies;
        if let Some(tries) = self.given_up(service) {
            return Next::Dead(tries);
        }
        if self.may_give_up(service) {
            return Next::GiveUp;
        }
        if self.greatest(service) == MOST_INCARNATIONS {
            return Next::Spent;
        }
        Next::Begin
    }

    /// Begins the next incarnation of the service, and gives its number.
    pub fn begin(&mut self, service: u16) -> u32
        requires service { service < length self.old.config.services }
        requires more { begun self.old.past service < MOST_INCARNATIONS }
        requires may { may_begin self.old.config self.old.past service (begun self.old.past service + 1) ≡ true }
        requires room { 0 < self.old.room }
        ensures next { result ≡ begun self.old.past service + 1 }
        ensures entered { self.new ≡ entered self.old (event.Begun service result) }
    {
        let tally = &mut self.tallies[service as usize];
        let incarnation = tally.greatest + 1;
        tally.greatest = incarnation;
        tally.fell = false;
        self.journal.enter(Entry {
            worker: self.holder,
            event: LauncherEvent::Begun {
                service,
                incarnation,
            },
        });
        incarnation
    }

    /// Enters that the greatest incarnation of the service didn't start.
    pub fn failed(&mut self, service: u16, incarnation: u32)
        requires service { service < length self.old.config.services }
        requires begun { 0 < incarnation }
        requires greatest { incarnation ≡ begun self.old.past service }
        requires room { 0 < self.old.room }
        ensures { self.new ≡ entered self.old (event.Failed service incarnation) }
    {
        fall(&mut self.tallies[service as usize]);
        self.journal.enter(Entry {
            worker: self.holder,
            event: LauncherEvent::Failed {
                service,
                incarnation,
            },
        });
    }

    /// Enters that an incarnation of the service has crashed, which was begun.
    pub fn crashed(&mut self, service: u16, incarnation: u32)
        requires service { service < length self.old.config.services }
        requires counted { 0 < incarnation }
        requires begun { incarnation ≤ begun self.old.past service }
        requires room { 0 < self.old.room }
        ensures { self.new ≡ entered self.old (event.Crashed service incarnation) }
    {
        let tally = &mut self.tallies[service as usize];
        if tally.greatest == incarnation {
            fall(tally);
        }
        self.journal.enter(Entry {
            worker: self.holder,
            event: LauncherEvent::Crashed {
                service,
                incarnation,
            },
        });
    }

    /// Enters that the operator asked for the service, whose tries count anew from here.
    pub fn asked(&mut self, service: u16)
        requires service { service < length self.old.config.services }
        requires room { 0 < self.old.room }
        ensures { self.new ≡ entered self.old (event.Asked service) }
    {
        let tally = &mut self.tallies[service as usize];
        tally.tries = 0;
        tally.fell = false;
        tally.given_up = None;
        self.journal.enter(Entry {
            worker: self.holder,
            event: LauncherEvent::Asked { service },
        });
    }

    /// Gives the service up, and tells after how many tries.
    pub fn give_up(&mut self, service: u16) -> u32
        requires service { service < length self.old.config.services }
        requires may { may_give_up self.old.config self.old.past service (tries self.old.past service) ≡ true }
        requires room { 0 < self.old.room }
        ensures tries { result ≡ tries self.old.past service }
        ensures entered { self.new ≡ entered self.old (event.Dead service result) }
    {
        let tally = &mut self.tallies[service as usize];
        let tries = tally.tries;
        tally.given_up = Some(tries);
        self.journal.enter(Entry {
            worker: self.holder,
            event: LauncherEvent::Dead { service, tries },
        });
        tries
    }

    /// What the journal's type tells of its entries: each fits those before it.
    pub fn keeps(&self)
        ensures { LauncherLaw self.now.config self.now.past }
    {
        let _tallies = &self.tallies;
    }

    /// What was entered: each entry fits those before it.
    pub fn close(self) -> Past<Entry<LauncherEvent>>
        ensures past { result ≡ self.past }
        ensures law { LauncherLaw self.config result }
    {
        let LaunchJournal {
            config: _,
            journal,
            tallies: _,
            holder: _,
        } = self;
        journal.into_past()
    }
}

// The greatest incarnation has fallen, which counts as one try however often it is told.
fn fall(tally: &mut Tally)
    requires { tally.old.tries < 2 ^ 32 - 1 }
    ensures { tally.new ≡ fallen tally.old }
{
    if !tally.fell {
        tally.tries += 1;
    }
    tally.fell = true;
}

impl Journaled for LaunchJournal {
    type Entry = Entry<LauncherEvent>;

    ghost journal = { λ a. a.past };

    ghost by = { λ e. e.worker };

    ghost holder = { λ a. a.holder };

    ghost label = { λ _. 0 };

    ghost held = { λ a n. record a { holder = n } };

    fn hold(&mut self, number: u16)
        ensures same { self.new.past ≡ self.old.past }
        ensures holder { self.new.holder ≡ number }
        ensures all { self.new ≡ record self.old { holder = number } }
    {
        self.holder = number;
    }

    fn label(&self) -> u16 {
        0
    }

    fn holder(&self) -> u16 {
        self.holder
    }
}
