//! A service's cell.

ghost use Rattle.std.specs.Prelude.{◌≡◌, ◌≢◌, ◌≤◌, ◌<◌, ℕ, ◌+◌, [], ◌∷◌, length, option_map, IfOk, MatchOption};
ghost use Rattle.std.specs.Arc.{arc_value};
ghost use Rattle.okws_base.specs.declared.limit.TheConstants.{MOST_INCARNATIONS, MOST_PROXIES};
ghost use Rattle.monitor_model.specs.Cell.{CellLaw, incarnation, last_booted, boot_frame};
ghost use Rattle.monitor_model.specs.Sent.{AreSent};
ghost use Rattle.service_cell.specs.Ending.{EndsOtherwise, IsLast};
ghost use Rattle.service_cell.specs.Hearing.{AreHeard};
ghost use Rattle.service_cell.specs.Standing.{IsFresh, all_sent, with_open};
ghost use Rattle.service_cell.specs.Steps.{Boots, retired};

use crate::answer::Booting;
use crate::dialog::Speaking;
use crate::ending::{Events, Finished};
use crate::exchange::put_frame;
use crate::links::{hand_out, let_go};
use crate::tokens::tokens_of;
use frame_codec::frame::{Issued, ServerFrame};
use frame_codec::making;
use monitor_model::record::CellEvent;
use monitor_model::sent::Sents;
use okws_base::items::Items;
use okws_base::journal::Past;
use okws_base::limit::LONGEST_FRAME;
use okws_outer::stream::Link;
use okws_plan::configuration::Config;
use std::alloc::{AllocError, Global};
use std::marker::Model;
use std::sync::Arc;
use token_core::Seed;

/// What stands of one service: the link to its program, its incarnation, and what happened.
pub struct Cell<L: Link> {
    pub(crate) alloc: Global,
    config: Arc<Config, Global>,
    seed: Seed,
    pub(crate) service: u16,
    pub(crate) incarnation: u32,
    last_booted: u32,
    pub(crate) keeps: bool,
    pub(crate) events: Events,
    pub(crate) speaking: Option<Speaking>,
    pub(crate) wire: Option<L>,
    sent: Sents,
}

impl<L: Link + Drop> Drop for Cell<L> {
    fn drop(self) {
        let Cell {
            alloc: _,
            config,
            seed: _,
            service: _,
            incarnation: _,
            last_booted: _,
            keeps: _,
            events,
            speaking,
            wire,
            sent,
        } = self;
        drop(config);
        drop(events);
        drop(speaking);
        drop(wire);
        drop(sent);
    }
}

impl<L: Link> Model for Cell<L> {
    ghost use Rattle.std.specs.Prelude.{option_map, is_some};
    ghost use Rattle.std.specs.Arc.{arc_value};
    ghost use Rattle.service_cell.specs.Standing.{Standing};
    ghost use Rattle.service_cell.specs.Tied.{Tied, IsCell, opened};
    ghost use Rattle.service_cell.specs.Hearing.{AreHeard};

    ghost Value = { Standing };

    ghost view = { λ a. record {
      config = arc_value a.config;
      seed = a.seed;
      service = a.service;
      past = a.events.past;
      open_dialog = opened a.speaking;
      link = option_map L.wire a.wire;
      sent = a.sent;
      keeps = a.events.keeps;
    } };

    ghost invariant = { λ a. IsCell (Tied a.incarnation a.last_booted a.events a.speaking (is_some a.wire))
        (AreHeard (arc_value a.config) a.seed a.service a.events.past (opened a.speaking) (option_map L.wire a.wire) a.sent) };
}

impl<L: Link> Cell<L> {
    /// The cell of a service of a site, at which nothing happened; takes no memory. The tokens of its
    /// incarnations are those of the run's seed. What happens stays in memory where `keeps` says so;
    /// else just the last step of the open dialog does, or the end and the Reply of the last one.
    pub fn new(
        alloc: Global,
        config: Arc<Config, Global>,
        seed: Seed,
        service: u16,
        keeps: bool,
    ) -> Self
        ensures { result ≡ record { config = arc_value config; seed = seed; service = service; past = []; open_dialog = None; link = None; sent = []; keeps = keeps } }
    {
        Cell {
            alloc,
            config,
            seed,
            service,
            incarnation: 0,
            last_booted: 0,
            keeps,
            events: Events::new(alloc, keeps),
            speaking: None,
            wire: None,
            sent: Sents::new(),
        }
    }

    /// What a cell's type tells of it.
    pub fn keeps(&self)
        ensures law { CellLaw self.now.past }
    {
        let _events = &self.events;
    }

    /// The number of the service.
    pub fn service(&self) -> u16
        ensures { result ≡ self.now.service }
    {
        self.service
    }

    /// The incarnation that is there, 0 for none.
    pub fn incarnation(&self) -> u32
        ensures { result ≡ incarnation self.now.past }
    {
        self.incarnation
    }

    /// The greatest incarnation that was booted, 0 for none.
    pub fn last_booted(&self) -> u32
        ensures { result ≡ last_booted self.now.past }
    {
        self.last_booted
    }

    /// The tokens of an incarnation, as `boot` wants them.
    pub fn tokens(&self, number: u32) -> Result<Vec<Issued>, AllocError>
        requires first { 0 < number }
        requires most { number ≤ MOST_INCARNATIONS }
        requires few { length self.now.config.proxies ≤ MOST_PROXIES }
        ensures tokens { IfOk result (λ v. ServerFrame.Boot self.now.service number v.items ≡ boot_frame self.now.config self.now.seed self.now.service number) }
        ensures few { IfOk result (λ v. length v.items ≤ MOST_PROXIES) }
    {
        tokens_of(self.alloc, &self.config, &self.seed, self.service, number)
    }

    /// The dialog that ended last, where nothing happened since.
    pub fn last_dialog(&self) -> Option<&Finished>
        ensures { MatchOption result (EndsOtherwise self.now.past) (λ d. IsLast (Some d.now) self.now.past) }
    {
        self.events.last()
    }

    /// Gives the cell a fresh link and an incarnation, whose Boot frame is put first: its tokens are
    /// those of the run's seed, one for each proxy where the service has a grant, ascending.
    /// One that isn't Booted hands the link back and leaves the cell as it was.
    #[tactic(auto, using(crate::proofs::Wires::spelling_is_short))]
    pub fn boot(&mut self, link: L, number: u32, tokens: Items<Issued>) -> Booting<L>
        requires closed { self.old.open_dialog ≡ None }
        requires empty { incarnation self.old.past ≡ 0 }
        requires unlinked { self.old.link ≡ None }
        requires later { last_booted self.old.past < number }
        requires few { length tokens < 256 }
        requires tokens { ServerFrame.Boot self.old.service number tokens ≡ boot_frame self.old.config self.old.seed self.old.service number }
        requires fresh { IsFresh (L.wire link) }
        ensures { Boots L.wire link (ServerFrame.Boot self.old.service number tokens) number self.old result self.new }
    {
        let mut link = link;
        if self.events.make_room().is_err() || link.make_room(LONGEST_FRAME + 4).is_err() {
            return Booting::NoMemory(link);
        }
        let frame = making::boot(self.service, number, tokens);
        match put_frame(&mut link, &frame) {
            Ok(()) => {
                self.events.enter(CellEvent::Boot(number));
                self.incarnation = number;
                self.last_booted = number;
                match self.wire.replace(link) {
                    None => Booting::Booted,
                    Some(_) => unreachable!(),
                }
            }
            Err(_) => Booting::LinkFault(link),
        }
    }

    /// Takes the link out, and enters Retired where the cell has an incarnation. The links were given what
    /// their incarnations heard. Takes no memory.
    pub fn retire(&mut self) -> Option<L>
        requires { self.old.open_dialog ≡ None }
        ensures cell { self.new ≡ retired self.old }
        ensures link { option_map L.wire result ≡ self.old.link }
        ensures law { CellLaw self.new.past }
        ensures sent { AreSent self.old.config self.old.seed self.old.service self.old.past (all_sent (last_booted self.old.past) self.old.link self.old.sent) }
    {
        if self.incarnation != 0 {
            self.events.enter(CellEvent::Retired);
            self.incarnation = 0;
        }
        let link = self.wire.take();
        self.sent = hand_out(&self.sent, self.last_booted, &link);
        link
    }
}

impl<L: Link + Drop> Cell<L> {
    /// Retires the incarnation, where there is one, and lets the link go. Takes no memory.
    pub fn discard(&mut self)
        requires { self.old.open_dialog ≡ None }
        ensures { self.new ≡ retired self.old }
    {
        if self.incarnation != 0 {
            self.events.enter(CellEvent::Retired);
            self.incarnation = 0;
        }
        let link = self.wire.take();
        self.sent = let_go(&self.sent, self.last_booted, link);
    }

    // What happened, and what the links were given.
    fn into_pasts(self) -> (Past<CellEvent>, Sents)
        ensures past { result.0 ≡ with_open self.open_dialog self.past }
        ensures law { CellLaw result.0 }
        ensures links { result.1 ≡ all_sent (last_booted self.past) self.link self.sent }
        ensures heard { AreHeard self.config self.seed self.service self.past self.open_dialog self.link self.sent }
    {
        let Cell {
            alloc: _,
            config: _,
            seed: _,
            service: _,
            incarnation: _,
            last_booted,
            keeps: _,
            mut events,
            speaking,
            wire,
            sent,
        } = self;
        if let Some(
            Speaking {
                request: _,
                worker,
                frames: _,
                items,
            },
        ) = speaking
        {
            events.enter(CellEvent::Speaking {
                worker,
                items: items.into_journal().into_past(),
            });
        }
        (events.into_past(), let_go(&sent, last_booted, wire))
    }

    /// What happened, with an open dialog as the last event, and what the link of each incarnation was
    /// given: just what the incarnation heard.
    pub fn close(self) -> (Past<CellEvent>, Sents)
        ensures past { result.0 ≡ with_open self.open_dialog self.past }
        ensures law { CellLaw result.0 }
        ensures links { result.1 ≡ all_sent (last_booted self.past) self.link self.sent }
        ensures sent { AreSent self.config self.seed self.service result.0 result.1 }
    {
        self.into_pasts()
    }
}
