//! okd's column behind its lock.

ghost use Rattle.std.specs.Prelude.{◌≡◌, ℕ, ◌<◌, [], true, length, IfOk, IfSome, OnOk, OnErr, if◌then◌else◌};
ghost use Rattle.okws_base.specs.Past.{is_just};
ghost use Rattle.okws_base.specs.Turns.{AddsBy};
ghost use Rattle.okws_plan.specs.declared.event.OkdEvent.TheVariants as event;
ghost use Rattle.monitor_model.specs.Standing.{up_at_okd, okd_grant};
ghost use Rattle.monitor_model.specs.Okd.{accept_verdict};
ghost use Rattle.monitor_model.specs.Columns.{OkdLaw};
ghost use Rattle.monitor_model.specs.Script.{goes_of};
ghost use Rattle.site_columns.specs.Site.{KeepsRules, are_numbered};
ghost use Rattle.named_columns.specs.Launched.{by_entry, LaunchedBy};
ghost use Rattle.named_columns.specs.Counts.{capped, accepts, ups};
ghost use Rattle.named_columns.specs.Held.{entered};

use crate::counts::one_more;
use monitor_model::verdict::Way;
use okd_dispatch::Okd;
use okws_base::items::Items;
use okws_base::journal::{Entry, Past};
use okws_plan::event::OkdEvent;
use site_cells::named::Numbered;
use std::alloc::AllocError;
use std::marker::{Model, PhantomData};
use turn_lock::Journaled;

/// The column of okd of a run as it stands behind its lock. Each call enters at most one event, under
/// the holder's number; the launcher alone has incarnations be up or down.
pub struct SiteOkd<N: Numbered> {
    okd: Okd,
    // How many Accepts and how many Ups were entered.
    accepted: u64,
    raised: u64,
    of: PhantomData<N>,
}

impl<N: Numbered> Drop for SiteOkd<N> {
    fn drop(self) {
        let SiteOkd {
            okd,
            accepted: _,
            raised: _,
            of: _,
        } = self;
        drop(okd);
    }
}

impl<N: Numbered> Model for SiteOkd<N> {
    ghost use Rattle.okws_plan.specs.declared.event.OkdEvent.{OkdEvent};
    ghost use Rattle.named_columns.specs.Held.{Held};
    ghost use Rattle.named_columns.specs.Kept.{IsOkd};

    ghost Value = { Held OkdEvent };

    ghost view = { λ a. record { past = a.okd.past; keeps = a.okd.keeps; holder = a.okd.holder } };

    ghost invariant = { λ a. IsOkd N.site N.launcher a.okd a.accepted a.raised };
}

impl<N: Numbered> SiteOkd<N> {
    /// The column of the run, at which nothing happened yet; takes no memory.
    pub fn new(okd: Okd) -> Self
        requires site { okd.config ≡ N.site }
        requires rules { KeepsRules N.site }
        requires fresh { okd.past ≡ [] }
        ensures { result ≡ record { past = []; keeps = okd.keeps; holder = okd.holder } }
    {
        SiteOkd {
            okd,
            accepted: 0,
            raised: 0,
            of: PhantomData,
        }
    }

    /// Each Up and each Down names the launcher's number, and incarnations that came up count from 1.
    pub fn launched(&self)
        ensures launched { LaunchedBy okd_grant N.launcher self.now.past }
        ensures numbered { are_numbered self.now.past ≡ true }
    {
        let _okd = &self.okd;
    }

    /// How many requests were accepted.
    pub fn accepts(&self) -> u64
        ensures { result ≡ capped (accepts self.now.past) }
    {
        self.accepted
    }

    /// How many incarnations came up.
    pub fn ups(&self) -> u64
        ensures { result ≡ capped (ups self.now.past) }
    {
        self.raised
    }

    /// The incarnation of the service that is up.
    pub fn standing(&self, service: u16) -> Option<u32>
        ensures { result ≡ up_at_okd self.now.past service }
    {
        self.okd.standing(service)
    }

    /// Has the incarnation be up, in the place of the one that was, and keeps the place of its `down`.
    /// Incarnations count from 1. Where memory is refused, all is as before.
    pub fn up(&mut self, service: u16, incarnation: u32) -> Result<(), AllocError>
        requires launcher { self.old.holder ≡ N.launcher }
        requires service { service < length N.site.services }
        requires counted { 0 < incarnation }
        ensures ok { OnOk result (self.new ≡ entered self.old (event.Up service incarnation)) }
        ensures err { OnErr result (self.new ≡ self.old) }
        ensures adds { AddsBy by_entry self.old.holder self.old.past self.new.past }
    {
        self.okd.up(service, incarnation)?;
        self.raised = one_more(self.raised);
        Ok(())
    }

    /// Has the incarnation be up no longer. Where it isn't up, nothing changes. Takes no memory.
    pub fn down(&mut self, service: u16, incarnation: u32)
        requires launcher { self.old.holder ≡ N.launcher }
        requires service { service < length N.site.services }
        ensures down { self.new ≡ (if is_just incarnation (up_at_okd self.old.past service) then entered self.old (event.Down service incarnation) else self.old) }
        ensures adds { AddsBy by_entry self.old.holder self.old.past self.new.past }
    {
        self.okd.down(service, incarnation);
    }

    /// Where a request for the path goes: to nobody where no service owns the path, else to the owner's
    /// incarnation that is up, if one is; such a service is declared, and its incarnation is from 1 on.
    /// Where memory is refused, all is as before.
    pub fn accept(&mut self, path: Items<u8>) -> Result<Way, AllocError>
        ensures verdict { IfOk result (λ way. way ≡ accept_verdict N.site self.old.past path) }
        ensures goes { IfOk result (λ way. IfSome (goes_of way) (λ (at : ℕ × ℕ). (at.0 < length N.site.services) × (0 < at.1))) }
        ensures ok { OnOk result (self.new ≡ entered self.old (event.Accept path)) }
        ensures err { OnErr result (self.new ≡ self.old) }
        ensures adds { AddsBy by_entry self.old.holder self.old.past self.new.past }
    {
        let way = self.okd.accept(path)?;
        self.accepted = one_more(self.accepted);
        Ok(way)
    }

    /// What was entered: each entry fits the entries before it, and what was launched names the
    /// launcher's number.
    pub fn close(self) -> Past<Entry<OkdEvent>>
        ensures past { result ≡ self.past }
        ensures law { OkdLaw result }
        ensures launched { LaunchedBy okd_grant N.launcher result }
    {
        let SiteOkd {
            okd,
            accepted: _,
            raised: _,
            of: _,
        } = self;
        okd.close()
    }
}

impl<N: Numbered> Journaled for SiteOkd<N> {
    ghost use Rattle.named_columns.specs.Launched.{by_entry};

    type Entry = Entry<OkdEvent>;

    ghost journal = { λ a. a.past };

    ghost by = { by_entry };

    ghost holder = { λ a. a.holder };

    ghost label = { λ _. 0 };

    ghost held = { λ a n. record a { holder = n } };

    fn hold(&mut self, number: u16)
        ensures same { self.new.past ≡ self.old.past }
        ensures holder { self.new.holder ≡ number }
        ensures all { self.new ≡ record self.old { holder = number } }
    {
        self.okd.hold(number);
    }

    fn label(&self) -> u16 {
        0
    }

    fn holder(&self) -> u16 {
        self.okd.holder()
    }
}
