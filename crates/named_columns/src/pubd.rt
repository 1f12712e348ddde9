//! pubd's column behind its lock.

ghost use Rattle.std.specs.Prelude.{◌≡◌, ◌≤◌, ◌<◌, [], IfOk, OnOk, OnErr, if◌then◌else◌, length};
ghost use Rattle.okws_base.specs.Past.{standing_by, last_by};
ghost use Rattle.okws_base.specs.Turns.{AddsBy};
ghost use Rattle.okws_base.specs.declared.limit.TheConstants.{MOST_EDITIONS, LONGEST_TEMPLATE};
ghost use Rattle.okws_plan.specs.declared.event.PubdEvent.TheVariants as event;
ghost use Rattle.monitor_model.specs.Standing.{pubd_grant, live_at_pubd};
ghost use Rattle.monitor_model.specs.Pubd.{edition, drain_verdict, get_verdict};
ghost use Rattle.monitor_model.specs.Columns.{PubdLaw};
ghost use Rattle.monitor_model.specs.Installed.{EachFollows, HasStood, PubdFollows};
ghost use Rattle.okws_base.specs.Runs.{Each};
ghost use Rattle.service_cell.specs.Asking.{IsShortPush, IsShortGot};
ghost use Rattle.site_columns.specs.Site.{KeepsRules};
ghost use Rattle.named_columns.specs.Launched.{by_entry, LaunchedBy};
ghost use Rattle.named_columns.specs.Counts.{capped, publications};
ghost use Rattle.named_columns.specs.Held.{entered};

use crate::counts::one_more;
use monitor_model::verdict::{Got, Push};
use okws_base::items::Items;
use okws_base::journal::{Entry, Past};
use okws_plan::event::PubdEvent;
use pubd_core::Pubd;
use site_cells::named::Numbered;
use std::alloc::AllocError;
use std::marker::{Model, PhantomData};
use turn_lock::Journaled;

/// The template column of a run as it stands behind its lock. Each call enters at most one event, under
/// the holder's number; the launcher alone installs and revokes.
pub struct SitePubd<N: Numbered> {
    pubd: Pubd,
    // How many editions were published.
    published: u64,
    of: PhantomData<N>,
}

impl<N: Numbered> Drop for SitePubd<N> {
    fn drop(self) {
        let SitePubd {
            pubd,
            published: _,
            of: _,
        } = self;
        drop(pubd);
    }
}

impl<N: Numbered> Model for SitePubd<N> {
    ghost use Rattle.okws_plan.specs.declared.event.PubdEvent.{PubdEvent};
    ghost use Rattle.named_columns.specs.Held.{Held};
    ghost use Rattle.named_columns.specs.Kept.{IsPubd};

    ghost Value = { Held PubdEvent };

    ghost view = { λ a. record { past = a.pubd.past; keeps = a.pubd.keeps; holder = a.pubd.holder } };

    ghost invariant = { λ a. IsPubd N.site N.launcher a.pubd a.published };
}

impl<N: Numbered> SitePubd<N> {
    /// The column of the run, at which nothing happened yet; takes no memory.
    pub fn new(pubd: Pubd) -> Self
        requires site { pubd.config ≡ N.site }
        requires rules { KeepsRules N.site }
        requires fresh { pubd.past ≡ [] }
        ensures { result ≡ record { past = []; keeps = pubd.keeps; holder = pubd.holder } }
    {
        SitePubd {
            pubd,
            published: 0,
            of: PhantomData,
        }
    }

    /// What was installed or revoked names the launcher's number.
    pub fn launched(&self)
        ensures { LaunchedBy pubd_grant N.launcher self.now.past }
    {
        let _pubd = &self.pubd;
    }

    /// How many editions were published.
    pub fn publications(&self) -> u64
        ensures { result ≡ capped (publications self.now.past) }
    {
        self.published
    }

    /// The incarnation of the service that stands.
    pub fn standing(&self, service: u16) -> Option<u32>
        requires { service < length N.site.services }
        ensures { result ≡ standing_by pubd_grant self.now.past service }
    {
        self.pubd.standing(service)
    }

    /// The greatest incarnation of the service that was installed, 0 for none.
    pub fn last(&self, service: u16) -> u32
        requires { service < length N.site.services }
        ensures { result ≡ last_by pubd_grant self.now.past service }
    {
        self.pubd.last(service)
    }

    /// Has the incarnation stand, and keeps the place of its revocation. Where memory is refused, all
    /// is as before.
    pub fn install(&mut self, service: u16, incarnation: u32) -> Result<(), AllocError>
        requires launcher { self.old.holder ≡ N.launcher }
        requires service { service < length N.site.services }
        requires later { last_by pubd_grant self.old.past service < incarnation }
        ensures ok { OnOk result (self.new ≡ entered self.old (event.Install service incarnation)) }
        ensures err { OnErr result (self.new ≡ self.old) }
        ensures adds { AddsBy by_entry self.old.holder self.old.past self.new.past }
    {
        self.pubd.install(service, incarnation)
    }

    /// Has the incarnation stand no longer. Where it doesn't stand, nothing changes. Takes no memory.
    pub fn revoke(&mut self, service: u16, incarnation: u32)
        requires launcher { self.old.holder ≡ N.launcher }
        requires service { service < length N.site.services }
        ensures revoked { self.new ≡ (if live_at_pubd self.old.past service incarnation then entered self.old (event.Revoke service incarnation) else self.old) }
        ensures adds { AddsBy by_entry self.old.holder self.old.past self.new.past }
    {
        self.pubd.revoke(service, incarnation);
    }

    /// Publishes an edition of the template of this number. Where memory is refused, all is as before.
    pub fn publish_at(&mut self, template: u16, content: Items<u8>) -> Result<(), AllocError>
        requires template { template < length N.site.templates }
        requires more { edition self.old.past template < MOST_EDITIONS }
        requires short { length content ≤ LONGEST_TEMPLATE }
        ensures ok { OnOk result (self.new ≡ entered self.old (event.Publish template content)) }
        ensures err { OnErr result (self.new ≡ self.old) }
        ensures adds { AddsBy by_entry self.old.holder self.old.past self.new.past }
    {
        self.pubd.publish_at(template, content)?;
        self.published = one_more(self.published);
        Ok(())
    }

    /// How many editions of the template were published.
    pub fn edition(&self, template: u16) -> u32
        requires { template < length N.site.templates }
        ensures { result ≡ edition self.now.past template }
    {
        self.pubd.edition(template)
    }

    /// Takes what is due to the incarnation, which was installed: at its first Drain the current editions of what its
    /// service may read, then each edition of these since its last one, in order; nothing where it
    /// doesn't stand. Each fits a frame. Where memory is refused, all is as before.
    pub fn drain(&mut self, service: u16, incarnation: u32) -> Result<Vec<Push>, AllocError>
        requires service { service < length N.site.services }
        requires installed { HasStood pubd_grant self.old.past service incarnation }
        ensures verdict { IfOk result (λ v. v.items ≡ drain_verdict N.site self.old.past service incarnation) }
        ensures short { IfOk result (λ v. Each IsShortPush v.items) }
        ensures ok { OnOk result (self.new ≡ entered self.old (event.Drain service incarnation)) }
        ensures err { OnErr result (self.new ≡ self.old) }
        ensures adds { AddsBy by_entry self.old.holder self.old.past self.new.past }
    {
        self.pubd.drain(service, incarnation)
    }

    /// Reads the last edition of the template with this name for an incarnation that was installed. Where
    /// memory is refused, all is as before.
    pub fn get(
        &mut self,
        service: u16,
        incarnation: u32,
        name: Items<u8>,
    ) -> Result<Got, AllocError>
        requires service { service < length N.site.services }
        requires installed { HasStood pubd_grant self.old.past service incarnation }
        ensures verdict { IfOk result (λ v. v ≡ get_verdict N.site self.old.past service incarnation name) }
        ensures short { IfOk result IsShortGot }
        ensures ok { OnOk result (self.new ≡ entered self.old (event.Get service incarnation name)) }
        ensures err { OnErr result (self.new ≡ self.old) }
        ensures adds { AddsBy by_entry self.old.holder self.old.past self.new.past }
    {
        self.pubd.get(service, incarnation, name)
    }

    /// What was entered: each entry fits the entries before it, what was launched names the launcher's
    /// number, and each Drain and Get stands above the Install of its incarnation.
    pub fn close(self) -> Past<Entry<PubdEvent>>
        ensures past { result ≡ self.past }
        ensures law { PubdLaw N.site result }
        ensures launched { LaunchedBy pubd_grant N.launcher result }
        ensures follows { EachFollows PubdFollows result }
    {
        let SitePubd {
            pubd,
            published: _,
            of: _,
        } = self;
        pubd.close()
    }
}

impl<N: Numbered> Journaled for SitePubd<N> {
    ghost use Rattle.named_columns.specs.Launched.{by_entry};

    type Entry = Entry<PubdEvent>;

    ghost journal = { λ a. a.past };

    ghost by = { by_entry };

    ghost holder = { λ a. a.holder };

    ghost label = { λ _. 0 };

    ghost held = { λ a n. record a { holder = n } };

    fn hold(&mut self, number: u16)
        ensures same { self.new.past ≡ self.old.past }
        ensures holder { self.new.holder ≡ number }
        ensures all { self.new ≡ record self.old { holder = number } }
    {
        self.pubd.hold(number);
    }

    fn label(&self) -> u16 {
        0
    }

    fn holder(&self) -> u16 {
        self.pubd.holder()
    }
}
