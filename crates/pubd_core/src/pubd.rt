//! The column of the template publisher.

ghost use Rattle.std.specs.Prelude.{◌≡◌, ◌≤◌, ◌<◌, ◌+◌, ◌&&◌, ◌∷◌, ◌++◌, [], IfOk, OnOk, OnErr, Some, if◌then◌else◌, length, nat_lt};
ghost use Rattle.std.specs.Arc.{arc_value};
ghost use Rattle.okws_base.specs.Past.{standing_by, last_by};
ghost use Rattle.okws_base.specs.declared.limit.TheConstants.{MOST_SERVICES, MOST_TEMPLATES, MOST_EDITIONS, LONGEST_TEMPLATE};
ghost use Rattle.okws_plan.specs.Configuration.{reads};
ghost use Rattle.okws_plan.specs.declared.event.PubdEvent.TheVariants as event;
ghost use Rattle.monitor_model.specs.Standing.{pubd_grant, live_at_pubd};
ghost use Rattle.monitor_model.specs.Pubd.{edition, current, current_from, drain_verdict, get_verdict, get_of};
ghost use Rattle.monitor_model.specs.Columns.{PubdLaw};
ghost use Rattle.pubd_core.specs.Seen.{entered};
ghost use Rattle.grant_column.specs.Granted.{service_count};
ghost use Rattle.pubd_core.specs.Readers.{may_stand, kept_readers, wanted};

use crate::kept::{
    Edition, Publication, may_read, news_since, number_of, pushed, tell_publication,
    unpublished_ones,
};
use crate::readers::{Reader, heard_of, keep_heard, keep_readers, keep_wanted};
use grant_column::{Granting, Head};
use monitor_model::verdict::{Got, Push};
use okws_base::denial::Rule;
use okws_base::items::{Exact, Items};
use okws_base::journal::{Entry, Past};
use okws_plan::configuration::Config;
use okws_plan::event::PubdEvent;
use okws_plan::naming::place_among;
use std::alloc::{AllocError, Global};
use std::marker::Model;
use std::sync::Arc;
use turn_lock::Journaled;

/// The template column of a site: a value that stands for its journal.
pub struct Pubd {
    alloc: Global,
    config: Arc<Config, Global>,
    head: Head<PubdColumn>,
    // The last edition of each template.
    currents: Vec<Option<Edition>>,
    // How many editions were published.
    count: u64,
    // The editions that are still due to somebody, the oldest first.
    publications: Vec<Publication>,
    // The incarnations that have taken what was due, and stand or may yet stand.
    readers: Vec<Reader>,
}

impl Drop for Pubd {
    fn drop(self) {
        let Pubd {
            alloc: _,
            config,
            head,
            currents,
            count: _,
            publications,
            readers,
        } = self;
        drop(config);
        drop(head);
        drop(currents);
        drop(publications);
        drop(readers);
    }
}

// The template column, as one that grants.
#[derive(Drop)]
pub struct PubdColumn;

impl Granting for PubdColumn {
    type Event = PubdEvent;

    ghost grant = { pubd_grant };
}

impl Model for Pubd {
    ghost use Rattle.pubd_core.specs.Seen.{Seen};
    ghost use Rattle.pubd_core.specs.Tied.{Tied};
    ghost use Rattle.std.specs.Arc.{arc_value};

    ghost Value = { Seen };

    ghost view = { λ a. record { config = arc_value a.config; past = a.head.past; keeps = a.head.keeps; holder = a.head.holder } };

    ghost invariant = { λ a. Tied (arc_value a.config) a.head.past a.head.granted a.currents.items a.count a.publications.items a.readers.items };
}

impl Pubd {
    /// The column of a site, with an empty journal, which keeps its entries in memory or not. New
    /// entries name number 0 until `hold`.
    pub fn new(alloc: Global, config: Arc<Config, Global>, keeps: bool) -> Result<Self, AllocError>
        requires services { length (arc_value config).services ≤ MOST_SERVICES }
        requires templates { length (arc_value config).templates ≤ MOST_TEMPLATES }
        ensures { IfOk result (λ p. p ≡ record { config = arc_value config; past = []; keeps = keeps; holder = 0 }) }
    {
        let services = config.services.as_slice().len() as u16;
        let head = Head::new(alloc, services, keeps)?;
        let currents = unpublished_ones(alloc, config.templates.as_slice().len())?;
        Ok(Pubd {
            alloc,
            config,
            head,
            currents,
            count: 0,
            publications: Vec::new(alloc),
            readers: Vec::new(alloc),
        })
    }

    /// What was entered: each entry fits the entries before it.
    pub fn close(self) -> Past<Entry<PubdEvent>>
        ensures past { result ≡ self.past }
        ensures law { PubdLaw self.config result }
    {
        let Pubd {
            alloc: _,
            config: _,
            head,
            currents: _,
            count: _,
            publications: _,
            readers: _,
        } = self;
        head.close()
    }

    /// The incarnation of the service that stands.
    pub fn standing(&self, service: u16) -> Option<u32>
        requires { service < length self.now.config.services }
        ensures { result ≡ standing_by pubd_grant self.now.past service }
    {
        self.head.standing(service)
    }

    /// The greatest incarnation of the service that was installed, 0 for none.
    pub fn last(&self, service: u16) -> u32
        requires { service < length self.now.config.services }
        ensures { result ≡ last_by pubd_grant self.now.past service }
    {
        self.head.last(service)
    }

    /// Has the incarnation stand, and keeps the place of its revocation. Where memory is refused, all
    /// is as before.
    pub fn install(&mut self, service: u16, incarnation: u32) -> Result<(), AllocError>
        requires service { service < length self.old.config.services }
        requires later { last_by pubd_grant self.old.past service < incarnation }
        ensures ok { OnOk result (self.new ≡ entered self.old (event.Install service incarnation)) }
        ensures err { OnErr result (self.new ≡ self.old) }
    {
        let event = PubdEvent::Install {
            service,
            incarnation,
        };
        self.head.install(service, incarnation, None, event)?;
        forget(
            &self.config,
            &self.head,
            service,
            &mut self.readers,
            &mut self.publications,
        );
        Ok(())
    }

    /// Has the incarnation stand no longer. Where it doesn't stand, nothing changes. Takes no memory.
    pub fn revoke(&mut self, service: u16, incarnation: u32)
        requires { service < length self.old.config.services }
        ensures { self.new ≡ (if live_at_pubd self.old.past service incarnation then entered self.old (event.Revoke service incarnation) else self.old) }
    {
        let event = PubdEvent::Revoke {
            service,
            incarnation,
        };
        self.head.revoke(service, incarnation, event);
        forget(
            &self.config,
            &self.head,
            service,
            &mut self.readers,
            &mut self.publications,
        );
    }

    /// Publishes an edition of the template of this number. Where memory is refused, all is as before.
    pub fn publish_at(&mut self, template: u16, content: Items<u8>) -> Result<(), AllocError>
        requires template { template < length self.old.config.templates }
        requires more { edition self.old.past template < MOST_EDITIONS }
        requires short { length content ≤ LONGEST_TEMPLATE }
        ensures ok { OnOk result (self.new ≡ entered self.old (event.Publish template content)) }
        ensures err { OnErr result (self.new ≡ self.old) }
    {
        let before = number_of(&self.currents[template as usize]);
        self.enter_edition(template, before + 1, content)
    }

    /// How many editions of the template were published.
    pub fn edition(&self, template: u16) -> u32
        requires { template < length self.now.config.templates }
        ensures { result ≡ edition self.now.past template }
    {
        number_of(&self.currents[template as usize])
    }

    fn enter_edition(
        &mut self,
        template: u16,
        next: u32,
        content: Items<u8>,
    ) -> Result<(), AllocError>
        requires template { template < length self.old.config.templates }
        requires next { next ≡ edition self.old.past template + 1 }
        requires more { edition self.old.past template < MOST_EDITIONS }
        requires short { length content ≤ LONGEST_TEMPLATE }
        ensures ok { OnOk result (self.new ≡ entered self.old (event.Publish template content)) }
        ensures err { OnErr result (self.new ≡ self.old) }
    {
        self.head.make_room()?;
        self.publications.reserve(1)?;
        let text = Arc::new(self.alloc, content)?;
        let published = Edition {
            number: next,
            content: text.clone()?,
        };
        tell_publication(&mut self.head, self.alloc, template, &text)?;
        self.currents[template as usize] = Some(Edition {
            number: next,
            content: text,
        });
        self.publications.push_reserved(Publication {
            place: self.count,
            template,
            edition: published,
        });
        self.count += 1;
        keep_wanted(&self.config, &self.readers, &mut self.publications);
        Ok(())
    }

    /// Takes what is due to the incarnation: at its first Drain the current editions of what its
    /// service may read, then each edition of these since its last one, in order; nothing where it
    /// doesn't stand. Where memory is refused, all is as before.
    pub fn drain(&mut self, service: u16, incarnation: u32) -> Result<Vec<Push>, AllocError>
        requires { service < length self.old.config.services }
        ensures verdict { IfOk result (λ v. v.items ≡ drain_verdict self.old.config self.old.past service incarnation) }
        ensures ok { OnOk result (self.new ≡ entered self.old (event.Drain service incarnation)) }
        ensures err { OnErr result (self.new ≡ self.old) }
    {
        self.head.make_room()?;
        let pushes = self.due(service, incarnation)?;
        let reader = Reader {
            service,
            incarnation,
            heard: self.count,
        };
        let may = self.may_stand(service, incarnation);
        keep_heard(&mut self.readers, reader, may)?;
        self.head.enter(PubdEvent::Drain {
            service,
            incarnation,
        });
        keep_wanted(&self.config, &self.readers, &mut self.publications);
        Ok(pushes)
    }

    // Whether the incarnation stands or may yet stand.
    fn may_stand(&self, service: u16, incarnation: u32) -> bool
        requires { service < length self.now.config.services }
        ensures { result ≡ may_stand self.now.past service incarnation }
    {
        self.head.last(service) < incarnation || self.head.standing(service) == Some(incarnation)
    }

    fn due(&self, service: u16, incarnation: u32) -> Result<Vec<Push>, AllocError>
        requires { service < length self.now.config.services }
        ensures { IfOk result (λ v. v.items ≡ drain_verdict self.now.config self.now.past service incarnation) }
    {
        if self.head.standing(service) != Some(incarnation) {
            return Ok(Vec::new(self.alloc));
        }
        match heard_of(&self.readers, service, incarnation) {
            None => self.currents_for(service),
            Some(heard) => {
                news_since(self.alloc, &self.config, service, heard, &self.publications)
            }
        }
    }

    fn currents_for(&self, service: u16) -> Result<Vec<Push>, AllocError>
        ensures { IfOk result (λ v. v.items ≡ current_from self.now.config self.now.past service 0 (length self.now.config.templates)) }
    {
        let mut found = Vec::new(self.alloc);
        for i in 0..self.currents.len() {
            found = self.with_current(service, i as u16, found)?;
        }
        Ok(found)
    }

    fn with_current(
        &self,
        service: u16,
        template: u16,
        mut found: Vec<Push>,
    ) -> Result<Vec<Push>, AllocError>
        requires { template < length self.now.config.templates }
        ensures { IfOk result (λ v. v.items ≡ (if reads self.now.config service template && nat_lt 0 (edition self.now.past template) then found.items ++ current self.now.config self.now.past template ∷ [] else found.items)) }
    {
        if !may_read(&self.config, service, template) {
            return Ok(found);
        }
        if let Some(edition) = &self.currents[template as usize] {
            found.push(pushed(self.alloc, &self.config, template, edition)?)?;
        }
        Ok(found)
    }

    /// Reads the last edition of the template with this name. Where memory is refused, all is as
    /// before.
    pub fn get(
        &mut self,
        service: u16,
        incarnation: u32,
        name: Items<u8>,
    ) -> Result<Got, AllocError>
        requires { service < length self.old.config.services }
        ensures verdict { IfOk result (λ v. v ≡ get_verdict self.old.config self.old.past service incarnation name) }
        ensures ok { OnOk result (self.new ≡ entered self.old (event.Get service incarnation name)) }
        ensures err { OnErr result (self.new ≡ self.old) }
    {
        self.head.make_room()?;
        let got = self.found(service, incarnation, name.as_slice())?;
        self.head.enter(PubdEvent::Get {
            service,
            incarnation,
            name,
        });
        Ok(got)
    }

    fn found(&self, service: u16, incarnation: u32, name: &[u8]) -> Result<Got, AllocError>
        requires { service < length self.now.config.services }
        ensures { IfOk result (λ v. v ≡ get_verdict self.now.config self.now.past service incarnation name.now) }
    {
        if self.head.standing(service) != Some(incarnation) {
            return Ok(Got::Denied(Rule::StaleAtPubd));
        }
        let Some(template) = place_among(self.config.templates.as_slice(), name) else {
            return Ok(Got::Denied(Rule::TemplateNotGranted));
        };
        if may_read(&self.config, service, template as u16) {
            self.last_edition(template as u16)
        } else {
            Ok(Got::Denied(Rule::TemplateNotGranted))
        }
    }

    fn last_edition(&self, template: u16) -> Result<Got, AllocError>
        requires { template < length self.now.config.templates }
        ensures { IfOk result (λ v. v ≡ get_of self.now.past template) }
    {
        match &self.currents[template as usize] {
            None => Ok(Got::Denied(Rule::TemplateUnpublished)),
            Some(edition) => Ok(Got::Template {
                edition: edition.number,
                content: edition.content.copy(self.alloc)?,
            }),
        }
    }
}

// Forgets the incarnations of the service that can't stand any more, and the editions that are due to
// nobody then.
fn forget(
    config: &Config,
    head: &Head<PubdColumn>,
    service: u16,
    readers: &mut Vec<Reader>,
    publications: &mut Vec<Publication>,
)
    requires { service < service_count head.now.granted }
    ensures readers { readers.new.items ≡ kept_readers service (last_by pubd_grant head.now.past service) (standing_by pubd_grant head.now.past service) readers.old.items }
    ensures publications { publications.new.items ≡ wanted config.now readers.new.items publications.old.items }
{
    let last = head.last(service);
    let standing = head.standing(service);
    keep_readers(readers, service, last, standing);
    keep_wanted(config, readers, publications);
}

impl Journaled for Pubd {
    type Entry = Entry<PubdEvent>;

    ghost journal = { λ a. a.past };

    ghost by = { λ e. e.worker };

    ghost holder = { λ a. a.holder };

    ghost label = { λ _. 0 };

    ghost held = { λ a n. record a { holder = n } };

    fn hold(&mut self, number: u16)
        ensures same { self.new.past ≡ self.old.past }
        ensures holder { self.new.holder ≡ number }
        ensures all { self.new ≡ record self.old { holder = number } }
    {
        self.head.hold(number);
    }

    fn label(&self) -> u16 {
        0
    }

    fn holder(&self) -> u16 {
        self.head.holder()
    }
}
