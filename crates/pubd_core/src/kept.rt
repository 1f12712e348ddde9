//! The editions that the column keeps beside its journal, so that no call looks through the journal.

ghost use Rattle.std.specs.Prelude.{◌≡◌, ◌<◌, ◌&&◌, ◌==◌, ◌∷◌, ◌++◌, [], ℕ, IfOk, IfSome, OnOk, OnErr, None, if◌then◌else◌, length, replicate, nat_le};
ghost use Rattle.std.specs.Arc.{arc_value};
ghost use Rattle.okws_plan.specs.Configuration.{reads, template_name};
ghost use Rattle.okws_plan.specs.declared.event.PubdEvent.TheVariants as event;
ghost use Rattle.grant_column.specs.Headed.{noted};
ghost use Rattle.pubd_core.specs.Kept.{number_of};
ghost use Rattle.pubd_core.specs.Readers.{is_due, push_of, news_in};

use crate::pubd::PubdColumn;
use grant_column::Head;
use monitor_model::verdict::Push;
use okws_base::items::{Exact, Items, copies};
use okws_base::journal::Entry;
use okws_base::name::Name;
use okws_base::told::{Parts, Says};
use okws_plan::configuration::Config;
use okws_plan::event::PubdEvent;
use std::alloc::{AllocError, Global};
use std::sync::Arc;

/// An edition of a template: its number, from 1, and its text, which is held once however many are
/// to hear of it.
#[derive(Drop)]
pub struct Edition {
    pub number: u32,
    pub content: Arc<Items<u8>, Global>,
}

/// An edition that is due to somebody, and how many editions had been published before it.
#[derive(Drop)]
pub struct Publication {
    pub place: u64,
    pub template: u16,
    pub edition: Edition,
}

/// The entry of a publication, by its parts.
#[derive(Drop)]
pub struct Publishing<'a> {
    pub worker: u16,
    pub template: u16,
    pub content: &'a Items<u8>,
}

impl<'a> Says for Publishing<'a> {
    type Item = Entry<PubdEvent>;

    ghost item = { λ p. noted p.worker (event.Publish p.template p.content.now) };
}

impl<'a> Parts for Publishing<'a> {
    fn make(&self, alloc: Global) -> Result<Entry<PubdEvent>, AllocError> {
        Ok(Entry {
            worker: self.worker,
            event: PubdEvent::Publish {
                template: self.template,
                content: self.content.copy(alloc)?,
            },
        })
    }
}

/// Enters a publication; where the journal keeps nothing, its text isn't copied.
pub fn tell_publication(
    head: &mut Head<PubdColumn>,
    alloc: Global,
    template: u16,
    content: &Items<u8>,
) -> Result<(), AllocError>
    requires { 0 < head.old.room }
    ensures ok { OnOk result (head.new.past ≡ noted head.old.holder (event.Publish template content.now) ∷ head.old.past) }
    ensures err { OnErr result (head.new.past ≡ head.old.past) }
    ensures same { head.new ≡ record head.old { past = head.new.past; room = head.new.room } }
{
    let worker = head.holder();
    let parts = Publishing {
        worker,
        template,
        content,
    };
    head.tell(alloc, &parts)
}

/// The number of a template's last edition, 0 for none.
pub fn number_of(edition: &Option<Edition>) -> u32
    ensures { result ≡ number_of edition.now }
{
    match edition {
        None => 0,
        Some(edition) => edition.number,
    }
}

// Whether the service may read the template.
pub fn may_read(config: &Config, service: u16, template: u16) -> bool
    ensures { result ≡ reads config.now service template }
{
    config
        .readables
        .as_slice()
        .iter()
        .any(|r| r.service == service && r.template == template)
}

// The name of the template, or nothing where there is none.
pub fn name_of(alloc: Global, config: &Config, template: u16) -> Result<Items<u8>, AllocError>
    ensures { IfOk result (λ name. name ≡ template_name config.now template) }
{
    match config.templates.as_slice().get(template as usize) {
        None => Ok(Items::of(Vec::new(alloc))),
        Some(name) => Ok(Items::of(copies(alloc, name.as_slice())?)),
    }
}

// An edition as it is pushed, by the template's name.
pub fn pushed(
    alloc: Global,
    config: &Config,
    template: u16,
    edition: &Edition,
) -> Result<Push, AllocError>
    ensures { IfOk result (λ push. push ≡ record { template = template_name config.now template; edition = edition.now.number; content = arc_value edition.now.content }) }
{
    Ok(Push {
        template: name_of(alloc, config, template)?,
        edition: edition.number,
        content: edition.content.copy(alloc)?,
    })
}

// So many templates without editions.
pub fn unpublished_ones(alloc: Global, count: usize) -> Result<Vec<Option<Edition>>, AllocError>
    ensures { IfOk result (λ v. v.items ≡ replicate count None) }
{
    let mut currents = Vec::new(alloc);
    for _ in 0..count {
        currents.push(None)?;
    }
    Ok(currents)
}

fn with_news(
    alloc: Global,
    config: &Config,
    service: u16,
    heard: u64,
    published: &Publication,
    mut found: Vec<Push>,
) -> Result<Vec<Push>, AllocError>
    ensures { IfOk result (λ v. v.items ≡ (if is_due config.now service heard published.now then found.items ++ push_of config.now published.now ∷ [] else found.items)) }
{
    if may_read(config, service, published.template) && heard <= published.place {
        found.push(pushed(alloc, config, published.template, &published.edition)?)?;
    }
    Ok(found)
}

/// The pushes that are due to a service that had heard of the first `heard` publications, in order.
pub fn news_since(
    alloc: Global,
    config: &Config,
    service: u16,
    heard: u64,
    publications: &[Publication],
) -> Result<Vec<Push>, AllocError>
    ensures { IfOk result (λ v. v.items ≡ news_in config.now service heard publications.now) }
{
    let mut found = Vec::new(alloc);
    for published in publications {
        found = with_news(alloc, config, service, heard, published, found)?;
    }
    Ok(found)
}
