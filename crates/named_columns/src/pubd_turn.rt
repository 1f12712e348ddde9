//! Turns at pubd.

ghost use Rattle.std.specs.Prelude.{◌≡◌, false, ◌<◌, ◌≤◌, List, IfOk, OnOk, OnErr, Some, length};
ghost use Rattle.okws_base.specs.Past.{standing_by, last_by};
ghost use Rattle.okws_base.specs.Runs.{Each};
ghost use Rattle.okws_base.specs.Turns.{AddsBy};
ghost use Rattle.okws_base.specs.declared.journal.Entry.{Entry};
ghost use Rattle.okws_base.specs.declared.limit.TheConstants.{LONGEST_TEMPLATE};
ghost use Rattle.okws_plan.specs.declared.event.PubdEvent.{PubdEvent};
ghost use Rattle.okws_plan.specs.declared.event.PubdEvent.TheVariants as event;
ghost use Rattle.monitor_model.specs.Installed.{HasStood};
ghost use Rattle.monitor_model.specs.Standing.{pubd_grant};
ghost use Rattle.monitor_model.specs.Pubd.{drain_verdict, get_verdict, publish_at};
ghost use Rattle.named_columns.specs.Launched.{by_entry};
ghost use Rattle.service_cell.specs.Asking.{IsShortPush, IsShortGot};
ghost use Rattle.named_columns.specs.Calls.{EntersEdition, after_edition};
ghost use Rattle.named_columns.specs.Turns.{Enters, Sees, EntersAny, Stays, past_after};

use crate::pubd::SitePubd;
use monitor_model::verdict::{Got, Published, Push};
use okws_base::items::Items;
use okws_base::limit::MOST_EDITIONS;
use site_cells::named::Numbered;
use std::alloc::AllocError;
use std::sync::Wait;
use turn_lock::{Seat, Turn};

/// Takes what is due to an incarnation that was seen installed, in a turn.
pub fn drain<N: Numbered, R: Wait>(
    rt: &R,
    turn: &Turn<SitePubd<N>>,
    seat: &mut Seat<SitePubd<N>>,
    service: u16,
    incarnation: u32,
) -> Result<Vec<Push>, AllocError>
    requires lock { seat.old.lock ≡ turn.now.id }
    requires free { seat.old.held ≡ false }
    requires service { service < length N.site.services }
    requires installed { HasStood pubd_grant seat.old.seen service incarnation }
    ensures ok { IfOk result (λ v. (before : List (Entry PubdEvent)) × (v.items ≡ drain_verdict N.site before service incarnation) × Enters (event.Drain service incarnation) before seat.old seat.new) }
    ensures short { IfOk result (λ v. Each IsShortPush v.items) }
    ensures err { OnErr result ((before : List (Entry PubdEvent)) × Sees before seat.old seat.new) }
{
    let mut pubd = turn.take(rt, seat);
    let answer = pubd.drain(service, incarnation);
    turn.give(seat, pubd);
    answer
}

/// Reads the last edition of a template for an incarnation that was seen installed, in a turn.
pub fn get<N: Numbered, R: Wait>(
    rt: &R,
    turn: &Turn<SitePubd<N>>,
    seat: &mut Seat<SitePubd<N>>,
    service: u16,
    incarnation: u32,
    name: Items<u8>,
) -> Result<Got, AllocError>
    requires lock { seat.old.lock ≡ turn.now.id }
    requires free { seat.old.held ≡ false }
    requires service { service < length N.site.services }
    requires installed { HasStood pubd_grant seat.old.seen service incarnation }
    ensures ok { IfOk result (λ v. (before : List (Entry PubdEvent)) × (v ≡ get_verdict N.site before service incarnation name) × Enters (event.Get service incarnation name) before seat.old seat.new) }
    ensures short { IfOk result IsShortGot }
    ensures err { OnErr result ((before : List (Entry PubdEvent)) × Sees before seat.old seat.new) }
{
    let mut pubd = turn.take(rt, seat);
    let answer = pubd.get(service, incarnation, name);
    turn.give(seat, pubd);
    answer
}

// Publishes an edition where the template may have one more.
fn next_edition<N: Numbered>(
    pubd: &mut SitePubd<N>,
    template: u16,
    content: Items<u8>,
) -> Result<Published, AllocError>
    requires template { template < length N.site.templates }
    requires short { length content ≤ LONGEST_TEMPLATE }
    ensures ok { IfOk result (λ v. (v ≡ publish_at pubd.old.past (Some template) content) × (pubd.new ≡ after_edition pubd.old template content v)) }
    ensures err { OnErr result (pubd.new ≡ pubd.old) }
    ensures adds { AddsBy by_entry pubd.old.holder pubd.old.past pubd.new.past }
{
    let before = pubd.edition(template);
    if before >= MOST_EDITIONS {
        return Ok(Published::EditionsSpent);
    }
    pubd.publish_at(template, content)?;
    Ok(Published::Edition(before + 1))
}

/// Publishes an edition of the template of this number, in a turn.
pub fn publish<N: Numbered, R: Wait>(
    rt: &R,
    turn: &Turn<SitePubd<N>>,
    seat: &mut Seat<SitePubd<N>>,
    template: u16,
    content: Items<u8>,
) -> Result<Published, AllocError>
    requires lock { seat.old.lock ≡ turn.now.id }
    requires free { seat.old.held ≡ false }
    requires template { template < length N.site.templates }
    requires short { length content ≤ LONGEST_TEMPLATE }
    ensures ok { IfOk result (λ v. (before : List (Entry PubdEvent)) × (v ≡ publish_at before (Some template) content) × EntersEdition template content v before seat.old seat.new) }
    ensures err { OnErr result ((before : List (Entry PubdEvent)) × Sees before seat.old seat.new) }
{
    let mut pubd = turn.take(rt, seat);
    let answer = next_edition(&mut pubd, template, content);
    turn.give(seat, pubd);
    answer
}

/// Installs an incarnation in a turn.
pub fn install<N: Numbered, R: Wait>(
    rt: &R,
    turn: &Turn<SitePubd<N>>,
    seat: &mut Seat<SitePubd<N>>,
    service: u16,
    incarnation: u32,
) -> Result<(), AllocError>
    requires lock { seat.old.lock ≡ turn.now.id }
    requires free { seat.old.held ≡ false }
    requires launcher { seat.old.number ≡ N.launcher }
    requires service { service < length N.site.services }
    requires later { last_by pubd_grant seat.old.seen service < incarnation }
    ensures ok { OnOk result ((before : List (Entry PubdEvent)) × Stays pubd_grant seat.old.seen before × Enters (event.Install service incarnation) before seat.old seat.new) }
    ensures err { OnErr result ((before : List (Entry PubdEvent)) × Stays pubd_grant seat.old.seen before × Sees before seat.old seat.new) }
{
    let mut pubd = turn.take(rt, seat);
    pubd.launched();
    let answer = pubd.install(service, incarnation);
    turn.give(seat, pubd);
    answer
}

// Revokes what stands of a service, and tells what it was. Takes no memory.
fn end_standing<N: Numbered>(pubd: &mut SitePubd<N>, service: u16) -> Option<u32>
    requires launcher { pubd.old.holder ≡ N.launcher }
    requires service { service < length N.site.services }
    ensures was { result ≡ standing_by pubd_grant pubd.old.past service }
    ensures past { pubd.new.past ≡ past_after (λ k. event.Revoke service k) pubd.old.holder result pubd.old.past }
    ensures adds { AddsBy by_entry pubd.old.holder pubd.old.past pubd.new.past }
{
    let standing = pubd.standing(service);
    if let Some(incarnation) = standing {
        pubd.revoke(service, incarnation);
    }
    standing
}

/// Revokes what stands of a service, in a turn, and tells what it was. Takes no memory.
pub fn revoke<N: Numbered, R: Wait>(
    rt: &R,
    turn: &Turn<SitePubd<N>>,
    seat: &mut Seat<SitePubd<N>>,
    service: u16,
) -> Option<u32>
    requires lock { seat.old.lock ≡ turn.now.id }
    requires free { seat.old.held ≡ false }
    requires launcher { seat.old.number ≡ N.launcher }
    requires service { service < length N.site.services }
    ensures { (before : List (Entry PubdEvent)) × Stays pubd_grant seat.old.seen before × (result ≡ standing_by pubd_grant before service) × EntersAny (λ k. event.Revoke service k) result before seat.old seat.new }
{
    let mut pubd = turn.take(rt, seat);
    pubd.launched();
    let standing = end_standing(&mut pubd, service);
    turn.give(seat, pubd);
    standing
}
