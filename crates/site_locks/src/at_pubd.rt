//! What a number does at pubd.

ghost use Rattle.std.specs.Prelude.{◌≡◌, ◌<◌, ◌≤◌, List, IfOk, OnOk, OnErr, Some, length};
ghost use Rattle.okws_base.specs.Past.{standing_by, last_by};
ghost use Rattle.okws_base.specs.Runs.{Each};
ghost use Rattle.okws_base.specs.declared.journal.Entry.{Entry};
ghost use Rattle.okws_base.specs.declared.limit.TheConstants.{LONGEST_TEMPLATE};
ghost use Rattle.okws_plan.specs.declared.event.PubdEvent.{PubdEvent};
ghost use Rattle.okws_plan.specs.declared.event.PubdEvent.TheVariants as event;
ghost use Rattle.monitor_model.specs.declared.record.Own.TheVariants as own;
ghost use Rattle.monitor_model.specs.Pubd.{drain_verdict, get_verdict, publish_at};
ghost use Rattle.monitor_model.specs.Installed.{HasStood};
ghost use Rattle.monitor_model.specs.Standing.{pubd_grant};
ghost use Rattle.named_columns.specs.Counts.{capped, publications};
ghost use Rattle.service_cell.specs.Asking.{IsShortPush, IsShortGot};
ghost use Rattle.site_locks.specs.Calls.{Publishes};
ghost use Rattle.site_locks.specs.Sat.{AreSeats, sat_of};
ghost use Rattle.site_locks.specs.Steps.{NotesPubd, EntersPubd, SeesPubd, RevokesPubd, noted};
ghost use Rattle.named_columns.specs.Turns.{Stays};

use crate::locks::{Locks, Seats};
use crate::named::Site;
use monitor_model::record::Own;
use monitor_model::verdict::{Got, Published, Push};
use named_columns::named::Backed;
use named_columns::pubd_turn;
use okws_base::items::{Exact, Items};
use okws_outer::keeper::Keeper;
use okws_outer::stream::Sink;
use okws_plan::event::PubdEvent;
use std::alloc::AllocError;
use std::sync::Wait;

impl<N: Backed, J: Site, K: Keeper, S: Sink> Seats<N, J, K, S> {
    /// Notes a dialog with the incarnation, which it has seen installed, and takes what is due to it. Where memory
    /// is refused, nothing is entered and nothing is noted.
    pub fn drain<R: Wait>(
        &mut self,
        rt: &R,
        locks: &Locks<N, J, K, S>,
        service: u16,
        incarnation: u32,
    ) -> Result<Vec<Push>, AllocError>
        requires service { service < length N.site.services }
        requires installed { HasStood pubd_grant self.old.pubd service incarnation }
        ensures ok { IfOk result (λ v. (before : List (Entry PubdEvent)) × (v.items ≡ drain_verdict N.site before service incarnation) × NotesPubd (event.Drain service incarnation) before (noted self.old (own.Dialog service)) self.new) }
        ensures short { IfOk result (λ v. Each IsShortPush v.items) }
        ensures err { OnErr result ((before : List (Entry PubdEvent)) × SeesPubd before self.old self.new) }
    {
        self.own.make_room(self.spare as usize + 2)?;
        let pushes = pubd_turn::drain(rt, &locks.pubd, &mut self.pubd, service, incarnation)?;
        self.own.enter(Own::Dialog(service));
        self.own.enter(Own::Pubd(PubdEvent::Drain {
            service,
            incarnation,
        }));
        Ok(pushes)
    }

    /// Reads the last edition of the template with this name for an incarnation that it has seen installed. Where
    /// memory is refused, nothing is entered.
    pub fn get<R: Wait>(
        &mut self,
        rt: &R,
        locks: &Locks<N, J, K, S>,
        service: u16,
        incarnation: u32,
        name: Items<u8>,
    ) -> Result<Got, AllocError>
        requires service { service < length N.site.services }
        requires installed { HasStood pubd_grant self.old.pubd service incarnation }
        ensures ok { IfOk result (λ v. (before : List (Entry PubdEvent)) × (v ≡ get_verdict N.site before service incarnation name) × NotesPubd (event.Get service incarnation name) before self.old self.new) }
        ensures short { IfOk result IsShortGot }
        ensures err { OnErr result ((before : List (Entry PubdEvent)) × SeesPubd before self.old self.new) }
    {
        self.own.make_room(self.spare as usize + 1)?;
        let item = Own::Pubd(PubdEvent::Get {
            service,
            incarnation,
            name: name.copy(self.alloc)?,
        });
        let got = pubd_turn::get(rt, &locks.pubd, &mut self.pubd, service, incarnation, name)?;
        self.own.enter(item);
        Ok(got)
    }

    /// Publishes an edition of the template of this number, unless all of its editions are spent. Where
    /// memory is refused, nothing is entered.
    pub fn publish<R: Wait>(
        &mut self,
        rt: &R,
        locks: &Locks<N, J, K, S>,
        template: u16,
        content: Items<u8>,
    ) -> Result<Published, AllocError>
        requires template { template < length N.site.templates }
        requires short { length content ≤ LONGEST_TEMPLATE }
        ensures ok { IfOk result (λ v. (before : List (Entry PubdEvent)) × (v ≡ publish_at before (Some template) content) × Publishes template content v before self.old self.new) }
        ensures err { OnErr result ((before : List (Entry PubdEvent)) × SeesPubd before self.old self.new) }
    {
        self.own.make_room(self.spare as usize + 1)?;
        let item = Own::Pubd(PubdEvent::Publish {
            template,
            content: content.copy(self.alloc)?,
        });
        let answer = pubd_turn::publish(rt, &locks.pubd, &mut self.pubd, template, content)?;
        if let Published::Edition(_) = &answer {
            self.own.enter(item);
        }
        Ok(answer)
    }

    /// The launcher installs an incarnation at pubd, and notes nothing here. Where memory is refused,
    /// nothing is entered.
    pub fn install_at_pubd<R: Wait>(
        &mut self,
        rt: &R,
        locks: &Locks<N, J, K, S>,
        service: u16,
        incarnation: u32,
    ) -> Result<(), AllocError>
        requires launcher { self.old.number ≡ N.launcher }
        requires service { service < length N.site.services }
        requires later { last_by pubd_grant self.old.pubd service < incarnation }
        ensures ok { OnOk result ((before : List (Entry PubdEvent)) × Stays pubd_grant self.old.pubd before × EntersPubd (event.Install service incarnation) before self.old self.new) }
        ensures err { OnErr result ((before : List (Entry PubdEvent)) × Stays pubd_grant self.old.pubd before × SeesPubd before self.old self.new) }
    {
        pubd_turn::install(rt, &locks.pubd, &mut self.pubd, service, incarnation)
    }

    /// The launcher revokes what stands of a service at pubd, if anything does, and notes nothing here.
    /// Takes no memory.
    pub fn revoke_at_pubd<R: Wait>(
        &mut self,
        rt: &R,
        locks: &Locks<N, J, K, S>,
        service: u16,
    ) -> Option<u32>
        requires launcher { self.old.number ≡ N.launcher }
        requires service { service < length N.site.services }
        ensures { (before : List (Entry PubdEvent)) × Stays pubd_grant self.old.pubd before × (result ≡ standing_by pubd_grant before service) × RevokesPubd (λ k. event.Revoke service k) result before self.old self.new }
    {
        pubd_turn::revoke(rt, &locks.pubd, &mut self.pubd, service)
    }

    /// How many editions were published, counted in a turn. Enters nothing, and takes no memory.
    pub fn count_at_pubd<R: Wait>(&mut self, rt: &R, locks: &Locks<N, J, K, S>) -> u64
        ensures { (before : List (Entry PubdEvent)) × (result ≡ capped (publications before)) × SeesPubd before self.old self.new }
    {
        let pubd = locks.pubd.take(rt, &mut self.pubd);
        let published = pubd.publications();
        locks.pubd.give(&mut self.pubd, pubd);
        published
    }
}
