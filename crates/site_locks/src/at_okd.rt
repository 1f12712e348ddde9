//! What a number does at okd.

ghost use Rattle.std.specs.Prelude.{◌≡◌, ◌<◌, ℕ, List, IfOk, IfSome, OnOk, OnErr, length};
ghost use Rattle.okws_base.specs.declared.journal.Entry.{Entry};
ghost use Rattle.okws_plan.specs.declared.event.OkdEvent.{OkdEvent};
ghost use Rattle.okws_plan.specs.declared.event.OkdEvent.TheVariants as event;
ghost use Rattle.monitor_model.specs.Okd.{accept_verdict};
ghost use Rattle.monitor_model.specs.Script.{goes_of};
ghost use Rattle.monitor_model.specs.Standing.{up_at_okd, okd_grant};
ghost use Rattle.named_columns.specs.Counts.{capped, accepts, ups};
ghost use Rattle.site_locks.specs.Sat.{AreSeats, sat_of};
ghost use Rattle.site_locks.specs.Steps.{NotesOkd, EntersOkd, SeesOkd, DownsOkd};
ghost use Rattle.named_columns.specs.Turns.{Stays};

use crate::locks::{Locks, Seats};
use crate::named::Site;
use monitor_model::record::Own;
use monitor_model::verdict::Way;
use named_columns::named::Backed;
use named_columns::okd_turn;
use okws_base::items::{Exact, Items};
use okws_outer::keeper::Keeper;
use okws_outer::stream::Sink;
use okws_plan::event::OkdEvent;
use std::alloc::AllocError;
use std::sync::Wait;

impl<N: Backed, J: Site, K: Keeper, S: Sink> Seats<N, J, K, S> {
    /// Where a request for the path goes: to nobody where no service owns the path, else to the owner's
    /// incarnation that is up, if one is; such a service is declared, and its incarnation is from 1 on.
    /// Where memory is refused, nothing is entered.
    pub fn accept<R: Wait>(
        &mut self,
        rt: &R,
        locks: &Locks<N, J, K, S>,
        path: Items<u8>,
    ) -> Result<Way, AllocError>
        ensures ok { IfOk result (λ way. (before : List (Entry OkdEvent)) × (way ≡ accept_verdict N.site before path) × NotesOkd (event.Accept path) before self.old self.new) }
        ensures goes { IfOk result (λ way. IfSome (goes_of way) (λ (at : ℕ × ℕ). (at.0 < length N.site.services) × (0 < at.1))) }
        ensures err { OnErr result ((before : List (Entry OkdEvent)) × SeesOkd before self.old self.new) }
    {
        self.own.make_room(self.spare as usize + 1)?;
        let item = Own::Okd(OkdEvent::Accept(path.copy(self.alloc)?));
        let way = okd_turn::accept(rt, &locks.okd, &mut self.okd, path)?;
        self.own.enter(item);
        Ok(way)
    }

    /// The launcher has an incarnation be up, and notes nothing here. Where memory is refused, nothing is
    /// entered.
    pub fn up<R: Wait>(
        &mut self,
        rt: &R,
        locks: &Locks<N, J, K, S>,
        service: u16,
        incarnation: u32,
    ) -> Result<(), AllocError>
        requires launcher { self.old.number ≡ N.launcher }
        requires service { service < length N.site.services }
        requires counted { 0 < incarnation }
        ensures ok { OnOk result ((before : List (Entry OkdEvent)) × Stays okd_grant self.old.okd before × EntersOkd (event.Up service incarnation) before self.old self.new) }
        ensures err { OnErr result ((before : List (Entry OkdEvent)) × Stays okd_grant self.old.okd before × SeesOkd before self.old self.new) }
    {
        okd_turn::up(rt, &locks.okd, &mut self.okd, service, incarnation)
    }

    /// The launcher has what is up of a service be down, if anything is, and notes nothing here. Takes no
    /// memory.
    pub fn down<R: Wait>(&mut self, rt: &R, locks: &Locks<N, J, K, S>, service: u16) -> Option<u32>
        requires launcher { self.old.number ≡ N.launcher }
        requires service { service < length N.site.services }
        ensures { (before : List (Entry OkdEvent)) × Stays okd_grant self.old.okd before × (result ≡ up_at_okd before service) × DownsOkd (λ k. event.Down service k) result before self.old self.new }
    {
        okd_turn::down(rt, &locks.okd, &mut self.okd, service)
    }

    /// How many requests were accepted, and how many incarnations came up, counted in one turn. Enters
    /// nothing, and takes no memory.
    pub fn count_at_okd<R: Wait>(&mut self, rt: &R, locks: &Locks<N, J, K, S>) -> (u64, u64)
        ensures { (before : List (Entry OkdEvent)) × (result.0 ≡ capped (accepts before)) × (result.1 ≡ capped (ups before)) × SeesOkd before self.old self.new }
    {
        let okd = locks.okd.take(rt, &mut self.okd);
        let accepted = okd.accepts();
        let raised = okd.ups();
        locks.okd.give(&mut self.okd, okd);
        (accepted, raised)
    }
}
