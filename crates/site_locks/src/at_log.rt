//! What a number does at oklogd.

ghost use Rattle.std.specs.Prelude.{◌≡◌, ◌<◌, List, IfOk, OnOk, OnErr, length};
ghost use Rattle.okws_base.specs.Past.{standing_by, last_by};
ghost use Rattle.okws_base.specs.declared.journal.Entry.{Entry};
ghost use Rattle.okws_plan.specs.declared.event.LogEvent.{LogEvent};
ghost use Rattle.okws_plan.specs.declared.event.LogEvent.TheVariants as event;
ghost use Rattle.monitor_model.specs.Logd.{log_verdict};
ghost use Rattle.monitor_model.specs.Installed.{HasStood};
ghost use Rattle.monitor_model.specs.Standing.{log_grant};
ghost use Rattle.named_columns.specs.Counts.{capped, logged};
ghost use Rattle.site_locks.specs.Sat.{AreSeats, sat_of};
ghost use Rattle.site_locks.specs.Steps.{NotesLog, EntersLog, SeesLog, RevokesLog};
ghost use Rattle.named_columns.specs.Turns.{Stays};

use crate::locks::{Locks, Seats};
use crate::named::Site;
use log_daemon::WriteOut;
use monitor_model::record::Own;
use monitor_model::verdict::Noted;
use named_columns::log_turn;
use named_columns::named::Backed;
use okws_base::items::{Exact, Items};
use okws_outer::keeper::Keeper;
use okws_outer::stream::Sink;
use okws_plan::event::LogEvent;
use std::alloc::AllocError;
use std::sync::Wait;

impl<N: Backed, J: Site, K: Keeper, S: Sink> Seats<N, J, K, S> {
    /// Decides a text that an incarnation logs which it has seen installed. Where memory is refused, nothing is
    /// entered.
    pub fn log<R: Wait>(
        &mut self,
        rt: &R,
        locks: &Locks<N, J, K, S>,
        service: u16,
        incarnation: u32,
        text: Items<u8>,
    ) -> Result<Noted, AllocError>
        requires service { service < length N.site.services }
        requires installed { HasStood log_grant self.old.oklogd service incarnation }
        ensures ok { IfOk result (λ v. (before : List (Entry LogEvent)) × (v ≡ log_verdict N.site before service incarnation text) × NotesLog (event.Log service incarnation text) before self.old self.new) }
        ensures err { OnErr result ((before : List (Entry LogEvent)) × SeesLog before self.old self.new) }
    {
        self.own.make_room(self.spare as usize + 1)?;
        let item = Own::Oklogd(LogEvent::Log {
            service,
            incarnation,
            text: text.copy(self.alloc)?,
        });
        let answer = log_turn::log(
            rt,
            &locks.oklogd,
            &mut self.oklogd,
            service,
            incarnation,
            text,
        )?;
        self.own.enter(item);
        Ok(answer)
    }

    /// Gives the log's sink what it wasn't given yet of the log's text. Enters nothing, and takes no memory.
    pub fn write_out<R: Wait>(&mut self, rt: &R, locks: &Locks<N, J, K, S>) -> WriteOut
        ensures { (before : List (Entry LogEvent)) × SeesLog before self.old self.new }
    {
        let mut oklogd = locks.oklogd.take(rt, &mut self.oklogd);
        let answer = oklogd.write_out();
        locks.oklogd.give(&mut self.oklogd, oklogd);
        answer
    }

    /// How many texts were logged, counted in a turn. Enters nothing, and takes no memory.
    pub fn count_at_log<R: Wait>(&mut self, rt: &R, locks: &Locks<N, J, K, S>) -> u64
        ensures { (before : List (Entry LogEvent)) × (result ≡ capped (logged N.site before)) × SeesLog before self.old self.new }
    {
        let oklogd = locks.oklogd.take(rt, &mut self.oklogd);
        let lines = oklogd.logged();
        locks.oklogd.give(&mut self.oklogd, oklogd);
        lines
    }

    /// The launcher installs an incarnation at oklogd, and notes nothing here. Where memory is refused,
    /// nothing is entered.
    pub fn install_at_log<R: Wait>(
        &mut self,
        rt: &R,
        locks: &Locks<N, J, K, S>,
        service: u16,
        incarnation: u32,
    ) -> Result<(), AllocError>
        requires launcher { self.old.number ≡ N.launcher }
        requires service { service < length N.site.services }
        requires later { last_by log_grant self.old.oklogd service < incarnation }
        ensures ok { OnOk result ((before : List (Entry LogEvent)) × Stays log_grant self.old.oklogd before × EntersLog (event.Install service incarnation) before self.old self.new) }
        ensures err { OnErr result ((before : List (Entry LogEvent)) × Stays log_grant self.old.oklogd before × SeesLog before self.old self.new) }
    {
        log_turn::install(rt, &locks.oklogd, &mut self.oklogd, service, incarnation)
    }

    /// The launcher revokes what stands of a service at oklogd, if anything does, and notes nothing here.
    /// Takes no memory.
    pub fn revoke_at_log<R: Wait>(
        &mut self,
        rt: &R,
        locks: &Locks<N, J, K, S>,
        service: u16,
    ) -> Option<u32>
        requires launcher { self.old.number ≡ N.launcher }
        requires service { service < length N.site.services }
        ensures { (before : List (Entry LogEvent)) × Stays log_grant self.old.oklogd before × (result ≡ standing_by log_grant before service) × RevokesLog (λ k. event.Revoke service k) result before self.old self.new }
    {
        log_turn::revoke(rt, &locks.oklogd, &mut self.oklogd, service)
    }
}
