//! oklogd's column behind its lock.

ghost use Rattle.std.specs.Prelude.{◌≡◌, ◌≤◌, ◌<◌, ℕ, List, [], IfOk, IfSome, OnOk, OnErr, None, true, false, if◌then◌else◌, length};
ghost use Rattle.std.specs.Io.KnownBytes.{Appends};
ghost use Rattle.okws_base.specs.Past.{standing_by, last_by};
ghost use Rattle.okws_base.specs.Turns.{AddsBy};
ghost use Rattle.okws_plan.specs.declared.event.LogEvent.TheVariants as event;
ghost use Rattle.okws_outer.specs.Streams.{Rose};
ghost use Rattle.monitor_model.specs.Standing.{log_grant, live_at_log};
ghost use Rattle.monitor_model.specs.Columns.{LogLaw};
ghost use Rattle.monitor_model.specs.Installed.{EachFollows, HasStood, LogFollows};
ghost use Rattle.monitor_model.specs.Logd.{log_verdict, log_text};
ghost use Rattle.log_daemon.specs.Seen.{IsFront};
ghost use Rattle.log_daemon.specs.Stopped.{is_stopped};
ghost use Rattle.named_columns.specs.Launched.{by_entry, LaunchedBy};
ghost use Rattle.named_columns.specs.Counts.{capped, logged};
ghost use Rattle.named_columns.specs.Held.{log_entered};

use crate::counts::with_line;
use crate::named::Backed;
use log_daemon::{LogDaemon, WriteOut};
use monitor_model::verdict::Noted;
use okws_base::items::Items;
use okws_base::journal::{Entry, Past};
use okws_outer::stream::Sink;
use okws_plan::event::LogEvent;
use std::alloc::AllocError;
use std::marker::{Model, PhantomData};
use turn_lock::Journaled;

/// The log column of a run as it stands behind its lock. Each call enters at most one event, under the
/// holder's number; the launcher alone installs and revokes.
pub struct SiteLog<N: Backed, S: Sink> {
    daemon: LogDaemon<S>,
    // How many texts were logged.
    written: u64,
    of: PhantomData<N>,
}

impl<N: Backed, S: Sink + Drop> Drop for SiteLog<N, S> {
    fn drop(self) {
        let SiteLog {
            daemon,
            written: _,
            of: _,
        } = self;
        drop(daemon);
    }
}

impl<N: Backed, S: Sink> Model for SiteLog<N, S> {
    ghost use Rattle.named_columns.specs.Held.{HeldLog};
    ghost use Rattle.named_columns.specs.Kept.{IsLog};

    ghost Value = { HeldLog };

    ghost view = { λ a. record { past = a.daemon.past; keeps = a.daemon.keeps; given = a.daemon.given; faults = a.daemon.faults; stopped = a.daemon.stopped; holder = a.daemon.holder } };

    ghost invariant = { λ a. IsLog N.site N.launcher N.sink_faults a.daemon a.written };
}

impl<N: Backed, S: Sink> SiteLog<N, S> {
    /// The column of the run, at which nothing happened yet; takes no memory.
    pub fn new(daemon: LogDaemon<S>) -> Self
        requires site { daemon.config ≡ N.site }
        requires fresh { (daemon.past ≡ []) × (daemon.stopped ≡ false) }
        requires faults { N.sink_faults ≡ daemon.faults }
        ensures { result ≡ record { past = []; keeps = daemon.keeps; given = daemon.given; faults = daemon.faults; stopped = false; holder = daemon.holder } }
    {
        SiteLog {
            daemon,
            written: 0,
            of: PhantomData,
        }
    }

    /// What was installed or revoked names the launcher's number.
    pub fn launched(&self)
        ensures { LaunchedBy log_grant N.launcher self.now.past }
    {
        let _daemon = &self.daemon;
    }

    /// How many texts were logged: these are the lines of the log's text.
    pub fn logged(&self) -> u64
        ensures { result ≡ capped (logged N.site self.now.past) }
    {
        self.written
    }

    /// The incarnation of the service that stands.
    pub fn standing(&self, service: u16) -> Option<u32>
        requires { service < length N.site.services }
        ensures { result ≡ standing_by log_grant self.now.past service }
    {
        self.daemon.standing(service)
    }

    /// The greatest incarnation of the service that was installed, 0 for none.
    pub fn last(&self, service: u16) -> u32
        requires { service < length N.site.services }
        ensures { result ≡ last_by log_grant self.now.past service }
    {
        self.daemon.last(service)
    }

    /// Has the incarnation stand, and keeps the place of its revocation. Where memory is refused, all
    /// is as before.
    pub fn install(&mut self, service: u16, incarnation: u32) -> Result<(), AllocError>
        requires launcher { self.old.holder ≡ N.launcher }
        requires service { service < length N.site.services }
        requires later { last_by log_grant self.old.past service < incarnation }
        ensures ok { OnOk result (self.new ≡ log_entered self.old (event.Install service incarnation)) }
        ensures err { OnErr result (self.new ≡ self.old) }
        ensures adds { AddsBy by_entry self.old.holder self.old.past self.new.past }
    {
        self.daemon.install(service, incarnation)
    }

    /// Has the incarnation stand no longer. Where it doesn't stand, nothing changes. Takes no memory.
    pub fn revoke(&mut self, service: u16, incarnation: u32)
        requires launcher { self.old.holder ≡ N.launcher }
        requires service { service < length N.site.services }
        ensures revoked { self.new ≡ (if live_at_log self.old.past service incarnation then log_entered self.old (event.Revoke service incarnation) else self.old) }
        ensures adds { AddsBy by_entry self.old.holder self.old.past self.new.past }
    {
        self.daemon.revoke(service, incarnation);
    }

    /// Decides a text that an incarnation, which was installed, logs. The line of one that is logged becomes due at the
    /// sink, and is given to it by `write_out`. Where memory is refused, all is as before.
    pub fn log(
        &mut self,
        service: u16,
        incarnation: u32,
        text: Items<u8>,
    ) -> Result<Noted, AllocError>
        requires service { service < length N.site.services }
        requires installed { HasStood log_grant self.old.past service incarnation }
        ensures verdict { IfOk result (λ v. v ≡ log_verdict N.site self.old.past service incarnation text) }
        ensures ok { OnOk result (self.new ≡ log_entered self.old (event.Log service incarnation text)) }
        ensures err { OnErr result (self.new ≡ self.old) }
        ensures adds { AddsBy by_entry self.old.holder self.old.past self.new.past }
    {
        let noted = self.daemon.log(service, incarnation, text)?;
        self.written = with_line(self.written, &noted);
        Ok(noted)
    }

    /// Gives the sink what it wasn't given yet of the log's text, unless a write has failed before.
    /// Takes no memory.
    pub fn write_out(&mut self) -> WriteOut
        ensures whole { result ≡ WriteOut.Written → IfSome self.new.given (λ given. given ≡ log_text N.site self.old.past) }
        ensures part { IfSome self.new.given (λ given. IsFront given (log_text N.site self.old.past)) }
        ensures given { (more : List ℕ) × Appends self.old.given self.new.given more }
        ensures untold { self.old.given ≡ None → self.new.given ≡ None }
        ensures fault { result ≡ WriteOut.LogFault → (self.old.stopped ≡ false) × Rose self.old.faults self.new.faults }
        ensures still { result ≡ WriteOut.Written → self.new.faults ≡ self.old.faults }
        ensures before { result ≡ WriteOut.Stopped → (self.old.stopped ≡ true) × (self.new ≡ self.old) }
        ensures stopped { self.new.stopped ≡ is_stopped result }
        ensures sticks { self.old.stopped ≡ true → result ≡ WriteOut.Stopped }
        ensures later { self.old.faults ≤ self.new.faults }
        ensures same { self.new ≡ record self.old { given = self.new.given; faults = self.new.faults; stopped = self.new.stopped } }
        ensures adds { AddsBy by_entry self.old.holder self.old.past self.new.past }
    {
        self.daemon.write_out()
    }

    /// What was entered, where each entry fits the entries before it, what was launched names the launcher's
    /// number, and each Log stands above the Install of its incarnation; and the sink. What is still due isn't written any more. Where the log had
    /// stopped, the sink's count rose in the run, and else it is as it was.
    pub fn close(self) -> (Past<Entry<LogEvent>>, S)
        ensures past { result.0 ≡ self.past }
        ensures law { LogLaw result.0 }
        ensures launched { LaunchedBy log_grant N.launcher result.0 }
        ensures follows { EachFollows LogFollows result.0 }
        ensures given { S.given result.1 ≡ self.given }
        ensures faults { S.faults result.1 ≡ self.faults }
        ensures stopped { self.stopped ≡ true → Rose N.sink_faults self.faults }
        ensures later { N.sink_faults ≤ self.faults }
        ensures still { self.stopped ≡ false → self.faults ≡ N.sink_faults }
    {
        let SiteLog {
            daemon,
            written: _,
            of: _,
        } = self;
        daemon.close()
    }
}

impl<N: Backed, S: Sink> Journaled for SiteLog<N, S> {
    ghost use Rattle.named_columns.specs.Launched.{by_entry};

    type Entry = Entry<LogEvent>;

    ghost journal = { λ a. a.past };

    ghost by = { by_entry };

    ghost holder = { λ a. a.holder };

    ghost label = { λ _. 0 };

    ghost held = { λ a n. record a { holder = n } };

    fn hold(&mut self, number: u16)
        ensures same { self.new.past ≡ self.old.past }
        ensures holder { self.new.holder ≡ number }
        ensures all { self.new ≡ record self.old { holder = number } }
    {
        self.daemon.hold(number);
    }

    fn label(&self) -> u16 {
        0
    }

    fn holder(&self) -> u16 {
        self.daemon.holder()
    }
}
