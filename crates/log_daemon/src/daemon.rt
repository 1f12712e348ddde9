//! The column of the log daemon.

ghost use Rattle.std.specs.Prelude.{◌≡◌, ◌≤◌, ◌<◌, ◌∷◌, ◌++◌, ℕ, List, [], IfOk, IfErr, IfSome, OnOk, OnErr, None, true, false, if◌then◌else◌, length};
ghost use Rattle.std.specs.Arc.{arc_value};
ghost use Rattle.std.specs.Io.KnownBytes.{Appends};
ghost use Rattle.okws_base.specs.Past.{standing_by, last_by};
ghost use Rattle.okws_base.specs.declared.limit.TheConstants.{MOST_SERVICES};
ghost use Rattle.okws_plan.specs.declared.event.LogEvent.TheVariants as event;
ghost use Rattle.okws_outer.specs.Streams.{Rose};
ghost use Rattle.monitor_model.specs.Standing.{log_grant, live_at_log};
ghost use Rattle.monitor_model.specs.Columns.{LogLaw};
ghost use Rattle.monitor_model.specs.Logd.{log_verdict, log_text, log_line, line_if};
ghost use Rattle.okws_plan.specs.Configuration.{service_name};
ghost use Rattle.log_daemon.specs.Seen.{entered, IsFront};
ghost use Rattle.log_daemon.specs.Stopped.{is_stopped};

use crate::line::{may_log, with_line};
use grant_column::{Granting, Head};
use monitor_model::verdict::Noted;
use okws_base::denial::Rule;
use okws_base::items::Items;
use okws_base::journal::{Entry, Past};
use okws_base::limit::LONGEST_LOG;
use okws_outer::stream::{Put, Sink};
use okws_plan::configuration::{Config, name_of};
use okws_plan::event::LogEvent;
use std::alloc::{AllocError, Global};
use std::marker::Model;
use std::sync::Arc;
use turn_lock::Journaled;

// The log column, as one that grants.
#[derive(Drop)]
pub struct LogColumn;

impl Granting for LogColumn {
    type Event = LogEvent;

    ghost grant = { log_grant };
}

/// What writing out comes to.
#[derive(Clone, Copy, PartialEq, Eq)]
pub enum WriteOut {
    /// The sink was given all of the log's text.
    Written,
    /// The sink failed, and counted it; it was given a front of the text.
    LogFault,
    /// An earlier write had failed; nothing was given.
    Stopped,
}

/// The log column of a site: a value that stands for its journal.
pub struct LogDaemon<S: Sink> {
    alloc: Global,
    config: Arc<Config, Global>,
    head: Head<LogColumn>,
    sink: S,
    // The end of the log's text that the sink wasn't given yet.
    due: Vec<u8>,
    stopped: bool,
}

impl<S: Sink + Drop> Drop for LogDaemon<S> {
    fn drop(self) {
        let LogDaemon {
            alloc: _,
            config,
            head,
            sink,
            due,
            stopped: _,
        } = self;
        drop(config);
        drop(head);
        drop(sink);
        drop(due);
    }
}

impl<S: Sink> Model for LogDaemon<S> {
    ghost use Rattle.std.specs.Arc.{arc_value};
    ghost use Rattle.log_daemon.specs.Seen.{Seen};
    ghost use Rattle.log_daemon.specs.Tied.{Tied};

    ghost Value = { Seen };

    ghost view = { λ a. record { config = arc_value a.config; past = a.head.past; keeps = a.head.keeps; given = S.given a.sink; faults = S.faults a.sink; stopped = a.stopped; holder = a.head.holder } };

    ghost invariant = { λ a. Tied (arc_value a.config) a.head.past a.head.granted (S.given a.sink) a.due.items a.stopped };
}

impl<S: Sink> LogDaemon<S> {
    /// The column of a site, with an empty journal, which keeps its entries in memory or not, over a
    /// sink that was given nothing yet. New entries name number 0 until `hold`. Where memory is
    /// refused, the sink is handed back.
    pub fn new(alloc: Global, config: Arc<Config, Global>, sink: S, keeps: bool) -> Result<Self, S>
        requires services { length (arc_value config).services ≤ MOST_SERVICES }
        requires fresh { IfSome (S.given sink) (λ given. given ≡ []) }
        ensures ok { IfOk result (λ d. d ≡ record { config = arc_value config; past = []; keeps = keeps; given = S.given sink; faults = S.faults sink; stopped = false; holder = 0 }) }
        ensures err { IfErr result (λ s. s ≡ sink) }
    {
        let services = config.services.as_slice().len() as u16;
        match Head::new(alloc, services, keeps) {
            Err(_) => Err(sink),
            Ok(head) => Ok(LogDaemon {
                alloc,
                config,
                head,
                sink,
                due: Vec::new(alloc),
                stopped: false,
            }),
        }
    }

    /// What was entered, where each entry fits the entries before it, and the sink. What is still due
    /// isn't written any more.
    pub fn close(self) -> (Past<Entry<LogEvent>>, S)
        ensures past { result.0 ≡ self.past }
        ensures law { LogLaw result.0 }
        ensures given { S.given result.1 ≡ self.given }
        ensures faults { S.faults result.1 ≡ self.faults }
    {
        let LogDaemon {
            alloc: _,
            config: _,
            head,
            sink,
            due: _,
            stopped: _,
        } = self;
        (head.close(), sink)
    }

    /// The incarnation of the service that stands.
    pub fn standing(&self, service: u16) -> Option<u32>
        requires { service < length self.now.config.services }
        ensures { result ≡ standing_by log_grant self.now.past service }
    {
        self.head.standing(service)
    }

    /// The greatest incarnation of the service that was installed, 0 for none.
    pub fn last(&self, service: u16) -> u32
        requires { service < length self.now.config.services }
        ensures { result ≡ last_by log_grant self.now.past service }
    {
        self.head.last(service)
    }

    /// Has the incarnation stand, and keeps the place of its revocation. Where memory is refused, all
    /// is as before.
    pub fn install(&mut self, service: u16, incarnation: u32) -> Result<(), AllocError>
        requires service { service < length self.old.config.services }
        requires later { last_by log_grant self.old.past service < incarnation }
        ensures ok { OnOk result (self.new ≡ entered self.old (event.Install service incarnation)) }
        ensures err { OnErr result (self.new ≡ self.old) }
    {
        let event = LogEvent::Install {
            service,
            incarnation,
        };
        self.head.install(service, incarnation, None, event)
    }

    /// Has the incarnation stand no longer. Where it doesn't stand, nothing changes. Takes no memory.
    pub fn revoke(&mut self, service: u16, incarnation: u32)
        requires { service < length self.old.config.services }
        ensures { self.new ≡ (if live_at_log self.old.past service incarnation then entered self.old (event.Revoke service incarnation) else self.old) }
    {
        let event = LogEvent::Revoke {
            service,
            incarnation,
        };
        self.head.revoke(service, incarnation, event);
    }

    /// Decides a text that an incarnation logs. The line of one that is logged becomes due at the
    /// sink, and is given to it by `write_out`. Where memory is refused, all is as before.
    pub fn log(
        &mut self,
        service: u16,
        incarnation: u32,
        text: Items<u8>,
    ) -> Result<Noted, AllocError>
        requires { service < length self.old.config.services }
        ensures verdict { IfOk result (λ v. v ≡ log_verdict self.old.config self.old.past service incarnation text) }
        ensures ok { OnOk result (self.new ≡ entered self.old (event.Log service incarnation text)) }
        ensures err { OnErr result (self.new ≡ self.old) }
    {
        self.head.make_room()?;
        let noted = self.noted(service, incarnation, text.as_slice());
        if noted == Noted::Logged && !self.stopped {
            let name = name_of(&self.config, service);
            add_line(
                self.alloc,
                &mut self.due,
                name,
                incarnation,
                text.as_slice(),
            )?;
        }
        self.head.enter(LogEvent::Log {
            service,
            incarnation,
            text,
        });
        Ok(noted)
    }

    fn noted(&self, service: u16, incarnation: u32, text: &[u8]) -> Noted
        requires { service < length self.now.config.services }
        ensures { result ≡ log_verdict self.now.config self.now.past service incarnation text.now }
    {
        if self.head.standing(service) != Some(incarnation) {
            Noted::Denied(Rule::StaleAtLog)
        } else if !may_log(self.config.loggers.as_slice(), service) {
            Noted::Denied(Rule::LogNotGranted)
        } else if text.len() > LONGEST_LOG {
            Noted::Denied(Rule::LogTooLong)
        } else {
            Noted::Logged
        }
    }

    /// Gives the sink what it wasn't given yet of the log's text, unless a write has failed before.
    /// Takes no memory.
    pub fn write_out(&mut self) -> WriteOut
        ensures whole { result ≡ WriteOut.Written → IfSome self.new.given (λ given. given ≡ log_text self.old.config self.old.past) }
        ensures part { IfSome self.new.given (λ given. IsFront given (log_text self.old.config self.old.past)) }
        ensures given { (more : List ℕ) × Appends self.old.given self.new.given more }
        ensures untold { self.old.given ≡ None → self.new.given ≡ None }
        ensures fault { result ≡ WriteOut.LogFault → (self.old.stopped ≡ false) × Rose self.old.faults self.new.faults }
        ensures still { result ≡ WriteOut.Written → self.new.faults ≡ self.old.faults }
        ensures before { result ≡ WriteOut.Stopped → (self.old.stopped ≡ true) × (self.new ≡ self.old) }
        ensures stopped { self.new.stopped ≡ is_stopped result }
        ensures sticks { self.old.stopped ≡ true → result ≡ WriteOut.Stopped }
        ensures later { self.old.faults ≤ self.new.faults }
        ensures same { self.new ≡ record self.old { given = self.new.given; faults = self.new.faults; stopped = self.new.stopped } }
    {
        if self.stopped {
            return WriteOut::Stopped;
        }
        match self.sink.put(&self.due) {
            Put::Done => {
                self.due.clear();
                WriteOut::Written
            }
            Put::Stopped(_) => {
                self.due.clear();
                self.stopped = true;
                WriteOut::LogFault
            }
        }
    }
}

// Adds a line; where memory is refused, the bytes are as before.
fn add_line(
    alloc: Global,
    due: &mut Vec<u8>,
    name: &[u8],
    incarnation: u32,
    text: &[u8],
) -> Result<(), AllocError>
    ensures ok { OnOk result (due.new.items ≡ due.old.items ++ log_line name.now incarnation text.now) }
    ensures err { OnErr result (due.new.items ≡ due.old.items) }
{
    let line = with_line(alloc, Vec::new(alloc), name, incarnation, text)?;
    due.extend_from_slice(&line)
}

impl<S: Sink> Journaled for LogDaemon<S> {
    type Entry = Entry<LogEvent>;

    ghost journal = { λ a. a.past };

    ghost by = { λ e. e.worker };

    ghost holder = { λ a. a.holder };

    ghost label = { λ _. 0 };

    ghost held = { λ a n. record a { holder = n } };

    fn hold(&mut self, number: u16)
        ensures same { self.new.past ≡ self.old.past }
        ensures holder { self.new.holder ≡ number }
        ensures all { self.new ≡ record self.old { holder = number } }
    {
        self.head.hold(number);
    }

    fn label(&self) -> u16 {
        0
    }

    fn holder(&self) -> u16 {
        self.head.holder()
    }
}
