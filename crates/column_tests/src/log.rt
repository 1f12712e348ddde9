//! What is logged, and what the sink is given. Not tested here: who is installed when, which the tests
//! of runs have.

use crate::holding::{MEMORY, holds};
use crate::site::{bytes, config, entries, shared};
use log_daemon::{LogDaemon, WriteOut};
use monitor_model::verdict::Noted;
use okws_base::denial::Rule;
use okws_outer::memory::sink::MemorySink;
use std::alloc::Global;
use std::marker::Model;
use std::process::Abort;

const GUEST: u16 = 0;

const OTHER: u16 = 1;

// Two services, of which the first may log.
const SITE: &str = "okws 1
service guest ./svc_guest
service other ./svc_probe
log guest
";

// The column of a site with two services.
#[derive(Drop)]
struct Column<'a> {
    daemon: LogDaemon<MemorySink<'a>>,
}

impl<'a> Model for Column<'a> {
    ghost use Rattle.log_daemon.specs.Seen.{Seen};
    ghost use Rattle.std.specs.Prelude.{◌≡◌, length};

    ghost Value = { Seen };

    ghost view = { λ a. a.daemon };

    ghost invariant = { λ a. length a.daemon.config.services ≡ 2 };
}

impl<'a> Column<'a> {
    // Over a sink whose puts of these numbers fail, without an incarnation.
    fn new(rt: &impl Abort, alloc: Global, failing: &'a [u64]) -> Self {
        let config = config(rt, alloc, SITE);
        assert!(rt; config.services.as_slice().len() == 2);
        let config = shared(rt, alloc, config);
        let sink = MemorySink::new(alloc, 1024, failing).expect(rt, MEMORY);
        match LogDaemon::new(alloc, config, sink, true) {
            Ok(daemon) => Column { daemon },
            Err(_) => panic!(rt; "memory was refused"),
        }
    }

    fn install(&mut self, rt: &impl Abort, service: u16, incarnation: u32) {
        assert!(rt; service <= OTHER && self.daemon.last(service) < incarnation);
        self.daemon.install(service, incarnation).expect(rt, MEMORY);
    }

    // A text of guest.
    fn log(&mut self, rt: &impl Abort, alloc: Global, incarnation: u32, text: &[u8]) -> Noted {
        self.daemon
            .log(GUEST, incarnation, bytes(rt, alloc, text))
            .expect(rt, MEMORY)
    }

    // A text of other's first incarnation.
    fn log_other(&mut self, rt: &impl Abort, alloc: Global, text: &[u8]) -> Noted {
        self.daemon
            .log(OTHER, 1, bytes(rt, alloc, text))
            .expect(rt, MEMORY)
    }

    // What was logged is written out with this end.
    fn writes(&mut self, rt: &impl Abort, want: WriteOut) {
        holds(rt, self.daemon.write_out() == want, "another end");
    }

    // The first incarnation of guest.
    fn revoke(&mut self) {
        self.daemon.revoke(GUEST, 1);
    }
}

// It is this answer.
fn noted(rt: &impl Abort, found: Noted, want: Noted) {
    holds(rt, found == want, "another answer");
}

// It is a denial by this rule.
fn denied(rt: &impl Abort, answer: Noted, rule: Rule) {
    noted(rt, answer, Noted::Denied(rule));
}

// The column with an incarnation of each service.
fn installed<'a>(rt: &impl Abort, alloc: Global, failing: &'a [u64]) -> Column<'a> {
    let mut column = Column::new(rt, alloc, failing);
    column.install(rt, GUEST, 1);
    column.install(rt, OTHER, 1);
    column
}

#[test]
fn each_rule_denies(rt: HostRuntime) {
    let alloc = rt.alloc();
    let mut column = installed(&rt, alloc, &[]);
    noted(&rt, column.log(&rt, alloc, 1, &[b'z'; 1024]), Noted::Logged);
    denied(
        &rt,
        column.log(&rt, alloc, 1, &[b'z'; 1025]),
        Rule::LogTooLong,
    );
    denied(&rt, column.log(&rt, alloc, 2, b"hi"), Rule::StaleAtLog);
    denied(
        &rt,
        column.log_other(&rt, alloc, b"hi"),
        Rule::LogNotGranted,
    );
}

#[test]
fn a_revoked_incarnation_is_stale(rt: HostRuntime) {
    let alloc = rt.alloc();
    let mut column = installed(&rt, alloc, &[]);
    holds(&rt, column.daemon.last(GUEST) == 1, "last");
    holds(&rt, column.daemon.standing(GUEST) == Some(1), "stands");
    column.revoke();
    holds(&rt, column.daemon.standing(GUEST) == None, "revoked");
    denied(&rt, column.log(&rt, alloc, 1, b"hi"), Rule::StaleAtLog);
}

#[test]
fn lines_are_written_once(rt: HostRuntime) {
    let alloc = rt.alloc();
    let mut column = installed(&rt, alloc, &[]);
    column.log(&rt, alloc, 1, b"hi");
    column.writes(&rt, WriteOut::Written);
    column.log_other(&rt, alloc, b"no");
    column.log(&rt, alloc, 1, b"a\n\\");
    column.writes(&rt, WriteOut::Written);
    column.writes(&rt, WriteOut::Written);
    let (past, sink) = column.daemon.close();
    holds(&rt, entries(&past) == Some(5), "entries");
    let want = b"guest 1 hi\nguest 1 a\\x0a\\x5c\n";
    holds(&rt, sink.given() == want.as_slice(), "given");
}

#[test]
fn a_failed_write_stops_the_log(rt: HostRuntime) {
    let alloc = rt.alloc();
    let mut column = installed(&rt, alloc, &[1]);
    column.log(&rt, alloc, 1, b"hi");
    column.writes(&rt, WriteOut::Written);
    column.log(&rt, alloc, 1, b"ho");
    column.writes(&rt, WriteOut::LogFault);
    column.writes(&rt, WriteOut::Stopped);
    noted(&rt, column.log(&rt, alloc, 1, b"hey"), Noted::Logged);
    column.writes(&rt, WriteOut::Stopped);
    let (_, sink) = column.daemon.close();
    let want = b"guest 1 hi\n";
    holds(&rt, sink.given() == want.as_slice(), "given");
    holds(&rt, sink.faults() == 1, "faults");
}
