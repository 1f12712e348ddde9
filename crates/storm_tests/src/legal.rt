//! Records of storms, which are legal, and records in which one thing was changed, which are not.

use crate::edits::{EDITS, Edit, change};
use crate::holding::{MEMORY, holds};
use crate::site::SEED;
use crate::storm::{Calls, SOUND, Storm};
use crate::weather::{Weather, orders, rage};
use okws_outer::child::Ended;
use record_judge::judge::{Part, broken};
use record_lines::case::Case;
use record_lines::plain::{At, Deed, Line, Plain, has};
use std::alloc::Global;
use std::process::Abort;
use std::sync::Wait;
use std::thread::Threads;

/// A storm in which nothing fails.
pub const CALM: Weather<'static> = Weather {
    relaunches: 200,
    relaunched: 0,
    order: b"relaunch guest\n",
    last: b"end\n",
    requests: 200,
    short: 0,
    torn: 0,
    links: &[],
    conns: &[],
    sizes: &[],
    failing: SOUND,
    answers: &[],
};

/// A storm in which each third incarnation ends after a dialog, and children end now and then.
const SHORT: Weather<'static> = Weather {
    relaunches: 40,
    requests: 60,
    short: 3,
    answers: &[Ended::No, Ended::No, Ended::Yes],
    ..CALM
};

/// A storm in which a service cannot start at first, and another one at times, and links fail.
const FAILING: Weather<'static> = Weather {
    relaunches: 40,
    requests: 60,
    torn: 4,
    links: &[9],
    failing: Calls {
        starts: &[1, 2, 3, 9, 17, 18, 40],
        ..SOUND
    },
    ..CALM
};

/// A storm that is stopped behind a few orders, mostly while requests come.
const STOPPED: Weather<'static> = Weather {
    relaunches: 20,
    last: b"stop\n",
    ..CALM
};

/// A small storm, in which guest is up all the time, and fewer texts are logged than there are relaunches: so there
/// is something to change for each edit, however the threads take turns.
const SMALL: Weather<'static> = Weather {
    relaunches: 20,
    relaunched: 1,
    order: b"relaunch other\n",
    requests: 20,
    ..CALM
};

/// The parts of what a run left, as it stands in these lines, that are not legal.
pub fn judged<'a>(
    rt: &impl Abort,
    alloc: Global,
    storm: &Storm,
    orders: &[Line<'a>],
    plain: &Plain<'a>,
) -> Vec<Part> {
    let parts = broken(&Case {
        alloc,
        site: &storm.site,
        seed: &SEED,
        orders: Some(orders),
        ended: &storm.ended,
        failures: storm.faults.starts.saturating_add(storm.faults.links),
        faults: &[storm.faults.rows],
        plain,
    });
    parts.expect(rt, MEMORY)
}

/// Whether an Open of a token or a Call stands behind the Install of its incarnation, and behind the Revoke of that where
/// it isn't the last Install; and whether the token was issued to its service.
fn follows(before: &[Line<'_>], line: &Line<'_>) -> bool {
    if !matches!(line.deed, Deed::Open | Deed::Call) {
        return true;
    }
    let mut known = line.deed == Deed::Call;
    let mut last = 0;
    for other in before {
        if other.does(Deed::Install, line.service) {
            last = other.incarnation;
            known = known || other.bytes == line.bytes;
        }
    }
    let installed = has(before, Deed::Install, line.service, line.incarnation);
    let revoked = has(before, Deed::Revoke, line.service, line.incarnation);
    known && installed && (revoked || last == line.incarnation)
}

/// Whether all lines of a proxy's journal do.
fn all_follow(lines: &[Line<'_>]) -> bool {
    for (place, line) in lines.iter().enumerate() {
        match lines.get(..place) {
            Some(before) if follows(before, line) => {}
            _ => return false,
        }
    }
    true
}

/// Whether a storm of this weather, which ended well, has a legal record, in which no service asks
/// before it was installed.
pub fn is_lawful(rt: &impl Abort, alloc: Global, weather: &Weather<'_>, storm: &Storm) -> bool {
    let ran = &storm.ran;
    holds(rt, !ran.starved, "starved");
    holds(rt, !ran.console_failed, "the console");
    holds(rt, !ran.log_failed, "the log");
    let plain = storm.plain(rt, alloc);
    let followed = all_follow(plain.journal(At::Proxy(0)));
    holds(rt, followed, "a service asked before it was installed");
    let orders = orders(rt, alloc, weather);
    judged(rt, alloc, storm, &orders, &plain).is_empty()
}

/// Whether a storm whose requests are all served has a legal record.
fn is_legal<R: Abort + Wait + Threads + Sync>(
    rt: &R,
    alloc: Global,
    weather: &Weather<'_>,
) -> bool {
    let storm = rage(rt, alloc, weather);
    let served = storm.ran.counts.connections;
    holds(rt, served == u64::from(weather.requests), "connections");
    is_lawful(rt, alloc, weather, &storm)
}

#[test]
fn a_storm_leaves_a_legal_record(rt: HostRuntime) {
    holds(&rt, is_legal(&rt, rt.alloc(), &CALM), "legal");
}

#[test]
fn a_storm_of_crashes_leaves_a_legal_record(rt: HostRuntime) {
    holds(&rt, is_legal(&rt, rt.alloc(), &SHORT), "legal");
}

#[test]
fn a_storm_of_failing_starts_and_links_leaves_a_legal_record(rt: HostRuntime) {
    holds(&rt, is_legal(&rt, rt.alloc(), &FAILING), "legal");
}

#[test]
fn a_storm_that_is_stopped_leaves_a_legal_record(rt: HostRuntime) {
    let alloc = rt.alloc();
    let storm = rage(&rt, alloc, &STOPPED);
    let served = storm.ran.counts.connections;
    let told = format!(in alloc; "\nstopping {served}\n").expect(&rt, MEMORY);
    let answers = storm.answers.as_slice();
    holds(
        &rt,
        answers.ends_with(told.as_bytes()),
        "as many were begun as it told",
    );
    holds(&rt, is_lawful(&rt, alloc, &STOPPED, &storm), "legal");
}

/// The first part that an edit of a storm's record breaks.
fn broken_by(rt: &impl Abort, alloc: Global, storm: &Storm, edit: Edit) -> Option<Part> {
    let mut plain = storm.plain(rt, alloc);
    change(&mut plain, edit).expect(rt, "nothing to change");
    let all = orders(rt, alloc, &SMALL);
    let skipped = usize::from(edit == Edit::OrderMissing);
    let orders = all.get(skipped..).expect(rt, "no order");
    judged(rt, alloc, storm, orders, &plain).first().copied()
}

/// What an edit is called where it breaks another part.
fn name_of(edit: Edit) -> &'static str {
    match edit {
        Edit::EntryDropped => "an entry dropped",
        Edit::OrderDropped => "an order dropped",
        Edit::ShownChanged => "another incarnation shown",
        Edit::CallDropped => "a call dropped",
        Edit::AnswerLost => "an answer lost",
        Edit::RevokeSkipped => "a revoke skipped",
        Edit::OrderMissing => "an order missing",
        Edit::AcceptFirst => "an accept first",
    }
}

#[test]
fn each_change_of_a_record_breaks_a_part(rt: HostRuntime) {
    let storm = rage(&rt, rt.alloc(), &SMALL);
    for (edit, part) in EDITS {
        let broken = broken_by(&rt, rt.alloc(), &storm, edit);
        holds(&rt, broken == Some(part), name_of(edit));
    }
}
