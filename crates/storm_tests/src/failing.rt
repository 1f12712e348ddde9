//! Servers of which a call of the outside fails: each call of each object in turn. Whichever it is, the run goes to its end and
//! leaves a legal record, and tells of the fault what is due.

use crate::holding::holds;
use crate::legal::{CALM, judged};
use crate::storm::{Calls, Faults, SOUND, Storm};
use crate::weather::{Weather, orders, rage};
use okws_outer::child::Ended;
use std::alloc::Global;
use std::process::Abort;
use std::sync::Wait;
use std::thread::Threads;

/// What fails.
#[derive(Clone, Copy, PartialEq, Eq)]
enum What {
    /// An accept, of each door.
    Accept,
    /// A pull or a put of each connection, whose request comes whole or in pieces.
    Conn,
    ConnInPieces,
    /// A start of a child.
    Start,
    /// A pull or a put of the link of each child of guest.
    Link,
    /// A pull or a put of the console.
    Console,
    /// A put of the log's sink.
    Log,
    /// A run or a pin of the keeper.
    Rows,
}

/// The number of a call that no run comes to.
const MOST: u64 = 1_000;

/// The sizes of the pieces in which a request comes, but for one that comes whole.
const PIECES: &[usize] = &[5];

/// A small storm, in which guest is up all the time.
const MILD: Weather<'static> = Weather {
    relaunches: 1,
    relaunched: 1,
    order: b"relaunch other\n",
    requests: 8,
    ..CALM
};

/// A storm in which this call of an object fails.
fn failing(what: What, call: &[u64]) -> Weather<'_> {
    let failing = match what {
        What::Accept => Calls {
            accepts: call,
            ..SOUND
        },
        What::Start => Calls {
            starts: call,
            ..SOUND
        },
        What::Console => Calls {
            console: call,
            ..SOUND
        },
        What::Log => Calls { log: call, ..SOUND },
        What::Rows => Calls {
            rows: call,
            ..SOUND
        },
        What::Conn | What::ConnInPieces | What::Link => SOUND,
    };
    let is_conn = matches!(what, What::Conn | What::ConnInPieces);
    Weather {
        torn: u32::from(what == What::Link),
        links: if what == What::Link { call } else { &[] },
        conns: if is_conn { call } else { &[] },
        sizes: if what == What::ConnInPieces {
            PIECES
        } else {
            &[]
        },
        failing,
        ..MILD
    }
}

/// How many calls of an object have failed.
fn count_of(what: What, faults: &Faults) -> u64 {
    match what {
        What::Accept => faults.accepts,
        What::Conn | What::ConnInPieces => faults.conns,
        What::Start => faults.starts,
        What::Link => faults.links,
        What::Console => faults.console,
        What::Log => faults.log,
        What::Rows => faults.rows,
    }
}

/// How many of the operator's orders were answered.
fn answered(storm: &Storm) -> usize {
    storm.answers.iter().filter(|byte| **byte == b'\n').count()
}

/// Whether the record is legal where the operator's first orders, so many, were carried out.
fn is_legal_with(
    rt: &impl Abort,
    alloc: Global,
    storm: &Storm,
    weather: &Weather<'_>,
    count: usize,
) -> bool {
    let orders = orders(rt, alloc, weather);
    let Some(orders) = orders.get(..count) else {
        return false;
    };
    let plain = storm.plain(rt, alloc);
    judged(rt, alloc, storm, orders, &plain).is_empty()
}

/// Whether the record is legal. Where a call of the console failed, the order before it may have been carried out and not
/// answered; no later one was.
fn is_legal(rt: &impl Abort, alloc: Global, storm: &Storm, weather: &Weather<'_>) -> bool {
    let count = answered(storm);
    is_legal_with(rt, alloc, storm, weather, count)
        || (storm.faults.console > 0
            && is_legal_with(rt, alloc, storm, weather, count.saturating_add(1)))
}

/// Whether what a run says of its faults is so: a log and a console that failed are told of, and each number is that of a
/// connection that was taken, or was spent on an accept that failed.
fn is_told(storm: &Storm, weather: &Weather<'_>) -> bool {
    let ran = &storm.ran;
    let numbers = ran.counts.connections.saturating_add(storm.faults.accepts);
    !ran.starved
        && ran.log_failed == (storm.faults.log > 0)
        && ran.console_failed == (storm.faults.console > 0)
        && numbers == u64::from(weather.requests)
}

/// How many calls fail of a run in which this call of an object is to, if it is come to.
fn faults_at<R: Abort + Wait + Threads + Sync>(
    rt: &R,
    alloc: Global,
    what: What,
    call: u64,
) -> u64 {
    let calls = [call];
    let weather = failing(what, &calls);
    let storm = rage(rt, alloc, &weather);
    holds(rt, is_told(&storm, &weather), "told");
    holds(rt, is_legal(rt, alloc, &storm, &weather), "legal");
    count_of(what, &storm.faults)
}

/// Has each call of an object fail, one a run, until a run comes to no such call.
fn fail_each<R: Abort + Wait + Threads + Sync>(rt: &R, alloc: Global, what: What) {
    for call in 0..MOST {
        if faults_at(rt, alloc, what, call) == 0 {
            return holds(rt, call > 0, "no call");
        }
    }
    holds(rt, false, "each call fails");
}

#[test]
fn any_accept_may_fail(rt: HostRuntime) {
    fail_each(&rt, rt.alloc(), What::Accept);
}

#[test]
fn any_call_of_a_connection_may_fail(rt: HostRuntime) {
    fail_each(&rt, rt.alloc(), What::Conn);
    fail_each(&rt, rt.alloc(), What::ConnInPieces);
}

#[test]
fn any_start_may_fail(rt: HostRuntime) {
    fail_each(&rt, rt.alloc(), What::Start);
}

#[test]
fn any_call_of_a_link_may_fail(rt: HostRuntime) {
    fail_each(&rt, rt.alloc(), What::Link);
}

#[test]
fn any_call_of_the_console_may_fail(rt: HostRuntime) {
    fail_each(&rt, rt.alloc(), What::Console);
}

#[test]
fn any_put_of_the_log_may_fail(rt: HostRuntime) {
    fail_each(&rt, rt.alloc(), What::Log);
}

#[test]
fn any_call_of_a_keeper_may_fail(rt: HostRuntime) {
    fail_each(&rt, rt.alloc(), What::Rows);
}

/// What children answer of which it isn't known whether they have ended, from the first, the second or the third question on.
const UNKNOWN: [&[Ended]; 3] = [
    &[Ended::Failed],
    &[Ended::No, Ended::Failed],
    &[Ended::No, Ended::No, Ended::Failed],
];

// Such a child is taken to run: both services are launched, and one of them again as the operator orders.
#[test]
fn any_question_may_fail(rt: HostRuntime) {
    for answers in UNKNOWN {
        let weather = Weather { answers, ..MILD };
        let storm = rage(&rt, rt.alloc(), &weather);
        holds(&rt, is_told(&storm, &weather), "told");
        holds(&rt, is_legal(&rt, rt.alloc(), &storm, &weather), "legal");
        holds(&rt, storm.ran.counts.launches == 3, "launches");
    }
}
