//! What the console's `status` tells of a site.

use crate::holding::{MEMORY, holds};
use crate::legal::{CALM, is_lawful};
use crate::storm::{Calls, SOUND};
use crate::weather::{Weather, rage};
use std::alloc::Global;
use std::process::Abort;

/// A site to which no request comes, and of which nothing is ordered.
const QUIET: Weather<'static> = Weather {
    relaunches: 0,
    requests: 0,
    last: b"status\nend\n",
    ..CALM
};

/// The numbers of the last line that the console was answered.
fn last_numbers(rt: &impl Abort, alloc: Global, answers: &[u8]) -> Vec<u64> {
    let mut numbers = Vec::new(alloc);
    for &byte in answers {
        match byte {
            b'a'..=b'z' => numbers.clear(),
            b' ' => numbers.push(0u64).expect(rt, MEMORY),
            b'0'..=b'9' => {
                let digit = u64::from(byte.wrapping_sub(b'0'));
                if let Some(last) = numbers.last_mut() {
                    *last = last.saturating_mul(10).saturating_add(digit);
                }
            }
            _ => {}
        }
    }
    numbers
}

#[test]
fn a_quiet_site_is_told_as_it_stands(rt: HostRuntime) {
    let storm = rage(&rt, rt.alloc(), &QUIET);
    holds(
        &rt,
        storm.answers.as_slice() == b"status 0 0 2 0 0 2 0 0\n".as_slice(),
        "two services are up",
    );
}

#[test]
fn what_was_given_up_is_told_as_dead(rt: HostRuntime) {
    let weather = Weather {
        failing: Calls {
            starts: &[1, 2, 3],
            ..SOUND
        },
        ..QUIET
    };
    let storm = rage(&rt, rt.alloc(), &weather);
    holds(
        &rt,
        storm.answers.as_slice() == b"status 0 0 1 0 0 1 0 1\n".as_slice(),
        "one service is dead",
    );
}

#[test]
fn what_was_ordered_is_counted(rt: HostRuntime) {
    let weather = Weather {
        relaunches: 9,
        ..QUIET
    };
    let storm = rage(&rt, rt.alloc(), &weather);
    let answers = storm.answers.as_slice();
    holds(
        &rt,
        answers.ends_with(b"\nstatus 0 0 11 1 0 2 0 0\n"),
        "two launches, nine relaunches and a publication",
    );
}

#[test]
fn a_status_in_a_storm_tells_no_more_than_was_done(rt: HostRuntime) {
    let alloc = rt.alloc();
    let weather = Weather {
        last: b"status\nend\n",
        ..CALM
    };
    let storm = rage(&rt, alloc, &weather);
    holds(&rt, is_lawful(&rt, alloc, &weather, &storm), "legal");
    let numbers = last_numbers(&rt, alloc, storm.answers.as_slice());
    let counts = &storm.ran.counts;
    let [
        connections,
        accepts,
        launches,
        publications,
        logged,
        up,
        down,
        dead,
    ] = numbers.as_slice()
    else {
        holds(&rt, false, "eight numbers");
        return;
    };
    holds(&rt, *connections <= counts.connections, "connections");
    holds(&rt, *accepts <= counts.accepts, "accepts");
    holds(&rt, *launches <= counts.launches, "launches");
    holds(&rt, *publications == counts.publications, "publications");
    holds(&rt, *logged <= counts.logged, "logged");
    let services = up.saturating_add(*down).saturating_add(*dead);
    holds(&rt, services == 2, "services");
}
