//! What the console's `status` is answered.

use crate::console::{conn, declared, next, site_of};
use crate::holding::{MEMORY, holds, same};
use admin_console::answer::Answer;
use admin_console::controls::Status;
use admin_console::reader::Reader;
use admin_console::rule::Rule;
use admin_console::step::Stepped;

/// What is told of a site.
pub(crate) const SHOWN: Status = Status {
    connections: 10,
    accepts: 9,
    launches: 8,
    publications: 7,
    logged: 6,
    up: 5,
    down: 4,
    dead: 3,
};

#[test]
fn a_status_tells_eight_numbers(rt: HostRuntime) {
    let alloc = rt.alloc();
    let config = declared(&rt, alloc);
    let mut steered = site_of(&config);
    let mut reader = Reader::new(alloc).expect(&rt, MEMORY);
    let mut console = conn(
        &rt,
        alloc,
        b"status now\n\tstatus\r\nrelaunch guest\n",
        60,
        &[],
    );
    let refused = Answer::Refused {
        line: 1,
        rule: Rule::NoCommand,
    };
    let first = next(&rt, alloc, &mut console, &mut reader, &mut steered);
    holds(&rt, first == Stepped::Answered(refused), "the first step");
    holds(&rt, steered.surveyed == 0, "nothing was counted");
    let second = next(&rt, alloc, &mut console, &mut reader, &mut steered);
    let status = Answer::Status(steered.status);
    holds(&rt, second == Stepped::Answered(status), "the second step");
    same(
        &rt,
        console.given(),
        b"refused 1 1\nstatus 10 9 8 7 6 5 4 3\n",
    );
    same(&rt, console.left(), b"relaunch guest\n");
    holds(
        &rt,
        (steered.surveyed, steered.relaunched) == (1, 0),
        "it was counted once",
    );
}

#[test]
fn a_status_has_room_for_the_greatest_numbers(rt: HostRuntime) {
    let alloc = rt.alloc();
    let config = declared(&rt, alloc);
    let mut steered = site_of(&config);
    let most = 18_446_744_073_709_551_615;
    steered.status = Status {
        connections: most,
        accepts: most,
        launches: most,
        publications: most,
        logged: most,
        up: 65_535,
        down: 65_535,
        dead: 65_535,
    };
    let mut reader = Reader::new(alloc).expect(&rt, MEMORY);
    let mut console = conn(&rt, alloc, b"status\n", 150, &[]);
    let told = next(&rt, alloc, &mut console, &mut reader, &mut steered);
    let status = Answer::Status(steered.status);
    holds(&rt, told == Stepped::Answered(status), "the step");
    same(
        &rt,
        console.given(),
        b"status 18446744073709551615 18446744073709551615 18446744073709551615 18446744073709551615 18446744073709551615 65535 65535 65535\n",
    );
    let mut mute = conn(&rt, alloc, b"status\n", 9, &[]);
    let untold = next(&rt, alloc, &mut mute, &mut reader, &mut steered);
    holds(&rt, untold == Stepped::ConsoleFault(Some(status)), "untold");
    same(&rt, mute.given(), b"status 18");
}
