//! Records of which one part alone is not legal.

use crate::dialogs::{REQUEST, stuff_of};
use crate::small::{
    CONNECTIONS, NOT_FOUND, Told, UNAVAILABLE, accept, add, by, idle, judged, launch, launcher,
    line, plain_of, publish, quiet, retire, revoke, short_run, without,
};
use monitor_model::record::End;
use record_judge::judge::Part;
use record_lines::case::Incarnation;
use record_lines::plain::{At, Deed, Exchange, Line, Plain};
use std::alloc::Global;
use std::process::Abort;

/// That these parts are this one alone.
fn only(rt: &impl Abort, part: Part, parts: &[Part]) {
    match parts {
        [one] if *one == part => {}
        [] => panic!(rt; "the record was found legal"),
        _ => panic!(rt; "other parts were found not legal"),
    }
}

/// What breaks of a run without connections in which these lines stand, and whose door had these.
fn broken_by(
    rt: &impl Abort,
    alloc: Global,
    between: &[Line<'static>],
    door: &[Exchange<'static>],
    told: &Told<'_>,
) -> Vec<Part> {
    let stuff = stuff_of(rt, alloc, 0);
    let plain = plain_of(rt, alloc, &idle(rt, alloc, &stuff, between), door);
    judged(rt, alloc, &plain, told)
}

/// What breaks of the short run where its lines of this deed, at this place, are left out.
fn broken_without(rt: &impl Abort, alloc: Global, at: At, deed: Deed) -> Vec<Part> {
    let (stuff, orders) = (stuff_of(rt, alloc, 0), [publish(1, 0)]);
    let lines = without(rt, alloc, &short_run(rt, alloc, &stuff), at, deed);
    let plain = plain_of(rt, alloc, &lines, &CONNECTIONS);
    let told = Told {
        orders: Some(&orders),
        ..quiet()
    };
    judged(rt, alloc, &plain, &told)
}

/// Puts a line at the end of a journal, and in no list.
fn enter<'a>(rt: &impl Abort, plain: &mut Plain<'a>, line: Line<'a>) {
    for journal in &mut plain.journals {
        if journal.at == line.at {
            add(rt, &mut journal.lines, line);
        }
    }
}

#[test]
fn a_call_that_nobody_made(rt: HostRuntime) {
    let alloc = rt.alloc();
    let stuff = stuff_of(&rt, alloc, 0);
    let mut plain = plain_of(&rt, alloc, &idle(&rt, alloc, &stuff, &[]), &[]);
    let log = line(At::Oklogd, Deed::Log, 1).with(b"hi");
    enter(&rt, &mut plain, log);
    only(&rt, Part::Made, &judged(&rt, alloc, &plain, &quiet()));
}

#[test]
fn an_entry_under_the_number_of_another(rt: HostRuntime) {
    let alloc = rt.alloc();
    let stuff = stuff_of(&rt, alloc, 0);
    let mut plain = plain_of(&rt, alloc, &idle(&rt, alloc, &stuff, &[]), &[]);
    for journal in &mut plain.journals {
        if journal.at == At::Oklogd {
            for line in &mut journal.lines {
                line.worker = 1;
            }
        }
    }
    only(&rt, Part::Made, &judged(&rt, alloc, &plain, &quiet()));
}

#[test]
fn a_publication_at_a_door(rt: HostRuntime) {
    let parts = broken_by(&rt, rt.alloc(), &[publish(0, 0)], &[], &quiet());
    only(&rt, Part::Pieced, &parts);
}

#[test]
fn a_publication_that_nobody_ordered(rt: HostRuntime) {
    let parts = broken_by(&rt, rt.alloc(), &[publish(1, 0)], &[], &quiet());
    only(&rt, Part::Pieced, &parts);
}

#[test]
fn an_order_that_is_not_carried_out(rt: HostRuntime) {
    let orders = [by(1, launcher(Deed::Asked, 0))];
    let told = Told {
        orders: Some(&orders),
        ..quiet()
    };
    let parts = broken_by(&rt, rt.alloc(), &[], &[], &told);
    only(&rt, Part::Pieced, &parts);
}

/// A connection whose service was not there.
const MISSED: Exchange<'static> = Exchange {
    read: REQUEST,
    written: UNAVAILABLE,
    is_cut: false,
};

#[test]
fn a_miss_that_is_not_true(rt: HostRuntime) {
    let missed = Line {
        number: 1,
        ..line(At::Cell(0), Deed::Missed, 7)
    };
    let between = [accept(b"/guest"), missed];
    let parts = broken_by(&rt, rt.alloc(), &between, &[MISSED], &quiet());
    only(&rt, Part::Missed, &parts);
}

#[test]
fn a_dialog_superseded_by_what_was_not_begun(rt: HostRuntime) {
    let dialog = Line {
        end: Some(End::Superseded(9)),
        ..line(At::Cell(0), Deed::Dialog, 0)
    };
    let between = [accept(b"/guest"), dialog];
    let parts = broken_by(&rt, rt.alloc(), &between, &[MISSED], &quiet());
    only(&rt, Part::Missed, &parts);
}

#[test]
fn a_publication_of_nothing(rt: HostRuntime) {
    let told = Told {
        orders: None,
        ..quiet()
    };
    let parts = broken_by(&rt, rt.alloc(), &[publish(1, 9)], &[], &told);
    only(&rt, Part::Lawful, &parts);
}

#[test]
fn an_answer_that_is_not_the_verdict(rt: HostRuntime) {
    let alloc = rt.alloc();
    let (stuff, orders) = (stuff_of(&rt, alloc, 7), [publish(1, 0)]);
    let lines = short_run(&rt, alloc, &stuff);
    let plain = plain_of(&rt, alloc, &lines, &CONNECTIONS);
    let told = Told {
        orders: Some(&orders),
        ..quiet()
    };
    only(&rt, Part::Lawful, &judged(&rt, alloc, &plain, &told));
}

#[test]
fn a_call_that_was_said_and_has_no_entry(rt: HostRuntime) {
    let parts = broken_without(&rt, rt.alloc(), At::Proxy(0), Deed::Call);
    only(&rt, Part::Lawful, &parts);
}

#[test]
fn an_accept_of_no_connection(rt: HostRuntime) {
    let parts = broken_by(&rt, rt.alloc(), &[accept(b"/x")], &[], &quiet());
    only(&rt, Part::Served, &parts);
}

#[test]
fn a_client_that_is_not_answered(rt: HostRuntime) {
    let lost = Exchange {
        read: b"GET /x HTTP/1.0\r\n\r\n",
        written: b"",
        is_cut: false,
    };
    let other = Exchange {
        written: b"HTTP/1.1 2",
        is_cut: true,
        ..lost
    };
    for exchange in [lost, other] {
        let parts = broken_by(&rt, rt.alloc(), &[accept(b"/x")], &[exchange], &quiet());
        only(&rt, Part::Served, &parts);
    }
}

#[test]
fn a_launch_that_skips_a_column(rt: HostRuntime) {
    let alloc = rt.alloc();
    let stuff = stuff_of(&rt, alloc, 0);
    let all = idle(&rt, alloc, &stuff, &[]);
    let lines = without(&rt, alloc, &all, At::Proxy(0), Deed::Install);
    let plain = plain_of(&rt, alloc, &lines, &[]);
    only(&rt, Part::Launched, &judged(&rt, alloc, &plain, &quiet()));
}

#[test]
fn a_relaunch_that_skips_a_revocation(rt: HostRuntime) {
    let parts = broken_without(&rt, rt.alloc(), At::Oklogd, Deed::Revoke);
    only(&rt, Part::Launched, &parts);
}

/// A crash of the first incarnation.
fn crash() -> Line<'static> {
    launcher(Deed::Crashed, 1)
}

#[test]
fn a_crash_that_leads_to_nothing(rt: HostRuntime) {
    let told = Told {
        ended: &[Incarnation {
            service: 0,
            number: 1,
        }],
        ..quiet()
    };
    let parts = broken_by(&rt, rt.alloc(), &[crash()], &[], &told);
    only(&rt, Part::Caused, &parts);
}

/// What breaks of a run in which these of the launcher's events are followed by a relaunch.
fn relaunched_by(rt: &impl Abort, alloc: Global, events: &[Line<'static>]) -> Vec<Part> {
    let stuff = stuff_of(rt, alloc, 0);
    let mut lines = idle(rt, alloc, &stuff, events);
    lines.pop();
    revoke(rt, &mut lines);
    retire(rt, &mut lines);
    launch(rt, &mut lines, &stuff, 2);
    retire(rt, &mut lines);
    judged(rt, alloc, &plain_of(rt, alloc, &lines, &[]), &quiet())
}

#[test]
fn a_crash_that_nobody_caused(rt: HostRuntime) {
    let events = [crash(), launcher(Deed::Begun, 2)];
    let parts = relaunched_by(&rt, rt.alloc(), &events);
    only(&rt, Part::Caused, &parts);
}

#[test]
fn a_relaunch_that_nobody_caused(rt: HostRuntime) {
    let parts = relaunched_by(&rt, rt.alloc(), &[launcher(Deed::Begun, 2)]);
    only(&rt, Part::Caused, &parts);
}

/// What breaks of a run whose first lines are these, and whose door had these connections.
fn begun_by(
    rt: &impl Abort,
    alloc: Global,
    begins: &[Line<'static>],
    door: &[Exchange<'static>],
) -> Vec<Part> {
    let stuff = stuff_of(rt, alloc, 0);
    let mut lines = Vec::new(alloc);
    for line in begins {
        add(rt, &mut lines, *line);
    }
    launch(rt, &mut lines, &stuff, 1);
    retire(rt, &mut lines);
    judged(rt, alloc, &plain_of(rt, alloc, &lines, door), &quiet())
}

#[test]
fn a_launch_that_is_late(rt: HostRuntime) {
    let lines = [by(1, launcher(Deed::Begun, 1))];
    let parts = begun_by(&rt, rt.alloc(), &lines, &[]);
    only(&rt, Part::First, &parts);
}

#[test]
fn a_request_that_comes_before_the_launches(rt: HostRuntime) {
    let early = Exchange {
        read: b"GET /lost HTTP/1.0\r\n\r\n",
        written: NOT_FOUND,
        is_cut: false,
    };
    let lines = [launcher(Deed::Begun, 1), accept(b"/lost")];
    let parts = begun_by(&rt, rt.alloc(), &lines, &[early]);
    only(&rt, Part::First, &parts);
}
