//! Records that are legal.

use crate::dialogs::stuff_of;
use crate::small::{CONNECTIONS, Told, idle, judged, plain_of, publish, quiet, short_run};
use record_judge::judge::Part;
use std::process::Abort;

/// No part is not legal.
fn is_legal(rt: &impl Abort, parts: &[Part]) {
    assert!(rt; parts.is_empty(), "parts were found not legal");
}

#[test]
fn a_run_without_connections_is_legal(rt: HostRuntime) {
    let alloc = rt.alloc();
    let stuff = stuff_of(&rt, alloc, 0);
    let plain = plain_of(&rt, alloc, &idle(&rt, alloc, &stuff, &[]), &[]);
    is_legal(&rt, &judged(&rt, alloc, &plain, &quiet()));
}

#[test]
fn a_short_run_is_legal(rt: HostRuntime) {
    let alloc = rt.alloc();
    let stuff = stuff_of(&rt, alloc, 0);
    let orders = [publish(1, 0)];
    let lines = short_run(&rt, alloc, &stuff);
    let plain = plain_of(&rt, alloc, &lines, &CONNECTIONS);
    let told = Told {
        orders: Some(&orders),
        ..quiet()
    };
    is_legal(&rt, &judged(&rt, alloc, &plain, &told));
}
