//! What becomes of services and of the operator's commands.

use crate::holding::{holds, same};
use crate::outside::{Ended as Run, Plan, REPLIED, REPLY, child, client, get, own, plain, serve};
use okws_outer::child::Ended;
use okws_outer::gate::NoGate;
use okws_server::status::Status;
use outer_memory::children::ChildPlan;
use std::process::Abort;
use std::sync::Wait;
use std::thread::Threads;

/// What a client is told who asks for a path three times, one after the other.
fn thrice<R: Abort + AllocGlobal + Wait + Threads + Sync>(
    rt: &R,
    path: &str,
    plan: Plan<'_>,
) -> Run {
    let request = get(rt, rt.alloc(), path);
    let one = client(request.as_bytes());
    let plan = Plan {
        clients: &[one, one, one],
        ..plan
    };
    serve(rt, rt.alloc(), &plan, NoGate)
}

#[test]
fn a_bad_frame_ends_its_incarnation(rt: HostRuntime) {
    let plan = Plan {
        children: &[child(0, 1, b"\0\0"), child(0, 2, REPLY)],
        ..plain()
    };
    let ended = thrice(&rt, "/guest", plan);
    let [first, second, third] = ended.answers.as_slice() else {
        panic!(rt; "not three answers");
    };
    let bad = own(&rt, rt.alloc(), "502 Bad Gateway");
    same(&rt, first, bad.as_bytes());
    same(&rt, second, REPLIED.as_bytes());
    same(&rt, third, bad.as_bytes());
    holds(&rt, ended.status == Status::Ok, "status");
    holds(&rt, ended.started == 4, "started");
    holds(&rt, ended.heard.len() == 4, "heard");
}

#[test]
fn a_service_that_ends_at_once_is_a_bad_gateway(rt: HostRuntime) {
    let plan = Plan {
        children: &[child(0, 1, b"")],
        ..plain()
    };
    let ended = thrice(&rt, "/guest", plan);
    let answer = ended.answers.first().expect(&rt, "no answer");
    let bad = own(&rt, rt.alloc(), "502 Bad Gateway");
    same(&rt, answer, bad.as_bytes());
}

#[test]
fn an_idle_child_that_ended_is_launched_again(rt: HostRuntime) {
    let request = get(&rt, rt.alloc(), "/lost");
    let plan = Plan {
        words: &[
            "serve", "site", "--port", "8080", "--doors", "1", "--serve", "1",
        ],
        clients: &[client(request.as_bytes())],
        children: &[ChildPlan {
            answers: &[Ended::Yes],
            ..child(0, 1, b"")
        }],
        ..plain()
    };
    let run = serve(&rt, rt.alloc(), &plan, NoGate);
    let want = b"connections 1\naccepts 1\nlaunches 3\npublications 0\nlogged 0\n";
    same(&rt, &run.printed, want);
    holds(&rt, run.started == 3, "started");
}

#[test]
fn a_service_that_never_starts_is_given_up(rt: HostRuntime) {
    let plan = Plan {
        starts: &[0, 1, 2],
        console: b"",
        ..plain()
    };
    let ended = thrice(&rt, "/guest", plan);
    let down = own(&rt, rt.alloc(), "503 Service Unavailable");
    for answer in &ended.answers {
        same(&rt, answer, down.as_bytes());
    }
    holds(&rt, ended.answers.len() == 3, "answers");
    holds(&rt, ended.started == 1, "started");
}

#[test]
fn the_operator_is_answered(rt: HostRuntime) {
    let console = b"publish page 1\na\nrelaunch nobody\nrelaunch guest\nend\nrelaunch guest\n";
    let plan = Plan {
        words: &["serve", "site", "--port", "8080", "--serve", "0"],
        console,
        ..plain()
    };
    let ended = serve(&rt, rt.alloc(), &plan, NoGate);
    holds(&rt, ended.status == Status::Ok, "status");
    let answers = b"published 1\nrefused 3 2\nrelaunched 2\n";
    same(&rt, &ended.console, answers);
    let want = b"connections 0\naccepts 0\nlaunches 3\npublications 1\nlogged 0\n";
    same(&rt, &ended.printed, want);
}

/// Log of `hi`, and a Reply of 200 with `ok` as plain text.
const LOGS: &[u8] = b"\0\0\0\x07\x44\0\0\0\x02hi\0\0\0\x15\x45\0\xc8\x0atext/plain\0\0\0\0\x02ok";

/// A run in which a service has a text logged.
fn logged<R: Abort + AllocGlobal + Wait + Threads + Sync>(rt: &R) -> Run {
    let alloc = rt.alloc();
    let request = get(rt, alloc, "/guest");
    let plan = Plan {
        words: &[
            "serve", "site", "--port", "8080", "--serve", "1", "--log", "log",
        ],
        clients: &[client(request.as_bytes())],
        children: &[child(0, 1, LOGS)],
        ..plain()
    };
    serve(rt, alloc, &plan, NoGate)
}

#[test]
fn texts_are_logged(rt: HostRuntime) {
    let ended = logged(&rt);
    holds(&rt, ended.status == Status::Ok, "status");
    let log = ended.log.as_ref().map(|log| log.as_slice());
    holds(&rt, log == Some(b"guest 1 hi\n".as_slice()), "log");
}
