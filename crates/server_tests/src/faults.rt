//! What becomes of a run of which a call of the outside fails.

use crate::holding::{MEMORY, holds, same};
use crate::outside::{Ended as Run, Plan, REPLIED, child, client, own, plain, serve};
use okws_outer::child::Ended;
use okws_outer::gate::NoGate;
use okws_server::status::Status;
use outer_memory::children::ChildPlan;
use outer_memory::door::Client;
use std::alloc::Global;
use std::process::Abort;
use std::sync::Wait;
use std::thread::Threads;

/// Two proxies, and two services.
const SITE: &str = "okws 1\n\
    proxy main\n\
    table main msgs id INT KEY who TEXT\n\
    proxy side\n\
    table side t n INT\n\
    service guest ./svc_guest\n\
    service other ./svc_probe\n\
    uri /guest guest\n\
    log guest\n";

const GET: &[u8] = b"GET /guest HTTP/1.1\r\nHost: localhost\r\n\r\n";

/// Twice a Log of `hi`, and a Reply of 200 with `ok` as plain text.
const LOGS: &[u8] = b"\0\0\0\x07\x44\0\0\0\x02hi\0\0\0\x15\x45\0\xc8\x0atext/plain\0\0\0\0\x02ok\
    \0\0\0\x07\x44\0\0\0\x02hi\0\0\0\x15\x45\0\xc8\x0atext/plain\0\0\0\0\x02ok";

/// Runs, a row each: a call that fails, by its object and the number of the call; the status; how many keepers of rows were given
/// back and how many children were started; what each of two clients is told who ask for guest; the counts that are printed; and the
/// last line. Lines that begin with `#` say which rule gives the rows behind them, and `-` is nothing.
const ROWS: &str = "
# A configuration is read whole: one pull takes its bytes, and one finds their end.
file 0 | 3 | 0 0 | none | - | read fault
file 1 | 3 | 0 0 | none | - | read fault
# A keeper is made for each proxy, and what was made is given back where one cannot be.
make 0 | 6 | 0 0 | none | - | store fault
make 1 | 6 | 1 0 | none | - | store fault
# Doors are opened once the keepers are made, and before any child is started.
listen 0 | 5 | 2 0 | none | - | net fault
# A log that fails is told of at the end.
opening 0 | 7 | 2 2 | 200 OK, 200 OK | 2 2 2 0 2 | log fault
log 0 | 7 | 2 2 | 200 OK, 200 OK | 2 2 2 0 2 | log fault
# So is a console; the doors serve all connections.
console 0 | 10 | 2 2 | 200 OK, 200 OK | 2 2 2 0 2 | console fault
# An accept that fails uses a connection's number up, and the door goes on.
accept 0 | 0 | 2 2 | 200 OK | 1 1 2 0 1 | -
accept 1 | 0 | 2 2 | 200 OK | 1 1 2 0 1 | -
# Where a start fails the next incarnation is begun.
start 0 | 0 | 2 2 | 200 OK, 200 OK | 2 2 2 0 2 | -
start 1 | 0 | 2 2 | 200 OK, 200 OK | 2 2 2 0 2 | -
# A connection is cut where its request cannot be taken, or its response not given, and the door goes on.
conn 0 | 0 | 2 2 | -, 200 OK | 2 1 2 0 1 | -
conn 1 | 0 | 2 2 | -, 200 OK | 2 2 2 0 2 | -
# Where Boot cannot be put the next incarnation is begun.
link 0 | 0 | 2 3 | 200 OK, 200 OK | 2 2 2 0 2 | -
# Where the Request cannot be put, or nothing taken behind it, the dialog is a crash, and the service is launched anew.
link 1 | 0 | 2 3 | 502 Bad Gateway, 200 OK | 2 2 3 0 1 | -
link 2 | 0 | 2 3 | 502 Bad Gateway, 200 OK | 2 2 3 0 1 | -
# A child of which it isn't known whether it has ended is taken to run.
ended 0 | 0 | 2 2 | 200 OK, 200 OK | 2 2 2 0 2 | -
";

/// What a child answers of which it isn't known whether it has ended.
const UNKNOWN: &[Ended] = &[Ended::Failed];

/// The calls that fail, where this is the object of which they do.
fn calls_of<'a>(what: &str, object: &str, calls: &'a [u64]) -> &'a [u64] {
    if what == object { calls } else { &[] }
}

/// A run of two proxies, two services and two clients, in which these calls of an object fail, and these of what is printed.
fn serve_failing<R: Abort + Wait + Threads + Sync>(
    rt: &R,
    alloc: Global,
    what: &str,
    calls: &[u64],
    prints: &[u64],
) -> Run {
    let first = ChildPlan {
        failing: calls_of(what, "link", calls),
        answers: if what == "ended" { UNKNOWN } else { &[] },
        ..child(0, 1, LOGS)
    };
    let cut = Client {
        failing: calls_of(what, "conn", calls),
        ..client(GET)
    };
    let plan = Plan {
        site: SITE,
        words: &[
            "serve", "site", "--port", "8080", "--doors", "1", "--serve", "2", "--store", "rows",
            "--log", "log",
        ],
        clients: &[cut, client(GET)],
        children: &[first, child(0, 2, LOGS)],
        starts: calls_of(what, "start", calls),
        listens: calls_of(what, "listen", calls),
        accepts: calls_of(what, "accept", calls),
        reads: calls_of(what, "file", calls),
        openings: calls_of(what, "opening", calls),
        logs: calls_of(what, "log", calls),
        makings: calls_of(what, "make", calls),
        slips: calls_of(what, "console", calls),
        prints,
        ..plain()
    };
    serve(rt, alloc, &plan, NoGate)
}

/// The next field of a row.
fn next<'a>(row: &mut &'a str) -> &'a str {
    let (field, rest) = row.split_once(" | ").unwrap_or((*row, ""));
    *row = rest;
    field
}

/// A number.
fn number(rt: &impl Abort, text: &str) -> u64 {
    text.parse().expect(rt, text)
}

/// What is printed of these counts, with this last line.
fn printed(rt: &impl Abort, alloc: Global, counts: &str, last: &str) -> String {
    let mut text = String::new(alloc);
    if counts != "-" {
        let names = [
            "connections",
            "accepts",
            "launches",
            "publications",
            "logged",
        ];
        for (name, count) in names.iter().zip(counts.split(' ')) {
            write!(text, "{name} {count}\n").expect(rt, MEMORY);
        }
    }
    if last != "-" {
        write!(text, "{last}\n").expect(rt, MEMORY);
    }
    text
}

/// The clients are told this.
fn are_told(rt: &impl Abort, alloc: Global, ended: &Run, told: &str) {
    let mut answers = ended.answers.iter();
    if told != "none" {
        for status in told.split(", ") {
            let answer = answers.next().expect(rt, told);
            match status {
                "-" => holds(rt, answer.is_empty(), told),
                "200 OK" => same(rt, answer, REPLIED.as_bytes()),
                _ => same(rt, answer, own(rt, alloc, status).as_bytes()),
            }
        }
    }
    holds(rt, answers.next().is_none(), told);
}

/// A run goes as its row says.
fn try_row<R: Abort + Wait + Threads + Sync>(rt: &R, alloc: Global, line: &str) {
    let mut row = line;
    let (what, call) = next(&mut row).split_once(' ').expect(rt, line);
    let ended = serve_failing(rt, alloc, what, &[number(rt, call)], &[]);
    let status = number(rt, next(&mut row));
    holds(rt, u64::from(ended.status.number()) == status, line);
    let (kept, started) = next(&mut row).split_once(' ').expect(rt, line);
    holds(rt, ended.kept == number(rt, kept), line);
    holds(rt, ended.started as u64 == number(rt, started), line);
    are_told(rt, alloc, &ended, next(&mut row));
    let counts = next(&mut row);
    let due = printed(rt, alloc, counts, next(&mut row));
    same(rt, &ended.printed, due.as_bytes());
}

#[test]
fn each_fault_comes_to_what_is_due(rt: HostRuntime) {
    for line in ROWS.split('\n') {
        if !line.is_empty() && !line.starts_with('#') {
            try_row(&rt, rt.alloc(), line);
        }
    }
}

/// The status of a run in which this put of what is printed fails, and puts of the log; nothing where all of this text was printed.
fn status_at<R: Abort + Wait + Threads + Sync>(
    rt: &R,
    alloc: Global,
    logs: &[u64],
    put: u64,
    due: &str,
) -> Option<Status> {
    let ended = serve_failing(rt, alloc, "log", logs, &[put]);
    holds(rt, due.as_bytes().starts_with(&ended.printed), "a front");
    if ended.printed.len() == due.len() {
        return None;
    }
    Some(ended.status)
}

/// A run in which any put of what is printed fails ends with this status.
fn ends_with<R: Abort + Wait + Threads + Sync>(
    rt: &R,
    alloc: Global,
    logs: &[u64],
    status: Status,
    last: &str,
) {
    let due = printed(rt, alloc, "2 2 2 0 2", last);
    for put in 0..100 {
        match status_at(rt, alloc, logs, put, due.as_str()) {
            Some(found) => holds(rt, found == status, last),
            None => return holds(rt, put > 5, last),
        }
    }
    holds(rt, false, last);
}

#[test]
fn an_out_that_fails_leaves_a_status_that_was_there(rt: HostRuntime) {
    let alloc = rt.alloc();
    ends_with(&rt, alloc, &[], Status::OutFault, "-");
    // The log's first put fails too, and the last thing that is printed is the line of that.
    ends_with(&rt, alloc, &[0], Status::LogFault, "log fault");
}

// The log is a front of its text, whichever of its puts fails, and all of it where none does.
#[test]
fn a_log_that_fails_is_a_front(rt: HostRuntime) {
    let text = b"guest 1 hi\nguest 1 hi\n";
    for put in 0..100 {
        let ended = serve_failing(&rt, rt.alloc(), "log", &[put], &[]);
        let log = ended.log.as_ref().expect(&rt, "no log");
        if ended.status == Status::Ok {
            same(&rt, log, text);
            return holds(&rt, put > 0, "no put fails");
        }
        holds(&rt, ended.status == Status::LogFault, "status");
        holds(&rt, text.starts_with(log), "a front");
    }
    holds(&rt, false, "each put fails");
}
