//! Small runs of a site with one service, one proxy, one door and the console, whose number is 1; number 2 launches.
//! A run is told in the order of time: the journals and the lists have its lines in this order.

use crate::dialogs::{REQUEST, SEED, Stuff};
use config_reader::read;
use monitor_model::record::End;
use okws_plan::configuration::Config;
use record_judge::judge::{Part, broken};
use record_lines::case::{Case, Incarnation};
use record_lines::plain::{At, Deed, Exchange, Journal, Line, Plain};
use std::alloc::Global;
use std::process::Abort;

/// One service, which may call query 3 of the proxy, reads the one template, and logs.
const SITE: &[u8] = b"okws 1\n\
    proxy main\n\
    table main msgs id INT KEY who TEXT note TEXT\n\
    row main msgs 1 'ann' 'hi'\n\
    row main msgs 2 'bob' 'yo'\n\
    query main 3 DELETE FROM msgs WHERE id = ?1\n\
    service guest ./svc_guest\n\
    uri /guest guest\n\
    grant guest main 3\n\
    template page\n\
    read guest page\n\
    log guest\n";

/// What a client is told whose request was replied to.
pub const REPLIED: &[u8] =
    b"HTTP/1.1 200 OK\r\nContent-Type: text/plain\r\nContent-Length: 2\r\nConnection: close\r\n\r\nok";

/// What a client is told whose dialog was a crash.
pub const CRASHED: &[u8] =
    b"HTTP/1.1 502 Bad Gateway\r\nContent-Type: text/plain\r\nContent-Length: 16\r\n\
    Connection: close\r\n\r\n502 Bad Gateway\n";

/// What a client is told whose service is not there.
pub const UNAVAILABLE: &[u8] = b"HTTP/1.1 503 Service Unavailable\r\nContent-Type: text/plain\r\n\
    Content-Length: 24\r\nConnection: close\r\n\r\n503 Service Unavailable\n";

/// What a client is told whose path nobody owns.
pub const NOT_FOUND: &[u8] =
    b"HTTP/1.1 404 Not Found\r\nContent-Type: text/plain\r\nContent-Length: 14\r\n\
    Connection: close\r\n\r\n404 Not Found\n";

/// A line that a number made.
pub fn by(worker: u16, line: Line<'_>) -> Line<'_> {
    Line { worker, ..line }
}

/// What was done of an incarnation of the service.
pub fn line(at: At, deed: Deed, incarnation: u32) -> Line<'static> {
    Line::new(at, deed, 0, incarnation)
}

/// A launcher's event of an incarnation, which worker 0 entered.
pub fn launcher(deed: Deed, incarnation: u32) -> Line<'static> {
    line(At::Launcher, deed, incarnation)
}

/// An Accept of a path, which worker 0 entered.
pub fn accept(path: &'static [u8]) -> Line<'static> {
    line(At::Okd, Deed::Accept, 0).with(path)
}

/// A Publish of a template with this text, which a worker entered.
pub fn publish(worker: u16, number: u32) -> Line<'static> {
    let publish = Line::new(At::Pubd, Deed::Publish, 0, 0).with(b"hi");
    by(worker, Line { number, ..publish })
}

/// Puts a line at the end.
pub fn add<'a>(rt: &impl Abort, lines: &mut Vec<Line<'a>>, line: Line<'a>) {
    lines.push(line).expect(rt, "memory was refused");
}

/// Launches an incarnation.
pub fn launch<'a>(rt: &impl Abort, lines: &mut Vec<Line<'a>>, stuff: &'a Stuff, incarnation: u32) {
    let [first, second] = &stuff.tokens;
    let token = if incarnation == 1 { first } else { second };
    let install = line(At::Proxy(0), Deed::Install, incarnation);
    add(rt, lines, by(2, install.with(&token.bytes)));
    add(rt, lines, by(2, line(At::Pubd, Deed::Install, incarnation)));
    let oklogd = line(At::Oklogd, Deed::Install, incarnation);
    add(rt, lines, by(2, oklogd));
    add(rt, lines, by(2, line(At::Cell(0), Deed::Boot, incarnation)));
    add(rt, lines, by(2, line(At::Okd, Deed::Up, incarnation)));
}

/// Ends what stands of the first incarnation at the columns.
pub fn revoke(rt: &impl Abort, lines: &mut Vec<Line<'_>>) {
    add(rt, lines, by(2, line(At::Okd, Deed::Down, 1)));
    add(rt, lines, by(2, line(At::Proxy(0), Deed::Revoke, 1)));
    add(rt, lines, by(2, line(At::Pubd, Deed::Revoke, 1)));
    add(rt, lines, by(2, line(At::Oklogd, Deed::Revoke, 1)));
}

/// Empties the cell.
pub fn retire(rt: &impl Abort, lines: &mut Vec<Line<'_>>) {
    add(rt, lines, by(2, line(At::Cell(0), Deed::Retired, 0)));
}

/// The service is launched, and retired at the end; no connection comes. These lines stand between.
pub fn idle<'a>(
    rt: &impl Abort,
    alloc: Global,
    stuff: &'a Stuff,
    between: &[Line<'static>],
) -> Vec<Line<'a>> {
    let mut lines = Vec::new(alloc);
    add(rt, &mut lines, launcher(Deed::Begun, 1));
    launch(rt, &mut lines, stuff, 1);
    for line in between {
        add(rt, &mut lines, *line);
    }
    retire(rt, &mut lines);
    lines
}

/// The dialog in which a session is opened and a query called, with its entries.
fn first_dialog<'a>(rt: &impl Abort, lines: &mut Vec<Line<'a>>, stuff: &'a Stuff) {
    let [token, _] = &stuff.tokens;
    add(rt, lines, accept(b"/guest"));
    let dialog = Line {
        items: &stuff.first,
        end: Some(End::Reply),
        ..line(At::Cell(0), Deed::Dialog, 0)
    };
    add(rt, lines, dialog);
    add(rt, lines, line(At::Pubd, Deed::Drain, 1));
    let open = line(At::Proxy(0), Deed::Open, 1);
    add(rt, lines, open.with(&token.bytes));
    let call = Line {
        query: 3,
        args: &stuff.args,
        ..line(At::Proxy(0), Deed::Call, 1)
    };
    add(rt, lines, call);
}

/// The dialog in which the service ends, and what its worker tells of it.
fn second_dialog<'a>(rt: &impl Abort, lines: &mut Vec<Line<'a>>, stuff: &'a Stuff) {
    add(rt, lines, accept(b"/guest"));
    let dialog = Line {
        items: &stuff.second,
        end: Some(End::Ended),
        ..line(At::Cell(0), Deed::Dialog, 0)
    };
    add(rt, lines, dialog);
    add(rt, lines, line(At::Pubd, Deed::Drain, 1));
    add(rt, lines, launcher(Deed::Crashed, 1));
    add(rt, lines, launcher(Deed::Begun, 2));
}

/// The page is published, two requests come, and the service is launched again.
pub fn short_run<'a>(rt: &impl Abort, alloc: Global, stuff: &'a Stuff) -> Vec<Line<'a>> {
    let mut lines = Vec::new(alloc);
    add(rt, &mut lines, launcher(Deed::Begun, 1));
    launch(rt, &mut lines, stuff, 1);
    add(rt, &mut lines, publish(1, 0));
    first_dialog(rt, &mut lines, stuff);
    second_dialog(rt, &mut lines, stuff);
    revoke(rt, &mut lines);
    launch(rt, &mut lines, stuff, 2);
    retire(rt, &mut lines);
    lines
}

/// The connections of the short run.
pub const CONNECTIONS: [Exchange<'static>; 2] = [
    Exchange {
        read: REQUEST,
        written: REPLIED,
        is_cut: false,
    },
    Exchange {
        read: REQUEST,
        written: CRASHED,
        is_cut: false,
    },
];

/// The lines that a journal has of a run.
fn lines_at<'a>(rt: &impl Abort, alloc: Global, lines: &[Line<'a>], at: At) -> Vec<Line<'a>> {
    let mut chosen = Vec::new(alloc);
    for line in lines {
        if line.at == at {
            add(rt, &mut chosen, *line);
        }
    }
    chosen
}

/// The lines that a number has of a run.
fn lines_by<'a>(rt: &impl Abort, alloc: Global, lines: &[Line<'a>], worker: u16) -> Vec<Line<'a>> {
    let mut chosen = Vec::new(alloc);
    for line in lines {
        if line.worker == worker {
            add(rt, &mut chosen, *line);
        }
    }
    chosen
}

/// The lines of a run but those of this deed at this place.
pub fn without<'a>(
    rt: &impl Abort,
    alloc: Global,
    lines: &[Line<'a>],
    at: At,
    deed: Deed,
) -> Vec<Line<'a>> {
    let mut kept = Vec::new(alloc);
    for line in lines {
        if line.at != at || line.deed != deed {
            add(rt, &mut kept, *line);
        }
    }
    kept
}

/// The places of the journals.
const PLACES: [At; 6] = [
    At::Okd,
    At::Proxy(0),
    At::Pubd,
    At::Oklogd,
    At::Launcher,
    At::Cell(0),
];

/// What a run leaves that goes so in the order of time, and whose door has these connections.
pub fn plain_of<'a>(
    rt: &impl Abort,
    alloc: Global,
    lines: &[Line<'a>],
    door: &[Exchange<'static>],
) -> Plain<'a> {
    let (mut journals, mut lists, mut doors) = (Vec::new(alloc), Vec::new(alloc), Vec::new(alloc));
    let mut told = Vec::new(alloc);
    for at in PLACES {
        let lines = lines_at(rt, alloc, lines, at);
        journals
            .push(Journal { at, lines })
            .expect(rt, "memory was refused");
    }
    for worker in 0..3u16 {
        lists
            .push(lines_by(rt, alloc, lines, worker))
            .expect(rt, "memory was refused");
    }
    for exchange in door {
        told.push(*exchange).expect(rt, "memory was refused");
    }
    doors.push(told).expect(rt, "memory was refused");
    Plain::new(alloc, journals, lists, doors)
}

/// What the outside tells of a run.
#[derive(Clone, Copy)]
pub struct Told<'c> {
    pub orders: Option<&'c [Line<'static>]>,
    pub ended: &'c [Incarnation],
}

/// Nothing failed, no child ended, and nothing was ordered.
pub fn quiet<'c>() -> Told<'c> {
    Told {
        orders: Some(&[]),
        ended: &[],
    }
}

/// The parts of a run's record that are not legal.
pub fn judged(rt: &impl Abort, alloc: Global, plain: &Plain<'_>, told: &Told<'_>) -> Vec<Part> {
    let Ok(site) = read(alloc, SITE) else {
        panic!(rt; "no site");
    };
    let mut orders = Vec::new(alloc);
    for order in told.orders.unwrap_or(&[]) {
        add(rt, &mut orders, *order);
    }
    let orders = told.orders.is_some().then_some(orders.as_slice());
    parts(rt, alloc, &site, plain, orders, told.ended)
}

fn parts<'c, 'a>(
    rt: &impl Abort,
    alloc: Global,
    site: &'c Config,
    plain: &'c Plain<'a>,
    orders: Option<&'c [Line<'a>]>,
    ended: &'c [Incarnation],
) -> Vec<Part> {
    let parts = broken(&Case {
        alloc,
        site,
        seed: &SEED,
        orders,
        ended,
        failures: 0,
        faults: &[0],
        plain,
    });
    parts.expect(rt, "memory was refused")
}
