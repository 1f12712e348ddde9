//! The service of the crate's documentation.

use super::{BOOT, OPENED, REQUEST, ROWS, encoded, fed};
use crate::holding::holds;
use okws_base::value::{Row, Value};
use okws_outer::stream::Link;
use std::alloc::{AllocError, Global};
use svc_kit::answer::{Answer, Outcome, Session};
use svc_kit::calling::Event;
use svc_kit::service::{Booting, Service};
use svc_kit::stop::Stop;

/// Answers each request with a line for each row of query 1 at proxy 0.
fn serve<L: Link>(service: &mut Service<L>) -> Result<(), Stop> {
    let mut session = None;
    for _ in 0..u64::MAX {
        if let Event::Push { .. } = service.wait()? {
            continue;
        }
        if session.is_none() {
            session = match service.open(0)? {
                Some(Answer::Given(session)) => Some(session),
                _ => None,
            };
        }
        let lines = lines_of(service, session)?;
        let plain = Vec::from_slice(service.alloc, b"text/plain")?;
        let (status, content) = match lines {
            Some(lines) => (200, lines),
            None => (500, String::from_str(service.alloc, "refused\n")?),
        };
        let nowhere = Vec::new(service.alloc);
        service.reply(status, plain, nowhere, content.into_bytes())?;
    }
    Ok(())
}

/// A line for each row of a number and a text.
fn written(alloc: Global, rows: &[Row]) -> Result<String, AllocError> {
    let mut lines = String::new(alloc);
    for row in rows {
        if let [Value::Int(id), Value::Text(who)] = row.as_slice() {
            let line = format!(in alloc; "{id} {}\n", who.as_str())?;
            lines.push_str(&line)?;
        }
    }
    Ok(lines)
}

/// The rows that query 1 selects, a number and a text each; none where they were not given.
fn lines_of<L: Link>(
    service: &mut Service<L>,
    session: Option<Session>,
) -> Result<Option<String>, Stop> {
    let Some(session) = session else {
        return Ok(None);
    };
    match service.call(session, 1, Vec::new(service.alloc))? {
        Answer::Given(Outcome::Rows { rows, .. }) => {
            Ok(Some(written(service.alloc, rows.as_slice())?))
        }
        _ => Ok(None),
    }
}

#[test]
fn answers_with_rows(rt: HostRuntime) {
    let alloc = rt.alloc();
    let frames = [BOOT, REQUEST, OPENED, ROWS, REQUEST, "00000002090e"];
    let link = fed(&rt, alloc, 4096, &frames);
    let mut service = match Service::boot(alloc, link) {
        Booting::Booted(service) => service,
        Booting::Stopped(..) => panic!(rt; "not booted"),
    };
    holds(
        &rt,
        matches!(serve(&mut service), Err(Stop::Ended)),
        "ended",
    );
    let said = encoded(&rt, alloc, service.link.given());
    let want = concat!(
        "000000174100000000000000000001ade0b876903df1a0e56a5d40",
        "0000000a42000000000000000100",
        "0000001f4500c80a746578742f706c61696e000000000c3120616e6e0a3220626f620a",
        "0000000a42000000000000000100",
        "0000001b4501f40a746578742f706c61696e0000000008726566757365640a",
    );
    holds(&rt, said.as_str() == want, "said");
}
