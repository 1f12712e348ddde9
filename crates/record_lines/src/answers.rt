//! What calls are answered.

use crate::case::Case;
use crate::plain::{At, Deed, Line};
use crate::rows::{answer_to, query_of};
use crate::standing::{editions, is_granted, standing};
use frame_codec::frame::ServerFrame;
use okws_base::limit::{LONGEST_LOG, MOST_SESSIONS};
use okws_plan::configuration::Config;
use okws_plan::meaning::fit;
use okws_plan::statement::Answer;

/// The token that an incarnation was given.
fn token_given<'a>(lines: &[Line<'a>], service: u16, incarnation: u32) -> Option<&'a [u8]> {
    for line in lines {
        if line.is(Deed::Install, service, incarnation) {
            return Some(line.bytes);
        }
    }
    None
}

/// How many sessions an incarnation has opened at a proxy.
fn opened(lines: &[Line<'_>], service: u16, incarnation: u32) -> u32 {
    let token = token_given(lines, service, incarnation);
    let (mut stands, mut count) = (false, 0u32);
    for line in lines {
        let own = line.service == service && line.incarnation == incarnation;
        if line.does(Deed::Install, service) {
            stands = own;
        } else if line.does(Deed::Revoke, service) {
            stands = false;
        } else if line.deed == Deed::Open && own && stands && token == Some(line.bytes) {
            count = count.saturating_add(1).min(MOST_SESSIONS);
        }
    }
    count
}

/// Whether the incarnation that asks stands there.
pub fn is_live(before: &[Line<'_>], line: &Line<'_>) -> bool {
    standing(before, line.at, line.service) == Some(line.incarnation)
}

/// The incarnation of a service to which a token was issued.
fn issued(before: &[Line<'_>], line: &Line<'_>) -> Option<u32> {
    let mut found = None;
    for other in before {
        if other.does(Deed::Install, line.service) && other.bytes == line.bytes {
            found = Some(other.incarnation);
        }
    }
    found
}

/// Whether a service may read a template.
pub fn reads(site: &Config, service: u16, template: u32) -> bool {
    for one in site.readables.as_slice() {
        if one.service == service && u32::from(one.template) == template {
            return true;
        }
    }
    false
}

/// The number of a template by its name, where the service may read it.
fn readable(site: &Config, service: u16, name: &[u8]) -> Option<u32> {
    let mut template = 0u32;
    for other in site.templates.as_slice() {
        if other.as_slice() == name {
            return reads(site, service, template).then_some(template);
        }
        template = template.saturating_add(1);
    }
    None
}

/// The rule that an Open breaks first, where it is denied.
fn open_denial(before: &[Line<'_>], line: &Line<'_>) -> Option<u8> {
    match issued(before, line) {
        None => Some(11),
        Some(incarnation) if incarnation != line.incarnation || !is_live(before, line) => Some(12),
        Some(_) => {
            let sessions = opened(before, line.service, line.incarnation);
            (sessions >= MOST_SESSIONS).then_some(17)
        }
    }
}

/// The rule that a Call breaks first, where it is denied.
pub fn call_denial(site: &Config, before: &[Line<'_>], line: &Line<'_>) -> Option<u8> {
    let At::Proxy(proxy) = line.at else {
        return Some(10);
    };
    if line.number >= opened(before, line.service, line.incarnation) {
        return Some(13);
    }
    if !is_live(before, line) {
        return Some(12);
    }
    match query_of(site, line) {
        Some(query) if is_granted(site, line.service, proxy, line.query) => {
            let fits = fit(query.statement.parameters.as_slice(), line.args);
            (!fits).then_some(15)
        }
        _ => Some(14),
    }
}

/// The rule that a Get breaks first, where it is denied.
fn get_denial(site: &Config, before: &[Line<'_>], line: &Line<'_>) -> Option<u8> {
    if !is_live(before, line) {
        return Some(20);
    }
    match readable(site, line.service, line.bytes) {
        None => Some(21),
        Some(template) => (editions(before, template) == 0).then_some(22),
    }
}

/// The rule that a Log breaks first, where it is denied.
fn log_denial(site: &Config, before: &[Line<'_>], line: &Line<'_>) -> Option<u8> {
    if !is_live(before, line) {
        return Some(30);
    }
    if !site.loggers.as_slice().contains(&line.service) {
        return Some(31);
    }
    (line.bytes.len() > LONGEST_LOG).then_some(32)
}

/// The rule that a call breaks first, where it is denied.
fn denial(site: &Config, before: &[Line<'_>], line: &Line<'_>) -> Option<u8> {
    match line.deed {
        Deed::Open => open_denial(before, line),
        Deed::Call => call_denial(site, before, line),
        Deed::Get => get_denial(site, before, line),
        Deed::Log => log_denial(site, before, line),
        _ => None,
    }
}

/// The text of the last edition of a template.
pub fn last_text<'a>(lines: &[Line<'a>], template: u32) -> Option<&'a [u8]> {
    let mut text = None;
    for line in lines {
        if line.deed == Deed::Publish && line.number == template {
            text = Some(line.bytes);
        }
    }
    text
}

/// Whether this frame tells what an allowed call answers.
fn tells_answer(
    case: &Case<'_, '_>,
    before: &[Line<'_>],
    line: &Line<'_>,
    heard: &ServerFrame,
) -> Option<bool> {
    if line.failed {
        return Some(matches!(heard, ServerFrame::Failed));
    }
    let answer = answer_to(case, before, line, query_of(case.site, line)?).ok()?;
    Some(match (&answer, heard) {
        (
            Answer::Rows { columns, rows },
            ServerFrame::Rows {
                columns: told,
                rows: given,
            },
        ) => { usize::from(*told) == *columns && rows == given }
        (Answer::Changed(count), ServerFrame::Changed(told)) => count == told,
        (Answer::Duplicate, ServerFrame::Duplicate) => true,
        _ => false,
    })
}

/// Whether this frame tells the last edition of the template that was asked for.
fn tells_template(
    site: &Config,
    before: &[Line<'_>],
    line: &Line<'_>,
    heard: &ServerFrame,
) -> Option<bool> {
    let template = readable(site, line.service, line.bytes)?;
    let ServerFrame::Template { edition, content } = heard else {
        return None;
    };
    let text = last_text(before, template)?;
    Some(*edition == editions(before, template) && content.as_slice() == text)
}

/// Whether this answers a call that is entered behind these lines.
pub fn is_answer(
    case: &Case<'_, '_>,
    before: &[Line<'_>],
    line: &Line<'_>,
    heard: &ServerFrame,
) -> bool {
    if let Some(rule) = denial(case.site, before, line) {
        return matches!(heard, ServerFrame::Denied(number) if *number == rule);
    }
    match (line.deed, heard) {
        (Deed::Open, ServerFrame::Opened(number)) => {
            *number == opened(before, line.service, line.incarnation)
        }
        (Deed::Call, _) => tells_answer(case, before, line, heard) == Some(true),
        (Deed::Get, _) => tells_template(case.site, before, line, heard) == Some(true),
        (Deed::Log, ServerFrame::Logged) => true,
        _ => false,
    }
}
