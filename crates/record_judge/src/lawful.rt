//! The laws of the journals.

use crate::tries::{may_begin, may_give_up};
use monitor_model::record::End;
use okws_base::limit::{LONGEST_TEMPLATE, MOST_EDITIONS, MOST_INCARNATIONS};
use record_lines::answers::call_denial;
use record_lines::case::Case;
use record_lines::dialogs::are_answered;
use record_lines::plain::{At, Deed, Journal, Line};
use record_lines::standing::{editions, greatest, incarnation, standing};
use token_core::token;

/// Whether an incarnation was given what the seed says.
pub fn is_due(case: &Case<'_, '_>, line: &Line<'_>) -> bool {
    let k = line.incarnation;
    match line.at {
        At::Proxy(proxy) if 1 <= k && k <= MOST_INCARNATIONS => {
            let due = token(case.seed, line.service, k, proxy);
            line.bytes == due.bytes.as_slice()
        }
        At::Proxy(_) => false,
        _ => true,
    }
}

/// Whether a template may be published.
fn may_publish(case: &Case<'_, '_>, before: &[Line<'_>], line: &Line<'_>) -> bool {
    let count = case.site.templates.as_slice().len();
    u64::from(line.number) < count as u64
        && line.bytes.len() <= LONGEST_TEMPLATE
        && editions(before, line.number) < MOST_EDITIONS
}

/// Whether a dialog may stand where a cell has this incarnation.
fn may_speak(line: &Line<'_>, incarnation: u32) -> bool {
    match line.end {
        Some(End::Superseded(shown)) => incarnation != 0 && shown > incarnation,
        Some(_) => incarnation != 0,
        None => false,
    }
}

/// Whether a line of an incarnation that is new may stand behind these.
fn is_new(before: &[Line<'_>], line: &Line<'_>) -> bool {
    greatest(before, line.deed, line.service) < line.incarnation
}

/// Whether the line may stand behind these.
fn is_lawful(case: &Case<'_, '_>, before: &[Line<'_>], line: &Line<'_>) -> bool {
    match line.deed {
        Deed::Up => line.incarnation > 0,
        Deed::Install => is_due(case, line) && is_new(before, line),
        Deed::Revoke | Deed::Down => {
            standing(before, line.at, line.service) == Some(line.incarnation)
        }
        Deed::Call => !line.failed || call_denial(case.site, before, line).is_none(),
        Deed::Publish => may_publish(case, before, line),
        Deed::Begun => may_begin(case, before, line),
        Deed::Dead => may_give_up(case, before, line),
        Deed::Boot => incarnation(before) == 0 && is_new(before, line),
        Deed::Retired => incarnation(before) != 0,
        Deed::Dialog => may_speak(line, incarnation(before)),
        _ => true,
    }
}

/// Whether a journal keeps its law.
fn keeps_law(case: &Case<'_, '_>, journal: &Journal<'_>) -> bool {
    for (place, line) in journal.lines.iter().enumerate() {
        let before = journal.lines.get(..place).unwrap_or(&[]);
        if !is_lawful(case, before, line) {
            return false;
        }
    }
    true
}

/// Whether no more calls failed at a proxy than its keeper's count rose.
fn are_counted(case: &Case<'_, '_>, journal: &Journal<'_>) -> bool {
    let At::Proxy(proxy) = journal.at else {
        return true;
    };
    let mut failed = 0u64;
    for line in &journal.lines {
        if line.failed {
            failed = failed.saturating_add(1);
        }
    }
    match case.faults.get(usize::from(proxy)) {
        Some(rose) => failed <= *rose,
        None => failed == 0,
    }
}

/// Whether there is a journal for each proxy and each service.
fn are_all(case: &Case<'_, '_>) -> bool {
    let (mut proxies, mut cells) = (0usize, 0usize);
    for journal in &case.plain.journals {
        match journal.at {
            At::Proxy(_) => proxies = proxies.saturating_add(1),
            At::Cell(_) => cells = cells.saturating_add(1),
            _ => {}
        }
    }
    proxies == case.site.proxies.as_slice().len() && cells == case.site.services.as_slice().len()
}

/// Whether each journal keeps its law, and each dialog is answered by its entries' verdicts.
pub fn are_lawful(case: &Case<'_, '_>) -> bool {
    for journal in &case.plain.journals {
        if !keeps_law(case, journal) || !are_counted(case, journal) {
            return false;
        }
    }
    are_all(case) && are_answered(case)
}
