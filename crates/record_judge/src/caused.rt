//! The causes and the consequences of launches and crashes.

use okws_base::limit::MOST_INCARNATIONS;
use record_lines::case::Case;
use record_lines::plain::{At, Deed, Line, has, is_said};
use record_lines::standing::{begun, incarnation, is_crash};

/// Whether an event is the next launch of a service, or gives it up.
fn settles(line: &Line<'_>, service: u16) -> bool {
    line.does(Deed::Begun, service) || line.does(Deed::Dead, service)
}

/// Whether want of memory is the next item of who made an event, which stands behind these of the launcher's.
fn wants_next(case: &Case<'_, '_>, before: &[Line<'_>], line: &Line<'_>) -> bool {
    let mut left = 0usize;
    for other in before {
        if other.worker == line.worker {
            left = left.saturating_add(1);
        }
    }
    let list = case.plain.list(line.worker);
    for (place, item) in list.iter().enumerate() {
        if item.at == At::Launcher {
            if left == 0 {
                let next = list.get(place.saturating_add(1));
                return matches!(next, Some(next) if next.deed == Deed::NoMemory);
            }
            left = left.saturating_sub(1);
        }
    }
    false
}

/// Whether an event asks for a launch, behind these.
fn asks(before: &[Line<'_>], line: &Line<'_>) -> bool {
    match line.deed {
        Deed::Asked => true,
        Deed::Failed | Deed::Crashed => line.incarnation == begun(before, line.service),
        _ => false,
    }
}

/// Whether the next event of a worker launches a service or gives it up, or a later one of another worker does.
fn is_settled(behind: &[Line<'_>], worker: u16, service: u16) -> bool {
    let mut is_next = true;
    for other in behind {
        let own = other.worker == worker;
        if (!own || is_next) && settles(other, service) {
            return true;
        }
        is_next = is_next && !own;
    }
    false
}

/// Whether an event that asks for a launch leads to one, or to the end of launching.
fn leads_on(
    case: &Case<'_, '_>,
    before: &[Line<'_>],
    line: &Line<'_>,
    behind: &[Line<'_>],
) -> bool {
    !asks(before, line)
        || is_settled(behind, line.worker, line.service)
        || wants_next(case, before, line)
        || begun(case.plain.journal(At::Launcher), line.service) >= MOST_INCARNATIONS
}

/// Whether the launch of an incarnation neither came up nor failed.
fn broke_off(case: &Case<'_, '_>, service: u16, incarnation: u32) -> bool {
    !has(case.plain.journal(At::Okd), Deed::Up, service, incarnation)
        && !has(
            case.plain.journal(At::Launcher),
            Deed::Failed,
            service,
            incarnation,
        )
}

/// Whether an event is a cause to launch a service anew behind this incarnation.
fn is_cause(line: &Line<'_>, service: u16, incarnation: u32) -> bool {
    line.does(Deed::Asked, service)
        || line.is(Deed::Failed, service, incarnation)
        || line.is(Deed::Crashed, service, incarnation)
}

/// Whether a launch that follows another one has its cause since that.
fn was_caused(case: &Case<'_, '_>, before: &[Line<'_>], line: &Line<'_>) -> bool {
    if line.deed != Deed::Begun || line.incarnation <= 1 {
        return true;
    }
    let (service, last) = (line.service, line.incarnation.saturating_sub(1));
    let mut caused = false;
    for other in before {
        if other.is(Deed::Begun, service, last) {
            caused = false;
        } else if is_cause(other, service, last) {
            caused = true;
        }
    }
    caused || broke_off(case, service, last)
}

/// Whether each of the launcher's events had its cause, and leads on.
fn are_caused(case: &Case<'_, '_>) -> bool {
    let events = case.plain.journal(At::Launcher);
    for (place, line) in events.iter().enumerate() {
        let before = events.get(..place).unwrap_or(&[]);
        let behind = events.get(place.saturating_add(1)..).unwrap_or(&[]);
        if !was_caused(case, before, line) || !leads_on(case, before, line, behind) {
            return false;
        }
    }
    true
}

/// The incarnation that a list's dialog ended, if it did.
fn crashed(case: &Case<'_, '_>, list: &[Line<'_>], place: usize, item: &Line<'_>) -> Option<u32> {
    let (before, dialog) = case.plain.entry(list.get(..place)?, item)?;
    is_crash(dialog).then_some(incarnation(before))
}

/// Whether a dialog that ended its incarnation is followed at once by its Crashed.
fn is_told(case: &Case<'_, '_>, list: &[Line<'_>], place: usize, line: &Line<'_>) -> bool {
    let Some(incarnation) = crashed(case, list, place, line) else {
        return true;
    };
    for next in list.get(place.saturating_add(1)..).unwrap_or(&[]) {
        if !is_said(next) {
            return next.is(Deed::Crashed, line.service, incarnation) || next.deed == Deed::NoMemory;
        }
    }
    false
}

/// Whether a dialog stands there in a list that ended the incarnation of this Crashed.
fn ends_it(case: &Case<'_, '_>, list: &[Line<'_>], place: usize, crash: &Line<'_>) -> bool {
    match list.get(place) {
        Some(dialog) if dialog.does(Deed::Dialog, crash.service) => {
            crashed(case, list, place, dialog) == Some(crash.incarnation)
        }
        _ => false,
    }
}

/// Whether a Crashed follows a dialog that ended its incarnation, or its child had ended.
fn was_crash(case: &Case<'_, '_>, list: &[Line<'_>], place: usize, line: &Line<'_>) -> bool {
    for one in case.ended {
        if one.service == line.service && one.number == line.incarnation {
            return true;
        }
    }
    let mut last = None;
    for (at, other) in list.get(..place).unwrap_or(&[]).iter().enumerate() {
        if !is_said(other) {
            last = Some(at);
        }
    }
    match last {
        Some(at) => ends_it(case, list, at, line),
        None => false,
    }
}

/// Whether each crash of a list is told, and was one.
fn are_crashes(case: &Case<'_, '_>, list: &[Line<'_>]) -> bool {
    for (place, line) in list.iter().enumerate() {
        let fits = match line.deed {
            Deed::Dialog => is_told(case, list, place, line),
            Deed::Crashed => was_crash(case, list, place, line),
            _ => true,
        };
        if !fits {
            return false;
        }
    }
    true
}

/// Whether each launch and each crash has its cause and its consequence.
pub fn have_causes(case: &Case<'_, '_>) -> bool {
    for list in case.plain.workers() {
        if !are_crashes(case, list) {
            return false;
        }
    }
    are_caused(case)
}
