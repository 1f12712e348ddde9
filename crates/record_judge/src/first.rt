//! The launches before all else.

use record_lines::case::Case;
use record_lines::plain::{At, Deed, Line, has};

/// Whether a line stands in a journal before each that comes after the launches.
fn is_early(lines: &[Line<'_>], deed: Deed, service: u16, incarnation: u32) -> bool {
    for line in lines {
        if matches!(line.deed, Deed::Accept | Deed::Dialog | Deed::Missed) {
            return false;
        }
        if line.is(deed, service, incarnation) {
            return true;
        }
    }
    false
}

/// Where the launches go on behind an item of worker 0's list, or nothing where it is no launch of this service.
fn next(case: &Case<'_, '_>, service: u16, line: &Line<'_>) -> Option<u16> {
    let up = has(
        case.plain.journal(At::Okd),
        Deed::Up,
        service,
        line.incarnation,
    );
    let own = line.service == service;
    match line.deed {
        Deed::NoMemory => service.checked_add(1),
        Deed::Dead if own => service.checked_add(1),
        Deed::Begun if own && up => service.checked_add(1),
        Deed::Begun | Deed::Failed if own => Some(service),
        _ => None,
    }
}

/// Whether worker 0's list begins with the launches of all services, one by one, and what came up of them stands
/// before every Accept, dialog and Missed.
fn launch_first(case: &Case<'_, '_>) -> Option<bool> {
    let count = u16::try_from(case.site.services.as_slice().len()).ok()?;
    let mut service = 0;
    for line in case.plain.list(0) {
        if service == count {
            break;
        }
        let after = next(case, service, line)?;
        let k = line.incarnation;
        if line.deed == Deed::Begun && after > service {
            let up = is_early(case.plain.journal(At::Okd), Deed::Up, service, k);
            let boot = is_early(
                case.plain.journal(At::Cell(service)),
                Deed::Boot,
                service,
                k,
            );
            if !up || !boot {
                return Some(false);
            }
        }
        service = after;
    }
    Some(service == count)
}

/// Whether the launches come first.
pub fn come_first(case: &Case<'_, '_>) -> bool {
    launch_first(case) == Some(true)
}
