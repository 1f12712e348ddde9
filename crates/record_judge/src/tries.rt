//! The launcher's law.

use record_lines::case::Case;
use record_lines::plain::{Deed, Line};
use record_lines::standing::begun;

/// Whether a line is a try of this service that failed, behind these lines.
fn is_try(before: &[Line<'_>], line: &Line<'_>, service: u16) -> bool {
    line.does(Deed::Failed, service)
        || (line.does(Deed::Crashed, service) && line.incarnation == begun(before, service))
}

/// Whether an incarnation was tried in these lines since the last order.
fn was_tried(lines: &[Line<'_>], service: u16, incarnation: u32) -> bool {
    let mut tried = false;
    for (place, line) in lines.iter().enumerate() {
        let before = lines.get(..place).unwrap_or(&[]);
        if line.does(Deed::Asked, service) {
            tried = false;
        } else if line.incarnation == incarnation && is_try(before, line, service) {
            tried = true;
        }
    }
    tried
}

/// How many incarnations of a service were tried since the last order; each counts once.
fn tries(lines: &[Line<'_>], service: u16) -> u32 {
    let mut count = 0u32;
    for (place, line) in lines.iter().enumerate() {
        let before = lines.get(..place).unwrap_or(&[]);
        if line.does(Deed::Asked, service) {
            count = 0;
        } else if is_try(before, line, service) && !was_tried(before, service, line.incarnation) {
            count = count.saturating_add(1);
        }
    }
    count
}

/// Whether a service was given up since the last order.
fn is_dead(lines: &[Line<'_>], service: u16) -> bool {
    let mut dead = false;
    for line in lines {
        if line.does(Deed::Dead, service) {
            dead = true;
        } else if line.does(Deed::Asked, service) {
            dead = false;
        }
    }
    dead
}

/// Whether the greatest incarnation that was begun has failed or crashed since, and since the last order.
fn has_fallen(lines: &[Line<'_>], service: u16) -> bool {
    let last = begun(lines, service);
    let mut fallen = false;
    for line in lines {
        if line.does(Deed::Begun, service) || line.does(Deed::Asked, service) {
            fallen = false;
        } else if line.is(Deed::Failed, service, last) || line.is(Deed::Crashed, service, last) {
            fallen = true;
        }
    }
    fallen
}

/// Whether a launch may begin.
pub fn may_begin(case: &Case<'_, '_>, before: &[Line<'_>], line: &Line<'_>) -> bool {
    let tries = tries(before, line.service);
    line.incarnation == begun(before, line.service).saturating_add(1)
        && (tries == 0 || tries < u32::from(case.site.retry))
        && !is_dead(before, line.service)
}

/// Whether a service may be given up.
pub fn may_give_up(case: &Case<'_, '_>, before: &[Line<'_>], line: &Line<'_>) -> bool {
    let tries = tries(before, line.service);
    line.number == tries && tries >= u32::from(case.site.retry) && has_fallen(before, line.service)
}
