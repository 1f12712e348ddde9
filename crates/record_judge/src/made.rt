//! Of which lists the journals are made.

use record_lines::case::Case;
use record_lines::plain::{At, Deed, Journal, Line};

/// The place of the first item from some place on that stands there.
fn place_from(list: &[Line<'_>], from: usize, at: At) -> Option<usize> {
    for (place, line) in list.iter().enumerate() {
        if place >= from && line.at == at {
            return Some(place);
        }
    }
    None
}

/// Whether the item that stands there in a list is this line.
fn is_there(list: &[Line<'_>], place: usize, line: &Line<'_>) -> bool {
    match list.get(place) {
        Some(item) => item.same(line),
        None => false,
    }
}

/// Whether what a number entered in a journal is what its list tells of it.
fn agrees(journal: &Journal<'_>, list: &[Line<'_>], worker: u16) -> bool {
    let mut from = 0usize;
    for line in &journal.lines {
        if line.worker == worker {
            match place_from(list, from, journal.at) {
                Some(place) if is_there(list, place, line) => from = place.saturating_add(1),
                _ => return false,
            }
        }
    }
    place_from(list, from, journal.at).is_none()
}

/// Whether it is for the launcher's number to do so.
fn is_launch(line: &Line<'_>) -> bool {
    matches!(
        line.deed,
        Deed::Up | Deed::Down | Deed::Install | Deed::Revoke | Deed::Boot | Deed::Retired
    )
}

/// Whether a number's list has what is for it to do alone, in journals that are there.
fn is_own(case: &Case<'_, '_>, list: &[Line<'_>], launches: bool) -> bool {
    for line in list {
        let is_placed = line.at == At::Nowhere || case.plain.has_journal(line.at);
        if is_launch(line) != launches || !is_placed {
            return false;
        }
    }
    true
}

/// Whether a journal is a merge of the numbers' lists.
fn is_merged(case: &Case<'_, '_>, journal: &Journal<'_>) -> bool {
    let launcher = case.plain.launcher();
    for line in &journal.lines {
        if line.worker > launcher {
            return false;
        }
    }
    for worker in 0..=launcher {
        if !agrees(journal, case.plain.list(worker), worker) {
            return false;
        }
    }
    true
}

/// Whether each journal is a merge of the numbers' lists, and the launcher's number alone launches.
pub fn are_made(case: &Case<'_, '_>) -> bool {
    for journal in &case.plain.journals {
        if !is_merged(case, journal) {
            return false;
        }
    }
    for list in case.plain.workers() {
        if !is_own(case, list, false) {
            return false;
        }
    }
    is_own(case, case.plain.list(case.plain.launcher()), true)
}
