//! What cells tell of requests that came to another incarnation than they wanted.

use monitor_model::record::End;
use record_lines::case::Case;
use record_lines::plain::{At, Deed, Journal, Line};
use record_lines::standing::{begun, incarnation};

/// Whether a Missed tells the incarnation that is, and a Superseded one that was begun.
fn is_so(before: &[Line<'_>], line: &Line<'_>, begun: u32) -> bool {
    match (line.deed, line.end) {
        (Deed::Missed, _) => {
            line.incarnation == incarnation(before) && line.number != line.incarnation
        }
        (_, Some(End::Superseded(shown))) => shown <= begun,
        _ => true,
    }
}

/// Whether each Missed and Superseded of a journal was so.
fn tells_so(case: &Case<'_, '_>, journal: &Journal<'_>) -> bool {
    let launches = case.plain.journal(At::Launcher);
    for (place, line) in journal.lines.iter().enumerate() {
        let before = journal.lines.get(..place).unwrap_or(&[]);
        if !is_so(before, line, begun(launches, line.service)) {
            return false;
        }
    }
    true
}

/// Whether each Missed and Superseded was so.
pub fn are_missed(case: &Case<'_, '_>) -> bool {
    for journal in &case.plain.journals {
        if matches!(journal.at, At::Cell(_)) && !tells_so(case, journal) {
            return false;
        }
    }
    true
}
