//! The pieces of the workers' lists.

use okws_plan::configuration::Config;
use record_lines::case::Case;
use record_lines::plain::{At, Deed, Line, has_deed, is_said};
use record_lines::standing::{incarnation, standing};

/// Where a request goes.
#[derive(Clone, Copy, PartialEq, Eq)]
pub enum Way {
    NotOwned,
    Down,
    To(u16, u32),
}

/// Whether a service that owns one path owns another by it.
fn owns(owned: &[u8], path: &[u8]) -> bool {
    match path.strip_prefix(owned) {
        Some(rest) => rest.is_empty() || rest.starts_with(b"/") || owned.ends_with(b"/"),
        None => false,
    }
}

/// The service that owns a path.
fn owner(site: &Config, path: &[u8]) -> Option<u16> {
    let (mut longest, mut owner) = (0usize, None);
    for one in site.paths.as_slice() {
        let owned = one.path.as_slice();
        if owns(owned, path) && longest < owned.len() {
            (longest, owner) = (owned.len(), Some(one.service));
        }
    }
    owner
}

/// What okd answered an Accept that stands behind these items of a list.
pub fn accepted(case: &Case<'_, '_>, earlier: &[Line<'_>], accept: &Line<'_>) -> Option<Way> {
    let (before, _) = case.plain.entry(earlier, accept)?;
    let Some(service) = owner(case.site, accept.bytes) else {
        return Some(Way::NotOwned);
    };
    match standing(before, At::Okd, service) {
        Some(incarnation) => Some(Way::To(service, incarnation)),
        None => Some(Way::Down),
    }
}

/// Where a worker is behind some of its items.
#[derive(Clone, Copy)]
enum Mode {
    Free,
    /// A request is due there.
    Due(u16, u32),
    /// A dialog's entries may follow.
    Speaking(u16),
}

/// Where a worker is behind an item that begins a piece.
fn begins(case: &Case<'_, '_>, earlier: &[Line<'_>], line: &Line<'_>) -> Option<Mode> {
    match line.deed {
        Deed::Accept => match accepted(case, earlier, line)? {
            Way::To(service, incarnation) => Some(Mode::Due(service, incarnation)),
            Way::NotOwned | Way::Down => Some(Mode::Free),
        },
        Deed::Publish | Deed::Begun | Deed::Failed | Deed::Asked => Some(Mode::Free),
        Deed::Crashed | Deed::Dead | Deed::NoMemory => Some(Mode::Free),
        _ => None,
    }
}

/// Where a worker is behind an item that has to follow an Accept.
fn follows(
    case: &Case<'_, '_>,
    earlier: &[Line<'_>],
    line: &Line<'_>,
    to: (u16, u32),
) -> Option<Mode> {
    let (service, wanted) = to;
    match line.deed {
        Deed::NoMemory => Some(Mode::Free),
        Deed::Missed if line.service == service && line.number == wanted => Some(Mode::Free),
        Deed::Dialog if line.service == service => {
            let (before, _) = case.plain.entry(earlier, line)?;
            (incarnation(before) == wanted).then_some(Mode::Speaking(service))
        }
        _ => None,
    }
}

/// Whether a list is whole pieces.
fn is_whole(case: &Case<'_, '_>, list: &[Line<'_>]) -> bool {
    let mut mode = Some(Mode::Free);
    for (place, line) in list.iter().enumerate() {
        let earlier = list.get(..place).unwrap_or(&[]);
        mode = match mode {
            Some(Mode::Due(service, wanted)) => follows(case, earlier, line, (service, wanted)),
            Some(Mode::Speaking(service)) if is_said(line) && line.service == service => mode,
            Some(_) => begins(case, earlier, line),
            None => return false,
        };
    }
    matches!(mode, Some(Mode::Free | Mode::Speaking(_)))
}

/// Whether an item carries out an order.
fn is_ordered(line: &Line<'_>) -> bool {
    matches!(line.deed, Deed::Publish | Deed::Asked)
}

/// Whether what the operator ordered was carried out, in order, where it is told.
fn is_carried_out(case: &Case<'_, '_>, console: &[Line<'_>]) -> bool {
    let Some(orders) = case.orders else {
        return true;
    };
    let mut due = orders;
    for line in console {
        if is_ordered(line) {
            match due {
                [order, rest @ ..] if line.same(order) => due = rest,
                _ => return false,
            }
        }
    }
    due.is_empty()
}

/// Whether the lists of the doors' workers, and that of the console's, are for them to make.
fn are_allowed(case: &Case<'_, '_>) -> bool {
    let Some((console, doors)) = case.plain.workers().split_last() else {
        return false;
    };
    for list in doors {
        if has_deed(list, Deed::Publish) || has_deed(list, Deed::Asked) {
            return false;
        }
    }
    doors.len() == case.plain.doors.len()
        && !has_deed(console, Deed::Accept)
        && is_carried_out(case, console)
}

/// Whether the workers' lists are whole pieces, and what the operator ordered stands in the console's alone.
pub fn are_pieces(case: &Case<'_, '_>) -> bool {
    for list in case.plain.workers() {
        if !is_whole(case, list) {
            return false;
        }
    }
    are_allowed(case)
}
