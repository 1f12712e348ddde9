//! Records that are not legal: one that is, with one thing changed.

use monitor_model::record::End;
use record_judge::judge::Part;
use record_lines::plain::{At, Deed, Line, Plain};

/// What is changed.
#[derive(Clone, Copy, PartialEq, Eq)]
pub enum Edit {
    /// An entry is taken from its journal.
    EntryDropped,
    /// An order was not carried out.
    OrderDropped,
    /// A dialog was superseded by an incarnation that was not begun.
    ShownChanged,
    /// A call that was said and answered has no entry.
    CallDropped,
    /// A client was not answered.
    AnswerLost,
    /// A relaunch skips a column.
    RevokeSkipped,
    /// A relaunch was not ordered.
    OrderMissing,
    /// A request was accepted before the launches.
    AcceptFirst,
}

/// Each of them, and the part of the record that it breaks first.
pub const EDITS: [(Edit, Part); 8] = [
    (Edit::EntryDropped, Part::Made),
    (Edit::OrderDropped, Part::Pieced),
    (Edit::ShownChanged, Part::Missed),
    (Edit::CallDropped, Part::Lawful),
    (Edit::AnswerLost, Part::Served),
    (Edit::RevokeSkipped, Part::Launched),
    (Edit::OrderMissing, Part::Caused),
    (Edit::AcceptFirst, Part::First),
];

/// Puts a line in the place of another, or takes that away.
fn put<'a>(lines: &mut Vec<Line<'a>>, place: usize, with: Option<Line<'a>>) {
    match with {
        Some(line) => {
            if let Some(slot) = lines.get_mut(place) {
                *slot = line;
            }
        }
        None => {
            if place < lines.len() {
                lines.remove(place);
            }
        }
    }
}

/// The same in a journal.
fn put_in<'a>(plain: &mut Plain<'a>, at: At, place: usize, with: Option<Line<'a>>) {
    for journal in &mut plain.journals {
        if journal.at == at {
            put(&mut journal.lines, place, with);
        }
    }
}

/// The same in a journal, and in the list that tells of it.
fn put_in_both<'a>(
    plain: &mut Plain<'a>,
    at: At,
    place: usize,
    with: Option<Line<'a>>,
) -> Option<()> {
    let (before, rest) = plain.journal(at).split_at_checked(place)?;
    let worker = rest.first()?.worker;
    let nth = before.iter().filter(|line| line.worker == worker).count();
    let mut own = plain
        .list(worker)
        .iter()
        .enumerate()
        .filter(|(_, line)| line.at == at);
    let (item, _) = own.nth(nth)?;
    put_in(plain, at, place, with);
    let list = plain.lists.get_mut(usize::from(worker))?;
    put(list, item, with);
    Some(())
}

/// The first line of a journal that has this deed, and its place.
fn first<'a>(plain: &Plain<'a>, at: At, deed: Deed) -> Option<(usize, Line<'a>)> {
    let mut lines = plain.journal(at).iter().copied().enumerate();
    lines.find(|(_, line)| line.deed == deed)
}

/// Takes a Revoke away that has the next Install of its service right behind it.
fn skip_revoke(plain: &mut Plain<'_>) -> Option<()> {
    let lines = plain.journal(At::Oklogd);
    let place = lines.windows(2).position(|pair| match pair {
        [one, next] => one.deed == Deed::Revoke && next.does(Deed::Install, one.service),
        _ => false,
    })?;
    put_in_both(plain, At::Oklogd, place, None)
}

/// Has the first Accept of a path that nobody owns come before all else at okd.
fn accept_first(plain: &mut Plain<'_>) -> Option<()> {
    for journal in &mut plain.journals {
        if journal.at == At::Okd {
            let place = journal
                .lines
                .iter()
                .position(|line| line.bytes == b"/lost".as_slice())?;
            let accept = *journal.lines.get(place)?;
            put(&mut journal.lines, place, None);
            journal.lines.insert(0, accept).ok()?;
        }
    }
    Some(())
}

/// Takes the first line of a deed from a journal, and from the list that tells of it.
fn drop_first(plain: &mut Plain<'_>, at: At, deed: Deed) -> Option<()> {
    let (place, _) = first(plain, at, deed)?;
    put_in_both(plain, at, place, None)
}

/// Has the first dialog of a cell be superseded by an incarnation that was not begun.
fn supersede(plain: &mut Plain<'_>) -> Option<()> {
    let (place, line) = first(plain, At::Cell(0), Deed::Dialog)?;
    let end = Some(End::Superseded(u32::MAX));
    put_in(plain, At::Cell(0), place, Some(Line { end, ..line }));
    Some(())
}

/// Takes away what was written to the first client that was answered, at whichever door: one door may have served
/// all clients.
fn lose_answer(plain: &mut Plain<'_>) -> Option<()> {
    for door in &mut plain.doors {
        for exchange in door {
            if !exchange.written.is_empty() {
                exchange.written = &[];
                return Some(());
            }
        }
    }
    None
}

/// Changes one thing.
pub fn change(plain: &mut Plain<'_>, edit: Edit) -> Option<()> {
    match edit {
        Edit::EntryDropped => {
            let (place, _) = first(plain, At::Proxy(0), Deed::Open)?;
            put_in(plain, At::Proxy(0), place, None);
            Some(())
        }
        Edit::OrderDropped | Edit::OrderMissing => drop_first(plain, At::Launcher, Deed::Asked),
        Edit::ShownChanged => supersede(plain),
        Edit::CallDropped => drop_first(plain, At::Proxy(0), Deed::Call),
        Edit::AnswerLost => lose_answer(plain),
        Edit::RevokeSkipped => skip_revoke(plain),
        Edit::AcceptFirst => accept_first(plain),
    }
}
