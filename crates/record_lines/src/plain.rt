//! What a run left, as plain lines.

use crate::events::{Event, cell_line, own_line};
use monitor_model::record::{CellEvent, End, Item, Own, Record};
use okws_base::journal::{Entry, Past};
use okws_base::value::Value;
use std::alloc::Global;

/// Where a line stands.
#[derive(Clone, Copy, PartialEq, Eq)]
pub enum At {
    Okd,
    Proxy(u16),
    Pubd,
    Oklogd,
    Launcher,
    Cell(u16),
    Nowhere,
}

/// What was done.
#[derive(Clone, Copy, PartialEq, Eq)]
pub enum Deed {
    Up,
    Down,
    Accept,
    Install,
    Revoke,
    Open,
    Call,
    Publish,
    Drain,
    Get,
    Log,
    Begun,
    Failed,
    Crashed,
    Dead,
    Asked,
    Boot,
    Retired,
    Missed,
    Dialog,
    NoMemory,
}

/// A line of a journal, or of a number's own list.
#[derive(Clone, Copy)]
pub struct Line<'a> {
    pub worker: u16,
    pub at: At,
    pub deed: Deed,
    pub service: u16,
    pub incarnation: u32,
    /// A session, a template, tries, or the incarnation that a Missed wanted.
    pub number: u32,
    pub query: u16,
    /// A path, a token, a name or a text.
    pub bytes: &'a [u8],
    pub args: &'a [Value],
    /// Whether a Call is marked as failed.
    pub failed: bool,
    /// What a cell tells of a dialog.
    pub items: &'a [Item],
    pub end: Option<End>,
}

impl<'a> Line<'a> {
    /// The least line of a deed.
    pub fn new(at: At, deed: Deed, service: u16, incarnation: u32) -> Line<'a> {
        Line {
            worker: 0,
            at,
            deed,
            service,
            incarnation,
            number: 0,
            query: 0,
            bytes: &[],
            args: &[],
            failed: false,
            items: &[],
            end: None,
        }
    }

    /// The same with these bytes.
    pub fn with(self, bytes: &'a [u8]) -> Line<'a> {
        Line { bytes, ..self }
    }

    /// Whether they are the same, but for what a cell alone tells of a dialog.
    pub fn same(&self, other: &Line<'a>) -> bool {
        self.worker == other.worker
            && self.at == other.at
            && self.is(other.deed, other.service, other.incarnation)
            && self.number == other.number
            && self.query == other.query
            && self.bytes == other.bytes
            && self.args == other.args
            && self.failed == other.failed
    }

    /// Whether this was done of an incarnation.
    pub fn is(&self, deed: Deed, service: u16, incarnation: u32) -> bool {
        self.does(deed, service) && self.incarnation == incarnation
    }

    /// Whether this was done of a service.
    pub fn does(&self, deed: Deed, service: u16) -> bool {
        self.deed == deed && self.service == service
    }
}

/// A journal.
#[derive(Drop)]
pub struct Journal<'a> {
    pub at: At,
    pub lines: Vec<Line<'a>>,
}

/// What was read from a connection, and what was written on it; and whether a call of it failed, so that it was cut.
#[derive(Clone, Copy)]
pub struct Exchange<'a> {
    pub read: &'a [u8],
    pub written: &'a [u8],
    pub is_cut: bool,
}

/// The journals of okd, each proxy, pubd, oklogd, the launcher and each cell, in this order; the lists of the
/// workers and, last, of the launcher's number; what went over each door.
#[derive(Drop)]
pub struct Plain<'a> {
    pub journals: Vec<Journal<'a>>,
    pub lists: Vec<Vec<Line<'a>>>,
    pub doors: Vec<Vec<Exchange<'a>>>,
    // What a journal and a list has that is not there.
    none: Vec<Line<'a>>,
}

fn entries_of<E: Event>(alloc: Global, at: At, past: &Past<Entry<E>>) -> Option<Journal<'_>> {
    let mut lines = Vec::new(alloc);
    for entry in past.as_slice()? {
        let worker = entry.worker;
        let line = entry.event.line();
        lines.push(Line { worker, at, ..line }).ok()?;
    }
    Some(Journal { at, lines })
}

fn cell(alloc: Global, service: u16, launcher: u16, past: &Past<CellEvent>) -> Option<Journal<'_>> {
    let mut lines = Vec::new(alloc);
    for event in past.as_slice()? {
        lines.push(cell_line(service, launcher, event)?).ok()?;
    }
    let at = At::Cell(service);
    Some(Journal { at, lines })
}

fn list(alloc: Global, worker: u16, past: &Past<Own>) -> Option<Vec<Line<'_>>> {
    let mut lines = Vec::new(alloc);
    for own in past.as_slice()? {
        let line = own_line(own);
        lines.push(Line { worker, ..line }).ok()?;
    }
    Some(lines)
}

fn journals(alloc: Global, record: &Record, launcher: u16) -> Option<Vec<Journal<'_>>> {
    let mut all = Vec::new(alloc);
    all.push(entries_of(alloc, At::Okd, &record.okd)?).ok()?;
    for (place, past) in record.proxies.as_slice().iter().enumerate() {
        let proxy = u16::try_from(place).ok()?;
        all.push(entries_of(alloc, At::Proxy(proxy), past)?).ok()?;
    }
    all.push(entries_of(alloc, At::Pubd, &record.pubd)?).ok()?;
    all.push(entries_of(alloc, At::Oklogd, &record.oklogd)?)
        .ok()?;
    all.push(entries_of(alloc, At::Launcher, &record.launcher)?)
        .ok()?;
    for (place, past) in record.cells.as_slice().iter().enumerate() {
        let service = u16::try_from(place).ok()?;
        all.push(cell(alloc, service, launcher, past)?).ok()?;
    }
    Some(all)
}

/// The lines of a record, if it was kept, and what went over the doors of its run.
pub fn plain_of<'a>(
    alloc: Global,
    record: &'a Record,
    doors: Vec<Vec<Exchange<'a>>>,
) -> Option<Plain<'a>> {
    let workers = record.workers.as_slice();
    let launcher = u16::try_from(workers.len()).ok()?;
    let mut lists = Vec::new(alloc);
    for (place, past) in workers.iter().enumerate() {
        let worker = u16::try_from(place).ok()?;
        lists.push(list(alloc, worker, past)?).ok()?;
    }
    lists.push(list(alloc, launcher, &record.launches)?).ok()?;
    let journals = journals(alloc, record, launcher)?;
    Some(Plain::new(alloc, journals, lists, doors))
}

impl<'a> Plain<'a> {
    /// These journals, lists and connections.
    pub fn new(
        alloc: Global,
        journals: Vec<Journal<'a>>,
        lists: Vec<Vec<Line<'a>>>,
        doors: Vec<Vec<Exchange<'a>>>,
    ) -> Plain<'a> {
        Plain {
            journals,
            lists,
            doors,
            none: Vec::new(alloc),
        }
    }

    /// The journal that stands there.
    pub fn journal(&self, at: At) -> &[Line<'a>] {
        for journal in &self.journals {
            if journal.at == at {
                return &journal.lines;
            }
        }
        &self.none
    }

    /// Whether a journal stands there.
    pub fn has_journal(&self, at: At) -> bool {
        for journal in &self.journals {
            if journal.at == at {
                return true;
            }
        }
        false
    }

    /// The lists of the workers.
    pub fn workers(&self) -> &[Vec<Line<'a>>] {
        let count = self.lists.len().saturating_sub(1);
        &self.lists[..count]
    }

    /// The list of a number.
    pub fn list(&self, worker: u16) -> &[Line<'a>] {
        match self.lists.get(usize::from(worker)) {
            Some(list) => list,
            None => &self.none,
        }
    }

    /// The launcher's number.
    pub fn launcher(&self) -> u16 {
        u16::try_from(self.lists.len().saturating_sub(1)).unwrap_or(u16::MAX)
    }

    /// The lines of a journal before the one that an item of a list is there, behind these items, and that line.
    pub fn entry(&self, earlier: &[Line<'a>], item: &Line<'a>) -> Option<(&[Line<'a>], &Line<'a>)> {
        let journal = self.journal(item.at);
        let mut left = count_at(earlier, item.at);
        for (place, line) in journal.iter().enumerate() {
            if line.worker == item.worker {
                if left == 0 {
                    return Some((journal.get(..place)?, line));
                }
                left = left.saturating_sub(1);
            }
        }
        None
    }
}

/// How many of the lines stand there.
pub fn count_at(lines: &[Line<'_>], at: At) -> usize {
    let mut count = 0usize;
    for line in lines {
        if line.at == at {
            count = count.saturating_add(1);
        }
    }
    count
}

/// Whether this was done of an incarnation in these lines.
pub fn has(lines: &[Line<'_>], deed: Deed, service: u16, incarnation: u32) -> bool {
    for line in lines {
        if line.is(deed, service, incarnation) {
            return true;
        }
    }
    false
}

/// Whether a deed is done in these lines.
pub fn has_deed(lines: &[Line<'_>], deed: Deed) -> bool {
    for line in lines {
        if line.deed == deed {
            return true;
        }
    }
    false
}

/// Whether dialogs make such entries.
pub fn is_said(line: &Line<'_>) -> bool {
    matches!(
        line.deed,
        Deed::Drain | Deed::Open | Deed::Call | Deed::Get | Deed::Log
    )
}
