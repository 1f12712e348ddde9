//! The pieces of the launcher's list.

use crate::lawful::is_due;
use monitor_model::record::End;
use record_lines::case::Case;
use record_lines::plain::{At, Deed, Line, count_at, has};
use record_lines::standing::{incarnation, is_admitted, standing};

/// The launcher's list, and how far it was read.
#[derive(Clone, Copy)]
struct Reading<'c, 'a> {
    case: &'c Case<'c, 'a>,
    list: &'c [Line<'a>],
    read: usize,
}

impl<'c, 'a> Reading<'c, 'a> {
    /// What was read.
    fn done(&self) -> &'c [Line<'a>] {
        let end = self.read.min(self.list.len());
        &self.list[..end]
    }

    /// The incarnation that the launcher finds at a cell when it comes there next.
    fn found(&self, at: At) -> u32 {
        let visit = Line {
            worker: self.case.plain.launcher(),
            ..Line::new(at, Deed::Boot, 0, 0)
        };
        match self.case.plain.entry(self.done(), &visit) {
            Some((before, _)) => incarnation(before),
            None => incarnation(self.case.plain.journal(at)),
        }
    }

    /// Whether this comes next, of an incarnation there; reads it.
    fn reads(&mut self, at: At, deed: Deed, service: u16, number: u32) -> bool {
        let Some(line) = self.list.get(self.read) else {
            return false;
        };
        self.read = self.read.saturating_add(1);
        line.at == at
            && line.is(deed, service, number)
            && (deed != Deed::Install || is_due(self.case, line))
    }

    /// Whether what stands there of a service is ended next, where anything does.
    fn ends_there(&mut self, at: At, service: u16) -> bool {
        let deed = if at == At::Okd {
            Deed::Down
        } else {
            Deed::Revoke
        };
        match standing(self.done(), at, service) {
            Some(number) => self.reads(at, deed, service, number),
            None => true,
        }
    }

    /// Whether what was there of a service is ended next, everywhere.
    fn clears(&mut self, service: u16) -> bool {
        for journal in &self.case.plain.journals {
            if !self.ends_there(journal.at, service) {
                return false;
            }
        }
        let cell = At::Cell(service);
        self.found(cell) == 0 || self.reads(cell, Deed::Retired, service, 0)
    }

    /// Whether an incarnation is installed next at the columns of its service.
    fn installs(&mut self, service: u16, number: u32) -> bool {
        for journal in &self.case.plain.journals {
            let is_column = match journal.at {
                At::Proxy(proxy) => is_admitted(self.case.site, service, proxy),
                At::Pubd | At::Oklogd => true,
                _ => false,
            };
            if is_column && !self.reads(journal.at, Deed::Install, service, number) {
                return false;
            }
        }
        true
    }

    /// Whether an incarnation is launched next, as far as its start did not fail.
    fn launches(&mut self, service: u16, number: u32) -> bool {
        let events = self.case.plain.journal(At::Launcher);
        let failed = has(events, Deed::Failed, service, number);
        self.clears(service)
            && self.installs(service, number)
            && (failed
                || (self.reads(At::Cell(service), Deed::Boot, service, number)
                    && self.reads(At::Okd, Deed::Up, service, number)))
    }

    /// Whether the list ends with a Retired for each cell that has an incarnation.
    fn ends(&self) -> bool {
        let Some(rest) = self.list.get(self.read..) else {
            return false;
        };
        for line in rest {
            if line.deed != Deed::Retired {
                return false;
            }
        }
        for journal in &self.case.plain.journals {
            let retired = count_at(rest, journal.at);
            let is_cell = matches!(journal.at, At::Cell(_));
            if is_cell && retired != usize::from(self.found(journal.at) != 0) {
                return false;
            }
        }
        true
    }
}

/// Whether the launcher's list is one piece for each Begun of its journal, and its end.
fn is_whole(case: &Case<'_, '_>) -> bool {
    let mut reading = Reading {
        case: &*case,
        list: case.plain.list(case.plain.launcher()),
        read: 0,
    };
    for line in case.plain.journal(At::Launcher) {
        if line.deed == Deed::Begun && !reading.launches(line.service, line.incarnation) {
            return false;
        }
    }
    reading.ends()
}

/// How many starts and links failed.
fn failures(case: &Case<'_, '_>) -> u64 {
    let mut count = 0u64;
    for journal in &case.plain.journals {
        for line in &journal.lines {
            if line.deed == Deed::Failed || line.end == Some(End::LinkFault) {
                count = count.saturating_add(1);
            }
        }
    }
    count
}

/// Whether the launcher's list is its pieces, and no more starts and links failed than were counted.
pub fn are_launched(case: &Case<'_, '_>) -> bool {
    is_whole(case) && failures(case) <= case.failures
}
