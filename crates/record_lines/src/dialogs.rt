//! Dialogs, and the entries that they made.

use crate::answers::{call_denial, is_answer};
use crate::case::Case;
use crate::due::{Due, drained, is_push};
use crate::plain::{At, Deed, Line, is_said};
use crate::rows::query_of;
use crate::standing::incarnation;
use frame_codec::frame::{ServerFrame, ServiceFrame};
use monitor_model::record::{End, Item};
use okws_base::limit::MOST_FRAMES;
use okws_plan::configuration::Config;
use okws_plan::statement::Action;

/// Whether a call names a proxy that is not declared.
fn is_astray(site: &Config, said: &ServiceFrame) -> bool {
    let count = site.proxies.as_slice().len();
    match said {
        ServiceFrame::Open { proxy, .. } | ServiceFrame::Call { proxy, .. } => {
            usize::from(*proxy) >= count
        }
        _ => false,
    }
}

/// Whether an entry is that of a call.
fn is_call(said: &ServiceFrame, line: &Line<'_>) -> bool {
    match said {
        ServiceFrame::Open { proxy, shown } => {
            line.at == At::Proxy(*proxy)
                && line.deed == Deed::Open
                && line.bytes == shown.bytes.as_slice()
        }
        ServiceFrame::Call {
            proxy,
            session,
            query,
            args,
        } => {
            line.at == At::Proxy(*proxy)
                && line.deed == Deed::Call
                && line.number == *session
                && line.query == *query
                && line.args == args.as_slice()
        }
        ServiceFrame::Get(name) => line.deed == Deed::Get && line.bytes == name.as_slice(),
        ServiceFrame::Log(text) => line.deed == Deed::Log && line.bytes == text.as_slice(),
        ServiceFrame::Reply { .. } => false,
    }
}

/// Whether a call whose answer is not told had an allowed SELECT as its entry.
fn is_allowed_select(site: &Config, before: &[Line<'_>], line: &Line<'_>) -> bool {
    let selects = match query_of(site, line) {
        Some(query) => matches!(query.statement.action, Action::Select(_)),
        None => false,
    };
    line.deed == Deed::Call && selects && call_denial(site, before, line).is_none()
}

/// Whether the pushes of a dialog are the first of those that are due.
fn are_pushes(site: &Config, pushes: &[Item], due: &[Due<'_>]) -> bool {
    for (item, due) in pushes.iter().zip(due) {
        if !is_push(site, item, due) {
            return false;
        }
    }
    pushes.len() <= due.len()
}

/// A dialog of a worker's list: where its next entry stands there, and which incarnation speaks.
#[derive(Clone, Copy)]
struct Talk<'c, 'a> {
    case: &'c Case<'c, 'a>,
    list: &'c [Line<'a>],
    next: usize,
    service: u16,
    incarnation: u32,
}

impl<'c, 'a> Talk<'c, 'a> {
    /// Whether no entry of a dialog follows.
    fn is_over(&self) -> bool {
        match self.list.get(self.next) {
            Some(line) => !is_said(line),
            None => true,
        }
    }

    /// The lines before the next entry of the dialog, and the entry.
    fn entry(&mut self) -> Option<(&'c [Line<'a>], &'c Line<'a>)> {
        let item = self.list.get(self.next)?;
        let (before, line) = self.case.plain.entry(self.list.get(..self.next)?, item)?;
        self.next = self.next.saturating_add(1);
        let own = line.service == self.service && line.incarnation == self.incarnation;
        (is_said(line) && own).then_some((before, line))
    }

    /// Whether what was said was answered by the verdict of its entry, where it has one.
    fn is_answered(&mut self, said: &ServiceFrame, heard: &ServerFrame) -> Option<bool> {
        if is_astray(self.case.site, said) {
            return Some(matches!(heard, ServerFrame::Denied(10)));
        }
        if let ServerFrame::NoMemory = heard {
            return Some(!matches!(said, ServiceFrame::Reply { .. }));
        }
        let (before, line) = self.entry()?;
        Some(is_call(said, line) && is_answer(self.case, before, line, heard))
    }

    /// Whether a dialog may end so behind what was said last, the frame of this number, without an answer.
    fn breaks_off(&mut self, said: &ServiceFrame, number: usize, end: End) -> Option<bool> {
        let is_reply = matches!(said, ServiceFrame::Reply { .. });
        match end {
            End::Reply => Some(is_reply && number <= MOST_FRAMES),
            End::FrameLimit => Some(number == MOST_FRAMES + 1),
            End::Starved if self.is_over() => Some(number <= MOST_FRAMES),
            End::LinkFault if self.is_over() => Some(!is_reply && number <= MOST_FRAMES),
            End::LinkFault | End::Starved => {
                let (before, line) = self.entry()?;
                let selects = is_allowed_select(self.case.site, before, line);
                let may_stand = selects || end == End::LinkFault;
                Some(number <= MOST_FRAMES && is_call(said, line) && may_stand)
            }
            _ => Some(false),
        }
    }

    /// Whether a dialog may end so behind an answer, where so many frames were said.
    fn ends(&self, number: usize, end: End) -> bool {
        let fits = match end {
            End::Superseded(shown) => shown > self.incarnation,
            End::BadFrame | End::Ended | End::LinkFault | End::Starved => true,
            End::Reply | End::FrameLimit => false,
        };
        number <= MOST_FRAMES && fits
    }

    /// Whether each call was answered by the verdict of its entry, and the dialog may end so.
    fn goes(&mut self, calls: &[Item], end: End) -> Option<bool> {
        let mut number = 0usize;
        for pair in calls.chunks(2) {
            number = number.saturating_add(1);
            match pair {
                [Item::Said(said), Item::Heard(heard)] => {
                    if !self.is_answered(said, heard)? {
                        return Some(false);
                    }
                }
                [Item::Said(said)] => return self.breaks_off(said, number, end),
                _ => return Some(false),
            }
        }
        Some(self.ends(number, end))
    }

    /// Whether a dialog heard the editions that were due and the Request, and went on so.
    fn is_course(&mut self, items: &[Item], end: End) -> Option<bool> {
        let (before, drain) = self.entry()?;
        let due = drained(self.case, before, drain).ok()?;
        let count = items.len().min(due.len());
        let (pushes, rest) = items.split_at_checked(count)?;
        if drain.deed != Deed::Drain || !are_pushes(self.case.site, pushes, &due) {
            return Some(false);
        }
        match rest {
            [] => Some(matches!(end, End::LinkFault | End::Starved)),
            [Item::Heard(ServerFrame::Request { .. }), calls @ ..] => self.goes(calls, end),
            _ => Some(false),
        }
    }

    /// Whether a dialog is one of these entries.
    fn is_fit(&mut self, items: &[Item], end: End) -> Option<bool> {
        if let End::Superseded(shown) = end
            && items.is_empty()
        {
            return Some(shown > self.incarnation && self.is_over());
        }
        Some(self.is_course(items, end)? && self.is_over())
    }
}

/// Whether the dialog that stands there in a list fits what its cell tells of it, and its entries.
fn is_fit(case: &Case<'_, '_>, list: &[Line<'_>], place: usize, line: &Line<'_>) -> Option<bool> {
    let (before, dialog) = case.plain.entry(list.get(..place)?, line)?;
    let mut talk = Talk {
        case,
        list,
        next: place.saturating_add(1),
        service: line.service,
        incarnation: incarnation(before),
    };
    talk.is_fit(dialog.items, dialog.end?)
}

/// Whether each dialog of a list does.
fn are_fit(case: &Case<'_, '_>, list: &[Line<'_>]) -> bool {
    for (place, line) in list.iter().enumerate() {
        if line.deed == Deed::Dialog && is_fit(case, list, place, line) != Some(true) {
            return false;
        }
    }
    true
}

/// Whether each dialog fits what its cell tells of it, and its entries.
pub fn are_answered(case: &Case<'_, '_>) -> bool {
    for list in case.plain.workers() {
        if !are_fit(case, list) {
            return false;
        }
    }
    true
}
