//! Events, items and what happens at cells, as plain lines.

use crate::plain::{At, Deed, Line};
use monitor_model::record::{CellEvent, Own};
use okws_plan::event::{LauncherEvent, LogEvent, Mark, OkdEvent, ProxyEvent, PubdEvent};

// The line of an event: of those deeds that tell a service and an incarnation, and of others.
macro_rules! line_of {
    ($event:expr, $at:expr, $kind:ident: $($deed:ident)*, $($others:tt)*) => {
        match $event {
            $($kind::$deed { service, incarnation } => Line::new($at, Deed::$deed, *service, *incarnation),)*
            $($others)*
        }
    };
}

/// An event of a journal.
pub trait Event: Drop {
    /// Its line.
    fn line(&self) -> Line<'_>;
}

impl Event for OkdEvent {
    fn line(&self) -> Line<'_> {
        line_of!(self, At::Okd, OkdEvent: Up Down,
            OkdEvent::Accept(path) => Line::new(At::Okd, Deed::Accept, 0, 0).with(path.as_slice()),
        )
    }
}

impl Event for ProxyEvent {
    fn line(&self) -> Line<'_> {
        let at = At::Proxy(0);
        line_of!(self, at, ProxyEvent: Revoke,
            ProxyEvent::Install { service, incarnation, token } => {
                Line::new(at, Deed::Install, *service, *incarnation).with(&token.bytes)
            }
            ProxyEvent::Open { service, incarnation, shown } => {
                Line::new(at, Deed::Open, *service, *incarnation).with(&shown.bytes)
            }
            ProxyEvent::Call(call, mark) => Line {
                number: call.session,
                query: call.query,
                args: call.args.as_slice(),
                failed: *mark == Mark::Fault,
                ..Line::new(at, Deed::Call, call.service, call.incarnation)
            },
        )
    }
}

impl Event for PubdEvent {
    fn line(&self) -> Line<'_> {
        line_of!(self, At::Pubd, PubdEvent: Install Revoke Drain,
            PubdEvent::Publish { template, content } => Line {
                number: u32::from(*template),
                ..Line::new(At::Pubd, Deed::Publish, 0, 0).with(content.as_slice())
            },
            PubdEvent::Get { service, incarnation, name } => {
                Line::new(At::Pubd, Deed::Get, *service, *incarnation).with(name.as_slice())
            }
        )
    }
}

impl Event for LogEvent {
    fn line(&self) -> Line<'_> {
        line_of!(self, At::Oklogd, LogEvent: Install Revoke,
            LogEvent::Log { service, incarnation, text } => {
                Line::new(At::Oklogd, Deed::Log, *service, *incarnation).with(text.as_slice())
            }
        )
    }
}

impl Event for LauncherEvent {
    fn line(&self) -> Line<'_> {
        line_of!(self, At::Launcher, LauncherEvent: Begun Failed Crashed,
            LauncherEvent::Dead { service, tries } => Line {
                number: *tries,
                ..Line::new(At::Launcher, Deed::Dead, *service, 0)
            },
            LauncherEvent::Asked { service } => Line::new(At::Launcher, Deed::Asked, *service, 0),
        )
    }
}

/// An item of a number's own list.
pub fn own_line(own: &Own) -> Line<'_> {
    match own {
        Own::Okd(event) => event.line(),
        Own::Proxy(proxy, event) => Line {
            at: At::Proxy(*proxy),
            ..event.line()
        },
        Own::Pubd(event) => event.line(),
        Own::Oklogd(event) => event.line(),
        Own::Launcher(event) => event.line(),
        Own::Dialog(service) => Line::new(At::Cell(*service), Deed::Dialog, *service, 0),
        Own::Missed {
            service,
            wanted,
            is,
        } => Line {
            number: *wanted,
            ..Line::new(At::Cell(*service), Deed::Missed, *service, *is)
        },
        Own::NoMemory => Line::new(At::Nowhere, Deed::NoMemory, 0, 0),
        Own::Boot {
            service,
            incarnation,
        } => Line::new(At::Cell(*service), Deed::Boot, *service, *incarnation),
        Own::Retired(service) => Line::new(At::Cell(*service), Deed::Retired, *service, 0),
    }
}

/// An event of a cell, whose Boots and Retireds are the launcher's.
pub fn cell_line(service: u16, launcher: u16, event: &CellEvent) -> Option<Line<'_>> {
    let at = At::Cell(service);
    let (worker, line) = match event {
        CellEvent::Boot(incarnation) => (
            launcher,
            Line::new(at, Deed::Boot, service, *incarnation),
        ),
        CellEvent::Retired => (launcher, Line::new(at, Deed::Retired, service, 0)),
        CellEvent::Missed { worker, wanted, is } => {
            let missed = Line::new(at, Deed::Missed, service, *is);
            (
                *worker,
                Line {
                    number: *wanted,
                    ..missed
                },
            )
        }
        CellEvent::Dialog(dialog) => {
            let line = Line {
                items: dialog.items.as_slice()?,
                end: Some(dialog.end),
                ..Line::new(at, Deed::Dialog, service, 0)
            };
            (dialog.worker, line)
        }
        CellEvent::Speaking { .. } => return None,
    };
    Some(Line { worker, ..line })
}
