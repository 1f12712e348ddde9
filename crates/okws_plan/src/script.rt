//! The lines of a script, which a run in one thread takes one after another.

use okws_base::items::Items;

/// A column at which incarnations are installed.
#[derive(Clone, Copy, PartialEq, Eq)]
pub enum Place {
    Proxy(u16),
    Pubd,
    Oklogd,
}

/// The method of a request (RFC 9110, section 9.3).
#[derive(Clone, Copy)]
pub enum Method {
    Get,
    Head,
    Post,
}

/// A line of a script; services and templates by number, requests from 0.
#[derive(Drop)]
pub enum Line {
    /// The next incarnation of the service begins.
    Begin(u16),
    /// The greatest incarnation begun is installed at the column.
    Install {
        service: u16,
        place: Place,
    },
    /// The standing incarnation at the column, if any, is revoked.
    Revoke {
        service: u16,
        place: Place,
    },
    /// A fresh link gets Boot of the greatest incarnation begun.
    Boot(u16),
    /// The incarnation of the cell is up at okd.
    Up(u16),
    /// The incarnation that is up at okd, if any, is down.
    Down(u16),
    /// Begin, install along the service's columns, boot, up.
    Launch(u16),
    /// Begin, down, revoke everywhere, retire, and then the rest of a launch.
    Relaunch(u16),
    /// The next request; its target is a path and, after a `?`, a query string.
    Accept {
        method: Method,
        target: Items<u8>,
        content: Items<u8>,
    },
    /// The dialog of a request begins.
    Dialog(u32),
    /// Bytes come from the service.
    Bytes {
        service: u16,
        bytes: Items<u8>,
    },
    /// The service's bytes end.
    End(u16),
    /// A template gets its next edition.
    Publish {
        template: u16,
        content: Items<u8>,
    },
}
