//! The frames that a service and its server send one another.

use okws_base::items::Items;
use okws_base::value::{Row, Token, Value};

/// What a service says.
pub enum ServiceFrame {
    /// Asks a database proxy for a session, and shows it a token.
    Open {
        proxy: u16,
        shown: Token,
    },
    /// Calls a query with at most 255 arguments in a session.
    Call {
        proxy: u16,
        session: u32,
        query: u16,
        args: Items<Value>,
    },
    /// Asks for a template by a name of at most 255 bytes.
    Get(Items<u8>),
    /// Writes a text to the log.
    Log(Items<u8>),
    /// Answers the request; a Location of no bytes is none.
    Reply {
        status: u16,
        content_type: Items<u8>,
        location: Items<u8>,
        content: Items<u8>,
    },
}

impl Drop for ServiceFrame {
    fn drop(self) {
        match self {
            ServiceFrame::Call {
                proxy: _,
                session: _,
                query: _,
                args,
            } => drop(args),
            ServiceFrame::Get(it) => drop(it),
            ServiceFrame::Log(it) => drop(it),
            ServiceFrame::Reply {
                status: _,
                content_type,
                location,
                content,
            } => {
                drop(content_type);
                drop(location);
                drop(content);
            }
            ServiceFrame::Open { proxy: _, shown: _ } => {}
        }
    }
}

/// A token, and the proxy for which it was made.
#[derive(Clone, Copy)]
pub struct Issued {
    pub proxy: u16,
    pub token: Token,
}

/// What a service hears.
#[derive(Drop)]
pub enum ServerFrame {
    /// Tells a service which incarnation it is, and gives it at most 255 tokens.
    Boot {
        service: u16,
        incarnation: u32,
        tokens: Items<Issued>,
    },
    /// Hands a request on: its head with the empty line, and its content.
    Request {
        head: Items<u8>,
        content: Items<u8>,
    },
    /// Gives an edition of a template, whose name has at most 255 bytes, before a Request.
    Push {
        template: Items<u8>,
        edition: u32,
        content: Items<u8>,
    },
    /// Answers an Open with the number of the session.
    Opened(u32),
    /// Answers a Call that selects with rows of so many columns each.
    Rows {
        columns: u8,
        rows: Items<Row>,
    },
    /// Answers a Call that writes with the count of rows that it inserted, updated or deleted.
    Changed(u64),
    /// Answers a Get with the last edition.
    Template {
        edition: u32,
        content: Items<u8>,
    },
    /// Answers a Log.
    Logged,
    /// Answers any call that is denied with the number of the rule.
    Denied(u8),
    /// Answers a Call that failed at the store.
    Failed,
    /// Answers any call for which there was no memory.
    NoMemory,
    /// Answers a Call whose insertion would give a key twice.
    Duplicate,
}
