//! The events of the five kinds of journal. A `service` is its number, an `incarnation` counts from 1.

use okws_base::items::Items;
use okws_base::value::{Token, Value};

/// What okd enters: which incarnation of a service is up, and the paths of accepted requests.
pub enum OkdEvent {
    Up { service: u16, incarnation: u32 },
    Down { service: u16, incarnation: u32 },
    Accept(Items<u8>),
}

impl Drop for OkdEvent {
    fn drop(self) {
        match self {
            OkdEvent::Accept(it) => drop(it),
            OkdEvent::Up {
                service: _,
                incarnation: _,
            }
            | OkdEvent::Down {
                service: _,
                incarnation: _,
            } => {}
        }
    }
}

/// Whether the keeper of the rows did what an allowed call asked.
#[derive(Clone, Copy, PartialEq, Eq)]
pub enum Mark {
    Done,
    Fault,
}

/// A call of a query on a session of an incarnation; sessions count from 0.
pub struct Call {
    pub service: u16,
    pub incarnation: u32,
    pub session: u32,
    pub query: u16,
    pub args: Items<Value>,
}

impl Drop for Call {
    fn drop(self) {
        let Call {
            service: _,
            incarnation: _,
            session: _,
            query: _,
            args,
        } = self;
        drop(args);
    }
}

/// What a database proxy enters.
pub enum ProxyEvent {
    Install {
        service: u16,
        incarnation: u32,
        token: Token,
    },
    Revoke {
        service: u16,
        incarnation: u32,
    },
    Open {
        service: u16,
        incarnation: u32,
        shown: Token,
    },
    Call(Call, Mark),
}

impl Drop for ProxyEvent {
    fn drop(self) {
        match self {
            ProxyEvent::Call(it, _) => drop(it),
            ProxyEvent::Install {
                service: _,
                incarnation: _,
                token: _,
            }
            | ProxyEvent::Revoke {
                service: _,
                incarnation: _,
            }
            | ProxyEvent::Open {
                service: _,
                incarnation: _,
                shown: _,
            } => {}
        }
    }
}

/// What the template publisher enters. A Get carries the name that was asked for, of any bytes.
pub enum PubdEvent {
    Install {
        service: u16,
        incarnation: u32,
    },
    Revoke {
        service: u16,
        incarnation: u32,
    },
    Publish {
        template: u16,
        content: Items<u8>,
    },
    Drain {
        service: u16,
        incarnation: u32,
    },
    Get {
        service: u16,
        incarnation: u32,
        name: Items<u8>,
    },
}

impl Drop for PubdEvent {
    fn drop(self) {
        match self {
            PubdEvent::Publish {
                template: _,
                content,
            } => drop(content),
            PubdEvent::Get {
                service: _,
                incarnation: _,
                name,
            } => drop(name),
            PubdEvent::Install {
                service: _,
                incarnation: _,
            }
            | PubdEvent::Revoke {
                service: _,
                incarnation: _,
            }
            | PubdEvent::Drain {
                service: _,
                incarnation: _,
            } => {}
        }
    }
}

/// What the log daemon enters.
pub enum LogEvent {
    Install {
        service: u16,
        incarnation: u32,
    },
    Revoke {
        service: u16,
        incarnation: u32,
    },
    Log {
        service: u16,
        incarnation: u32,
        text: Items<u8>,
    },
}

impl Drop for LogEvent {
    fn drop(self) {
        match self {
            LogEvent::Log {
                service: _,
                incarnation: _,
                text,
            } => drop(text),
            LogEvent::Install {
                service: _,
                incarnation: _,
            }
            | LogEvent::Revoke {
                service: _,
                incarnation: _,
            } => {}
        }
    }
}

/// What the launcher enters: an incarnation begun, a start that failed, a crash, a service given up
/// after so many tries, and what the operator asked.
#[derive(Clone, Copy, PartialEq, Eq)]
pub enum LauncherEvent {
    Begun { service: u16, incarnation: u32 },
    Failed { service: u16, incarnation: u32 },
    Crashed { service: u16, incarnation: u32 },
    Dead { service: u16, tries: u32 },
    Asked { service: u16 },
}
