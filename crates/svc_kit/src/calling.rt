//! What a service waits for, and what the answers to its calls are.

ghost use Rattle.svc_kit.specs.Asking.{IsUnjudged};
ghost use Rattle.svc_kit.specs.Telling.{opened_frame, outcome_frame, edition_frame, logged_frame, IsEvent, IsTold, IsAt};

use crate::answer::{Answer, Edition, Outcome, Session};
use crate::stop::Stop;
use frame_codec::frame::ServerFrame;
use okws_base::items::Items;

/// What comes between dialogs.
#[derive(Drop)]
pub enum Event {
    /// A request: its head with the empty line, and its content.
    Request {
        head: Items<u8>,
        content: Items<u8>,
    },
    /// An edition of a template.
    Push {
        template: Items<u8>,
        edition: u32,
        content: Items<u8>,
    },
}

/// What came between dialogs: a Request or a Push.
pub(crate) fn event_of(heard: Result<ServerFrame, Stop>) -> Result<Event, Stop>
    requires { IsUnjudged heard }
    ensures { IsEvent heard result }
{
    let frame = match heard {
        Ok(frame) => frame,
        Err(stop) => return Err(stop),
    };
    match frame {
        ServerFrame::Request { head, content } => Ok(Event::Request { head, content }),
        ServerFrame::Push {
            template,
            edition,
            content,
        } => Ok(Event::Push {
            template,
            edition,
            content,
        }),
        frame => Err(Stop::Unlooked(frame)),
    }
}

/// The answer to an Open at a proxy: Opened, Denied, Failed or NoMemory.
pub(crate) fn opened_of(
    proxy: u16,
    heard: Result<ServerFrame, Stop>,
) -> Result<Answer<Session>, Stop>
    requires { IsUnjudged heard }
    ensures told { IsTold opened_frame heard result }
    ensures proxy { IsAt proxy result }
{
    let frame = match heard {
        Ok(frame) => frame,
        Err(stop) => return Err(stop),
    };
    match frame {
        ServerFrame::Opened(number) => Ok(Answer::Given(Session { proxy, number })),
        ServerFrame::Denied(rule) => Ok(Answer::Denied(rule)),
        ServerFrame::Failed => Ok(Answer::Failed),
        ServerFrame::NoMemory => Ok(Answer::NoMemory),
        frame => Err(Stop::Unlooked(frame)),
    }
}

/// The answer to a Call: Rows, Changed, Duplicate, Denied, Failed or NoMemory.
pub(crate) fn outcome_of(heard: Result<ServerFrame, Stop>) -> Result<Answer<Outcome>, Stop>
    requires { IsUnjudged heard }
    ensures { IsTold outcome_frame heard result }
{
    let frame = match heard {
        Ok(frame) => frame,
        Err(stop) => return Err(stop),
    };
    match frame {
        ServerFrame::Rows { columns, rows } => Ok(Answer::Given(Outcome::Rows { columns, rows })),
        ServerFrame::Changed(rows) => Ok(Answer::Given(Outcome::Changed(rows))),
        ServerFrame::Duplicate => Ok(Answer::Given(Outcome::Duplicate)),
        ServerFrame::Denied(rule) => Ok(Answer::Denied(rule)),
        ServerFrame::Failed => Ok(Answer::Failed),
        ServerFrame::NoMemory => Ok(Answer::NoMemory),
        frame => Err(Stop::Unlooked(frame)),
    }
}

/// The answer to a Get: Template, Denied, Failed or NoMemory.
pub(crate) fn edition_of(heard: Result<ServerFrame, Stop>) -> Result<Answer<Edition>, Stop>
    requires { IsUnjudged heard }
    ensures { IsTold edition_frame heard result }
{
    let frame = match heard {
        Ok(frame) => frame,
        Err(stop) => return Err(stop),
    };
    match frame {
        ServerFrame::Template { edition, content } => Ok(Answer::Given(Edition {
            number: edition,
            content,
        })),
        ServerFrame::Denied(rule) => Ok(Answer::Denied(rule)),
        ServerFrame::Failed => Ok(Answer::Failed),
        ServerFrame::NoMemory => Ok(Answer::NoMemory),
        frame => Err(Stop::Unlooked(frame)),
    }
}

/// The answer to a Log: Logged, Denied, Failed or NoMemory.
pub(crate) fn logged_of(heard: Result<ServerFrame, Stop>) -> Result<Answer<()>, Stop>
    requires { IsUnjudged heard }
    ensures { IsTold logged_frame heard result }
{
    let frame = match heard {
        Ok(frame) => frame,
        Err(stop) => return Err(stop),
    };
    match frame {
        ServerFrame::Logged => Ok(Answer::Given(())),
        ServerFrame::Denied(rule) => Ok(Answer::Denied(rule)),
        ServerFrame::Failed => Ok(Answer::Failed),
        ServerFrame::NoMemory => Ok(Answer::NoMemory),
        frame => Err(Stop::Unlooked(frame)),
    }
}
