//! What the guestbook makes of each frame that it hears.

ghost use Rattle.std.specs.Prelude.{◌≡◌, IfOk, IfSome, option_map};
ghost use Rattle.frame_codec.specs.Spelling.{ServiceHasSpelling};
ghost use Rattle.guestbook.specs.Guest.{IsHearing};
ghost use Rattle.guestbook.specs.Book.{Book, IsTurn, IsSayable, book_of, step_of, token_in, boots, does, opens, begins, takes, opened, selected, inserted, logged, turn, blank};

use crate::frames::{
    bad_form, fits, insert_frame, log_frame, open_frame, refused, see_other, select_frame, shown,
    taken,
};
use crate::listing::lines_of;
use crate::request::{Asked, Entry, read};
use frame_codec::frame::{Issued, ServerFrame, ServiceFrame};
use okws_base::value::Token;
use std::alloc::{AllocError, Global};
use std::mem;
use svc_kit::pages::Pages;

/// What the guestbook waits for.
#[derive(Drop)]
pub enum Awaited {
    /// The Boot with which all begins.
    ForBoot,
    /// A request, or a template before it.
    ForRequest,
    /// A session, by which it is to do what a request asks.
    ForSession(Asked),
    /// The answer to query 1.
    ForRows,
    /// The answer to query 2 with this number.
    ForChange(i64),
    /// The answer to a Log.
    ForLogged,
}

/// What it says in a turn, if anything, and what it waits for then.
#[derive(Drop)]
pub struct Next {
    pub awaits: Awaited,
    pub said: Option<ServiceFrame>,
}

/// Why there is no turn.
#[derive(Drop)]
pub enum NoTurn {
    /// The frame isn't due.
    Unlooked(ServerFrame),
    /// Memory was refused.
    NoMemory,
}

impl From<AllocError> for NoTurn {
    ghost use Rattle.guestbook.specs.declared.book.NoTurn.TheVariants.{NoMemory};

    ghost from_gives = { λ _ e. e ≡ NoMemory };

    fn from(_e: AllocError) -> NoTurn {
        NoTurn::NoMemory
    }
}

/// What the guestbook knows, and what it waits for.
#[derive(Drop)]
pub struct Guestbook {
    alloc: Global,
    token: Option<Token>,
    session: Option<u32>,
    pages: Pages,
    awaits: Awaited,
}

/// The first token for proxy 0.
fn token_of(tokens: &[Issued]) -> Option<Token>
    ensures { result ≡ token_in tokens.now }
{
    for issued in tokens {
        if issued.proxy == 0 {
            return Some(issued.token);
        }
    }
    None
}

/// Nothing is said, and a request is awaited.
fn listens() -> Next
    ensures next { result ≡ record { awaits = Awaited.ForRequest; said = None } }
{
    Next {
        awaits: Awaited::ForRequest,
        said: None,
    }
}

/// The request is answered, and the next one is awaited.
fn replies(reply: ServiceFrame) -> Next
    ensures next { result ≡ record { awaits = Awaited.ForRequest; said = Some reply } }
{
    Next {
        awaits: Awaited::ForRequest,
        said: Some(reply),
    }
}

/// This is said, and its answer is awaited.
fn asks(frame: ServiceFrame, awaits: Awaited) -> Next
    ensures next { result ≡ record { awaits = awaits; said = Some frame } }
{
    Next {
        awaits,
        said: Some(frame),
    }
}

/// Does in a session what a request asks.
fn does(alloc: Global, session: u32, asked: Asked) -> Result<Next, AllocError>
    ensures turn { IfOk result (λ next. (book : Book) → does book session asked ≡ step_of book next) }
    ensures sayable { IfOk result IsSayable }
{
    match asked {
        Asked::Show => Ok(asks(select_frame(alloc, session), Awaited::ForRows)),
        Asked::Sign(entry) if fits(&entry) => {
            let Entry { id, who, note } = entry;
            let frame = insert_frame(alloc, session, id, who, note)?;
            Ok(asks(frame, Awaited::ForChange(id)))
        }
        Asked::Sign(_) => Ok(replies(refused(alloc)?)),
        Asked::BadForm => Ok(replies(bad_form(alloc)?)),
    }
}

impl Guestbook {
    /// It knows nothing, and waits for a Boot; takes no memory.
    pub fn new(alloc: Global) -> Guestbook
        ensures book { book_of result ≡ blank.book }
        ensures awaits { result.awaits ≡ Awaited.ForBoot }
    {
        Guestbook {
            alloc,
            token: None,
            session: None,
            pages: Pages::new(alloc),
            awaits: Awaited::ForBoot,
        }
    }

    fn boots(&mut self, frame: ServerFrame) -> Result<Next, NoTurn>
        ensures turn { IsTurn result (boots (book_of self.old) frame) frame (book_of self.new) }
        ensures sayable { IfOk result IsSayable }
    {
        match frame {
            ServerFrame::Boot { tokens, .. } => {
                self.token = token_of(tokens.as_slice());
                Ok(listens())
            }
            frame => Err(NoTurn::Unlooked(frame)),
        }
    }

    /// Opens proxy 0, for what a request asks.
    fn opens(&self, asked: Asked) -> Result<Next, AllocError>
        ensures turn { IfOk result (λ next. opens (book_of self.now) self.now.token asked ≡ step_of (book_of self.now) next) }
        ensures sayable { IfOk result IsSayable }
    {
        match self.token {
            Some(token) => Ok(asks(open_frame(token), Awaited::ForSession(asked))),
            None => Ok(replies(refused(self.alloc)?)),
        }
    }

    /// Does what a request asks, or opens proxy 0 for it first.
    fn begins(&self, asked: Asked) -> Result<Next, AllocError>
        ensures turn { IfOk result (λ next. begins (book_of self.now) self.now.session asked ≡ step_of (book_of self.now) next) }
        ensures sayable { IfOk result IsSayable }
    {
        match self.session {
            Some(session) => does(self.alloc, session, asked),
            None => self.opens(asked),
        }
    }

    fn takes(&mut self, frame: ServerFrame) -> Result<Next, NoTurn>
        ensures turn { IsTurn result (takes (book_of self.old) frame) frame (book_of self.new) }
        ensures sayable { IfOk result IsSayable }
    {
        match frame {
            pushed @ ServerFrame::Push { .. } => {
                self.pages.heard(self.alloc, &pushed)?;
                Ok(listens())
            }
            ServerFrame::Request { head, content } => {
                let asked = read(self.alloc, head.as_slice(), content.as_slice())?;
                Ok(self.begins(asked)?)
            }
            frame => Err(NoTurn::Unlooked(frame)),
        }
    }

    fn opened(&mut self, asked: Asked, frame: ServerFrame) -> Result<Next, NoTurn>
        ensures turn { IsTurn result (opened (book_of self.old) asked frame) frame (book_of self.new) }
        ensures sayable { IfOk result IsSayable }
    {
        match frame {
            ServerFrame::Opened(session) => {
                self.session = Some(session);
                Ok(does(self.alloc, session, asked)?)
            }
            ServerFrame::Denied(_) | ServerFrame::Failed | ServerFrame::NoMemory => {
                Ok(replies(refused(self.alloc)?))
            }
            frame => Err(NoTurn::Unlooked(frame)),
        }
    }

    fn selected(&self, frame: ServerFrame) -> Result<Next, NoTurn>
        ensures turn { IsTurn result (selected (book_of self.now) frame) frame (book_of self.now) }
        ensures sayable { IfOk result IsSayable }
    {
        match frame {
            ServerFrame::Rows { rows, .. } => {
                let lines = lines_of(self.alloc, rows.as_slice())?;
                let page = self.pages.page(b"page").map(|page| page.1);
                Ok(replies(shown(self.alloc, page, lines)?))
            }
            ServerFrame::Changed(_)
            | ServerFrame::Duplicate
            | ServerFrame::Denied(_)
            | ServerFrame::Failed
            | ServerFrame::NoMemory => Ok(replies(refused(self.alloc)?)),
            frame => Err(NoTurn::Unlooked(frame)),
        }
    }

    fn inserted(&self, id: i64, frame: ServerFrame) -> Result<Next, NoTurn>
        ensures turn { IsTurn result (inserted (book_of self.now) id frame) frame (book_of self.now) }
        ensures sayable { IfOk result IsSayable }
    {
        match frame {
            ServerFrame::Changed(_) => Ok(asks(log_frame(self.alloc, id)?, Awaited::ForLogged)),
            ServerFrame::Duplicate => Ok(replies(taken(self.alloc)?)),
            ServerFrame::Rows { .. }
            | ServerFrame::Denied(_)
            | ServerFrame::Failed
            | ServerFrame::NoMemory => Ok(replies(refused(self.alloc)?)),
            frame => Err(NoTurn::Unlooked(frame)),
        }
    }

    fn logged(&self, frame: ServerFrame) -> Result<Next, NoTurn>
        ensures turn { IsTurn result (logged (book_of self.now) frame) frame (book_of self.now) }
        ensures sayable { IfOk result IsSayable }
    {
        match frame {
            ServerFrame::Logged => Ok(replies(see_other(self.alloc)?)),
            ServerFrame::Denied(_) | ServerFrame::Failed | ServerFrame::NoMemory => {
                Ok(replies(refused(self.alloc)?))
            }
            frame => Err(NoTurn::Unlooked(frame)),
        }
    }

    /// What it makes of a frame where it waits for this.
    fn follow(&mut self, awaits: Awaited, frame: ServerFrame) -> Result<Next, NoTurn>
        ensures turn { IsTurn result (turn awaits (book_of self.old) frame) frame (book_of self.new) }
        ensures sayable { IfOk result IsSayable }
    {
        match awaits {
            Awaited::ForBoot => self.boots(frame),
            Awaited::ForRequest => self.takes(frame),
            Awaited::ForSession(asked) => self.opened(asked, frame),
            Awaited::ForRows => self.selected(frame),
            Awaited::ForChange(id) => self.inserted(id, frame),
            Awaited::ForLogged => self.logged(frame),
        }
    }

    /// What it makes of a frame, and what it says then, if anything. An Unlooked frame isn't due; nothing more is to be
    /// heard then, nor where memory was refused.
    pub fn hear(&mut self, frame: ServerFrame) -> Result<Option<ServiceFrame>, NoTurn>
        ensures turn { IsHearing result (turn self.old.awaits (book_of self.old) frame) frame self.new }
        ensures sayable { IfOk result (λ said. IfSome said ServiceHasSpelling) }
    {
        let awaits = mem::replace(&mut self.awaits, Awaited::ForRequest);
        let next = self.follow(awaits, frame)?;
        self.awaits = next.awaits;
        Ok(next.said)
    }
}
