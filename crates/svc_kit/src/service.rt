//! A service: its link, what Boot told it, and its calls.

ghost use Rattle.std.specs.Prelude.{◌≡◌, Err, IfSome, IsNone, option_map};
ghost use Rattle.frame_codec.specs.declared.frame.ServiceFrame.TheVariants as said;
ghost use Rattle.svc_kit.specs.Asking.{Says};
ghost use Rattle.svc_kit.specs.Serving.{Calls, Opens, Waits, Boots, token_of};
ghost use Rattle.svc_kit.specs.Telling.{opened_frame, outcome_frame, edition_frame, logged_frame};

use crate::answer::{Answer, Edition, Outcome, Session};
use crate::calling::{Event, edition_of, event_of, logged_of, opened_of, outcome_of};
use crate::saying::{ask, hear, tell};
use crate::stop::Stop;
use frame_codec::frame::{Issued, ServerFrame, ServiceFrame};
use okws_base::items::Items;
use okws_base::value::{Token, Value};
use okws_outer::stream::Link;
use std::alloc::Global;

/// A service that was booted. Each of its calls puts one frame on the link and takes the one frame
/// that answers it; a Reply has no answer.
#[derive(Drop)]
pub struct Service<L> {
    /// What its calls take memory of.
    pub alloc: Global,
    /// The link to the server.
    pub link: L,
    /// The service's number.
    pub number: u16,
    /// Which incarnation of the service this is.
    pub incarnation: u32,
    /// The tokens that Boot carried.
    pub tokens: Items<Issued>,
}

/// What comes of booting.
#[derive(Drop)]
pub enum Booting<L> {
    Booted(Service<L>),
    /// Why there was no Boot, and the link.
    Stopped(Stop, L),
}

/// The first token for the proxy.
fn token_in(tokens: &[Issued], proxy: u16) -> Option<Token>
    ensures { result ≡ token_of proxy tokens.now }
{
    for issued in tokens {
        if issued.proxy == proxy {
            return Some(issued.token);
        }
    }
    None
}

impl<L: Link> Service<L> {
    /// Takes the Boot with which the server begins.
    pub fn boot(alloc: Global, mut link: L) -> Booting<L>
    where
        L: Drop,
        ensures { Boots L.wire (L.wire link) result }
    {
        match hear(alloc, &mut link) {
            Ok(
                ServerFrame::Boot {
                    service,
                    incarnation,
                    tokens,
                },
            ) => Booting::Booted(Service {
                alloc,
                link,
                number: service,
                incarnation,
                tokens,
            }),
            Ok(frame) => Booting::Stopped(Stop::Unlooked(frame), link),
            Err(stop) => Booting::Stopped(stop, link),
        }
    }

    /// The token that Boot carried for the proxy, the first where it carried more than one.
    pub fn token(&self, proxy: u16) -> Option<Token>
        ensures { result ≡ token_of proxy self.now.tokens }
    {
        token_in(self.tokens.as_slice(), proxy)
    }

    /// Waits for the next Request, or for a Push before it.
    pub fn wait(&mut self) -> Result<Event, Stop>
        ensures event { Waits (L.wire self.old.link) result (L.wire self.new.link) }
        ensures same { self.new ≡ record self.old { link = self.new.link } }
    {
        event_of(hear(self.alloc, &mut self.link))
    }

    /// Opens a session at the proxy by its token. It is None where Boot carried no token for it; then
    /// nothing is put.
    pub fn open(&mut self, proxy: u16) -> Result<Option<Answer<Session>>, Stop>
        ensures answer { Opens (L.wire self.old.link) proxy (token_of proxy self.old.tokens) result (L.wire self.new.link) }
        ensures same { self.new ≡ record self.old { link = self.new.link } }
    {
        let Some(shown) = self.token(proxy) else {
            return Ok(None);
        };
        let frame = ServiceFrame::Open { proxy, shown };
        match opened_of(proxy, ask(self.alloc, &mut self.link, &frame)) {
            Ok(answer) => Ok(Some(answer)),
            Err(stop) => Err(stop),
        }
    }

    /// Calls a query in a session, with at most 255 arguments.
    pub fn call(
        &mut self,
        session: Session,
        query: u16,
        args: Vec<Value>,
    ) -> Result<Answer<Outcome>, Stop>
        ensures answer { Calls outcome_frame (L.wire self.old.link) (said.Call session.proxy session.number query args.items) result (L.wire self.new.link) }
        ensures same { self.new ≡ record self.old { link = self.new.link } }
    {
        let frame = ServiceFrame::Call {
            proxy: session.proxy,
            session: session.number,
            query,
            args: Items::of(args),
        };
        outcome_of(ask(self.alloc, &mut self.link, &frame))
    }

    /// Gets the last edition of a template by its name of at most 255 bytes.
    pub fn get(&mut self, template: Vec<u8>) -> Result<Answer<Edition>, Stop>
        ensures answer { Calls edition_frame (L.wire self.old.link) (said.Get template.items) result (L.wire self.new.link) }
        ensures same { self.new ≡ record self.old { link = self.new.link } }
    {
        let frame = ServiceFrame::Get(Items::of(template));
        edition_of(ask(self.alloc, &mut self.link, &frame))
    }

    /// Writes a text to the log; the server denies one of more than 1,024 bytes.
    pub fn log(&mut self, text: Vec<u8>) -> Result<Answer<()>, Stop>
        ensures answer { Calls logged_frame (L.wire self.old.link) (said.Log text.items) result (L.wire self.new.link) }
        ensures same { self.new ≡ record self.old { link = self.new.link } }
    {
        let frame = ServiceFrame::Log(Items::of(text));
        logged_of(ask(self.alloc, &mut self.link, &frame))
    }

    /// Answers the request, and so ends its dialog; a Location of no bytes is none.
    pub fn reply(
        &mut self,
        status: u16,
        content_type: Vec<u8>,
        location: Vec<u8>,
        content: Vec<u8>,
    ) -> Result<(), Stop>
        ensures said { Says (L.wire self.old.link) (said.Reply status content_type.items location.items content.items) result (L.wire self.new.link) }
        ensures same { self.new ≡ record self.old { link = self.new.link } }
    {
        let frame = ServiceFrame::Reply {
            status,
            content_type: Items::of(content_type),
            location: Items::of(location),
            content: Items::of(content),
        };
        tell(&mut self.link, &frame)
    }
}
