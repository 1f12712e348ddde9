//! Frames are put on a link as they are spelled, which takes no memory: what is short is gathered, so
//! that a frame that fits what is gathered at a time is one put.

ghost use Rattle.std.specs.Prelude.{◌≡◌, ℕ, List, [], ◌++◌, length, Ok, MatchResult};
ghost use Rattle.std.specs.Io.KnownBytes.{Appends};
ghost use Rattle.okws_outer.specs.Streams.{AppendsPrefix};
ghost use Rattle.okws_outer.specs.Wire.{Wire, Gives};
ghost use Rattle.frame_codec.specs.Spelling.{framed, server_spelling, service_spelling, HasSpelling, ServiceHasSpelling};
ghost use Rattle.frame_codec.specs.Taking.{IsFramed};
ghost use Rattle.frame_link.specs.Sending.{Gathers, Sends};

use arrayvec::ArrayVec;
use frame_codec::frame::{ServerFrame, ServiceFrame};
use frame_codec::framing::{Frame, spell};
use frame_codec::taker::Taker;
use okws_outer::stream::{Link, Put};

/// A call of a link failed and was counted.
#[derive(Clone, Copy)]
pub struct LinkFault;

fn put<L: Link>(link: &mut L, bytes: &[u8]) -> Result<(), LinkFault>
    ensures { Sends (L.wire link.old) bytes.now result (L.wire link.new) }
{
    match link.put(bytes) {
        Put::Done => Ok(()),
        Put::Stopped(_) => Err(LinkFault),
    }
}

/// Puts bytes that are due next, unless a call of the link has failed before.
fn put_after<L: Link>(
    sent: Result<(), LinkFault>,
    link: &mut L,
    bytes: &[u8],
) -> Result<(), LinkFault>
    ensures { (start : Wire) (text : List ℕ) → Gathers start text sent bytes.now (L.wire link.old) → Gathers start text result [] (L.wire link.new) }
{
    if sent.is_err() {
        return sent;
    }
    put(link, bytes)
}

/// Bytes that are gathered before they are put.
const GATHERED: usize = 1024;

/// Puts on a link what it takes, and nothing more once a call of the link has failed. Gathers what is
/// short, up to GATHERED bytes for one put.
struct Sending<'a, L: Link> {
    link: &'a mut L,
    gathered: ArrayVec<u8, GATHERED>,
    sent: Result<(), LinkFault>,
}

impl<'a, L: Link> Sending<'a, L> {
    /// Nothing is sent or gathered yet.
    fn on(link: &'a mut L) -> Self
        ensures link { result.link.ghost_name ≡ link.entry.ghost_name }
        ensures nothing { Gathers (L.wire link.old) [] result.sent result.gathered.items (L.wire result.link.now) }
        ensures same { result.link.now ≡ link.old }
    {
        Sending {
            link,
            gathered: ArrayVec::new(),
            sent: Ok(()),
        }
    }

    /// Puts what is gathered.
    fn flush(&mut self)
        ensures link { self.new.link.ghost_name ≡ self.old.link.ghost_name }
        ensures empty { self.new.gathered.items ≡ [] }
        ensures puts { (start : Wire) (text : List ℕ) → Gathers start text self.old.sent self.old.gathered.items (L.wire self.old.link.now) → Gathers start text self.new.sent [] (L.wire self.new.link.now) }
    {
        if self.gathered.is_empty() {
            return;
        }
        self.sent = put_after(self.sent, self.link, self.gathered.as_slice());
        self.gathered.clear();
    }
}

impl<'a, L: Link> Taker for Sending<'a, L> {
    ghost took = { λ start text now. (now.link.ghost_name ≡ start.link.ghost_name) × Gathers (L.wire start.link.now) text now.sent now.gathered.items (L.wire now.link.now) };

    #[inline(always)]
    fn take(&mut self, bytes: &[u8]) {
        if self.gathered.try_extend_from_slice(bytes).is_ok() {
            return;
        }
        self.flush();
        if self.gathered.try_extend_from_slice(bytes).is_err() {
            self.sent = put_after(self.sent, self.link, bytes);
        }
    }
}

/// Puts a frame of either direction.
fn put_frame<F: Frame, L: Link>(link: &mut L, frame: &F) -> Result<(), LinkFault>
    requires { IsFramed F.parts F.fits frame.now }
    ensures { Sends (L.wire link.old) (framed (F.parts frame.now)) result (L.wire link.new) }
{
    let mut sending = Sending::on(link);
    spell(frame, &mut sending);
    sending.flush();
    let Sending {
        link: _,
        gathered: _,
        sent,
    } = sending;
    sent
}

/// Puts the one spelling of what a service is to hear on the link, or after a fault a prefix of it.
/// Takes no memory.
pub fn send<L: Link>(link: &mut L, frame: &ServerFrame) -> Result<(), LinkFault>
    requires { HasSpelling frame.now }
    ensures bytes { MatchResult result (λ _. Appends (L.wire link.old).given (L.wire link.new).given (server_spelling frame.now)) (λ _. AppendsPrefix (L.wire link.old).given (L.wire link.new).given (server_spelling frame.now)) }
    ensures link { Gives (L.wire link.old) (L.wire link.new) (length (server_spelling frame.now)) (result ≡ Ok tt) }
{
    put_frame(link, frame)
}

/// Puts the one spelling of what a service says on the link, or after a fault a prefix of it. Takes
/// no memory.
pub fn say<L: Link>(link: &mut L, frame: &ServiceFrame) -> Result<(), LinkFault>
    requires { ServiceHasSpelling frame.now }
    ensures bytes { MatchResult result (λ _. Appends (L.wire link.old).given (L.wire link.new).given (service_spelling frame.now)) (λ _. AppendsPrefix (L.wire link.old).given (L.wire link.new).given (service_spelling frame.now)) }
    ensures link { Gives (L.wire link.old) (L.wire link.new) (length (service_spelling frame.now)) (result ≡ Ok tt) }
{
    put_frame(link, frame)
}
