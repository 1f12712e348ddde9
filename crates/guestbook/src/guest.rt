//! The guestbook over a link.

ghost use Rattle.std.specs.Prelude.{◌≡◌};
ghost use Rattle.frame_codec.specs.Spelling.{ServiceHasSpelling};
ghost use Rattle.svc_kit.specs.Asking.{Says};
ghost use Rattle.guestbook.specs.Guest.{Rounds, Guests};

use crate::book::{Guestbook, NoTurn};
use frame_codec::frame::ServiceFrame;
use okws_outer::stream::Link;
use std::alloc::Global;
use std::sync::Wait;
use svc_kit::saying::{hear, say};
use svc_kit::stop::Stop;

/// Puts a frame that has a spelling.
fn put<L: Link>(link: &mut L, frame: &ServiceFrame) -> Result<(), Stop>
    requires { ServiceHasSpelling frame.now }
    ensures { Says (L.wire link.old) frame.now result (L.wire link.new) }
{
    match say(link, frame) {
        Ok(()) => Ok(()),
        Err(_) => Err(Stop::LinkFault),
    }
}

/// Hears a frame, and says what is due then.
fn round<L: Link>(alloc: Global, book: &mut Guestbook, link: &mut L) -> Result<(), Stop>
    ensures { Rounds book.old (L.wire link.old) result book.new (L.wire link.new) }
{
    let frame = match hear(alloc, link) {
        Ok(frame) => frame,
        Err(stop) => return Err(stop),
    };
    match book.hear(frame) {
        Ok(Some(said)) => put(link, &said),
        Ok(None) => Ok(()),
        Err(NoTurn::Unlooked(frame)) => Err(Stop::Unlooked(frame)),
        Err(NoTurn::NoMemory) => Err(Stop::NoMemory),
    }
}

/// Serves the guestbook over a link, until the link's bytes end, or are no frame, or a frame comes that isn't due, or a
/// call of the link fails, or memory is refused. What it said is what `says` of specs/Book.antt gives for the frames that
/// it heard, where the link tells.
pub fn guest<R: Wait, L: Link>(rt: &R, alloc: Global, link: &mut L) -> Stop
    ensures { Guests (L.wire link.old) result (L.wire link.new) }
{
    let mut book = Guestbook::new(alloc);
    for _ in rt.forever() {
        if let Err(stop) = round(alloc, &mut book, link) {
            return stop;
        }
    }
    unreachable!()
}
