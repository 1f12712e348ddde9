//! Saying a frame over a link, and taking its one answer.

ghost use Rattle.svc_kit.specs.Asking.{Asks, Says, IsHeard, IsUnjudged};

use crate::receiving::{NextFrame, next};
use crate::stop::Stop;
use frame_codec::frame::{ServerFrame, ServiceFrame};
pub use frame_codec::service::write_service_frame;
pub use frame_link::sending::say;
use okws_outer::stream::Link;
use std::alloc::Global;

/// Takes the next frame.
pub fn hear<L: Link>(alloc: Global, link: &mut L) -> Result<ServerFrame, Stop>
    ensures heard { IsHeard (L.wire link.old) result (L.wire link.new) }
    ensures unjudged { IsUnjudged result }
{
    match next(alloc, link) {
        NextFrame::Frame(frame) => Ok(frame),
        NextFrame::Ended => Err(Stop::Ended),
        NextFrame::BadFrame => Err(Stop::BadFrame),
        NextFrame::LinkFault => Err(Stop::LinkFault),
        NextFrame::NoMemory => Err(Stop::NoMemory),
    }
}

/// Puts the frame, where it has a spelling.
pub fn tell<L: Link>(link: &mut L, frame: &ServiceFrame) -> Result<(), Stop>
    ensures { Says (L.wire link.old) frame.now result (L.wire link.new) }
{
    if !frame.has_spelling() {
        return Err(Stop::Unsayable);
    }
    match say(link, frame) {
        Ok(()) => Ok(()),
        Err(_) => Err(Stop::LinkFault),
    }
}

/// Puts the frame, where it has a spelling, and takes its one answer.
pub fn ask<L: Link>(alloc: Global, link: &mut L, frame: &ServiceFrame) -> Result<ServerFrame, Stop>
    ensures asks { Asks (L.wire link.old) frame.now result (L.wire link.new) }
    ensures unjudged { IsUnjudged result }
{
    match tell(link, frame) {
        Ok(()) => hear(alloc, link),
        Err(stop) => Err(stop),
    }
}
