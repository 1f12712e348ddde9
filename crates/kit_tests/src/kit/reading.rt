//! Both readers of the kit on one frame each; the codec's tests have all kinds.

use super::{OPENED, decoded, fed};
use crate::holding::holds;
use frame_codec::frame::ServerFrame;
use svc_kit::reading::{Read, read_frame};
use svc_kit::receiving::{NextFrame, next};

#[test]
fn what_the_server_says_is_read(rt: HostRuntime) {
    let bytes = decoded(&rt, rt.alloc(), OPENED);
    let read: Read = read_frame(rt.alloc(), &bytes);
    let is = matches!(read, Read::Frame(ServerFrame::Opened(0), 9));
    holds(&rt, is, "read");
    let mut link = fed(&rt, rt.alloc(), 1, &[OPENED]);
    let first = next(rt.alloc(), &mut link);
    let is = matches!(first, NextFrame::Frame(ServerFrame::Opened(0)));
    holds(&rt, is, "opened");
    let last = next(rt.alloc(), &mut link);
    holds(&rt, matches!(last, NextFrame::Ended), "ended");
}
