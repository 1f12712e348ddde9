//! The service's link and its calls over memory, and forms. Not tested here: each kind of frame, which
//! the codec's tests have, and standard input and output.

mod calling;
mod example;
mod form;
mod reading;

use crate::holding::MEMORY;
use okws_outer::memory::link::{FedLink, MemoryLink};
use okws_outer::stream::Link;
use std::alloc::Global;
use std::process::Abort;

/// The Boot of service 0, incarnation 1, with a token at proxy 0.
const BOOT: &str = "0000001e010000000000010100000000000000000001ade0b876903df1a0e56a5d40";

/// A Request of `GET /guest` without content.
const REQUEST: &str =
    "000000310200000028474554202f677565737420485454502f312e310d0a486f73743a206c6f63616c686f73740d0a0d0a00000000";

/// Opened with session 0.
const OPENED: &str = "000000050400000000";

/// The rows 1 `ann` and 2 `bob`.
const ROWS: &str =
    "000000280502000000020100000000000000010200000003616e6e0100000000000000020200000003626f62";

/// The bytes of these hexadecimal digits.
pub(crate) fn decoded(rt: &impl Abort, alloc: Global, digits: &str) -> Vec<u8> {
    match hex::decode(alloc, digits) {
        Ok(bytes) => bytes,
        Err(_) => panic!(rt; "no hexadecimal digits"),
    }
}

/// The hexadecimal digits of these bytes.
pub(crate) fn encoded(rt: &impl Abort, alloc: Global, bytes: &[u8]) -> String {
    hex::encode(alloc, bytes).expect(rt, MEMORY)
}

/// A link with room, to which these frames were fed, and then the end.
fn fed(rt: &impl Abort, alloc: Global, piece: usize, frames: &[&str]) -> MemoryLink<'static> {
    let mut link = MemoryLink::new(alloc, piece, &[]);
    link.make_room(4096).expect(rt, MEMORY);
    for frame in frames {
        let bytes = decoded(rt, alloc, frame);
        link.feed(&bytes).expect(rt, MEMORY);
    }
    link.feed_end();
    link
}
