//! Where the text of a log goes that nobody asked for.

ghost use Rattle.std.specs.Prelude.{None};

use okws_outer::stream::{Put, Sink};

/// A sink that takes all bytes and keeps none; it never fails, and doesn't tell.
#[derive(Drop)]
pub struct Nowhere {}

impl Sink for Nowhere {
    ghost given = { λ _. None };

    ghost faults = { λ _. 0 };

    fn put(&mut self, _bytes: &[u8]) -> Put {
        Put::Done
    }
}
