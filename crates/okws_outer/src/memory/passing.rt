//! A link in memory that doesn't keep what it is given.

ghost use Rattle.std.specs.Prelude.{◌≡◌, Some, true};
ghost use Rattle.okws_outer.specs.Wire.{unused};

use crate::memory::coming::Coming;
use crate::memory::link::FedLink;
use crate::memory::told::Piece;
use crate::stream::{Link, Pull, Put};
use okws_base::items::Items;
use okws_base::told::Told;
use std::alloc::{AllocError, Global};

/// Both directions of a link in memory, of which no call fails: bytes are fed to it, and come out of it
/// in the pieces that are asked for; bytes that are put to it take no memory, and contracts alone see
/// them.
#[derive(Drop)]
pub struct PassingLink {
    coming: Coming,
    ended: bool,
    given: Told<Items<u8>>,
    // For how many bytes it was made sure.
    room: usize,
}

impl PassingLink {
    /// A link with nothing in it, which takes no memory yet.
    pub fn new(alloc: Global) -> Self
        ensures { ⟦<PassingLink as Link>⟧.wire result ≡ unused true }
    {
        PassingLink {
            coming: Coming::new(alloc),
            ended: false,
            given: Told::new(),
            room: 0,
        }
    }
}

impl Link for PassingLink {
    ghost use Rattle.std.specs.Prelude.{None};
    ghost use Rattle.okws_outer.specs.Wire.{all_put};

    ghost wire = { λ s. record {
      whose = None;
      came = Some s.coming.came;
      left = Some s.coming.left;
      given = Some (all_put s.given.past);
      faults = 0;
      steady = true;
      ended = s.ended;
      room = s.room;
    } };

    fn pull(&mut self, into: &mut [u8]) -> Pull {
        self.coming.pull(into.len(), into)
    }

    fn put(&mut self, bytes: &[u8]) -> Put {
        self.given = self.given.and(&Piece { bytes });
        Put::Done
    }

    fn make_room(&mut self, n: usize) -> Result<(), AllocError> {
        self.room = self.room.max(n);
        Ok(())
    }
}

impl FedLink for PassingLink {
    fn feed(&mut self, bytes: &[u8]) -> Result<(), AllocError> {
        self.coming.feed(bytes)
    }

    fn feed_end(&mut self) {
        self.ended = true;
    }

    fn is_ended(&self) -> bool {
        self.ended
    }

    fn left(&self) -> &[u8] {
        self.coming.left()
    }
}
