//! Links that make room but a few times.

ghost use Rattle.std.specs.Prelude.{◌≡◌, false};

use okws_outer::stream::{Link, Pull, Put};
use std::alloc::AllocError;

/// A link that refuses memory once it made room so many times.
#[derive(Drop)]
pub(crate) struct Scant<L: Link> {
    link: L,
    rooms: u32,
}

impl<L: Link> Scant<L> {
    pub(crate) fn new(link: L, rooms: u32) -> Self
        ensures { result.link ≡ link }
    {
        Scant { link, rooms }
    }
}

impl<L: Link> Link for Scant<L> {
    ghost wire = { λ s. record (L.wire s.link) { steady = false; room = 0 } };

    fn pull(&mut self, into: &mut [u8]) -> Pull {
        self.link.pull(into)
    }

    fn put(&mut self, bytes: &[u8]) -> Put {
        self.link.put(bytes)
    }

    fn make_room(&mut self, n: usize) -> Result<(), AllocError> {
        if self.rooms == 0 {
            return Err(AllocError);
        }
        self.rooms -= 1;
        self.link.make_room(n)
    }
}
