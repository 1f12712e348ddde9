//! Bytes of which contracts alone are told.

use okws_base::items::Items;
use okws_base::told::Says;

/// Bytes that are fed or put at once.
#[derive(Clone, Copy)]
pub(crate) struct Piece<'a> {
    pub(crate) bytes: &'a [u8],
}

impl<'a> Says for Piece<'a> {
    type Item = Items<u8>;

    ghost item = { λ p. p.bytes.now };
}
