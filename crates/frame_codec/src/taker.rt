//! Where the bytes of a spelling go, one part after another: they are counted, or kept, or sent.

ghost use Rattle.std.specs.Prelude.{◌≡◌, ◌∷◌, [], ◌<◌, ◌++◌, ◌+◌, ℕ, List, length, false};
ghost use Rattle.frame_codec.specs.Size.{capped};
ghost use Rattle.frame_codec.specs.Spelling.{four, string, name, Bytewise, IsToken};
ghost use Rattle.frame_codec.specs.Taking.{Takes};

use okws_base::value::Token;

/// What takes the bytes of a spelling. One that can take no more goes on without them, and tells so
/// at the end.
pub trait Taker {
    /// That these bytes were to be taken since it stood so.
    ghost took: { Self → List ℕ → Self → Type 0 };

    /// Takes the bytes, behind those before them.
    fn take(&mut self, bytes: &[u8])
        ensures { Takes took self.old (bytes.now ∷ []) self.new };
}

/// Counts the bytes, up to usize::MAX.
#[derive(Drop)]
pub(crate) struct Counter {
    pub(crate) count: usize,
}

impl Taker for Counter {
    ghost took = { λ start text now. now.count ≡ capped (start.count + length text) };

    fn take(&mut self, bytes: &[u8]) {
        self.count = self.count.saturating_add(bytes.len());
    }
}

/// Keeps the bytes, until memory is refused.
#[derive(Drop)]
pub(crate) struct Keeper {
    pub(crate) bytes: Vec<u8>,
    pub(crate) refused: bool,
}

impl Taker for Keeper {
    ghost took = { λ start text now. now.refused ≡ false → now.bytes.items ≡ start.bytes.items ++ text };

    fn take(&mut self, bytes: &[u8]) {
        if !self.refused {
            self.refused = self.bytes.extend_from_slice(bytes).is_err();
        }
    }
}

/// A count in four bytes, of which those above are dropped.
#[tactic(auto, unfolding(crate::specs::Spelling::four))]
pub(crate) fn take_count<T: Taker>(to: &mut T, count: usize)
    ensures { Takes T.took to.old (four count ∷ []) to.new }
{
    to.take(&count.to_be_bytes()[4..]);
}

/// Bytes.
fn take_bytes<T: Taker>(to: &mut T, bytes: &[u8])
    ensures spelled { Takes T.took to.old (bytes.now ∷ []) to.new }
    ensures fits { Bytewise bytes.now }
{
    to.take(bytes);
}

/// The twenty bytes of a token.
pub(crate) fn take_token<T: Taker>(to: &mut T, token: &Token)
    ensures spelled { Takes T.took to.old (token.now.bytes ∷ []) to.new }
    ensures fits { IsToken token.now }
{
    take_bytes(to, &token.bytes);
}

/// A byte string: its length in four bytes, and its bytes.
pub(crate) fn take_string<T: Taker>(to: &mut T, bytes: &[u8])
    ensures spelled { Takes T.took to.old (string bytes.now) to.new }
    ensures fits { Bytewise bytes.now }
{
    take_count(to, bytes.len());
    take_bytes(to, bytes);
}

/// A name: its length in one byte, and its bytes.
pub(crate) fn take_name<T: Taker>(to: &mut T, bytes: &[u8])
    requires { length bytes.now < 256 }
    ensures spelled { Takes T.took to.old (name bytes.now) to.new }
    ensures fits { Bytewise bytes.now }
{
    to.take(&[bytes.len() as u8]);
    take_bytes(to, bytes);
}
