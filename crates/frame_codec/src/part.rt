//! What frames are spelled of: values, tokens, and lists of them.

ghost use Rattle.std.specs.Prelude.{◌≡◌, ◌↔◌, ◌+◌, ℕ, List, length, flat_map, IsSome, IfSome, IsTrue};
ghost use Rattle.okws_base.specs.Runs.{Each};
ghost use Rattle.frame_codec.specs.Size.{capped};
ghost use Rattle.frame_codec.specs.Spelling.{value, token_parts, size, Spellable, Bytewise, IsIssued, is_lawful_length};
ghost use Rattle.frame_codec.specs.Taking.{Takes};

use crate::frame::Issued;
use crate::kind::{BYTES, INT, TEXT};
use crate::taker::{Counter, Taker, take_string, take_token};
use okws_base::items::Items;
use okws_base::limit::LONGEST_FRAME;
use okws_base::value::Value;

/// What is spelled in parts, one after another, whatever it is.
pub(crate) trait Parts {
    ghost parts: { Self → List (List ℕ) };

    /// That its fields have their types' bounds.
    ghost fits: { Self → Type 0 };

    /// Gives the parts to the taker.
    fn spell<T: Taker>(&self, to: &mut T)
        ensures spelled { Takes T.took to.old (parts self.now) to.new }
        ensures fits { fits self.now };
}

impl Parts for Value {
    ghost parts = { value };

    ghost fits = { Spellable };

    #[tactic(auto, unfolding(crate::specs::Spelling::eight))]
    fn spell<T: Taker>(&self, to: &mut T) {
        match self {
            Value::Int(n) => {
                to.take(&[INT]);
                to.take(&n.to_be_bytes());
            }
            Value::Text(text) => {
                to.take(&[TEXT]);
                take_string(to, text.as_str().as_bytes());
            }
            Value::Bytes(bytes) => {
                to.take(&[BYTES]);
                take_string(to, bytes.as_slice());
            }
        }
    }
}

impl Parts for Issued {
    ghost parts = { token_parts };

    ghost fits = { IsIssued };

    #[tactic(auto, unfolding(crate::specs::Spelling::two))]
    fn spell<T: Taker>(&self, to: &mut T) {
        let Issued { proxy, token } = *self;
        to.take(&proxy.to_be_bytes());
        take_token(to, &token);
    }
}

impl<P: Parts> Parts for Items<P> {
    ghost parts = { λ items. flat_map P.parts items };

    ghost fits = { λ items. Each P.fits items };

    fn spell<T: Taker>(&self, to: &mut T) {
        spell_all(self.as_slice(), to);
    }
}

/// Gives the parts of all items to the taker.
pub(crate) fn spell_all<P: Parts, T: Taker>(items: &[P], to: &mut T)
    ensures spelled { Takes T.took to.old (flat_map P.parts items.now) to.new }
    ensures fits { Each P.fits items.now }
{
    for item in items {
        item.spell(to);
    }
}

/// Bytes of the parts of all items and so many before them, at most usize::MAX.
pub(crate) fn count_all<P: Parts>(before: usize, items: &[P]) -> usize
    ensures count { result ≡ capped (before + size (flat_map P.parts items.now)) }
    ensures fits { Each P.fits items.now }
{
    let mut counter = Counter { count: before };
    spell_all(items, &mut counter);
    counter.count
}

/// How many bytes there are.
pub(crate) fn len(bytes: &[u8]) -> usize
    ensures len { result ≡ length bytes.now }
    ensures fits { Bytewise bytes.now }
{
    bytes.len()
}

/// The number of bytes, where a frame may have so many.
pub(crate) fn lawful_length(n: usize) -> Option<u32>
    ensures lawful { IsSome result ↔ IsTrue (is_lawful_length n) }
    ensures same { IfSome result (λ length. length ≡ n) }
{
    if 1 <= n && n <= LONGEST_FRAME {
        Some(n as u32)
    } else {
        None
    }
}
