//! What both directions have: a frame's length, and its one spelling.

ghost use Rattle.std.specs.Prelude.{◌≡◌, ◌↔◌, ◌∷◌, ℕ, List, IfOk, IsSome, IfSome, IsTrue};
ghost use Rattle.frame_codec.specs.Size.{capped};
ghost use Rattle.frame_codec.specs.Spelling.{four, size, framed};
ghost use Rattle.frame_codec.specs.Taking.{Takes, IsFramed};

use crate::part::lawful_length;
use crate::taker::{Counter, Keeper, Taker, take_count};
use std::alloc::{AllocError, Global};

/// A frame of one of the two directions.
pub trait Frame {
    /// The kind, and the fields.
    ghost parts: { Self → List (List ℕ) };

    /// The bounds of the fields that their types don't keep.
    ghost bounded: { Self → Type 0 };

    /// That the fields fit their places.
    ghost fits: { Self → Type 0 };

    /// Whether the fields have their bounds.
    fn is_bounded(&self) -> bool
        ensures yes { IsTrue result → bounded self.now }
        ensures no { fits self.now → IsTrue result };

    /// Gives the kind and the fields to the taker.
    fn spell<T: Taker>(&self, to: &mut T)
        requires { bounded self.now }
        ensures spelled { Takes T.took to.old (parts self.now) to.new }
        ensures fits { fits self.now };
}

/// Bytes of the kind and the fields, at most usize::MAX.
fn count<F: Frame>(frame: &F) -> usize
    requires { F.bounded frame.now }
    ensures count { result ≡ capped (size (F.parts frame.now)) }
    ensures fits { F.fits frame.now }
{
    let mut counter = Counter { count: 0 };
    frame.spell(&mut counter);
    counter.count
}

/// The length that the first four bytes of the spelling tell: the bytes of the kind and the fields,
/// 1 to LONGEST_FRAME. None where the frame has no spelling.
pub fn length_of<F: Frame>(frame: &F) -> Option<u32>
    ensures has { IsSome result ↔ IsFramed F.parts F.fits frame.now }
    ensures length { IfSome result (λ n. n ≡ size (F.parts frame.now)) }
    ensures bounded { IsSome result → F.bounded frame.now }
{
    if !frame.is_bounded() {
        return None;
    }
    lawful_length(count(frame))
}

/// Gives the frame's one spelling to the taker.
pub fn spell<F: Frame, T: Taker>(frame: &F, to: &mut T)
    requires { IsFramed F.parts F.fits frame.now }
    ensures { Takes T.took to.old (four (size (F.parts frame.now)) ∷ F.parts frame.now) to.new }
{
    let told = length_of(frame).unwrap();
    take_count(to, told as usize);
    frame.spell(to);
}

/// The frame's one spelling.
pub(crate) fn write<F: Frame>(alloc: Global, frame: &F) -> Result<Vec<u8>, AllocError>
    requires { IsFramed F.parts F.fits frame.now }
    ensures { IfOk result (λ v. v.items ≡ framed (F.parts frame.now)) }
{
    let mut keeper = Keeper {
        bytes: Vec::new(alloc),
        refused: false,
    };
    spell(frame, &mut keeper);
    if keeper.refused {
        Err(AllocError)
    } else {
        Ok(keeper.bytes)
    }
}
