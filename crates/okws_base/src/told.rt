//! Lists that have no bytes: contracts see what was told, and no code can read it.

ghost use Rattle.std.specs.Prelude.{◌≡◌, ◌-◌, ◌+◌, List, ℕ, [], ◌∷◌, IfOk};
ghost use Rattle.std.specs.Borrow.{ftrue};

use std::alloc::{AllocError, Global};
use std::marker::{Model, PhantomData};

/// Something that stands for an item, as its parts do.
pub trait Says {
    type Item;

    /// The item that it stands for.
    ghost item: { Self → Self.Item };
}

/// An item that is there whole.
#[derive(Drop)]
pub struct Whole<T> {
    pub item: T,
}

impl<T> Says for Whole<T> {
    type Item = T;

    ghost item = { λ w. w.item };
}

/// Borrowed parts of an item, of which it can be made.
pub trait Parts: Says {
    /// Makes the item; fails where memory is refused.
    fn make(&self, alloc: Global) -> Result<Self::Item, AllocError>
        ensures { IfOk result (λ r. r ≡ Self.item self.now) };
}

/// A number of items.
pub trait Amount {
    ghost amount: { Self → ℕ };
}

impl Amount for usize {
    ghost amount = { λ n. n };
}

/// What was told, the newest first, and for how many more items there is room. It has no bytes: only
/// proofs see the list, so what it holds is what the functions below say, and no other function's
/// proof may make one.
#[derive(Drop)]
pub struct Told<T> {
    of: PhantomData<T>,
    pub ghost past: { List T },
    pub ghost room: { ℕ },
}

impl<T> Model for Told<T> {
    ghost also_owns = { λ _. ftrue };
}

// SAFETY: it owns nothing.
unsafe impl<T: Send> Send for Told<T> {}

impl<T> Told<T> {
    /// Nothing was told.
    pub fn new() -> Told<T>
        ensures { (result.past ≡ []) × (result.room ≡ 0) }
    {
        Told { of: PhantomData }
    }

    /// What was told, and one item more, which takes of the room.
    pub fn and<P: Says<Item = T>>(&self, parts: &P) -> Told<T>
        ensures { (result.past ≡ P.item parts.now ∷ self.now.past) × (result.room ≡ self.now.room - 1) }
    {
        Told { of: PhantomData }
    }

    /// The same, with room for n items more.
    pub fn with_room<N: Amount>(&self, n: &N) -> Told<T>
        ensures { (result.past ≡ self.now.past) × (result.room ≡ N.amount n.now + self.now.room) }
    {
        Told { of: PhantomData }
    }
}
