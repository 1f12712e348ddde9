//! What happened to an object in memory, in order.

ghost use Rattle.std.specs.Prelude.{◌≡◌, [], ◌∷◌, ◌++◌, true, IfSome, OnOk, length, reverse};

use okws_base::told::{Parts, Told};
use std::alloc::{AllocError, Global};

/// Items that were noted. Contracts see all of them, the newest first; they are in memory as long as
/// none was refused.
#[derive(Drop)]
pub(crate) struct Noted<T> {
    pub(crate) told: Told<T>,
    items: Vec<T>,
    is_whole: bool,
    ghost kept: { is_whole ≡ true → told.past ≡ reverse items.items },
}

/// Makes an item and puts it behind the last one; leaves the list as it was where memory is refused.
fn push<T: Drop, P: Parts<Item = T>>(
    alloc: Global,
    items: &mut Vec<T>,
    parts: &P,
) -> Result<(), AllocError>
    ensures { OnOk result (items.new.items ≡ items.old.items ++ P.item parts.now ∷ []) }
{
    items.push(parts.make(alloc)?)?;
    Ok(())
}

impl<T: Drop> Noted<T> {
    /// Nothing was noted.
    pub(crate) fn new(alloc: Global) -> Self
        ensures { result.told.past ≡ [] }
    {
        Noted {
            told: Told::new(),
            items: Vec::new(alloc),
            is_whole: true,
        }
    }

    /// Notes an item.
    pub(crate) fn note<P: Parts<Item = T>>(&mut self, alloc: Global, parts: &P)
        ensures { self.new.told.past ≡ P.item parts.now ∷ self.old.told.past }
    {
        let told = self.told.and(parts);
        let is_whole = self.is_whole && push(alloc, &mut self.items, parts).is_ok();
        self.told = told;
        self.is_whole = is_whole;
    }

    /// How many items were noted, unless memory was refused for one.
    pub(crate) fn count(&self) -> Option<usize>
        ensures { IfSome result (λ n. n ≡ length self.now.told.past) }
    {
        if self.is_whole {
            Some(self.items.len())
        } else {
            None
        }
    }

    /// The items, the oldest first, unless memory was refused for one.
    pub(crate) fn as_slice(&self) -> Option<&[T]>
        ensures { IfSome result (λ s. reverse s.now ≡ self.now.told.past) }
    {
        if self.is_whole {
            Some(&self.items)
        } else {
            None
        }
    }
}
