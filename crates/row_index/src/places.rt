//! The places in the slots of one group.

ghost use Rattle.std.specs.Prelude.{◌≡◌, ℕ, ◌||◌, ◌&&◌, ◌==◌, not, true, false, IfOk, OnOk, OnErr, length};
ghost use Rattle.std.specs.List.Sorted.{IsStrictlySortedBy};
ghost use Rattle.std.specs.Ordering.{nat_cmp};
ghost use Rattle.std.specs.BTreeSet.{IsOrdered};
ghost use Rattle.row_index.specs.Few.{listed};
ghost use Rattle.row_index.specs.GroupPlaces.{is_among, places_listed};

use crate::few::Few;
use std::alloc::{AllocError, Global};
use std::collections::BTreeSet;

/// The places in the slots of one group: a sole one takes no memory of its own, and no more room than another's pointer.
#[derive(Drop)]
pub enum Places {
    Sole(u64),
    Several(Box<BTreeSet<u64>>),
}

impl Places {
    /// Puts a place in; leaves them as they were where memory is refused.
    #[inline(never)]
    pub fn put(&mut self, alloc: Global, place: u64) -> Result<(), AllocError>
        ensures ok { OnOk result ((p : ℕ) → is_among p (places_listed self.new) ≡ ((place == p) || is_among p (places_listed self.old))) }
        ensures err { OnErr result ((p : ℕ) → is_among p (places_listed self.new) ≡ is_among p (places_listed self.old)) }
    {
        match self {
            Places::Sole(sole) => {
                *self = Places::Several(Box::new(alloc, both(alloc, *sole, place)?)?);
                Ok(())
            }
            Places::Several(places) => {
                places.insert(place)?;
                Ok(())
            }
        }
    }

    /// Takes a place out, and tells whether none is left; a sole one stays, since its group goes.
    #[inline(always)]
    pub fn take(&mut self, place: u64) -> bool
        ensures left { result ≡ false → (p : ℕ) → is_among p (places_listed self.new) ≡ (not (place == p) && is_among p (places_listed self.old)) }
        ensures last { result ≡ true → (p : ℕ) → (not (place == p) && is_among p (places_listed self.old)) ≡ false }
    {
        match self {
            Places::Sole(sole) => *sole == place,
            Places::Several(places) => {
                places.remove(&place);
                places.len() == 0
            }
        }
    }

    /// Whether there is a place.
    #[inline(always)]
    pub fn has_any(&self) -> bool
        ensures some { result ≡ not (length (places_listed self.now) == 0) }
        ensures ordered { IsStrictlySortedBy nat_cmp (places_listed self.now) }
    {
        match self {
            Places::Sole(_) => true,
            Places::Several(places) => places.len() != 0,
        }
    }

    /// The places, ascending.
    #[inline(always)]
    pub fn list(&self, alloc: Global) -> Result<Few<u64>, AllocError>
        ensures places { IfOk result (λ v. listed v ≡ places_listed self.now) }
        ensures ordered { OnOk result (IsStrictlySortedBy nat_cmp (places_listed self.now)) }
    {
        match self {
            Places::Sole(place) => Ok(Few::Sole(Some(*place))),
            Places::Several(places) => Ok(Few::Many(all(alloc, places)?)),
        }
    }
}

// A set of two places.
fn both(alloc: Global, a: u64, b: u64) -> Result<BTreeSet<u64>, AllocError>
    ensures { IfOk result (λ s. (p : ℕ) → is_among p s.keys ≡ ((b == p) || (a == p))) }
{
    let mut places = BTreeSet::new(alloc);
    places.insert(a)?;
    places.insert(b)?;
    Ok(places)
}

#[inline(never)]
fn all(alloc: Global, places: &BTreeSet<u64>) -> Result<Vec<u64>, AllocError>
    ensures items { IfOk result (λ v. v.items ≡ places.now.keys) }
    ensures ordered { OnOk result (IsOrdered nat_cmp places.now) }
{
    places.iter().copied().collect(alloc)
}
