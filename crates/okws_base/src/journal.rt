//! Entries, finished lists of them, and journals that keep room ahead.

ghost use Rattle.std.specs.Prelude.{◌≡◌, ◌≤◌, ◌<◌, ◌+◌, ◌∷◌, [], OnOk, OnErr, IfOk, IfSome, IsSome, IsTrue, ◌↔◌, List, reverse};

use crate::items::{Exact, copies};
use crate::told::{Parts, Told, Whole};
use std::alloc::{AllocError, Global};
use std::marker::Model;

/// One event, and the number of the worker that made it.
pub struct Entry<E> {
    pub worker: u16,
    pub event: E,
}

impl<E: Drop> Drop for Entry<E> {
    fn drop(self) {
        let Entry { worker: _, event } = self;
        drop(event);
    }
}

impl<E: Exact> Exact for Entry<E> {
    fn copy(&self, alloc: Global) -> Result<Entry<E>, AllocError> {
        Ok(Entry {
            worker: self.worker,
            event: self.event.copy(alloc)?,
        })
    }
}

/// What happened, seen as a list with the newest first. Its items are in memory where they were
/// kept; otherwise it is known to proofs alone, and has no bytes.
pub struct Past<T> {
    keeps: bool,
    items: Vec<T>,
    told: Told<T>,
}

impl<T: Drop> Drop for Past<T> {
    fn drop(self) {
        let Past {
            keeps: _,
            items,
            told: _,
        } = self;
        drop(items);
    }
}

impl<T> Model for Past<T> {
    ghost use Rattle.std.specs.Prelude.{List, reverse, if◌then◌else◌};

    ghost Value = { List T };

    ghost view = { λ a. if a.keeps then reverse a.items.items else a.told.past };
}

impl<T: Drop> Past<T> {
    /// The past of these items, the oldest of which comes first.
    pub fn of(items: Vec<T>) -> Self
        ensures { result ≡ reverse items.items }
    {
        Past {
            keeps: true,
            items,
            told: Told::new(),
        }
    }

    /// The items, the oldest first, where they were kept.
    pub fn as_slice(&self) -> Option<&[T]>
        ensures { IfSome result (λ s. reverse s.now ≡ self.now) }
    {
        if self.keeps { Some(&self.items) } else { None }
    }
}

impl<T: Exact> Exact for Past<T> {
    fn copy(&self, alloc: Global) -> Result<Past<T>, AllocError> {
        Ok(Past {
            keeps: self.keeps,
            items: copies(alloc, &self.items)?,
            told: self.told.with_room(&0usize),
        })
    }
}

/// A list that grows at its end and keeps room ahead: contracts see what was entered, the newest
/// first, for how many more entries there is room, and whether the items are kept. Where they aren't,
/// an entered item is let go at once, and the list takes no memory.
pub struct Journal<T> {
    keeps: bool,
    items: Vec<T>,
    told: Told<T>,
}

impl<T: Drop> Drop for Journal<T> {
    fn drop(self) {
        let Journal {
            keeps: _,
            items,
            told: _,
        } = self;
        drop(items);
    }
}

impl<T> Model for Journal<T> {
    ghost use Rattle.std.specs.Prelude.{reverse, vec_len, vec_capacity, ◌-◌, if◌then◌else◌};
    ghost use Rattle.okws_base.specs.Kept.{Kept};

    ghost Value = { Kept T };

    ghost view = { λ a. record {
      past = if a.keeps then reverse a.items.items else a.told.past;
      room = if a.keeps then vec_capacity a.items - vec_len a.items else a.told.room;
      keeps = a.keeps;
    } };
}

impl<T: Drop> Journal<T> {
    /// The empty journal, which keeps its items or not.
    pub fn new(alloc: Global, keeps: bool) -> Self
        ensures past { result.past ≡ [] }
        ensures keeps { result.keeps ≡ keeps }
    {
        Journal {
            keeps,
            items: Vec::new(alloc),
            told: Told::new(),
        }
    }

    /// Makes room for n more entries; where memory is refused the journal is as before.
    pub fn make_room(&mut self, n: usize) -> Result<(), AllocError>
        ensures past { self.new.past ≡ self.old.past }
        ensures keeps { self.new.keeps ≡ self.old.keeps }
        ensures ok { OnOk result (n ≤ self.new.room) }
        ensures room { self.old.room ≤ self.new.room }
    {
        if self.keeps {
            self.items.reserve(n)
        } else {
            self.told = self.told.with_room(&n);
            Ok(())
        }
    }

    /// Enters an item, which takes no memory.
    pub fn enter(&mut self, item: T)
        requires { 0 < self.old.room }
        ensures past { self.new.past ≡ item ∷ self.old.past }
        ensures keeps { self.new.keeps ≡ self.old.keeps }
        ensures room { self.new.room + 1 ≡ self.old.room }
    {
        if self.keeps {
            self.items.push_reserved(item);
        } else {
            self.told = self.told.and(&Whole { item });
        }
    }

    /// Enters what the parts stand for; makes the item only where it is kept. Where memory is refused
    /// the journal is as before.
    pub fn tell<P: Parts<Item = T>>(&mut self, alloc: Global, parts: &P) -> Result<(), AllocError>
        ensures ok { OnOk result (self.new.past ≡ P.item parts.now ∷ self.old.past) }
        ensures err { OnErr result (self.new.past ≡ self.old.past) }
        ensures keeps { self.new.keeps ≡ self.old.keeps }
        ensures room { self.old.room ≤ self.new.room + 1 }
    {
        if self.keeps {
            let item = parts.make(alloc)?;
            self.items.push(item)?;
        } else {
            self.told = self.told.and(parts);
        }
        Ok(())
    }

    /// The items, the oldest first, where they are kept.
    pub fn as_slice(&self) -> Option<&[T]>
        ensures kept { IsSome result ↔ IsTrue self.now.keeps }
        ensures items { IfSome result (λ s. reverse s.now ≡ self.now.past) }
    {
        if self.keeps { Some(&self.items) } else { None }
    }

    /// What was entered.
    pub fn into_past(self) -> Past<T>
        ensures { result ≡ self.past }
    {
        let Journal { keeps, items, told } = self;
        Past { keeps, items, told }
    }
}
