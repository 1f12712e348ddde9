//! What a seat knows, and the rule of the table. No value of these types is made.
ghost use Rattle.std.specs.Prelude.{◌≡◌, ℕ, List};

use crate::journaled::Journaled;
use atomic_table::{Join, Play, Split, TableRule};
use std::collections::LinkedList;

pub enum Stage {
    Idle,
    /// It has drawn this ticket.
    Waits(u64),
    /// It has the turn, by this ticket.
    Holds(u64),
}

/// A number, what was seen under it, and its own entries.
pub struct Part<E> {
    pub number: u16,
    pub seen: LinkedList<E>,
    pub own: LinkedList<E>,
}

pub struct View<E> {
    pub stage: Stage,
    pub part: Part<E>,
    /// The parts that were joined into it.
    pub olds: LinkedList<Part<E>>,
    /// The numbers from here on, below the count, are not given out yet, and are this seat's to give.
    pub spare: u16,
    /// The label of the value.
    pub tag: u16,
}

pub struct Tickets;

impl<V: Journaled> TableRule<Option<V>, View<V::Entry>, (u16, u16)> for Tickets {
    ghost use Rattle.std.specs.Prelude.{reverse};
    ghost use Rattle.turn_lock.specs.Tickets.{Kept, opening_view};

    ghost holds = { λ key. Kept (λ x. reverse (V.journal x)) V.label V.by key.0 };

    ghost first = { λ key. opening_view key.0 key.1 };
}

pub struct Draw;

impl<V: Journaled> Play<Option<V>, View<V::Entry>> for Draw {
    ghost use Rattle.std.specs.Prelude.{reverse};
    ghost use Rattle.turn_lock.specs.Tickets.{drawn};

    ghost then = { drawn (λ x. reverse (V.journal x)) V.label V.by };
}

pub struct Look;

impl<V: Journaled> Play<Option<V>, View<V::Entry>> for Look {
    ghost use Rattle.std.specs.Prelude.{reverse};
    ghost use Rattle.turn_lock.specs.Tickets.{looked};

    ghost then = { looked (λ x. reverse (V.journal x)) V.label V.by };
}

pub struct Serve;

impl<V: Journaled> Play<Option<V>, View<V::Entry>> for Serve {
    ghost use Rattle.std.specs.Prelude.{reverse};
    ghost use Rattle.turn_lock.specs.Tickets.{served};

    ghost then = { served (λ x. reverse (V.journal x)) V.label V.by };
}

pub struct Ring;

impl<V: Journaled> Play<Option<V>, View<V::Entry>> for Ring {
    ghost use Rattle.std.specs.Prelude.{◌≡◌};

    ghost then = { λ _ m _ w. w ≡ m };
}

pub struct Learn;

impl<V: Journaled> Play<Option<V>, View<V::Entry>> for Learn {
    ghost use Rattle.std.specs.Prelude.{reverse};
    ghost use Rattle.turn_lock.specs.Tickets.{learned};

    ghost then = { learned (λ x. reverse (V.journal x)) V.label V.by };
}

pub struct Meet;

impl<V: Journaled> Play<Option<V>, View<V::Entry>> for Meet {
    ghost use Rattle.std.specs.Prelude.{reverse};
    ghost use Rattle.turn_lock.specs.Tickets.{met};

    ghost then = { met (λ x. reverse (V.journal x)) V.label V.by };
}

pub struct Deal;

impl<E> Split<View<E>> for Deal {
    ghost use Rattle.turn_lock.specs.Tickets.{dealer, dealt};

    ghost left = { dealer };

    ghost right = { dealt };
}

pub struct Note;

impl<E> Split<View<E>> for Note {
    ghost use Rattle.turn_lock.specs.Tickets.{note_of};

    ghost left = { λ v. v };

    ghost right = { note_of };
}

pub struct TakeIn;

impl<E> Join<View<E>> for TakeIn {
    ghost use Rattle.turn_lock.specs.Tickets.{joined, spent_view};

    ghost both = { joined };

    ghost spent = { spent_view };
}
