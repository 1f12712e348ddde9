//! What a seat of the board knows, and the rule of the board's words. No value of these types is made.
ghost use Rattle.std.specs.Prelude.{◌≡◌, ℕ, List};

use atomic_table::{Join, Play, Split, TableRule};
use std::collections::LinkedList;

/// A seat's number, the greatest numbers that it has seen, one for each service, and the numbers that it
/// drew, the last one first.
pub struct Part {
    pub number: u16,
    pub seen: LinkedList<u64>,
    pub drawn: LinkedList<u64>,
}

/// What a seat knows.
pub struct View {
    pub part: Part,
    /// The parts of the seats that were joined into it.
    pub olds: LinkedList<Part>,
    /// The seats' numbers from here on, below the count, are not given out yet, and are this seat's to give.
    pub spare: u16,
    /// How many numbers from the limit on may be drawn by this seat, and by those that it gives out.
    pub room: u16,
}

pub struct Rises;

impl TableRule<u8, View, u16> for Rises {
    ghost use Rattle.turn_lock.specs.Board.{Kept, opening_view};

    ghost holds = { Kept };

    ghost first = { opening_view };
}

pub struct Current;

impl Play<u8, View> for Current {
    ghost use Rattle.turn_lock.specs.Board.{looked};

    ghost then = { looked };
}

pub struct Raise;

impl Play<u8, View> for Raise {
    ghost use Rattle.turn_lock.specs.Board.{raised};

    ghost then = { raised };
}

pub struct Compare;

impl Play<u8, View> for Compare {
    ghost use Rattle.turn_lock.specs.Board.{compared};

    ghost then = { compared };
}

pub struct Draw;

impl Play<u8, View> for Draw {
    ghost use Rattle.turn_lock.specs.Board.{drew};

    ghost then = { drew };
}

pub struct DrawRest;

impl Play<u8, View> for DrawRest {
    ghost use Rattle.turn_lock.specs.Board.{drew_rest};

    ghost then = { drew_rest };
}

pub struct Deal;

impl Split<View> for Deal {
    ghost use Rattle.turn_lock.specs.Board.{dealer, dealt};

    ghost left = { dealer };

    ghost right = { dealt };
}

pub struct Glimpse;

impl Split<View> for Glimpse {
    ghost use Rattle.turn_lock.specs.Board.{glimpse_of};

    ghost left = { λ v. v };

    ghost right = { glimpse_of };
}

pub struct TakeIn;

impl Join<View> for TakeIn {
    ghost use Rattle.turn_lock.specs.Board.{joined, spent_view};

    ghost both = { joined };

    ghost spent = { spent_view };
}
