//! What was put on the links of a cell's incarnations.

ghost use Rattle.std.specs.Prelude.{◌≡◌, [], ◌∷◌};

use okws_base::items::Items;
use okws_base::told::{Says, Told};
use std::marker::Model;

/// What the link of an incarnation was given, where it tells.
pub struct Sent {
    pub incarnation: u32,
    pub given: Option<Items<u8>>,
}

impl Drop for Sent {
    fn drop(self) {
        let Sent {
            incarnation: _,
            given,
        } = self;
        drop(given);
    }
}

/// What the links of a cell's incarnations were given, the last one first. It has no bytes: contracts
/// alone see it.
#[derive(Drop)]
pub struct Sents {
    told: Told<Sent>,
}

impl Model for Sents {
    ghost use Rattle.std.specs.Prelude.{List};
    ghost use Rattle.monitor_model.specs.declared.sent.Sent.{Sent};

    ghost Value = { List Sent };

    ghost view = { λ a. a.told.past };
}

impl Sents {
    /// No link was given anything.
    pub fn new() -> Self
        ensures { result ≡ [] }
    {
        Sents { told: Told::new() }
    }

    /// The same.
    pub fn again(&self) -> Self
        ensures { result ≡ self.now }
    {
        Sents {
            told: self.told.with_room(&0usize),
        }
    }

    /// The same, and one more.
    pub fn with<P: Says<Item = Sent>>(&self, last: &P) -> Self
        ensures { result ≡ P.item last.now ∷ self.now }
    {
        Sents {
            told: self.told.and(last),
        }
    }

    /// The same, and one more. What stands for it goes with this call: nothing can be put on its link
    /// after.
    pub fn and<P: Says<Item = Sent> + Drop>(&self, last: P) -> Self
        ensures { result ≡ P.item last ∷ self.now }
    {
        self.with(&last)
    }
}
