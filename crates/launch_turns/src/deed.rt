//! What the launcher's lock hands on from turn to turn.

ghost use Rattle.std.specs.Prelude.{◌≡◌, ◌+◌, ◌-◌, ◌^◌, min, [], ◌∷◌, if◌then◌else◌};
ghost use Rattle.named_columns.specs.Counts.{capped};
ghost use Rattle.launch_turns.specs.Deeds.{looks};

use okld_launch::entered::Entered;
use okws_base::told::{Says, Told};
use std::marker::Model;

/// One turn at the launcher: who took it, what was entered in it, whether its last event is the Begun of an
/// incarnation that came up, and whether a service was looked after, so that a Crashed that it begins with
/// was told by the child.
#[derive(Drop)]
pub struct Deed {
    pub worker: u16,
    pub entered: Entered,
    pub up: bool,
    pub tended: bool,
}

/// A turn at the launcher, as it is told.
#[derive(Drop)]
pub(crate) struct Took<'a> {
    pub(crate) worker: u16,
    pub(crate) entered: &'a Entered,
    pub(crate) up: bool,
    pub(crate) tended: bool,
}

impl Says for Took<'_> {
    type Item = Deed;

    ghost item = { λ t. record { worker = t.worker; entered = t.entered.now; up = t.up; tended = t.tended } };
}

// One more where a service was looked after. A count of 64 bits stays at its last value.
fn with_look(count: u64, tended: bool) -> u64
    ensures { result ≡ (if tended then min (count + 1) (2 ^ 64 - 1) else count) }
{
    if tended {
        count.saturating_add(1)
    } else {
        count
    }
}

/// The turns that were taken at the launcher, the newest first. They have no bytes but for how many of them
/// looked after a service.
pub struct Deeds {
    told: Told<Deed>,
    tended: u64,
}

impl Drop for Deeds {
    fn drop(self) {
        let Deeds { told: _, tended: _ } = self;
    }
}

impl Model for Deeds {
    ghost use Rattle.std.specs.Prelude.{◌≡◌};
    ghost use Rattle.named_columns.specs.Counts.{capped};
    ghost use Rattle.launch_turns.specs.Deeds.{DeedsAre, looks};

    ghost Value = { DeedsAre };

    ghost view = { λ d. record { past = d.told.past } };

    ghost invariant = { λ d. d.tended ≡ capped (looks d.told.past) };
}

impl Deeds {
    /// No turn was taken.
    pub(crate) fn new() -> Deeds
        ensures { result.past ≡ [] }
    {
        Deeds {
            told: Told::new(),
            tended: 0,
        }
    }

    /// One turn more was taken.
    pub(crate) fn and(&self, took: &Took<'_>) -> Deeds
        ensures { result.past ≡ record { worker = took.now.worker; entered = took.now.entered.now; up = took.now.up; tended = took.now.tended } ∷ self.now.past }
    {
        let tended = with_look(self.tended, took.tended);
        Deeds {
            told: self.told.and(took),
            tended,
        }
    }

    /// In how many of them a service was looked after.
    pub(crate) fn looks(&self) -> u64
        ensures { result ≡ capped (looks self.now.past) }
    {
        self.tended
    }

    /// The turns, as contracts see them.
    pub(crate) fn into_told(self) -> Told<Deed>
        ensures { result.past ≡ self.past }
    {
        let Deeds { told, tended: _ } = self;
        told
    }
}
