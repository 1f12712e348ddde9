//! The names of a run's locks.

ghost use Rattle.site_locks.specs.Sat.{LockIds, no_locks};

use std::marker::Brand;

/// The locks of a run. Nothing of it is there when the program runs.
pub trait Site {
    /// Which locks and which board they are.
    ghost ids: { LockIds };
}

impl Site for Brand {
    ghost ids = { no_locks };
}
