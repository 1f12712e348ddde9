//! What the types of a run's columns know of what stands outside them.

ghost use Rattle.std.specs.Prelude.{ℕ, Bool, true};

use site_cells::named::Numbered;
use std::marker::Brand;

/// A run whose proxies keep their rows in keepers and whose log is written to a sink. Nothing of it is
/// there when the program runs.
pub trait Backed: Numbered {
    /// Whether the keepers tell their rows.
    ghost tells: { Bool };

    /// Whether no call of a keeper fails.
    ghost steady: { Bool };

    /// The count of faults of each proxy's keeper when the run began.
    ghost keeper_faults: { ℕ → ℕ };

    /// The count of faults of the log's sink when the run began.
    ghost sink_faults: { ℕ };
}

impl Backed for Brand {
    ghost tells = { true };

    ghost steady = { true };

    ghost keeper_faults = { λ p. 0 };

    ghost sink_faults = { 0 };
}
