//! The names of a site's cell locks, by which types know them.

ghost use Rattle.std.specs.Prelude.{List, []};
ghost use Rattle.turn_lock.specs.Seats.{TurnIs};

use std::marker::Brand;

/// The locks of a site's cells, as types that belong to them know them. Nothing of it is there when the
/// program runs.
pub trait CellNames {
    /// The locks, that of service 0 first.
    ghost cell_turns: { List TurnIs };
}

impl CellNames for Brand {
    ghost cell_turns = { [] };
}
