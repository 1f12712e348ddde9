//! What the types of a run's launcher know of its children.

ghost use Rattle.std.specs.Prelude.{[]};
ghost use Rattle.okws_outer.specs.Families.{Family};

use named_columns::named::Backed;
use std::marker::Brand;

/// A run whose services are children. Nothing of it is there when the program runs.
pub trait Staffed: Backed {
    /// What was told of the children when the run began.
    ghost children: { Family };
}

impl Staffed for Brand {
    ghost children = { record { started = []; finished = []; faults = 0 } };
}
