//! The objects of a run that stand behind no lock.

ghost use Rattle.std.specs.Prelude.{◌≡◌, IsNone};

use crate::outfit::Left;
use okws_outer::children::Children;
use okws_outer::conn::Conn;
use okws_outer::door::Door;
use okws_outer::gate::Gate;
use okws_outer::keeper::Keeper;
use okws_outer::stream::Sink;
use std::alloc::Global;

/// The objects of a run that stand behind no column.
pub(crate) struct Outside<D: Door, O: Conn, F: Children, G: Gate> {
    pub(crate) doors: Vec<D>,
    pub(crate) console: O,
    pub(crate) children: F,
    pub(crate) gate: G,
}

impl<D: Door, O: Conn, F: Children, G: Gate> Outside<D, O, F, G> {
    /// What is left of a run that didn't begin.
    pub(crate) fn unused<K: Keeper, S: Sink>(self, alloc: Global) -> Left<D, O, F, K, S, G>
        ensures { (result.doors.items ≡ self.doors.items) × (result.console ≡ self.console) × (result.children ≡ self.children) × (IsNone result.ran) }
    {
        let Outside {
            doors,
            console,
            children,
            gate,
        } = self;
        Left {
            doors,
            console,
            children,
            keepers: Vec::new(alloc),
            log: None,
            gate,
            ran: None,
        }
    }
}
