//! Connections of clients.

ghost use Rattle.std.specs.Prelude.{◌<◌, length};
ghost use Rattle.okws_outer.specs.Conns.{ConnWire, PullsFrom, PutsTo};

use crate::stream::{Pull, Put};

/// Bytes in both directions, with one count of faults.
pub trait Conn {
    /// What is told of the connection. Its count of faults never falls, and stays at 2^64 - 1 once
    /// it is there.
    ghost wire: { Self → ConnWire };

    /// Takes bytes that are left, at most as many as there is room for.
    fn pull(&mut self, into: &mut [u8]) -> Pull
        requires { 0 < length into.old }
        ensures { PullsFrom (wire self.old) (wire self.new) into.new result };

    /// Gives the bytes behind those that were given before.
    fn put(&mut self, bytes: &[u8]) -> Put
        ensures { PutsTo (wire self.old) (wire self.new) bytes.now result };
}
