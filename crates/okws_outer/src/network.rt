//! The network, which opens doors and takes them back.

ghost use Rattle.std.specs.Prelude.{◌≡◌, All, IfOk, length, map};
ghost use Rattle.okws_outer.specs.Doors.{new_entrance};
ghost use Rattle.okws_outer.specs.Networks.{Net, Listens};

use crate::door::Door;
use crate::error::MakeError;
use okws_base::told::{Parts, Says};
use std::alloc::{AllocError, Global};

/// What is told of a listen.
#[derive(Clone, Copy)]
pub struct Listening {
    /// The port of the loopback address.
    pub port: u16,
    /// How many doors were asked for.
    pub count: usize,
    /// How many seconds a connection may keep its door waiting, where there is a limit.
    pub patience: Option<u16>,
}

impl Says for Listening {
    type Item = Listening;

    ghost item = { λ l. l };
}

impl Parts for Listening {
    fn make(&self, _: Global) -> Result<Listening, AllocError> {
        Ok(*self)
    }
}

/// The network of one run.
pub trait Network {
    /// A door, which a thread of its own may have.
    type Door: Door + Send + Drop;

    /// What is told of the network. Its count of faults, which doors have no part in, never falls, and
    /// stays at 2^64 - 1 once it is there.
    ghost net: { Self → Net };

    /// Opens so many doors on one port of the loopback address, which take from one line of
    /// connections. Where a patience is given, calls of a connection fail once its client has kept the door
    /// waiting for so many seconds.
    fn listen(
        &mut self,
        alloc: Global,
        port: u16,
        count: usize,
        patience: Option<u16>,
    ) -> Result<Vec<Self::Door>, MakeError>
        ensures count { IfOk result (λ doors. length doors.items ≡ count) }
        ensures doors { IfOk result (λ doors. All (λ d. Self.Door.entrance d ≡ new_entrance) doors.items) }
        ensures net { Listens port count patience (net self.old) (net self.new) result };

    /// Takes doors back at the end of a run, in their order, and closes them.
    fn close(&mut self, doors: Vec<Self::Door>)
        ensures { net self.new ≡ record (net self.old) { doors = map Self.Door.entrance doors.items } };
}
