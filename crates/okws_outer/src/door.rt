//! Doors, at which connections come in one after the other.

ghost use Rattle.std.specs.Prelude.{◌≡◌, IsNone, IsSome, IfNone, IfOk, IfSome, OnErr};
ghost use Rattle.okws_outer.specs.Doors.{Entrance, Accepts, Refuses, with_finished};

use crate::conn::Conn;
use crate::error::Fault;
use okws_base::items::Items;

/// A connection that was finished, with its bytes where the connection told them.
#[derive(Drop)]
pub struct Served {
    /// All bytes of its client.
    pub came: Option<Items<u8>>,
    /// Those of them that were not taken.
    pub left: Option<Items<u8>>,
    /// The bytes that were given to it.
    pub given: Option<Items<u8>>,
    /// How many of its calls failed.
    pub faults: u64,
}

/// A door, at which one connection is out at a time: each is finished before the next is accepted.
/// Doors that were opened together take from one line of connections.
pub trait Door {
    /// A connection that is out.
    type Conn: Conn;

    /// What is told of the door. Its count of faults takes in those of finished connections, never
    /// falls, and stays at 2^64 - 1 once it is there.
    ghost entrance: { Self → Entrance };

    /// Takes the next connection, over which nothing came or went yet; fails where none will come. It may
    /// wait for one, and may answer that none came so far, and be asked again.
    fn accept(&mut self) -> Result<Option<Self::Conn>, Fault>
        requires { IsNone (entrance self.old).out }
        ensures accepted { IfOk result (λ came. IfSome came (λ c. Accepts (entrance self.old) (entrance self.new) (Self.Conn.wire c))) }
        ensures none { IfOk result (λ came. IfNone came (entrance self.new ≡ entrance self.old)) }
        ensures failed { OnErr result (Refuses (entrance self.old) (entrance self.new)) };

    /// Finishes the connection that is out, and counts the faults that it had.
    fn finish(&mut self, conn: Self::Conn)
        requires { IsSome (entrance self.old).out }
        ensures { entrance self.new ≡ with_finished (Self.Conn.wire conn) (entrance self.old) };

    /// No further connection is taken here. Once this was said of all doors that were opened together, no
    /// client waits for one.
    fn shut(&mut self)
        ensures { entrance self.new ≡ entrance self.old };
}
