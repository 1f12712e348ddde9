//! A gate, at which tests hold what goes on between two steps of the server.

/// A place in the server's work, with the number that stands beside it.
#[derive(Clone, Copy, PartialEq, Eq)]
pub enum Point {
    /// A dialog's Request was put; the number is that of the service.
    Requested,
    /// A connection's response was put; the number is that of the connection.
    Answered,
    /// The launcher raised the board; the number is that of the service.
    Raised,
    /// A proxy's turn is held in a Call; the number is that of the proxy.
    Called,
}

/// A gate. It changes nothing that a contract sees. One that waits has a type parameter with the
/// bound `Wait`.
pub trait Gate {
    /// Goes on, at once or later.
    fn pass(&self, point: Point, number: u64);
}

/// The gate of the program, at which nothing is held.
#[derive(Clone, Copy)]
pub struct NoGate;

impl Gate for NoGate {
    fn pass(&self, _point: Point, _number: u64) {}
}
