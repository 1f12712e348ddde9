//! Children: programs that run beside the server.

ghost use Rattle.std.specs.Prelude.{◌≡◌};
ghost use Rattle.okws_outer.specs.Lives.{Life, Asks, stopped_life};

/// Whether a child has ended.
#[derive(Clone, Copy, PartialEq, Eq)]
pub enum Ended {
    /// It has ended.
    Yes,
    /// It has not.
    No,
    /// The call failed and was counted; nothing is known.
    Failed,
}

/// A child, which is of one service's one incarnation.
pub trait Child {
    /// What is told of the child. Its counts never fall, and stay at 2^64 - 1 once they are there.
    ghost life: { Self → Life };

    /// Whether the child has ended; does not wait.
    fn ended(&mut self) -> Ended
        ensures { Asks (life self.old) (life self.new) result };

    /// Stops the child, if it has not ended; never fails.
    fn stop(&mut self)
        ensures { life self.new ≡ stopped_life (life self.old) };
}
