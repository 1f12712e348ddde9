//! Bytes that come in and bytes that go out.

ghost use Rattle.std.specs.Prelude.{◌≡◌, ◌<◌, ◌≤◌, ℕ, List, length, true, None, OnOk};
ghost use Rattle.std.specs.declared.option.Option.{Option};
ghost use Rattle.okws_outer.specs.declared.stream.Pull.{Pull};
ghost use Rattle.okws_outer.specs.declared.stream.Pull.TheVariants.{Failed};
ghost use Rattle.okws_outer.specs.declared.stream.Put.{Put};
ghost use Rattle.okws_outer.specs.declared.stream.Put.TheVariants.{Done};
ghost use Rattle.okws_outer.specs.Streams.{Counts, Pulls, Puts};
ghost use Rattle.okws_outer.specs.Wire.{Wire, Receives, Gives, GainsRoom};

use std::alloc::AllocError;

/// What a pull answers.
#[derive(Clone, Copy, PartialEq, Eq)]
pub enum Pull {
    /// So many bytes came, 1 at the least; they stand at the front of what was given for them.
    Took(usize),
    /// No bytes are left.
    End,
    /// The call failed and was counted; no byte came.
    Failed,
}

/// What a put answers.
#[derive(Clone, Copy, PartialEq, Eq)]
pub enum Put {
    /// All bytes were given.
    Done,
    /// The call failed and was counted; only so many bytes from the front were given.
    Stopped(usize),
}

/// Bytes that come in.
pub trait Source {
    /// The bytes that are left, where the source tells.
    ghost left: { Self → Option (List ℕ) };

    /// How many calls have failed; it never falls, and stays at 2^64 - 1 once it is there.
    ghost faults: { Self → ℕ };

    /// Takes bytes that are left, at most as many as there is room for.
    fn pull(&mut self, into: &mut [u8]) -> Pull
        requires { 0 < length into.old }
        ensures bytes { Pulls (left self.old) (left self.new) into.new result }
        ensures faults { Counts (faults self.old) (faults self.new) (result ≡ Failed) }
        ensures still { (result ≡ Failed → ⊥) → faults self.new ≡ faults self.old };
}

/// Bytes that go out.
pub trait Sink {
    /// The bytes that were given, where the sink tells.
    ghost given: { Self → Option (List ℕ) };

    /// How many calls have failed; it never falls, and stays at 2^64 - 1 once it is there.
    ghost faults: { Self → ℕ };

    /// Gives the bytes behind those that were given before. A sink that doesn't tell never does.
    fn put(&mut self, bytes: &[u8]) -> Put
        ensures bytes { Puts (given self.old) (given self.new) bytes.now result }
        ensures untold { given self.old ≡ None → given self.new ≡ None }
        ensures faults { Counts (faults self.old) (faults self.new) (result ≡ Done → ⊥) }
        ensures still { result ≡ Done → faults self.new ≡ faults self.old };
}

/// Bytes in both directions, with one count of faults.
pub trait Link {
    /// The link, as contracts see it. Its count of faults never falls, and stays at 2^64 - 1 once it
    /// is there.
    ghost wire: { Self → Wire };

    /// Takes bytes that are left, at most as many as there is room for.
    fn pull(&mut self, into: &mut [u8]) -> Pull
        requires { 0 < length into.old }
        ensures bytes { Pulls (wire self.old).left (wire self.new).left into.new result }
        ensures link { Receives (wire self.old) (wire self.new) (result ≡ Failed) };

    /// Gives the bytes behind those that were given before. A link that doesn't tell never does.
    fn put(&mut self, bytes: &[u8]) -> Put
        ensures bytes { Puts (wire self.old).given (wire self.new).given bytes.now result }
        ensures link { Gives (wire self.old) (wire self.new) (length bytes.now) (result ≡ Done) };

    /// Makes a steady link sure of room for n bytes more; where memory is refused it is as before.
    fn make_room(&mut self, n: usize) -> Result<(), AllocError>
        ensures made { OnOk result ((wire self.old).steady ≡ true → n ≤ (wire self.new).room) }
        ensures link { GainsRoom (wire self.old) (wire self.new) };
}
