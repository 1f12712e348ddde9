//! The outside of one run, whose objects are taken for the run and given back.

ghost use Rattle.std.specs.Prelude.{◌≡◌, Some, IsSome, Option};
ghost use Rattle.okws_outer.specs.declared.world.Outside.{Outside};

use crate::files::Files;
use crate::stream::Sink;

/// The objects of a run.
#[derive(Drop)]
pub struct Outside<F, O> {
    /// The files by their paths.
    pub files: F,
    /// Where the run prints.
    pub out: O,
    /// The seed of the run's tokens.
    pub seed: [u8; 32],
}

/// A run's outside. Its objects are given by value, so that the run can use them at the same time,
/// put them behind locks and give them to threads.
pub trait World {
    /// The files by their paths.
    type Files: Files;

    /// Where the run prints.
    type Out: Sink + Send;

    /// The objects, None while they are out.
    ghost objects: { Self → Option (Outside Self.Files Self.Out) };

    /// Gives all objects.
    fn open(&mut self) -> Outside<Self::Files, Self::Out>
        requires { IsSome (objects self.old) }
        ensures { objects self.old ≡ Some result };

    /// Takes all objects back.
    fn close(&mut self, all: Outside<Self::Files, Self::Out>)
        ensures { objects self.new ≡ Some all };
}
