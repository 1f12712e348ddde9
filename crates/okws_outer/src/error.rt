//! Why the outside gave nothing.

ghost use Rattle.std.specs.Prelude.{◌≡◌};
ghost use Rattle.okws_outer.specs.declared.error.MakeError.TheVariants.{NoMemory};

use std::alloc::AllocError;

/// A call failed and was counted.
#[derive(Clone, Copy)]
pub struct Fault;

/// Why an object was not made.
#[derive(Clone, Copy, Debug)]
pub enum MakeError {
    /// The call failed and was counted.
    Failed,
    /// Memory was refused.
    NoMemory,
}

impl From<AllocError> for MakeError {
    ghost from_gives = { λ _ e. e ≡ NoMemory };

    fn from(_: AllocError) -> Self {
        MakeError::NoMemory
    }
}
