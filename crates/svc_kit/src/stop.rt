//! Why a service hears nothing more of a server.

ghost use Rattle.std.specs.Prelude.{◌≡◌};
ghost use Rattle.svc_kit.specs.declared.stop.Stop.TheVariants.{NoMemory};

use frame_codec::frame::ServerFrame;
use std::alloc::{AllocError, AllocFailed};

/// Why a service stops.
#[derive(Drop)]
pub enum Stop {
    /// The bytes ended between frames.
    Ended,
    /// The bytes are no frame, or ended inside one.
    BadFrame,
    /// A call of the link failed and was counted.
    LinkFault,
    /// A whole frame came that isn't due there.
    Unlooked(ServerFrame),
    /// What was to be said has no spelling, and nothing was put: it is too long, or a field is out
    /// of its bounds.
    Unsayable,
    /// Memory was refused.
    NoMemory,
}

impl From<AllocError> for Stop {
    ghost from_gives = { λ _ e. e ≡ NoMemory };

    fn from(_e: AllocError) -> Stop {
        Stop::NoMemory
    }
}

impl<T: Drop> From<AllocFailed<T>> for Stop {
    ghost from_gives = { λ _ e. e ≡ NoMemory };

    fn from(_e: AllocFailed<T>) -> Stop {
        Stop::NoMemory
    }
}
