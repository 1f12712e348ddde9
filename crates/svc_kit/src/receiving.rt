//! The next frame that the server says over a link.

use frame_codec::frame::ServerFrame;
use frame_link::receiving;
pub use frame_link::receiving::next_server_frame as next;

/// What comes next over a link.
pub type NextFrame = receiving::NextFrame<ServerFrame>;
