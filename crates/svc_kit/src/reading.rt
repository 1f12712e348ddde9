//! Reading what the server says.

use frame_codec::frame::ServerFrame;
use frame_codec::reading;
pub use frame_codec::reading::read_frame;

/// What stands at the front of bytes that came from the server.
pub type Read = reading::Read<ServerFrame>;
