//! What holds of both ends of the frames.

pub use frame_codec::laws::frames_are_read_again;
