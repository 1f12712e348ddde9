//! Reading frames: what a service says, and what it hears.

ghost use Rattle.std.specs.Prelude.{◌≡◌, ◌↔◌, List, Option, length, IfSome, IsNone, IsTrue, IsFalse, Some, [], ◌⊎◌, ℕ};
ghost use Rattle.std.specs.Int.{w32};
ghost use Rattle.frame_codec.specs.Reading.{Gives, number_at, payload_at};
ghost use Rattle.frame_codec.specs.Spelling.{four, is_lawful_length};
ghost use Rattle.frame_codec.specs.Stream.{Begins, IsShort, IsBad};
ghost use Rattle.frame_codec.specs.Answer.{TellsBy, IsAnswer, sized, frame_at};

use crate::field::{Misread, ReadError, u32_at};
use crate::frame::ServiceFrame;
use crate::framing::Frame;
use crate::part::lawful_length;
use okws_base::limit::LONGEST_FRAME;
use std::alloc::Global;

/// What stands at the front of bytes of a stream of such frames.
#[derive(Drop)]
pub enum Read<F = ServiceFrame> {
    /// A frame, and how many bytes it takes.
    Frame(F, usize),
    /// Fewer than four bytes, or a lawful length and fewer bytes than it tells.
    Short,
    /// No frame, whatever follows.
    BadFrame,
    /// A frame stands there, for which memory was refused.
    NoMemory,
}

/// What is read of a frame behind its length and its kind.
pub(crate) trait Fields {
    /// The frame of a kind whose fields are all of the bytes.
    ghost fields: { ℕ → List ℕ → Option Self };

    /// Reads the fields of a frame of this kind, which are to be all of the bytes. Where they are
    /// not, takes no memory.
    fn fields_of(alloc: Global, kind: u8, bytes: &[u8]) -> Result<Self, ReadError>
        ensures { Gives (λ frame. frame) result (fields kind bytes.now) };
}

/// A frame of one of the two directions, which is read as it is spelled.
pub trait FrameRead: Frame {
    /// Reads one frame from the front, as `read_frame` says.
    fn read(alloc: Global, bytes: &[u8]) -> Read<Self>
        ensures { TellsBy Self.parts Self.fits bytes.now result };
}

/// The frame whose kind and fields are all of the bytes.
fn payload_of<F: Fields>(alloc: Global, bytes: &[u8]) -> Result<F, ReadError>
    ensures { Gives (λ frame. frame) result (payload_at F.fields bytes.now) }
{
    match bytes {
        [] => Err(ReadError::Bad),
        [kind, fields @ ..] => F::fields_of(alloc, *kind, fields),
    }
}

fn sized_frame<F: Fields>(alloc: Global, size: u32, rest: &[u8]) -> Read<F>
    ensures { IsAnswer result (sized F.fields size rest.now) }
{
    let size = size as usize;
    if size == 0 || size > LONGEST_FRAME {
        return Read::BadFrame;
    }
    if rest.len() < size {
        return Read::Short;
    }
    match payload_of(alloc, &rest[..size]) {
        Ok(frame) => Read::Frame(frame, 4 + size),
        Err(ReadError::Bad) => Read::BadFrame,
        Err(ReadError::Memory) => Read::NoMemory,
    }
}

/// What stands at the front, by the fields of such frames.
#[tactic(auto, unfolding(crate::specs::Answer::frame_at))]
pub(crate) fn first_frame<F: Fields>(alloc: Global, bytes: &[u8]) -> Read<F>
    ensures { IsAnswer result (frame_at F.fields bytes.now) }
{
    match u32_at(bytes) {
        Ok((size, rest)) => sized_frame(alloc, size, rest),
        Err(Misread) => Read::Short,
    }
}

/// Reads one frame of the direction from the front. It is Frame exactly where the spelling of a frame stands there,
/// Short exactly where there are fewer than four bytes or a lawful length and fewer bytes than it
/// tells, and else BadFrame; but where a frame stands there and memory for it is refused it is
/// NoMemory. Short and BadFrame take no memory.
pub fn read_frame<F: FrameRead>(alloc: Global, bytes: &[u8]) -> Read<F>
    ensures { TellsBy F.parts F.fits bytes.now result }
{
    F::read(alloc, bytes)
}

/// The number that four bytes spell.
#[tactic(auto, unfolding(crate::specs::Reading::number_at, crate::specs::Reading::fixed_at))]
fn number_of(head: &[u8]) -> u32
    requires { length head.now ≡ 4 }
    ensures { number_at w32 head.now ≡ Some (result, []) }
{
    u32::from_be_bytes([head[0], head[1], head[2], head[3]])
}

/// The length that the four bytes at the front of a frame tell, in bytes behind these four; None
/// where it isn't 1 to LONGEST_FRAME, whatever follows.
pub fn told_length(head: &[u8]) -> Option<usize>
    requires { length head.now ≡ 4 }
    ensures told { IfSome result (λ n. IsTrue (is_lawful_length n) × (head.now ≡ four n)) }
    ensures bad { IsNone result → IsBad head.now }
{
    let size = number_of(head);
    match lawful_length(size as usize) {
        Some(_) => Some(size as usize),
        None => None,
    }
}

/// Whether there are fewer than four bytes, or a lawful length and fewer bytes than it tells. Bytes
/// that aren't short begin with a frame, or are bad.
pub fn is_short(bytes: &[u8]) -> bool
    ensures short { IsTrue result ↔ IsShort bytes.now }
    ensures settled { IsFalse result → ((frame : ServiceFrame) × (rest : List ℕ) × Begins bytes.now frame rest) ⊎ IsBad bytes.now }
{
    if bytes.len() < 4 {
        return true;
    }
    match told_length(&bytes[..4]) {
        Some(size) => bytes.len() - 4 < size,
        None => false,
    }
}
