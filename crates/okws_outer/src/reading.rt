//! Reads a source, or a file, whole.

ghost use Rattle.std.specs.Prelude.{◌≡◌, ◌≤◌, ◌<◌, ◌+◌, ◌^◌, [], ◌∷◌, take, length, IfOk, IfSome, IsErrOf};
ghost use Rattle.okws_outer.specs.Streams.{Rose, IsFrontOf};
ghost use Rattle.okws_outer.specs.Shelf.{Reads};
ghost use Rattle.okws_outer.specs.declared.reading.ReadError.TheVariants.{NoMemory};

use crate::files::Files;
use crate::stream::{Pull, Source};
use std::alloc::{AllocError, Global};

/// Why a source was not read.
#[derive(Clone, Copy, PartialEq, Eq)]
pub enum ReadError {
    /// A pull failed and was counted.
    Failed,
    /// Memory was refused.
    NoMemory,
}

impl From<AllocError> for ReadError {
    ghost from_gives = { λ _ e. e ≡ NoMemory };

    fn from(_: AllocError) -> Self {
        ReadError::NoMemory
    }
}

/// Bytes that are asked for at a time.
const PIECE: usize = 4096;

/// Takes bytes from a source up to its end, or to one byte above the limit; a pull that fails is the
/// last one.
fn take_up_to<S: Source>(alloc: Global, source: &mut S, limit: usize) -> Result<Vec<u8>, ReadError>
    requires { limit < 2 ^ 32 }
    ensures bytes { IfSome (S.left source.old) (λ all. IfOk result (λ bytes. bytes.items ≡ take (limit + 1) all)) }
    ensures size { IfOk result (λ bytes. length bytes.items ≤ limit + 1) }
    ensures faults { S.faults source.old ≤ S.faults source.new }
    ensures failed { IsErrOf result ReadError.Failed → Rose (S.faults source.old) (S.faults source.new) }
    ensures still { (IsErrOf result ReadError.Failed → ⊥) → S.faults source.new ≡ S.faults source.old }
{
    let mut bytes = Vec::new(alloc);
    let mut piece = [0u8; PIECE];
    while bytes.len() <= limit {
        let room = (limit + 1 - bytes.len()).min(PIECE);
        match source.pull(&mut piece[..room]) {
            Pull::Took(count) => bytes.extend_from_slice(&piece[..count])?,
            Pull::End => break,
            Pull::Failed => return Err(ReadError::Failed),
        }
    }
    Ok(bytes)
}

/// Reads a source to its end, or to one byte above the limit, by which the caller sees that there is
/// more than the limit. The limit is in bytes and below 2^32. What was read is the front of some text,
/// of the one that is left where the source tells. No pull failed that isn't told.
pub fn read_whole<S: Source>(
    alloc: Global,
    source: &mut S,
    limit: usize,
) -> Result<Vec<u8>, ReadError>
    requires { limit < 2 ^ 32 }
    ensures bytes { IfOk result (λ bytes. IsFrontOf (S.left source.old) (limit + 1) bytes.items) }
    ensures faults { S.faults source.old ≤ S.faults source.new }
    ensures failed { IsErrOf result ReadError.Failed → Rose (S.faults source.old) (S.faults source.new) }
    ensures still { (IsErrOf result ReadError.Failed → ⊥) → S.faults source.new ≡ S.faults source.old }
{
    take_up_to(alloc, source, limit)
}

/// Reads the file at a path to its end, or to one byte above the limit, which is in bytes and below
/// 2^32. A file that can't be opened is a fault, and no fault is left untold.
pub fn read_file<F: Files>(
    alloc: Global,
    files: &mut F,
    path: &str,
    limit: usize,
) -> Result<Vec<u8>, ReadError>
    requires { limit < 2 ^ 32 }
    ensures bytes { IfOk result (λ bytes. IsFrontOf ((F.shelf files.old).held path.now) (limit + 1) bytes.items) }
    ensures shelf { Reads (F.shelf files.old) (F.shelf files.new) (path.now ∷ []) (IsErrOf result ReadError.Failed) }
{
    let mut file = files.open(path);
    let read = read_whole(alloc, &mut file, limit);
    files.close(file);
    read
}
