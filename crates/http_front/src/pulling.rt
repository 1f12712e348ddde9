//! Takes what a client sends, piece by piece, and looks at it where it could have settled something.

ghost use Rattle.std.specs.Prelude.{◌≡◌, ◌<◌, ◌≤◌, ◌+◌, ◌++◌, ℕ, List, [], length};
ghost use Rattle.okws_outer.specs.Conns.{ConnWire};
ghost use Rattle.httparse.specs.Grammar.{RequestHead};
ghost use Rattle.http_text.specs.Reading.{IsWholeHead, interim_head};
ghost use Rattle.http_front.specs.Pulling.{TakesPiece, ReadsHead, HasRead, IsContentOf, FillsContent};

use crate::kept::{PIECE, Room};
use crate::looking::{Look, WholeHead, look_on};
use crate::places::Place;
use http::StatusCode;
use okws_outer::conn::Conn;
use okws_outer::stream::Pull;

/// What came.
pub(crate) enum Piece {
    /// Bytes, behind those that were there.
    Came,
    /// No bytes are left.
    Ended,
    /// The pull failed and was counted.
    Failed,
    /// Memory was refused, and nothing was pulled.
    NoMemory,
}

/// Takes one piece, at most as long as the buffer, behind the bytes that are there.
fn take_piece<C: Conn>(conn: &mut C, bytes: &mut Vec<u8>, buffer: &mut [u8]) -> Piece
    requires { 0 < length buffer.old }
    ensures piece { TakesPiece (C.wire conn.old) (C.wire conn.new) bytes.old.items bytes.new.items result }
    ensures within { length bytes.new.items ≤ length bytes.old.items + length buffer.old }
{
    if bytes.reserve(buffer.len()).is_err() {
        return Piece::NoMemory;
    }
    match conn.pull(buffer) {
        Pull::Took(count) => {
            let _ = bytes.extend_from_slice(&buffer[..count]);
            Piece::Came
        }
        Pull::End => Piece::Ended,
        Pull::Failed => Piece::Failed,
    }
}

/// What reading a head ends with.
#[derive(Drop)]
pub(crate) enum HeadRead {
    Whole(WholeHead),
    /// No whole head, and none can become of the bytes, or they are too long for one.
    Refused(StatusCode),
    /// The bytes ended before.
    Ended,
    /// A pull failed and was counted.
    Failed,
    /// Memory was refused.
    NoMemory,
}

/// Reads until a head is whole, or it is settled that there is none.
pub(crate) fn read_head<C: Conn>(conn: &mut C, bytes: &mut Vec<u8>, room: &mut Room) -> HeadRead
    requires { bytes.old.items ≡ [] }
    ensures { ReadsHead (C.wire conn.old) (C.wire conn.new) bytes.new.items result }
{
    let mut place = Place::Blanks;
    loop {
        let before = bytes.len();
        match take_piece(conn, bytes, &mut room.piece) {
            Piece::Came => {}
            Piece::Ended => return HeadRead::Ended,
            Piece::Failed => return HeadRead::Failed,
            Piece::NoMemory => return HeadRead::NoMemory,
        }
        match look_on(&mut place, bytes, before, &mut room.headers) {
            Look::Whole(head) => return HeadRead::Whole(head),
            Look::TooLong => {
                return HeadRead::Refused(StatusCode::REQUEST_HEADER_FIELDS_TOO_LARGE);
            }
            Look::Broken => return HeadRead::Refused(StatusCode::BAD_REQUEST),
            Look::Open => {}
        }
    }
}

/// What reading content ends with.
pub(crate) enum Filled {
    /// So many bytes are there as were wanted.
    Whole,
    /// The bytes ended before.
    Ended,
    /// A pull failed and was counted.
    Failed,
    /// Memory was refused.
    NoMemory,
}

/// Reads until there are so many bytes in all: a head and its content.
pub(crate) fn fill<C: Conn>(
    conn: &mut C,
    bytes: &mut Vec<u8>,
    room: &mut Room,
    total: usize,
) -> Filled
    ensures content { (start : ConnWire) (h : RequestHead) (rest : List ℕ) (written : ℕ) → IsContentOf h total → IsWholeHead bytes.old.items h rest → written ≡ length (interim_head h) → HasRead start (C.wire conn.old) bytes.old.items written → FillsContent start (C.wire conn.old) (C.wire conn.new) h bytes.new.items written total result }
    ensures grown { (more : List ℕ) × (bytes.new.items ≡ bytes.old.items ++ more) }
    ensures enough { result ≡ Filled.Whole → total ≤ length bytes.new.items }
{
    if bytes.len() >= total {
        return Filled::Whole;
    }
    fill_from(conn, bytes, room, total)
}

/// Reads further pieces until there are so many bytes in all.
fn fill_from<C: Conn>(conn: &mut C, bytes: &mut Vec<u8>, room: &mut Room, total: usize) -> Filled
    ensures content { (start : ConnWire) (h : RequestHead) (rest : List ℕ) (written : ℕ) → IsContentOf h total → IsWholeHead bytes.old.items h rest → written ≡ length (interim_head h) → HasRead start (C.wire conn.old) bytes.old.items written → FillsContent start (C.wire conn.old) (C.wire conn.new) h bytes.new.items written total result }
    ensures grown { (more : List ℕ) × (bytes.new.items ≡ bytes.old.items ++ more) }
    ensures enough { result ≡ Filled.Whole → total ≤ length bytes.new.items }
{
    while bytes.len() < total {
        let wanted = (total - bytes.len()).min(PIECE);
        match take_piece(conn, bytes, &mut room.piece[..wanted]) {
            Piece::Came => {}
            Piece::Ended => return Filled::Ended,
            Piece::Failed => return Filled::Failed,
            Piece::NoMemory => return Filled::NoMemory,
        }
    }
    Filled::Whole
}
