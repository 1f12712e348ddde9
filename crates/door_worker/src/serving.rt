//! Serves a door, one connection after the other.

ghost use Rattle.std.specs.Prelude.{◌≡◌, IsNone};
ghost use Rattle.door_worker.specs.Responses.{IsLawful};
ghost use Rattle.door_worker.specs.Serving.{Attends, Serves, IsAnswered};

use crate::answer::{Answer, answer_to, write_answer};
use crate::handler::Handler;
use http::StatusCode;
use http_front::kept::Kept;
use http_front::reading::{Incoming, Request, read_request};
use http_front::reply::Reply;
use http_front::writing::Responded;
use okws_outer::conn::Conn;
use okws_outer::door::Door;
use std::alloc::Global;

/// What became of one turn at a door.
#[derive(Clone, Copy, PartialEq, Eq)]
pub enum Serving {
    /// A connection was answered so, whole.
    Served(Answer),
    /// A connection failed, which was counted: just a front was written of this answer and of what goes
    /// before it, or of what goes before it alone.
    ConnFault(Option<Answer>),
    /// No connection came, which was counted.
    NoConn,
    /// No connection came so far; nothing changed.
    NoneCame,
    /// Memory was refused before a connection was accepted; nothing changed.
    NoMemory,
}

/// Takes the next connection of a door, reads its request, has it handled, writes the response, and
/// finishes the connection, whatever happened on it. It may wait for a connection, or tell that none came
/// so far. What was read and how much was written is kept, and a service's Reply is at hand.
pub fn serve_one<D: Door, H: Handler>(
    alloc: Global,
    door: &mut D,
    handler: &mut H,
    kept: &mut Kept,
    reply: &mut Reply,
) -> Serving
    requires { IsNone (D.entrance door.old).out }
    ensures idle { IsNone (D.entrance door.new).out }
    ensures serves { Serves D.Conn.wire H.handles H.starves (D.entrance door.old) (D.entrance door.new) (H.state handler.old) (H.state handler.new) kept.new reply.new result }
{
    if handler.make_room().is_err() {
        return Serving::NoMemory;
    }
    match door.accept() {
        Ok(Some(conn)) => {
            let mut conn = conn;
            let serving = attend(alloc, &mut conn, handler, kept, reply);
            door.finish(conn);
            serving
        }
        Ok(None) => Serving::NoneCame,
        Err(_) => Serving::NoConn,
    }
}

/// Reads the request of a connection, has it handled and writes the response.
fn attend<C: Conn, H: Handler>(
    alloc: Global,
    conn: &mut C,
    handler: &mut H,
    kept: &mut Kept,
    reply: &mut Reply,
) -> Serving
    requires { H.has_room handler.old }
    ensures { Attends H.handles H.starves (C.wire conn.old) (C.wire conn.new) (H.state handler.old) (H.state handler.new) kept.new reply.new result }
{
    match read_request(alloc, conn, kept) {
        Incoming::Request(request) => {
            let answer = answer_to(handler.handle(request, reply));
            answer_by(conn, kept, reply, answer)
        }
        Incoming::Refused(status) => answer_by(conn, kept, reply, Answer::Own(status)),
        Incoming::NoMemory => {
            handler.starve();
            answer_by(
                conn,
                kept,
                reply,
                Answer::Own(StatusCode::INSUFFICIENT_STORAGE),
            )
        }
        Incoming::ConnFault => Serving::ConnFault(None),
    }
}

/// Writes an answer, and tells whether it was written whole.
fn answer_by<C: Conn>(conn: &mut C, kept: &mut Kept, reply: &Reply, answer: Answer) -> Serving
    requires { IsLawful answer }
    ensures { IsAnswered (C.wire conn.old) (C.wire conn.new) kept.old kept.new reply.now answer result }
{
    match write_answer(conn, kept, reply, &answer) {
        Responded::Sent => Serving::Served(answer),
        Responded::ConnFault => Serving::ConnFault(Some(answer)),
    }
}
