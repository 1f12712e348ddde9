//! What is answered to a request, and how it is written.

ghost use Rattle.std.specs.Prelude.{◌≡◌, ◌++◌, ◌∷◌, [], ℕ, List, IsTrue};
ghost use Rattle.http_text.specs.Status.{status_text};
ghost use Rattle.http_front.specs.Writing.{Responds};
ghost use Rattle.http_front.specs.Kept.{method_text};
ghost use Rattle.http_front.specs.Replies.{Replied};
ghost use Rattle.door_worker.specs.Responses.{is_own, IsLawful, outcome_response, answer_of, answer_response};

use crate::handler::Outcome;
use http::StatusCode;
use http_front::kept::Kept;
use http_front::reply::Reply;
use http_front::writing::{Responded, respond};
use monitor_model::record::End;
use okws_outer::conn::Conn;

/// What a response is made of.
#[derive(Clone, Copy, PartialEq, Eq)]
pub enum Answer {
    /// The server's own response with this status.
    Own(StatusCode),
    /// The Reply of the service.
    Reply,
}

/// The answer to a request of which this became.
pub fn answer_to(outcome: Outcome) -> Answer
    ensures is { result ≡ answer_of outcome }
    ensures lawful { IsLawful result }
    ensures due { (reply : Replied) (method : List ℕ) → answer_response result reply method ≡ outcome_response outcome reply method }
{
    match outcome {
        Outcome::NotOwned => Answer::Own(StatusCode::NOT_FOUND),
        Outcome::Down | Outcome::Missed => Answer::Own(StatusCode::SERVICE_UNAVAILABLE),
        Outcome::Ended(end) => answer_to_end(end),
        Outcome::NoMemory => Answer::Own(StatusCode::INSUFFICIENT_STORAGE),
    }
}

/// The answer to a request whose dialog ended so.
fn answer_to_end(end: End) -> Answer
    ensures is { result ≡ answer_of (Outcome.Ended end) }
    ensures lawful { IsLawful result }
    ensures due { (reply : Replied) (method : List ℕ) → answer_response result reply method ≡ outcome_response (Outcome.Ended end) reply method }
{
    match end {
        End::Reply => Answer::Reply,
        End::Superseded(_) => Answer::Own(StatusCode::SERVICE_UNAVAILABLE),
        End::BadFrame | End::Ended | End::LinkFault | End::FrameLimit => {
            Answer::Own(StatusCode::BAD_GATEWAY)
        }
        End::Starved => Answer::Own(StatusCode::INSUFFICIENT_STORAGE),
    }
}

/// The content of the server's own response with this status: the status, its phrase and LF.
#[tactic(auto, unfolding(http_text::specs::Status::status_text))]
fn own_content(status: StatusCode) -> &'static [u8]
    requires { IsTrue (is_own status) }
    ensures { result.now ≡ status_text status ++ 10 ∷ [] }
{
    match status.as_u16() {
        400 => b"400 Bad Request\n",
        404 => b"404 Not Found\n",
        413 => b"413 Content Too Large\n",
        431 => b"431 Request Header Fields Too Large\n",
        501 => b"501 Not Implemented\n",
        502 => b"502 Bad Gateway\n",
        503 => b"503 Service Unavailable\n",
        507 => b"507 Insufficient Storage\n",
        _ => unreachable!(),
    }
}

/// Writes an answer, by the method that was kept of the request. Takes no memory.
pub fn write_answer<C: Conn>(
    conn: &mut C,
    kept: &mut Kept,
    reply: &Reply,
    answer: &Answer,
) -> Responded
    requires { IsLawful answer.now }
    ensures { Responds (C.wire conn.old) (C.wire conn.new) kept.old kept.new (answer_response answer.now reply.now (method_text kept.old.to_head)) result }
{
    let method = kept.method();
    match answer {
        Answer::Own(status) => {
            let content = own_content(*status);
            respond(conn, kept, *status, b"text/plain", b"", content, method)
        }
        Answer::Reply => respond(
            conn,
            kept,
            reply.status(),
            reply.content_type(),
            reply.location(),
            reply.content(),
            method,
        ),
    }
}
