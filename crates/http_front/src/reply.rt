//! What a service replied.

ghost use Rattle.std.specs.Prelude.{◌≡◌, ◌≤◌, IsSome, IfOk, length, vec_capacity};
ghost use Rattle.okws_base.specs.declared.limit.TheConstants.{LONGEST_FRAME};
ghost use Rattle.http_text.specs.Status.{phrase};
ghost use Rattle.http_front.specs.Replies.{no_reply};

use http::StatusCode;
use okws_base::limit::LONGEST_FRAME;
use std::alloc::{AllocError, Global};
use std::marker::Model;

/// Bytes that a Reply's content type, or its Location, may have.
pub const LONGEST_FIELD: usize = 255;

/// The parts of a service's Reply, with room for the longest: one serves for one connection after the
/// other, and filling it takes no memory.
pub struct Reply {
    status: StatusCode,
    content_type: Vec<u8>,
    location: Vec<u8>,
    content: Vec<u8>,
}

impl Drop for Reply {
    fn drop(self) {
        let Reply {
            status: _,
            content_type,
            location,
            content,
        } = self;
        drop(content_type);
        drop(location);
        drop(content);
    }
}

impl Model for Reply {
    ghost use Rattle.std.specs.Prelude.{◌≤◌, IsSome, vec_capacity};
    ghost use Rattle.okws_base.specs.declared.limit.TheConstants.{LONGEST_FRAME};
    ghost use Rattle.http_text.specs.Status.{phrase};
    ghost use Rattle.http_front.specs.Replies.{Replied, IsRoomy};

    ghost Value = { Replied };

    ghost view = { λ a. record { status = a.status; content_type = a.content_type.items; location = a.location.items; content = a.content.items } };

    ghost invariant = { λ a. IsRoomy a.status (vec_capacity a.content_type) (vec_capacity a.location) (vec_capacity a.content) };
}

/// The code of a status that the server writes.
#[tactic(auto, using(crate::proofs::Phrases::phrases_have_codes))]
fn code_of(status: u16) -> StatusCode
    requires { IsSome (phrase status) }
    ensures { result ≡ status }
{
    match StatusCode::from_u16(status) {
        Ok(code) => code,
        Err(_) => unreachable!(),
    }
}

/// Puts bytes in the place of those that are there, for which there is room.
fn put(into: &mut Vec<u8>, bytes: &[u8])
    requires { length bytes.now ≤ vec_capacity into.old }
    ensures items { into.new.items ≡ bytes.now }
    ensures room { vec_capacity into.old ≤ vec_capacity into.new }
{
    into.clear();
    let _ = into.extend_from_slice(bytes);
}

impl Reply {
    /// Nothing yet. Fails only where memory is refused.
    pub fn new(alloc: Global) -> Result<Reply, AllocError>
        ensures { IfOk result (λ r. r ≡ no_reply) }
    {
        Ok(Reply {
            status: StatusCode::OK,
            content_type: Vec::with_capacity(alloc, LONGEST_FIELD)?,
            location: Vec::with_capacity(alloc, LONGEST_FIELD)?,
            content: Vec::with_capacity(alloc, LONGEST_FRAME)?,
        })
    }

    /// Takes the parts of a Reply. A Location of no bytes is none. Takes no memory.
    pub fn fill(&mut self, status: u16, content_type: &[u8], location: &[u8], content: &[u8])
        requires status { IsSome (phrase status) }
        requires content_type { length content_type.now ≤ LONGEST_FIELD }
        requires location { length location.now ≤ LONGEST_FIELD }
        requires content { length content.now ≤ LONGEST_FRAME }
        ensures { self.new ≡ record { status = status; content_type = content_type.now; location = location.now; content = content.now } }
    {
        self.status = code_of(status);
        put(&mut self.content_type, content_type);
        put(&mut self.location, location);
        put(&mut self.content, content);
    }

    /// The status.
    pub fn status(&self) -> StatusCode
        ensures is { result ≡ self.now.status }
        ensures phrase { IsSome (phrase result) }
    {
        self.status
    }

    /// The content type.
    pub fn content_type(&self) -> &[u8]
        ensures { result.now ≡ self.now.content_type }
    {
        &self.content_type
    }

    /// The Location, empty for none.
    pub fn location(&self) -> &[u8]
        ensures { result.now ≡ self.now.location }
    {
        &self.location
    }

    /// The content.
    pub fn content(&self) -> &[u8]
        ensures { result.now ≡ self.now.content }
    {
        &self.content
    }
}
