//! A request of a run.

ghost use Rattle.std.specs.Prelude.{◌≡◌, ◌&&◌, ◌++◌, IfOk, OnOk, false, is_some, not};
ghost use Rattle.monitor_model.specs.Script.{goes_of};
ghost use Rattle.monitor_model.specs.Stage.{method_text, length_line, request_head};

use monitor_model::verdict::Way;
use okws_base::items::Items;
use okws_plan::script::Method;
use plain_text::decimals::push_decimal;
use std::alloc::{AllocError, Global};
use std::marker::Model;

/// A request that was accepted. Its head is written when its dialog begins.
#[derive(Drop)]
pub struct Request {
    pub method: Method,
    pub target: Items<u8>,
    pub content: Items<u8>,
    // The service and the incarnation.
    pub goes: Option<(u16, u32)>,
    pub has_begun: bool,
}

impl Model for Request {
    ghost use Rattle.monitor_model.specs.Stage.{Asked, request_head};

    ghost Value = { Asked };

    ghost view = { λ a. record { method = a.method; head = request_head a.method a.target a.content; content = a.content; goes = a.goes; has_begun = a.has_begun } };
}

impl Request {
    /// The method of the request.
    pub fn method(&self) -> Method
        ensures { result ≡ self.now.method }
    {
        self.method
    }

    /// The head that a service hears.
    pub fn head(&self, alloc: Global) -> Result<Items<u8>, AllocError>
        ensures { IfOk result (λ h. h ≡ self.now.head) }
    {
        let head = head_of(
            alloc,
            self.method,
            self.target.as_slice(),
            self.content.as_slice(),
        )?;
        Ok(Items::of(head))
    }

    /// To whom the request goes.
    pub fn goes(&self) -> Option<(u16, u32)>
        ensures { result ≡ self.now.goes }
    {
        self.goes
    }

    /// Whether the request goes to an incarnation and its dialog was not begun.
    pub fn is_pending(&self) -> bool
        ensures { result ≡ (is_some self.now.goes && not self.now.has_begun) }
    {
        self.goes.is_some() && !self.has_begun
    }
}

/// The word of a method.
pub fn method_name(method: Method) -> &'static [u8]
    ensures { result.now ≡ method_text method }
{
    match method {
        Method::Get => b"GET",
        Method::Head => b"HEAD",
        Method::Post => b"POST",
    }
}

/// To whom a request goes.
fn goes_by(way: Way) -> Option<(u16, u32)>
    ensures { result ≡ goes_of way }
{
    match way {
        Way::NotOwned => None,
        Way::Down(_) => None,
        Way::To {
            service,
            incarnation,
        } => Some((service, incarnation)),
    }
}

// Adds the field that tells the length of a content, where there is one.
fn push_length(alloc: Global, head: &mut Vec<u8>, content: &[u8]) -> Result<(), AllocError>
    ensures { OnOk result (head.new.items ≡ head.old.items ++ length_line content.now) }
{
    match content {
        [] => Ok(()),
        [_, ..] => {
            head.extend_from_slice(b"Content-Length: ")?;
            push_decimal(alloc, head, content.len() as u64)?;
            head.extend_from_slice(b"\r\n")
        }
    }
}

// Puts the head of a request behind what is there (RFC 9112, section 3).
#[tactic(auto, unfolding(monitor_model::specs::Stage::request_head))]
fn put_head(
    alloc: Global,
    head: &mut Vec<u8>,
    method: Method,
    target: &[u8],
    content: &[u8],
) -> Result<(), AllocError>
    ensures { OnOk result (head.new.items ≡ head.old.items ++ request_head method target.now content.now) }
{
    head.extend_from_slice(method_name(method))?;
    head.push(b' ')?;
    head.extend_from_slice(target)?;
    head.extend_from_slice(b" HTTP/1.1\r\nHost: localhost\r\n")?;
    push_length(alloc, head, content)?;
    head.extend_from_slice(b"\r\n")
}

// The head of a request with this method, target and content.
fn head_of(
    alloc: Global,
    method: Method,
    target: &[u8],
    content: &[u8],
) -> Result<Vec<u8>, AllocError>
    ensures { IfOk result (λ v. v.items ≡ request_head method target.now content.now) }
{
    let mut head = Vec::new(alloc);
    put_head(alloc, &mut head, method, target, content)?;
    Ok(head)
}

/// The request of this method, target and content, which goes this way.
pub fn asked(method: Method, target: Items<u8>, content: Items<u8>, way: Way) -> Request
    ensures { result ≡ record { method = method; head = request_head method target content; content = content; goes = goes_of way; has_begun = false } }
{
    Request {
        method,
        target,
        content,
        goes: goes_by(way),
        has_begun: false,
    }
}
