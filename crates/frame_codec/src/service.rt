//! What a service says: which frames have a spelling, how long it is, and the spelling itself.

ghost use Rattle.std.specs.Prelude.{◌≡◌, ◌↔◌, ◌<◌, length, IfOk, IsSome, IfSome, IsTrue};
ghost use Rattle.frame_codec.specs.Spelling.{size, service_parts, service_spelling, Fits, ServiceHasSpelling};
ghost use Rattle.frame_codec.specs.Taking.{Takes};
ghost use Rattle.frame_codec.specs.Bounds.{IsBounded};

use crate::frame::ServiceFrame;
use crate::framing::{Frame, length_of, write};
use crate::kind;
use crate::part::spell_all;
use crate::reply::{is_content_type_of_reply, is_location_of_reply, is_status_of_reply};
use crate::taker::{Taker, take_name, take_string, take_token};
use okws_base::value::Value;
use std::alloc::{AllocError, Global};

#[tactic(auto, unfolding(crate::specs::Spelling::two, crate::specs::Spelling::four))]
fn spell_call<T: Taker>(to: &mut T, proxy: u16, session: u32, query: u16, args: &[Value])
    requires { length args.now < 256 }
    ensures spelled { Takes T.took to.old (service_parts (ServiceFrame.Call proxy session query args.now)) to.new }
    ensures fits { Fits (ServiceFrame.Call proxy session query args.now) }
{
    to.take(&[kind::CALL]);
    to.take(&proxy.to_be_bytes());
    to.take(&session.to_be_bytes());
    to.take(&query.to_be_bytes());
    to.take(&[args.len() as u8]);
    spell_all(args, to);
}

#[tactic(auto, unfolding(crate::specs::Spelling::two))]
fn spell_reply<T: Taker>(
    to: &mut T,
    status: u16,
    content_type: &[u8],
    location: &[u8],
    content: &[u8],
)
    requires { IsBounded (ServiceFrame.Reply status content_type.now location.now content.now) }
    ensures spelled { Takes T.took to.old (service_parts (ServiceFrame.Reply status content_type.now location.now content.now)) to.new }
    ensures fits { Fits (ServiceFrame.Reply status content_type.now location.now content.now) }
{
    to.take(&[kind::REPLY]);
    to.take(&status.to_be_bytes());
    take_name(to, content_type);
    take_name(to, location);
    take_string(to, content);
}

impl Frame for ServiceFrame {
    ghost parts = { service_parts };

    ghost bounded = { IsBounded };

    ghost fits = { Fits };

    fn is_bounded(&self) -> bool {
        match self {
            ServiceFrame::Call { args, .. } => args.as_slice().len() < 256,
            ServiceFrame::Get(template) => template.as_slice().len() < 256,
            ServiceFrame::Reply {
                status,
                content_type,
                location,
                ..
            } => {
                is_status_of_reply(*status)
                    && is_content_type_of_reply(content_type.as_slice())
                    && is_location_of_reply(location.as_slice())
            }
            ServiceFrame::Open { .. } | ServiceFrame::Log(_) => true,
        }
    }

    #[tactic(auto, unfolding(crate::specs::Spelling::two))]
    fn spell<T: Taker>(&self, to: &mut T) {
        match self {
            ServiceFrame::Open { proxy, shown } => {
                to.take(&[kind::OPEN]);
                to.take(&proxy.to_be_bytes());
                take_token(to, shown);
            }
            ServiceFrame::Call {
                proxy,
                session,
                query,
                args,
            } => spell_call(to, *proxy, *session, *query, args.as_slice()),
            ServiceFrame::Get(template) => {
                to.take(&[kind::GET]);
                take_name(to, template.as_slice());
            }
            ServiceFrame::Log(text) => {
                to.take(&[kind::LOG]);
                take_string(to, text.as_slice());
            }
            ServiceFrame::Reply {
                status,
                content_type,
                location,
                content,
            } => spell_reply(
                to,
                *status,
                content_type.as_slice(),
                location.as_slice(),
                content.as_slice(),
            ),
        }
    }
}

impl ServiceFrame {
    /// The length that the first four bytes of the spelling tell: the bytes of the kind and the
    /// fields, 1 to LONGEST_FRAME. None where the frame has no spelling.
    pub fn length(&self) -> Option<u32>
        ensures has { IsSome result ↔ ServiceHasSpelling self.now }
        ensures length { IfSome result (λ n. n ≡ size (service_parts self.now)) }
    {
        length_of(self)
    }

    /// Whether the frame has a spelling.
    pub fn has_spelling(&self) -> bool
        ensures { IsTrue result ↔ ServiceHasSpelling self.now }
    {
        self.length().is_some()
    }
}

/// The bytes of the frame: a length of four bytes, a kind and the fields.
pub fn write_service_frame(alloc: Global, frame: &ServiceFrame) -> Result<Vec<u8>, AllocError>
    requires { ServiceHasSpelling frame.now }
    ensures { IfOk result (λ v. v.items ≡ service_spelling frame.now) }
{
    write(alloc, frame)
}
