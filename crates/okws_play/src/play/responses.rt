//! The responses of dialogs that ended.

ghost use Rattle.std.specs.Prelude.{◌≡◌, IfOk};
ghost use Rattle.monitor_model.specs.Answering.{said_response, end_response};

use frame_codec::frame::ServiceFrame;
use http_text::response::{own_response, response};
use monitor_model::record::End;
use service_cell::ending::Finished;
use std::alloc::{AllocError, Global};

// The response that a Reply asks for.
fn said_response(alloc: Global, said: &ServiceFrame, method: &[u8]) -> Result<Vec<u8>, AllocError>
    ensures { IfOk result (λ v. v.items ≡ said_response said.now method.now) }
{
    match said {
        ServiceFrame::Reply {
            status,
            content_type,
            location,
            content,
        } => response(
            alloc,
            *status,
            content_type.as_slice(),
            location.as_slice(),
            content.as_slice(),
            method,
        ),
        _ => Ok(Vec::new(alloc)),
    }
}

/// The response of a dialog that ended.
pub fn dialog_response(
    alloc: Global,
    dialog: &Finished,
    method: &[u8],
) -> Result<Vec<u8>, AllocError>
    ensures { IfOk result (λ v. v.items ≡ end_response dialog.now.end dialog.now.items method.now) }
{
    if let Some(reply) = dialog.reply() {
        return said_response(alloc, reply, method);
    }
    match dialog.end() {
        End::Reply => unreachable!(),
        End::Superseded(_) => own_response(alloc, 503, method),
        End::BadFrame | End::Ended | End::LinkFault | End::FrameLimit => {
            own_response(alloc, 502, method)
        }
        End::Starved => own_response(alloc, 507, method),
    }
}
