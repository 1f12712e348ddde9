//! The frames that tell what the columns answer.

ghost use Rattle.std.specs.Prelude.{◌≡◌, IfOk, OnErr};
ghost use Rattle.okws_plan.specs.declared.statement.Answer.TheVariants.{Rows};
ghost use Rattle.frame_codec.specs.Spelling.{HasSpelling};
ghost use Rattle.monitor_model.specs.Proxy.{within_frame};
ghost use Rattle.monitor_model.specs.Course.{verdict_frame as frame_of_verdict, got_frame as frame_of_got, noted_frame as frame_of_noted, push_frame as frame_of_push};
ghost use Rattle.started_call.specs.Starting.{verdict_of};
ghost use Rattle.service_cell.specs.Asking.{IsNarrow, IsShortPush, IsShortGot};
ghost use Rattle.service_cell.specs.Exchange.{FitsFrame, HasRows};

use frame_codec::frame::ServerFrame;
use frame_codec::making;
use monitor_model::verdict::{Got, Noted, Push, Verdict};
use okws_outer::pinned::Pinned;
use started_call::{Finished, Started, copy_rows, finish};
use std::alloc::{AllocError, Global};

/// The frame that tells a verdict.
pub(crate) fn told_verdict(verdict: Verdict) -> ServerFrame
    requires { FitsFrame verdict }
    ensures frame { result ≡ frame_of_verdict verdict }
    ensures spelling { HasSpelling result }
{
    match verdict {
        Verdict::Opened(session) => making::opened(session),
        Verdict::Rows { columns, rows } => making::rows(columns as u8, rows),
        Verdict::Changed(rows) => making::changed(rows),
        Verdict::Duplicate => making::duplicate(),
        Verdict::Denied(rule) => making::denied(rule.number()),
        Verdict::Failed => making::failed(),
    }
}

/// The frame that tells what a Get is answered.
pub(crate) fn told_got(got: Got) -> ServerFrame
    requires { IsShortGot got }
    ensures frame { result ≡ frame_of_got got }
    ensures spelling { HasSpelling result }
{
    match got {
        Got::Template { edition, content } => making::template(edition, content),
        Got::Denied(rule) => making::denied(rule.number()),
    }
}

/// The frame that tells what a Log is answered.
pub(crate) fn told_noted(noted: Noted) -> ServerFrame
    ensures frame { result ≡ frame_of_noted noted }
    ensures spelling { HasSpelling result }
{
    match noted {
        Noted::Logged => making::logged(),
        Noted::Denied(rule) => making::denied(rule.number()),
    }
}

/// The frame of a push.
pub(crate) fn told_push(push: Push) -> ServerFrame
    requires { IsShortPush push }
    ensures frame { result ≡ frame_of_push push }
    ensures spelling { HasSpelling result }
{
    making::push(push.template, push.edition, push.content)
}

// The frame of an answer's rows, which are found and copied here; or of the rule that they break.
fn told_rows<P: Pinned + Drop>(alloc: Global, mut pin: P) -> Result<ServerFrame, AllocError>
    requires { IsNarrow (within_frame (Rows (P.width pin) (P.rows pin))) }
    ensures frame { IfOk result (λ f. f ≡ frame_of_verdict (within_frame (Rows (P.width pin) (P.rows pin)))) }
    ensures spelling { IfOk result (λ f. HasSpelling f) }
    ensures rows { OnErr result (HasRows (within_frame (Rows (P.width pin) (P.rows pin)))) }
{
    match finish(&mut pin) {
        Finished::Rows(count) => {
            let rows = copy_rows(alloc, &pin, count)?;
            Ok(told_verdict(Verdict::Rows {
                columns: pin.columns(),
                rows,
            }))
        }
        Finished::Denied(rule) => Ok(making::denied(rule.number())),
    }
}

/// The frame that tells what a call is answered. Memory is taken for rows alone, which are found here.
pub(crate) fn told_call<P: Pinned + Drop>(
    alloc: Global,
    started: Started<P>,
) -> Result<ServerFrame, AllocError>
    requires { IsNarrow (verdict_of (λ p. Rows (P.width p) (P.rows p)) started) }
    ensures frame { IfOk result (λ f. f ≡ frame_of_verdict (verdict_of (λ p. Rows (P.width p) (P.rows p)) started)) }
    ensures spelling { IfOk result (λ f. HasSpelling f) }
    ensures rows { OnErr result (HasRows (verdict_of (λ p. Rows (P.width p) (P.rows p)) started)) }
{
    match started {
        Started::Ready(pin) => told_rows(alloc, pin),
        Started::Changed(rows) => Ok(making::changed(rows)),
        Started::Duplicate => Ok(making::duplicate()),
        Started::Denied(rule) => Ok(making::denied(rule.number())),
        Started::Failed => Ok(making::failed()),
    }
}
