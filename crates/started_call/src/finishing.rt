//! The end of an answer, outside the turn.

ghost use Rattle.std.specs.Prelude.{◌≡◌, ◌<◌, ◌+◌, ℕ, [], true, length, slice_index_or, nat_le, All};
ghost use Rattle.frame_codec.specs.Size.{capped};
ghost use Rattle.frame_codec.specs.Spelling.{size, server_parts, value, values};
ghost use Rattle.frame_codec.specs.declared.frame.ServerFrame.TheVariants as ServerFrame;
ghost use Rattle.okws_plan.specs.declared.statement.Answer.TheVariants as Answer;
ghost use Rattle.monitor_model.specs.Proxy.{within_frame};
ghost use Rattle.started_call.specs.Starting.{Finishes};

use okws_base::denial::Rule;
use okws_base::limit::LONGEST_FRAME;
use okws_base::value::Value;
use okws_outer::pinned::Pinned;

/// What a call answers whose answer was found: so many rows, which the pin gives, or the rule that
/// they break.
#[derive(Clone, Copy, PartialEq, Eq)]
pub enum Finished {
    Rows(usize),
    Denied(Rule),
}

// How many bytes a frame has for a value, at most usize::MAX.
fn value_length(given: &Value) -> usize
    ensures { result ≡ capped (size (value given.now)) }
{
    match given {
        Value::Int(_) => 9,
        Value::Text(text) => text.as_bytes().len().saturating_add(5),
        Value::Bytes(bytes) => bytes.as_slice().len().saturating_add(5),
    }
}

// So many bytes, and those that a frame has for a row, at most usize::MAX.
fn with_row<P: Pinned>(pin: &P, row: usize, before: usize) -> usize
    requires found { P.found pin.now ≡ true }
    requires row { row < length (P.rows pin.now) }
    requires wide { length (slice_index_or (P.rows pin.now) row []) ≡ P.width pin.now }
    ensures { result ≡ capped (before + size (values (slice_index_or (P.rows pin.now) row []))) }
{
    let mut length = before;
    for column in 0..pin.columns() {
        length = length.saturating_add(value_length(pin.value(row, column)));
    }
    length
}

// How many bytes a Rows frame has for the answer, at most usize::MAX.
fn frame_length<P: Pinned>(pin: &P, rows: usize) -> usize
    requires found { P.found pin.now ≡ true }
    requires rows { rows ≡ length (P.rows pin.now) }
    requires wide { All (λ row. length row ≡ P.width pin.now) (P.rows pin.now) }
    ensures { (columns : ℕ) → result ≡ capped (size (server_parts (ServerFrame.Rows columns (P.rows pin.now)))) }
{
    let mut length = 6;
    for row in 0..rows {
        length = with_row(pin, row, length);
    }
    length
}

// Whether a Rows frame of the answer is not longer than a frame may be.
fn is_within_frame<P: Pinned>(pin: &P, rows: usize) -> bool
    requires found { P.found pin.now ≡ true }
    requires rows { rows ≡ length (P.rows pin.now) }
    requires wide { All (λ row. length row ≡ P.width pin.now) (P.rows pin.now) }
    ensures { result ≡ nat_le (size (server_parts (ServerFrame.Rows (P.width pin.now) (P.rows pin.now)))) LONGEST_FRAME }
{
    let length = frame_length(pin, rows);
    length <= LONGEST_FRAME
}

/// Finds the answer of a call that was ready, and tells how many rows it has, unless their frame
/// would be too long. It needs no turn and takes no memory; the rows are those before the call's
/// entry, whatever was entered since.
pub fn finish<P: Pinned>(pin: &mut P) -> Finished
    ensures verdict { Finishes (P.width pin.old) (P.rows pin.old) (within_frame (Answer.Rows (P.width pin.old) (P.rows pin.old))) result }
    ensures found { P.found pin.new ≡ true }
    ensures rows { P.rows pin.new ≡ P.rows pin.old }
    ensures width { P.width pin.new ≡ P.width pin.old }
    ensures wide { All (λ row. length row ≡ P.width pin.old) (P.rows pin.old) }
{
    let rows = pin.answer();
    if is_within_frame(pin, rows) {
        Finished::Rows(rows)
    } else {
        Finished::Denied(Rule::AnswerTooLarge)
    }
}
