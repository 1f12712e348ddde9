//! What a request asks of the guestbook.

ghost use Rattle.std.specs.Prelude.{◌≡◌, ◌≤◌, ◌^◌, ◌<◌, length, drop, IfOk, option_map, IsTrue, min};
ghost use Rattle.std.specs.List.{prefix_len};
ghost use Rattle.guestbook.specs.Requests.{is_break, is_post, negated, positive, negative, number, signed, asked};

use okws_base::value::Text;
use plain_text::decimals::{capped_decimal, is_a_numeral};
use std::alloc::{AllocError, Global};
use svc_kit::form::value_of;

/// An entry of the guestbook.
#[derive(Drop)]
pub struct Entry {
    pub id: i64,
    pub who: Text,
    pub note: Text,
}

/// What a request asks.
#[derive(Drop)]
pub enum Asked {
    /// To show the entries.
    Show,
    /// To make an entry.
    Sign(Entry),
    /// Nothing that can be done: the form lacks a value, or its number is none.
    BadForm,
}

fn is_break_byte(byte: u8) -> bool
    ensures { result ≡ is_break byte }
{
    byte == b'\r' || byte == b'\n'
}

/// How many bytes at the front are CRs and LFs.
fn breaks_len(head: &[u8]) -> usize
    ensures is { result ≡ prefix_len is_break head.now }
    ensures within { result ≤ length head.now }
{
    for i in 0..head.len() {
        if !is_break_byte(head[i]) {
            return i;
        }
    }
    head.len()
}

fn is_a_post(head: &[u8]) -> bool
    ensures { result ≡ is_post head.now }
{
    let line = &head[breaks_len(head)..];
    line.len() >= 5 && &line[..5] == b"POST ".as_slice()
}

/// The number that is so far below 0.
fn negated_number(number: u64) -> i64
    requires { number ≤ 2 ^ 63 }
    ensures { result ≡ negated number }
{
    if number == 0 {
        0
    } else {
        -1 - (number - 1) as i64
    }
}

fn positive_of(digits: &[u8]) -> Option<i64>
    ensures { result ≡ positive digits.now }
{
    if !is_a_numeral(digits) {
        return None;
    }
    let number = capped_decimal(digits);
    if number < 1 << 63 {
        Some(number as i64)
    } else {
        None
    }
}

fn negative_of(digits: &[u8]) -> Option<i64>
    ensures { result ≡ negative digits.now }
{
    if !is_a_numeral(digits) {
        return None;
    }
    let number = capped_decimal(digits);
    if number <= 1 << 63 {
        Some(negated_number(number))
    } else {
        None
    }
}

/// The number of 64 bits with a sign that a text writes: `-` if wanted, then digits.
pub fn number_of(text: &[u8]) -> Option<i64>
    ensures { result ≡ number text.now }
{
    match text {
        [b'-', digits @ ..] => negative_of(digits),
        _ => positive_of(text),
    }
}

/// What the request asks. Fails only where memory is refused.
pub fn read(alloc: Global, head: &[u8], content: &[u8]) -> Result<Asked, AllocError>
    ensures { IfOk result (λ a. a ≡ asked head.now content.now) }
{
    if !is_a_post(head) {
        return Ok(Asked::Show);
    }
    let id = value_of(alloc, content, "id")?;
    let who = value_of(alloc, content, "who")?;
    let note = value_of(alloc, content, "note")?;
    let (Some(id), Some(who), Some(note)) = (id, who, note) else {
        return Ok(Asked::BadForm);
    };
    match number_of(id.as_bytes()) {
        Some(id) => Ok(Asked::Sign(Entry {
            id,
            who: Text::of(who),
            note: Text::of(note),
        })),
        None => Ok(Asked::BadForm),
    }
}
