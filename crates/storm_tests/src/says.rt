//! What the children of storms say.

use crate::holding::MEMORY;
use crate::site::SEED;
use crate::weather::Weather;
use okws_base::value::Token;
use std::alloc::Global;
use std::process::Abort;
use token_core::token;

/// Log of `hi`, and a Reply of 200 with `ok` as plain text.
const LOGS: &[u8] = b"\0\0\0\x07\x44\0\0\0\x02hi\0\0\0\x15\x45\0\xc8\x0atext/plain\0\0\0\0\x02ok";

/// Call of a query that is not granted, and of one at a proxy that is not there; Get of a template that may be
/// read, and of one that may not.
const ASKS: &[u8] = b"\0\0\0\x0a\x42\0\0\0\0\0\0\0\x02\0\
    \0\0\0\x0a\x42\0\x09\0\0\0\0\0\x01\0\
    \0\0\0\x06\x43\x04page\
    \0\0\0\x08\x43\x06secret";

fn push(rt: &impl Abort, says: &mut Vec<u8>, bytes: &[u8]) {
    says.extend_from_slice(bytes).expect(rt, MEMORY);
}

/// Call of a query in a session, up to the query's number.
fn push_call(rt: &impl Abort, says: &mut Vec<u8>, length: u8, session: u32) {
    push(rt, says, &[0, 0, 0, length, 0x42, 0, 0]);
    push(rt, says, &session.to_be_bytes());
}

/// Calls that insert the row of a number, and take away that of the number before.
fn push_writes(rt: &impl Abort, says: &mut Vec<u8>, session: u32, number: i64) {
    push_call(rt, says, 0x19, session);
    push(rt, says, b"\0\x03\x02\x01");
    push(rt, says, &number.to_be_bytes());
    push(rt, says, b"\x02\0\0\0\x01x");
    push_call(rt, says, 0x13, session);
    push(rt, says, b"\0\x04\x01\x01");
    push(rt, says, &number.saturating_sub(1).to_be_bytes());
}

/// What a service says in one dialog: Open with a token, Call of the first query in a session, and further calls.
fn push_dialog(rt: &impl Abort, says: &mut Vec<u8>, shown: &Token, session: u32) {
    push(rt, says, b"\0\0\0\x17\x41\0\0");
    push(rt, says, &shown.bytes);
    push_call(rt, says, 0x0a, session);
    push(rt, says, b"\0\x01\0");
    push(rt, says, ASKS);
}

/// What an incarnation of guest says, in so many dialogs; each seventh one shows the token of the one before, and
/// each fifth one writes in its first dialog.
fn says(rt: &impl Abort, alloc: Global, incarnation: u32, dialogs: u32) -> Vec<u8> {
    let own = incarnation.clamp(1, 1_000);
    let shown = if own > 1 && own % 7 == 0 {
        own - 1
    } else {
        own
    };
    let token = token(&SEED, 0, shown, 0);
    let mut says = Vec::new(alloc);
    for session in 0..dialogs {
        push_dialog(rt, &mut says, &token, session);
        if session == 0 && own % 5 == 1 {
            push_writes(rt, &mut says, session, i64::from(own % 4));
        }
        push(rt, &mut says, LOGS);
    }
    says
}

/// What each incarnation of guest says.
pub fn all_says(rt: &impl Abort, alloc: Global, weather: &Weather<'_>) -> Vec<Vec<u8>> {
    let mut all = Vec::new(alloc);
    for incarnation in 1..=weather.relaunches.saturating_mul(2) {
        let is_short = incarnation.checked_rem(weather.short) == Some(0);
        let is_late = incarnation > weather.relaunches;
        let dialogs = match (is_short, is_late) {
            (true, _) => 1,
            (false, true) => weather.requests,
            (false, false) => 20,
        };
        all.push(says(rt, alloc, incarnation, dialogs))
            .expect(rt, MEMORY);
    }
    all
}

/// What each incarnation of the other service says.
pub fn other_says(rt: &impl Abort, alloc: Global, weather: &Weather<'_>) -> Vec<u8> {
    let mut says = Vec::new(alloc);
    for _ in 0..weather.requests {
        push(rt, &mut says, LOGS);
    }
    says
}
