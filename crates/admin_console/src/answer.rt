//! What commands are answered.

ghost use Rattle.std.specs.Prelude.{◌≡◌, ◌≤◌, ◌+◌, ◌++◌, ◌∷◌, [], codes, decimal, length, vec_len, vec_capacity};
ghost use Rattle.admin_console.specs.Answers.{answer_text, field, publishing_answer, relaunching_answer, with_counts, with_standing};

use crate::controls::{Publishing, Relaunching, Status};
use crate::rule::Rule;
use itoa::Buffer;

/// What a command is answered, by a line.
#[derive(Clone, Copy, PartialEq, Eq)]
pub enum Answer {
    /// `published N`: the edition's number.
    Published(u32),
    /// `relaunched K`: the incarnation that is up.
    Relaunched(u32),
    /// `dead TRIES`: the service was given up after so many tries.
    Dead(u32),
    /// `refused LINE RULE`: the command of this line, counted from 1, breaks this rule.
    Refused { line: u64, rule: Rule },
    /// `no memory`: memory was refused.
    NoMemory,
    /// `status`, and the numbers of what is told of the site, in its fields' order.
    Status(Status),
    /// `stopping N`: no connection is begun behind so many.
    Stopping(u64),
}

/// The answer to a publication of this line.
pub(crate) fn answer_to_publishing(publishing: Publishing, line: u64) -> Answer
    ensures { result ≡ publishing_answer line publishing }
{
    match publishing {
        Publishing::Edition(number) => Answer::Published(number),
        Publishing::EditionsSpent => Answer::Refused {
            line,
            rule: Rule::EditionsSpent,
        },
        Publishing::NoMemory => Answer::NoMemory,
    }
}

/// The answer to a relaunch of this line.
pub(crate) fn answer_to_relaunching(relaunching: Relaunching, line: u64) -> Answer
    ensures { result ≡ relaunching_answer line relaunching }
{
    match relaunching {
        Relaunching::Up(incarnation) => Answer::Relaunched(incarnation),
        Relaunching::Dead(tries) => Answer::Dead(tries),
        Relaunching::Spent => Answer::Refused {
            line,
            rule: Rule::IncarnationsSpent,
        },
        Relaunching::NoMemory => Answer::NoMemory,
    }
}

/// Puts a part behind a text, for which there is room.
fn push(text: &mut Vec<u8>, part: &[u8])
    requires { vec_len text.old + length part.now ≤ vec_capacity text.old }
    ensures items { text.new.items ≡ text.old.items ++ part.now }
    ensures len { vec_len text.new ≡ vec_len text.old + length part.now }
    ensures room { vec_capacity text.old ≤ vec_capacity text.new }
{
    let _ = text.extend_from_slice(part);
}

/// Puts a number of at most 20 digits behind a text, for which there is room.
fn push_number(text: &mut Vec<u8>, number: u64)
    requires { vec_len text.old + 20 ≤ vec_capacity text.old }
    ensures items { text.new.items ≡ text.old.items ++ decimal number }
    ensures len { vec_len text.new ≤ vec_len text.old + 20 }
    ensures room { vec_capacity text.old ≤ vec_capacity text.new }
{
    let mut buffer = Buffer::new();
    push(text, buffer.format(number).as_bytes());
}

/// Makes a text a word and a number.
fn compose_number(text: &mut Vec<u8>, word: &[u8], number: u64)
    requires { length word.now + 21 ≤ vec_capacity text.old }
    ensures items { text.new.items ≡ word.now ++ decimal number ++ 10 ∷ [] }
    ensures room { vec_capacity text.old ≤ vec_capacity text.new }
{
    text.clear();
    push(text, word);
    push_number(text, number);
    push(text, b"\n");
}

/// Makes a text that of a refusal.
fn compose_refusal(text: &mut Vec<u8>, line: u64, rule: u8)
    requires { 50 ≤ vec_capacity text.old }
    ensures items { text.new.items ≡ codes "refused " ++ decimal line ++ 32 ∷ decimal rule ++ 10 ∷ [] }
    ensures room { vec_capacity text.old ≤ vec_capacity text.new }
{
    text.clear();
    push(text, b"refused ");
    push_number(text, line);
    push(text, b" ");
    push_number(text, u64::from(rule));
    push(text, b"\n");
}

/// Makes a text `no memory`.
fn compose_no_memory(text: &mut Vec<u8>)
    requires { 10 ≤ vec_capacity text.old }
    ensures items { text.new.items ≡ codes "no memory" ++ 10 ∷ [] }
    ensures room { vec_capacity text.old ≤ vec_capacity text.new }
{
    text.clear();
    push(text, b"no memory\n");
}

/// Puts a space and a number behind a text, for which there is room.
fn push_field(text: &mut Vec<u8>, number: u64)
    requires { vec_len text.old + 21 ≤ vec_capacity text.old }
    ensures items { text.new.items ≡ text.old.items ++ field number }
    ensures len { vec_len text.new ≤ vec_len text.old + 21 }
    ensures room { vec_capacity text.old ≤ vec_capacity text.new }
{
    push(text, b" ");
    push_number(text, number);
}

/// Puts the counts of a status behind a text.
fn push_counts(text: &mut Vec<u8>, status: Status)
    requires { vec_len text.old + 105 ≤ vec_capacity text.old }
    ensures items { text.new.items ≡ with_counts text.old.items status }
    ensures len { vec_len text.new ≤ vec_len text.old + 105 }
    ensures room { vec_capacity text.old ≤ vec_capacity text.new }
{
    push_field(text, status.connections);
    push_field(text, status.accepts);
    push_field(text, status.launches);
    push_field(text, status.publications);
    push_field(text, status.logged);
}

/// Puts how the services stand by a status behind a text.
fn push_standing(text: &mut Vec<u8>, status: Status)
    requires { vec_len text.old + 63 ≤ vec_capacity text.old }
    ensures items { text.new.items ≡ with_standing text.old.items status }
    ensures len { vec_len text.new ≤ vec_len text.old + 63 }
    ensures room { vec_capacity text.old ≤ vec_capacity text.new }
{
    push_field(text, u64::from(status.up));
    push_field(text, u64::from(status.down));
    push_field(text, u64::from(status.dead));
}

/// Makes a text that of a status.
fn compose_status(text: &mut Vec<u8>, status: Status)
    requires { 175 ≤ vec_capacity text.old }
    ensures items { text.new.items ≡ with_standing (with_counts (codes "status") status) status ++ 10 ∷ [] }
    ensures room { vec_capacity text.old ≤ vec_capacity text.new }
{
    text.clear();
    push(text, b"status");
    push_counts(text, status);
    push_standing(text, status);
    push(text, b"\n");
}

/// Makes a text that of an answer.
pub(crate) fn compose(text: &mut Vec<u8>, answer: Answer)
    requires { 175 ≤ vec_capacity text.old }
    ensures items { text.new.items ≡ answer_text answer }
    ensures room { vec_capacity text.old ≤ vec_capacity text.new }
{
    match answer {
        Answer::Published(number) => compose_number(text, b"published ", u64::from(number)),
        Answer::Relaunched(number) => compose_number(text, b"relaunched ", u64::from(number)),
        Answer::Dead(tries) => compose_number(text, b"dead ", u64::from(tries)),
        Answer::Refused { line, rule } => compose_refusal(text, line, rule.number()),
        Answer::NoMemory => compose_no_memory(text),
        Answer::Status(status) => compose_status(text, status),
        Answer::Stopping(count) => compose_number(text, b"stopping ", count),
    }
}
