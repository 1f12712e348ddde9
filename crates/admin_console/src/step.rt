//! Carries out commands, one at a time.

ghost use Rattle.std.specs.Prelude.{◌≡◌, ◌≤◌, length, vec_capacity};
ghost use Rattle.okws_base.specs.declared.limit.TheConstants.{MOST_SERVICES, MOST_TEMPLATES};
ghost use Rattle.admin_console.specs.Orders.{OrderFits};
ghost use Rattle.admin_console.specs.declared.reader.TheConstants.{HELD};
ghost use Rattle.admin_console.specs.Steps.{CarriesOut, Refuses, Steps, Tells};

use crate::answer::{Answer, answer_to_publishing, answer_to_relaunching, compose};
use crate::controls::Controls;
use crate::order::{Order, order_of};
use crate::reader::{
    Content, Passed, Reader, Taken, drop_bytes, take_command, take_content, without_carriage_return,
};
use crate::rule::Rule;
use okws_outer::conn::Conn;
use okws_outer::stream::Put;
use okws_plan::configuration::Config;
use std::alloc::Global;
use std::sync::Wait;

/// What became of a step.
#[derive(Clone, Copy, PartialEq, Eq)]
pub enum Stepped {
    /// A command was answered so.
    Answered(Answer),
    /// `end`, or the console's end between commands; a rest without LF is no line.
    Finished,
    /// The next command is `stop`, which is not answered yet; nothing was done.
    Stop,
    /// A call of the console failed and was counted: before a command was whole, or behind one of whose
    /// answer just a front was given.
    ConsoleFault(Option<Answer>),
}

/// What became of a command.
enum Done {
    Answered(Answer),
    /// It was `end`.
    Ends,
    /// It was `stop`.
    Stops,
    /// The console failed before its bytes were whole.
    Failed,
}

/// Takes the next command of a console, carries it out and answers it by a line. It may wait for the
/// operator. A command is the next line that isn't empty, with the bytes that a publication has; no byte
/// behind it is taken. `stop` is for the caller to carry out, and to answer by `tell`.
pub fn step<R: Wait, C: Conn, O: Controls>(
    rt: &R,
    alloc: Global,
    console: &mut C,
    reader: &mut Reader,
    config: &Config,
    controls: &mut O,
) -> Stepped
    requires config { O.config controls.old ≡ config.now }
    requires services { length config.now.services ≤ MOST_SERVICES }
    requires templates { length config.now.templates ≤ MOST_TEMPLATES }
    ensures step { Steps O.publishes O.relaunches O.surveys config.now (C.wire console.old) (C.wire console.new) reader.old reader.new (O.state controls.old) (O.state controls.new) result }
    ensures config { O.config controls.new ≡ O.config controls.old }
{
    let (taken, lines) = take_command(rt, console, reader.lines, &mut reader.text);
    reader.lines = lines;
    match taken {
        Taken::Line => {}
        Taken::Ended => return Stepped::Finished,
        Taken::Failed => return Stepped::ConsoleFault(None),
    }
    let order = order_of(config, without_carriage_return(&reader.text));
    match carry_out(alloc, console, lines, order, config, controls) {
        Done::Answered(answer) => tell_line(console, &mut reader.text, answer),
        Done::Ends => Stepped::Finished,
        Done::Stops => Stepped::Stop,
        Done::Failed => Stepped::ConsoleFault(None),
    }
}

/// Carries out what the line of this number says.
fn carry_out<C: Conn, O: Controls>(
    alloc: Global,
    console: &mut C,
    line: u64,
    order: Order,
    config: &Config,
    controls: &mut O,
) -> Done
    requires config { O.config controls.old ≡ config.now }
    requires fits { OrderFits config.now order }
    ensures done { CarriesOut O.publishes O.relaunches O.surveys (C.wire console.old) (C.wire console.new) line order (O.state controls.old) (O.state controls.new) result }
    ensures config { O.config controls.new ≡ O.config controls.old }
{
    match order {
        Order::End => Done::Ends,
        Order::Stop => Done::Stops,
        Order::Relaunch(service) => {
            let relaunching = controls.relaunch(service);
            Done::Answered(answer_to_relaunching(relaunching, line))
        }
        Order::Status => Done::Answered(Answer::Status(controls.status())),
        Order::Publish { template, size } => {
            publish(alloc, console, line, template, size, config, controls)
        }
        Order::Refused { rule, size } => refuse(console, line, rule, size),
    }
}

/// Takes the bytes of a publication and publishes them.
fn publish<C: Conn, O: Controls>(
    alloc: Global,
    console: &mut C,
    line: u64,
    template: u16,
    size: u32,
    config: &Config,
    controls: &mut O,
) -> Done
    requires config { O.config controls.old ≡ config.now }
    requires fits { OrderFits config.now (Order.Publish template size) }
    ensures done { CarriesOut O.publishes O.relaunches O.surveys (C.wire console.old) (C.wire console.new) line (Order.Publish template size) (O.state controls.old) (O.state controls.new) result }
    ensures config { O.config controls.new ≡ O.config controls.old }
{
    match take_content(alloc, console, size) {
        Content::Whole(content) => {
            let publishing = controls.publish(template, content);
            Done::Answered(answer_to_publishing(publishing, line))
        }
        Content::Short => Done::Answered(Answer::Refused {
            line,
            rule: Rule::CutShort,
        }),
        Content::NoMemory => Done::Answered(Answer::NoMemory),
        Content::Failed => Done::Failed,
    }
}

/// Drops the bytes of a command that is refused.
fn refuse<C: Conn>(console: &mut C, line: u64, rule: Rule, size: u32) -> Done
    ensures { Refuses (C.wire console.old) (C.wire console.new) line rule size result }
{
    match drop_bytes(console, size) {
        Passed::Whole | Passed::Short => Done::Answered(Answer::Refused { line, rule }),
        Passed::Failed => Done::Failed,
    }
}

/// Gives the line of an answer.
fn tell_line<C: Conn>(console: &mut C, text: &mut Vec<u8>, answer: Answer) -> Stepped
    requires { HELD ≤ vec_capacity text.old }
    ensures told { Tells (C.wire console.old) (C.wire console.new) answer result }
    ensures room { HELD ≤ vec_capacity text.new }
{
    compose(text, answer);
    match console.put(text) {
        Put::Done => Stepped::Answered(answer),
        Put::Stopped(_) => Stepped::ConsoleFault(Some(answer)),
    }
}

/// Answers the last command of a console.
pub fn tell<C: Conn>(console: &mut C, reader: &mut Reader, answer: Answer) -> Stepped
    ensures told { Tells (C.wire console.old) (C.wire console.new) answer result }
    ensures lines { reader.new ≡ reader.old }
{
    tell_line(console, &mut reader.text, answer)
}
