//! The lines that a run prints.

ghost use Rattle.std.specs.Prelude.{◌≡◌, ◌++◌, IfOk, OnOk};
ghost use Rattle.plain_text.specs.Hexadecimal.{hex};
ghost use Rattle.frame_codec.specs.Spelling.{HasSpelling, server_spelling};
ghost use Rattle.monitor_model.specs.Stage.{heard_line, answer_line};
ghost use Rattle.monitor_model.specs.Script.{way_text};
ghost use Rattle.okws_outer.specs.Printing.{PrintsAs, printer};

use frame_codec::frame::ServerFrame;
use frame_codec::server::write_server_frame;
use http_text::response::own_response;
use monitor_model::verdict::Way;
use okws_outer::printing::print;
use okws_outer::stream::Sink;
use okws_plan::configuration::{Config, name_of};
use plain_text::decimals::push_decimal;
use plain_text::hexadecimal::{push_escaped, push_hex};
use std::alloc::{AllocError, Global};

// Puts the bytes of a frame behind a line, in lower-case hexadecimal.
fn put_frame(alloc: Global, line: &mut Vec<u8>, frame: &ServerFrame) -> Result<(), AllocError>
    requires { HasSpelling frame.now }
    ensures { OnOk result (line.new.items ≡ line.old.items ++ hex (server_spelling frame.now)) }
{
    push_hex(line, &write_server_frame(alloc, frame)?)
}

// Puts `heard SERVICE K HEX` and LF behind a line.
fn put_heard(
    alloc: Global,
    line: &mut Vec<u8>,
    config: &Config,
    service: u16,
    incarnation: u32,
    frame: &ServerFrame,
) -> Result<(), AllocError>
    requires { HasSpelling frame.now }
    ensures { OnOk result (line.new.items ≡ line.old.items ++ heard_line config.now service incarnation frame.now) }
{
    line.extend_from_slice(b"heard ")?;
    line.extend_from_slice(name_of(config, service))?;
    line.push(b' ')?;
    push_decimal(alloc, line, u64::from(incarnation))?;
    line.push(b' ')?;
    put_frame(alloc, line, frame)?;
    line.extend_from_slice(b"\n")
}

/// `heard SERVICE K HEX` and LF: the service by name, the incarnation, and the bytes of a frame that it
/// heard, in lower-case hexadecimal.
pub fn line_of_heard(
    alloc: Global,
    config: &Config,
    service: u16,
    incarnation: u32,
    frame: &ServerFrame,
) -> Result<Vec<u8>, AllocError>
    requires { HasSpelling frame.now }
    ensures { IfOk result (λ v. v.items ≡ heard_line config.now service incarnation frame.now) }
{
    let mut line = Vec::new(alloc);
    put_heard(alloc, &mut line, config, service, incarnation, frame)?;
    Ok(line)
}

// Puts `answer N TEXT` and LF behind a line.
fn put_answer(
    alloc: Global,
    line: &mut Vec<u8>,
    request: usize,
    text: &[u8],
) -> Result<(), AllocError>
    ensures { OnOk result (line.new.items ≡ line.old.items ++ answer_line request text.now) }
{
    line.extend_from_slice(b"answer ")?;
    push_decimal(alloc, line, request as u64)?;
    line.push(b' ')?;
    push_escaped(line, text)?;
    line.extend_from_slice(b"\n")
}

fn line_of_answer(alloc: Global, request: usize, text: &[u8]) -> Result<Vec<u8>, AllocError>
    ensures { IfOk result (λ v. v.items ≡ answer_line request text.now) }
{
    let mut line = Vec::new(alloc);
    put_answer(alloc, &mut line, request, text)?;
    Ok(line)
}

/// Prints `heard SERVICE K HEX` and LF: the service by name, the incarnation, and the bytes of a frame
/// that it heard, in lower-case hexadecimal.
pub fn print_heard<O: Sink>(
    out: &mut O,
    stopped: &mut bool,
    alloc: Global,
    config: &Config,
    service: u16,
    incarnation: u32,
    frame: &ServerFrame,
) -> Result<(), AllocError>
    requires { HasSpelling frame.now }
    ensures { PrintsAs result (printer O.given O.faults out.old stopped.old) (printer O.given O.faults out.new stopped.new) (heard_line config.now service incarnation frame.now) }
{
    let line = line_of_heard(alloc, config, service, incarnation, frame)?;
    print(out, stopped, &line);
    Ok(())
}

/// Prints `answer N TEXT` and LF: the number of a request and the text of its response, escaped.
pub fn print_answer<O: Sink>(
    out: &mut O,
    stopped: &mut bool,
    alloc: Global,
    request: usize,
    text: &[u8],
) -> Result<(), AllocError>
    ensures { PrintsAs result (printer O.given O.faults out.old stopped.old) (printer O.given O.faults out.new stopped.new) (answer_line request text.now) }
{
    let line = line_of_answer(alloc, request, text)?;
    print(out, stopped, &line);
    Ok(())
}

/// Prints the answer of a request that goes to nobody, and nothing for another.
pub fn print_way<O: Sink>(
    out: &mut O,
    stopped: &mut bool,
    alloc: Global,
    request: usize,
    way: Way,
    method: &[u8],
) -> Result<(), AllocError>
    ensures { PrintsAs result (printer O.given O.faults out.old stopped.old) (printer O.given O.faults out.new stopped.new) (way_text request way method.now) }
{
    match way {
        Way::NotOwned => {
            let text = own_response(alloc, 404, method)?;
            print_answer(out, stopped, alloc, request, &text)
        }
        Way::Down(_) => {
            let text = own_response(alloc, 503, method)?;
            print_answer(out, stopped, alloc, request, &text)
        }
        Way::To { .. } => Ok(()),
    }
}
