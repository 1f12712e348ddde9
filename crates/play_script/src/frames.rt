//! The frames that services say in a drill, as lines of its script.

ghost use Rattle.std.specs.Prelude.{◌≡◌, ◌≤◌, ◌++◌, ◌∷◌, [], IfOk, OnOk, length, map, codes};
ghost use Rattle.okws_base.specs.declared.limit.TheConstants.{MOST_INCARNATIONS};
ghost use Rattle.frame_codec.specs.Spelling.{Bytewise, ServiceHasSpelling};
ghost use Rattle.play_script.specs.Script.{asks, call_frame, id_value, open_frame, reply_frame, says};

use crate::site::MAIN;
use crate::words::Act;
use frame_codec::frame::ServiceFrame;
use frame_codec::service::write_service_frame;
use okws_base::items::Items;
use okws_base::value::{Text, Value};
use okws_plan::script::Line;
use std::alloc::{AllocError, Global};
use token_core::{Seed, token};

/// The seed of the tokens that a drill's services show.
pub const TOKEN_SEED: Seed = [0; 32];

fn text(alloc: Global, text: &str) -> Result<Value, AllocError>
    ensures { IfOk result (λ v. v ≡ Value.Text text.now) }
{
    Ok(Value::Text(Text::of(String::from_str(alloc, text)?)))
}

fn bytes(alloc: Global, text: &[u8]) -> Result<Items<u8>, AllocError>
    ensures { IfOk result (λ v. v ≡ text.now) }
{
    Ok(Items::of(Vec::from_slice(alloc, text)?))
}

/// How many bytes there are.
fn len(bytes: &[u8]) -> usize
    ensures len { result ≡ length bytes.now }
    ensures fits { Bytewise bytes.now }
{
    bytes.len()
}

fn open(service: u16, incarnation: u32) -> ServiceFrame
    requires first { 1 ≤ incarnation }
    requires most { incarnation ≤ MOST_INCARNATIONS }
    ensures frame { result ≡ open_frame service incarnation }
    ensures spelling { ServiceHasSpelling result }
{
    let shown = token(&TOKEN_SEED, service, incarnation, MAIN);
    let _size = len(&shown.bytes);
    ServiceFrame::Open { proxy: MAIN, shown }
}

fn call(query: u16, args: Items<Value>) -> ServiceFrame
    ensures { result ≡ call_frame query args }
{
    ServiceFrame::Call {
        proxy: MAIN,
        session: 0,
        query,
        args,
    }
}

fn select(alloc: Global) -> ServiceFrame
    ensures frame { result ≡ call_frame 1 [] }
    ensures spelling { ServiceHasSpelling result }
{
    call(1, Items::of(Vec::new(alloc)))
}

fn insert(alloc: Global, id: u32) -> Result<ServiceFrame, AllocError>
    ensures frame { IfOk result (λ f. f ≡ call_frame 2 (id_value id ∷ Value.Text (codes "d") ∷ Value.Text [] ∷ [])) }
    ensures spelling { IfOk result (λ f. ServiceHasSpelling f) }
{
    let mut args = Vec::new(alloc);
    args.push(Value::Int(i64::from(id)))?;
    args.push(text(alloc, "d")?)?;
    args.push(text(alloc, "")?)?;
    Ok(call(2, Items::of(args)))
}

fn delete(alloc: Global, id: u32) -> Result<ServiceFrame, AllocError>
    ensures frame { IfOk result (λ f. f ≡ call_frame 3 (id_value id ∷ [])) }
    ensures spelling { IfOk result (λ f. ServiceHasSpelling f) }
{
    let mut args = Vec::new(alloc);
    args.push(Value::Int(i64::from(id)))?;
    Ok(call(3, Items::of(args)))
}

fn get(alloc: Global) -> Result<ServiceFrame, AllocError>
    ensures frame { IfOk result (λ f. f ≡ ServiceFrame.Get (codes "page")) }
    ensures spelling { IfOk result (λ f. ServiceHasSpelling f) }
{
    Ok(ServiceFrame::Get(bytes(alloc, b"page")?))
}

fn log(alloc: Global) -> Result<ServiceFrame, AllocError>
    ensures frame { IfOk result (λ f. f ≡ ServiceFrame.Log (codes "d")) }
    ensures spelling { IfOk result (λ f. ServiceHasSpelling f) }
{
    Ok(ServiceFrame::Log(bytes(alloc, b"d")?))
}

fn reply(alloc: Global) -> Result<ServiceFrame, AllocError>
    ensures frame { IfOk result (λ f. f ≡ reply_frame) }
    ensures spelling { IfOk result (λ f. ServiceHasSpelling f) }
{
    Ok(ServiceFrame::Reply {
        status: 200,
        content_type: bytes(alloc, b"text/plain")?,
        location: Items::of(Vec::new(alloc)),
        content: bytes(alloc, b"ok")?,
    })
}

/// Adds the line by which a frame comes from a service.
fn say(
    alloc: Global,
    lines: &mut Vec<Line>,
    service: u16,
    frame: &ServiceFrame,
) -> Result<(), AllocError>
    requires { ServiceHasSpelling frame.now }
    ensures { OnOk result (lines.new.items ≡ lines.old.items ++ says service frame.now ∷ []) }
{
    let bytes = Items::of(write_service_frame(alloc, frame)?);
    lines.push(Line::Bytes { service, bytes })?;
    Ok(())
}

/// Adds the lines by which the Reply comes that ends each dialog.
pub fn say_reply(alloc: Global, lines: &mut Vec<Line>, service: u16) -> Result<(), AllocError>
    ensures { OnOk result (lines.new.items ≡ lines.old.items ++ says service reply_frame ∷ []) }
{
    say(alloc, lines, service, &reply(alloc)?)
}

/// Adds the lines by which the frames come that a service says before its Reply: of this incarnation,
/// about the row of this id.
pub fn say_asked(
    alloc: Global,
    lines: &mut Vec<Line>,
    act: Act,
    service: u16,
    incarnation: u32,
    id: u32,
) -> Result<(), AllocError>
    requires first { 1 ≤ incarnation }
    requires most { incarnation ≤ MOST_INCARNATIONS }
    ensures { OnOk result (lines.new.items ≡ lines.old.items ++ map (says service) (asks act service incarnation id)) }
{
    match act {
        Act::Publish | Act::Relaunch => Ok(()),
        Act::Select => {
            say(alloc, lines, service, &open(service, incarnation))?;
            say(alloc, lines, service, &select(alloc))
        }
        Act::Insert => {
            say(alloc, lines, service, &open(service, incarnation))?;
            say(alloc, lines, service, &insert(alloc, id)?)
        }
        Act::Delete => {
            say(alloc, lines, service, &open(service, incarnation))?;
            say(alloc, lines, service, &delete(alloc, id)?)
        }
        Act::OpenAsFirst => say(alloc, lines, service, &open(service, 1)),
        Act::Get => say(alloc, lines, service, &get(alloc)?),
        Act::Log => say(alloc, lines, service, &log(alloc)?),
    }
}
