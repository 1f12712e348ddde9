//! The lines of the log.

ghost use Rattle.std.specs.Prelude.{◌≡◌, ◌++◌, ◌==◌, IfOk};
ghost use Rattle.std.specs.List.{list_any};
ghost use Rattle.monitor_model.specs.Logd.{log_line};

use plain_text::hexadecimal::push_escaped;
use std::alloc::{AllocError, Global};

// Whether the service may write to the log.
pub fn may_log(loggers: &[u16], service: u16) -> bool
    ensures { result ≡ list_any (λ t. t == service) loggers.now }
{
    loggers.iter().any(|logger| *logger == service)
}

// The bytes with a line of the log behind them.
#[tactic(auto, unfolding(monitor_model::specs::Logd::log_line))]
pub fn with_line(
    alloc: Global,
    mut out: Vec<u8>,
    name: &[u8],
    incarnation: u32,
    text: &[u8],
) -> Result<Vec<u8>, AllocError>
    ensures { IfOk result (λ v. v.items ≡ out.items ++ log_line name.now incarnation text.now) }
{
    out.extend_from_slice(name)?;
    out.push(b' ')?;
    out.extend_from_slice(incarnation.to_string(alloc)?.as_bytes())?;
    out.push(b' ')?;
    push_escaped(&mut out, text)?;
    out.push(b'\n')?;
    Ok(out)
}
