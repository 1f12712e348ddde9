//! Lawful configurations from their texts, bytes, and answers that were pinned.

ghost use Rattle.std.specs.Prelude.{◌≡◌, ◌≤◌, length};
ghost use Rattle.std.specs.Arc.{arc_value};
ghost use Rattle.config_reader.specs.Ruled.{AreRuled};
ghost use Rattle.okws_plan.specs.Sound.{IsSound};
ghost use Rattle.okws_base.specs.declared.limit.TheConstants.{MOST_SERVICES, MOST_TEMPLATES};

use crate::holding::MEMORY;
use config_reader::read;
use okws_base::items::{Items, copies};
use okws_base::journal::Past;
use okws_base::value::Value;
use okws_outer::pinned::Pinned;
use okws_plan::configuration::Config;
use started_call::{Finished, finish};
use std::alloc::Global;
use std::process::Abort;
use std::sync::Arc;

/// The configuration of this text.
pub(crate) fn config(rt: &impl Abort, alloc: Global, text: &str) -> Config
    ensures services { length result.services ≤ MOST_SERVICES }
    ensures templates { length result.templates ≤ MOST_TEMPLATES }
    ensures sound { IsSound result }
    ensures ruled { AreRuled result }
{
    match read(alloc, text.as_bytes()) {
        Ok(config) => config,
        Err(_) => panic!(rt; "no lawful configuration"),
    }
}

/// The same configuration, shared.
pub(crate) fn shared(rt: &impl Abort, alloc: Global, config: Config) -> Arc<Config, Global>
    ensures { arc_value result ≡ config }
{
    Arc::new(alloc, config).expect(rt, MEMORY)
}

pub(crate) fn bytes(rt: &impl Abort, alloc: Global, bytes: &[u8]) -> Items<u8>
    ensures { result ≡ bytes.now }
{
    Items::of(copies(alloc, bytes).expect(rt, MEMORY))
}

/// The first value of the answer, which is found here.
pub(crate) fn first_value<P: Pinned>(pin: &mut P) -> Option<&Value> {
    match finish(pin) {
        Finished::Rows(count) => {
            if count > 0 && pin.columns() > 0 {
                Some(pin.value(0, 0))
            } else {
                None
            }
        }
        Finished::Denied(_) => None,
    }
}

/// How many entries there are, where they were kept.
pub(crate) fn entries<E: Drop>(past: &Past<E>) -> Option<usize> {
    past.as_slice().map(|entries| entries.len())
}
