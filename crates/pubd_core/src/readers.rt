//! The incarnations to which editions may be due.

ghost use Rattle.std.specs.Prelude.{◌≡◌, ◌&&◌, ◌==◌, ◌≤◌, ◌-◌, ℕ, OnOk, OnErr, Some, if◌then◌else◌, vec_len, vec_capacity};
ghost use Rattle.pubd_core.specs.Readers.{heard_in, kept_readers, other_readers, wanted, is_wanted};

use crate::kept::{Publication, may_read};
use okws_plan::configuration::Config;
use std::alloc::AllocError;

/// An incarnation that has taken what was due to it, and how many editions had been published then.
#[derive(Clone, Copy)]
pub struct Reader {
    pub service: u16,
    pub incarnation: u32,
    pub heard: u64,
}

/// How many editions had been published when the incarnation last took what was due to it.
pub fn heard_of(readers: &[Reader], service: u16, incarnation: u32) -> Option<u64>
    ensures { result ≡ heard_in readers.now service incarnation }
{
    for reader in readers {
        if reader.service == service && reader.incarnation == incarnation {
            return Some(reader.heard);
        }
    }
    None
}

/// Keeps how much an incarnation has heard, where it `may` stand.
pub fn keep_heard(readers: &mut Vec<Reader>, reader: Reader, may: bool) -> Result<(), AllocError>
    ensures ok { OnOk result ((s k : ℕ) → heard_in readers.new.items s k ≡ (if may && ((reader.service == s) && (reader.incarnation == k)) then Some reader.heard else heard_in readers.old.items s k)) }
    ensures err { OnErr result (readers.new.items ≡ readers.old.items) }
{
    if may {
        put_reader(readers, reader)
    } else {
        Ok(())
    }
}

// Puts the reader in the place of the one of its incarnation, if there is one.
fn put_reader(readers: &mut Vec<Reader>, reader: Reader) -> Result<(), AllocError>
    ensures ok { OnOk result ((s k : ℕ) → heard_in readers.new.items s k ≡ (if (reader.service == s) && (reader.incarnation == k) then Some reader.heard else heard_in readers.old.items s k)) }
    ensures err { OnErr result (readers.new.items ≡ readers.old.items) }
{
    readers.reserve(1)?;
    drop_reader(readers, reader.service, reader.incarnation);
    readers.push_reserved(reader);
    Ok(())
}

fn drop_reader(readers: &mut Vec<Reader>, service: u16, incarnation: u32)
    ensures others { readers.new.items ≡ other_readers service incarnation readers.old.items }
    ensures room { vec_capacity readers.old - vec_len readers.old ≤ vec_capacity readers.new - vec_len readers.new }
{
    readers.retain(|r| !(r.service == service && r.incarnation == incarnation));
}

/// Keeps, of the service's incarnations, the one that stands and those above the last one that was
/// installed.
pub fn keep_readers(readers: &mut Vec<Reader>, service: u16, last: u32, standing: Option<u32>)
    ensures { readers.new.items ≡ kept_readers service last standing readers.old.items }
{
    readers.retain(|r| {
        r.service != service || (last < r.incarnation || standing == Some(r.incarnation))
    });
}

// Whether an edition is still due to somebody.
fn is_due_to_any(config: &Config, readers: &[Reader], published: &Publication) -> bool
    ensures { result ≡ is_wanted config.now readers.now published.now }
{
    readers.iter().any(|r| may_read(config, r.service, published.template)
        && r.heard <= published.place)
}

/// Keeps the editions that are still due to somebody.
pub fn keep_wanted(config: &Config, readers: &[Reader], publications: &mut Vec<Publication>)
    ensures { publications.new.items ≡ wanted config.now readers.now publications.old.items }
{
    publications.retain(|published| is_due_to_any(config, readers, published));
}
