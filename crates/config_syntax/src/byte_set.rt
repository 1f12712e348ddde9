//! Sets of byte strings.

ghost use Rattle.std.specs.Prelude.{◌≡◌, ◌≤◌, ◌+◌, ℕ, List, IfOk, OnOk, OnErr, if◌then◌else◌, true};
ghost use Rattle.std.specs.HashSet.{IsUnchanged, UpdatesBy};
ghost use Rattle.okws_base.specs.Value.{same_bytes};
ghost use Rattle.config_syntax.specs.ByteSets.{knows};

use std::alloc::{AllocError, Global};
use std::collections::HashSet;

/// Byte strings, each of which is found by its hash.
pub type ByteSet = HashSet<Vec<u8>>;

/// Whether the set has these bytes.
pub fn has_bytes(set: &ByteSet, bytes: &[u8]) -> bool
    ensures { result ≡ knows set.now bytes.now }
{
    set.contains(bytes)
}

/// Puts bytes into the set; leaves it as it was where memory is refused.
pub fn add_bytes(set: &mut ByteSet, alloc: Global, bytes: &[u8]) -> Result<(), AllocError>
    ensures ok { OnOk result ((other : List ℕ) → knows set.new other ≡ (if same_bytes bytes.now other then true else knows set.old other)) }
    ensures err { OnErr result (set.new.keys ≡ set.old.keys) }
{
    let key = Vec::from_slice(alloc, bytes)?;
    set.insert(key)?;
    Ok(())
}
