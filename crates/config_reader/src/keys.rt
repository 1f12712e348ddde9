//! The values of a KEY column.

ghost use Rattle.std.specs.Prelude.{◌≡◌, ℤ, OnOk, OnErr, if◌then◌else◌, true, false};
ghost use Rattle.std.specs.HashSet.{contains};
ghost use Rattle.std.specs.Ordering.{int_eq};
ghost use Rattle.okws_base.specs.Value.{value_eq};
ghost use Rattle.okws_base.specs.declared.value.Value.{Value};
ghost use Rattle.config_reader.specs.Kept.{keeps_value};

use config_syntax::byte_set::{ByteSet, add_bytes, has_bytes};
use okws_base::value::Value;
use std::alloc::{AllocError, Global};
use std::collections::HashSet;

/// Values, each of which is found by its hash.
#[derive(Drop)]
pub struct KeyValues {
    numbers: HashSet<i64>,
    texts: ByteSet,
    blobs: ByteSet,
}

/// Puts a number into the set; leaves it as it was where memory is refused.
fn add_number(set: &mut HashSet<i64>, number: i64) -> Result<(), AllocError>
    ensures ok { OnOk result ((other : ℤ) → contains int_eq set.new other ≡ (if int_eq number other then true else contains int_eq set.old other)) }
    ensures err { OnErr result (set.new.keys ≡ set.old.keys) }
{
    set.insert(number)?;
    Ok(())
}

impl KeyValues {
    /// No values.
    pub fn new(alloc: Global) -> KeyValues
        ensures { (v : Value) → keeps_value result v ≡ false }
    {
        KeyValues {
            numbers: HashSet::new(alloc),
            texts: HashSet::new(alloc),
            blobs: HashSet::new(alloc),
        }
    }

    /// Whether the value is there.
    pub fn has(&self, value: &Value) -> bool
        ensures { result ≡ keeps_value self.now value.now }
    {
        match value {
            Value::Int(number) => self.numbers.contains(number),
            Value::Text(text) => has_bytes(&self.texts, text.as_bytes()),
            Value::Bytes(bytes) => has_bytes(&self.blobs, bytes.as_slice()),
        }
    }

    /// Puts a value in; leaves the values as they were where memory is refused.
    pub fn add(&mut self, alloc: Global, value: &Value) -> Result<(), AllocError>
        ensures ok { OnOk result ((v : Value) → keeps_value self.new v ≡ (if value_eq value.now v then true else keeps_value self.old v)) }
        ensures err { OnErr result ((v : Value) → keeps_value self.new v ≡ keeps_value self.old v) }
    {
        match value {
            Value::Int(number) => add_number(&mut self.numbers, *number),
            Value::Text(text) => add_bytes(&mut self.texts, alloc, text.as_bytes()),
            Value::Bytes(bytes) => add_bytes(&mut self.blobs, alloc, bytes.as_slice()),
        }
    }
}
