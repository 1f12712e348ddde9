//! What the server answers.

use okws_base::items::Items;
use okws_base::value::Row;

/// The answer to an Open, a Call, a Get or a Log.
#[derive(Drop)]
pub enum Answer<T> {
    /// What was asked for.
    Given(T),
    /// It was denied by the rule of this number.
    Denied(u8),
    /// The store failed, and nothing was changed.
    Failed,
    /// The server had no memory for it; it may be asked again.
    NoMemory,
}

/// A session at a proxy.
#[derive(Clone, Copy, PartialEq, Eq)]
pub struct Session {
    pub proxy: u16,
    pub number: u32,
}

/// What a Call gives.
#[derive(Drop)]
pub enum Outcome {
    /// What was selected, in rows of so many columns each.
    Rows { columns: u8, rows: Items<Row> },
    /// How many rows were inserted, updated or deleted.
    Changed(u64),
    /// The insertion would give a key twice.
    Duplicate,
}

/// An edition of a template.
#[derive(Drop)]
pub struct Edition {
    pub number: u32,
    pub content: Items<u8>,
}
