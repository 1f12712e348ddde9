//! What entries are answered.

use okws_base::denial::Rule;
use okws_base::items::Items;
use okws_base::value::Row;

/// What a proxy answers an Open or a Call; sessions count from 0.
#[derive(Drop)]
pub enum Verdict {
    Opened(u32),
    Rows { columns: usize, rows: Items<Row> },
    Changed(u64),
    Duplicate,
    Denied(Rule),
    Failed,
}

/// An edition of a template, by the template's name, that is pushed to an incarnation; editions
/// count from 1.
#[derive(Drop)]
pub struct Push {
    pub template: Items<u8>,
    pub edition: u32,
    pub content: Items<u8>,
}

/// What a Get is answered.
#[derive(PartialEq, Eq, Drop)]
pub enum Got {
    Template { edition: u32, content: Items<u8> },
    Denied(Rule),
}

/// What a publication is answered. Only one that gets an edition is entered.
#[derive(Clone, Copy)]
pub enum Published {
    Edition(u32),
    NoSuchTemplate,
    TooLong,
    EditionsSpent,
}

/// What a Log is answered.
#[derive(Clone, Copy, PartialEq, Eq)]
pub enum Noted {
    Logged,
    Denied(Rule),
}

/// Where a request goes.
#[derive(Clone, Copy, PartialEq, Eq)]
pub enum Way {
    NotOwned,
    To { service: u16, incarnation: u32 },
    Down(u16),
}
