//! Texts that are kept up to a length.

ghost use Rattle.std.specs.Prelude.{◌≡◌, ◌++◌, [], ℕ, List, length, nat_lt, ◌≤◌, OnOk, IfSome, if◌then◌else◌};
ghost use Rattle.svc_kit.specs.Bounded.{Holds};
ghost use Rattle.svc_kit.specs.Escape.{escaped, escaped_byte};

use okws_base::items::Items;
use std::alloc::{AllocError, Global};

/// Bytes that a filled template may have.
pub const LONGEST_FILLED: usize = 1_000_000;

/// A text that is kept as long as it has at most LONGEST_FILLED bytes.
#[derive(Drop)]
pub(crate) struct Bounded {
    bytes: Vec<u8>,
    over: bool,
}

impl Bounded {
    /// The text of no bytes; takes no memory.
    pub(crate) fn new(alloc: Global) -> Bounded
        ensures { Holds result [] }
    {
        Bounded {
            bytes: Vec::new(alloc),
            over: false,
        }
    }

    /// Puts bytes behind the text. A text that gets too long isn't kept further, and takes no memory.
    pub(crate) fn put(&mut self, bytes: &[u8]) -> Result<(), AllocError>
        ensures { (text : List ℕ) → Holds self.old text → OnOk result (Holds self.new (text ++ bytes.now)) }
    {
        if self.over || self.bytes.len().saturating_add(bytes.len()) > LONGEST_FILLED {
            self.over = true;
            return Ok(());
        }
        self.bytes.extend_from_slice(bytes)
    }

    fn put_escaped_byte(&mut self, byte: u8) -> Result<(), AllocError>
        ensures { (text : List ℕ) → Holds self.old text → OnOk result (Holds self.new (text ++ escaped_byte byte)) }
    {
        match byte {
            b'&' => self.put(b"&amp;"),
            b'<' => self.put(b"&lt;"),
            b'>' => self.put(b"&gt;"),
            b'"' => self.put(b"&quot;"),
            b'\'' => self.put(b"&#39;"),
            _ => self.put(&[byte]),
        }
    }

    /// Puts the escaped value behind the text; takes no time where the text is too long already.
    pub(crate) fn put_escaped(&mut self, value: &[u8]) -> Result<(), AllocError>
        ensures { (text : List ℕ) → Holds self.old text → OnOk result (Holds self.new (text ++ escaped value.now)) }
    {
        if self.over {
            return Ok(());
        }
        for byte in value {
            self.put_escaped_byte(*byte)?;
        }
        Ok(())
    }

    /// The text, or None where it is longer than it may be.
    pub(crate) fn into_text(self) -> Option<Items<u8>>
        ensures text { (text : List ℕ) → Holds self text → result ≡ (if nat_lt LONGEST_FILLED (length text) then None else Some text) }
        ensures short { (text : List ℕ) → Holds self text → IfSome result (λ t. length t ≤ LONGEST_FILLED) }
    {
        if self.over {
            None
        } else {
            Some(Items::of(self.bytes))
        }
    }
}
