//! Bytes that are fed, and come in again in pieces.

ghost use Rattle.std.specs.Prelude.{◌≡◌, ◌≤◌, ◌<◌, ◌++◌, [], OnOk, OnErr, Some, drop, length, vec_len};
ghost use Rattle.okws_outer.specs.Streams.{Pulls};
ghost use Rattle.okws_outer.specs.Wire.{Incoming};

use crate::memory::told::Piece;
use crate::stream::Pull;
use okws_base::items::Items;
use okws_base::told::Told;
use std::alloc::{AllocError, Global};
use std::marker::Model;

/// The bytes that are at hand of those that were fed, and how many of them have come in; contracts see all
/// that were fed, and those that are left.
#[derive(Drop)]
pub(crate) struct Coming {
    bytes: Vec<u8>,
    at: usize,
    fed: Told<Items<u8>>,
    ghost within: { at ≤ vec_len bytes },
}

impl Model for Coming {
    ghost use Rattle.std.specs.Prelude.{drop};
    ghost use Rattle.okws_outer.specs.Wire.{Incoming, all_put};

    ghost Value = { Incoming };

    ghost view = { λ a. record { came = all_put a.fed.past; left = drop a.at a.bytes.items } };
}

impl Coming {
    /// Nothing was fed; takes no memory.
    pub(crate) fn new(alloc: Global) -> Self
        ensures { result ≡ record { came = []; left = [] } }
    {
        Coming {
            bytes: Vec::new(alloc),
            at: 0,
            fed: Told::new(),
        }
    }

    /// Adds bytes behind those that are left; where memory is refused all is as before.
    pub(crate) fn feed(&mut self, bytes: &[u8]) -> Result<(), AllocError>
        ensures fed { OnOk result (self.new ≡ record { came = self.old.came ++ bytes.now; left = self.old.left ++ bytes.now }) }
        ensures refused { OnErr result (self.new ≡ self.old) }
    {
        if self.at == self.bytes.len() {
            self.at = 0;
            self.bytes.clear();
        }
        self.bytes.extend_from_slice(bytes)?;
        self.fed = self.fed.and(&Piece { bytes });
        Ok(())
    }

    /// The bytes that are left.
    pub(crate) fn left(&self) -> &[u8]
        ensures { result.now ≡ self.now.left }
    {
        &self.bytes[self.at..]
    }

    /// Takes bytes that are left: at most `piece`, and 1 where that is 0, and at most as many as there
    /// is room for.
    pub(crate) fn pull(&mut self, piece: usize, into: &mut [u8]) -> Pull
        requires { 0 < length into.old }
        ensures bytes { Pulls (Some self.old.left) (Some self.new.left) into.new result }
        ensures came { self.new.came ≡ self.old.came }
        ensures never { result ≡ Pull.Failed → ⊥ }
    {
        if self.at == self.bytes.len() {
            return Pull::End;
        }
        let left = self.bytes.len() - self.at;
        let count = piece.max(1).min(left).min(into.len());
        into[..count].copy_from_slice(&self.bytes[self.at..self.at + count]);
        self.at += count;
        Pull::Took(count)
    }
}
