//! The operator's console.

ghost use Rattle.std.specs.Prelude.{◌≡◌, None, IfOk};

use okws_outer::conn::Conn;
use okws_outer::stream::{Pull, Put};
use real_network::trying::{pull_from, put_to, reading_ahead};
use std::alloc::{AllocError, Global};
use std::io::{BufReader, Read, Write};

/// A reader, which is read ahead, and a writer: standard input and output in the program.
pub struct RealConsole<I, O> {
    input: BufReader<I>,
    output: O,
    faults: u64,
}

impl<I: Drop, O: Drop> Drop for RealConsole<I, O> {
    fn drop(self) {
        let RealConsole {
            input,
            output,
            faults: _,
        } = self;
        drop(input);
        drop(output);
    }
}

impl<I: Read + Drop, O: Write + Drop> RealConsole<I, O> {
    /// A console over these, with no fault counted yet. Fails only where memory is refused.
    pub fn new(alloc: Global, input: I, output: O) -> Result<Self, AllocError>
        ensures { IfOk result (λ c. ⟦<RealConsole<I, O> as Conn>⟧.wire c ≡ record { left = None; last = None; given = None; faults = 0 }) }
    {
        Ok(RealConsole {
            input: reading_ahead(alloc, input)?,
            output,
            faults: 0,
        })
    }

    /// How many calls have failed.
    pub fn faults(&self) -> u64
        ensures { result ≡ (⟦<RealConsole<I, O> as Conn>⟧.wire self.now).faults }
    {
        self.faults
    }
}

impl<I: Read, O: Write> Conn for RealConsole<I, O> {
    ghost wire = { λ c. record { left = None; last = None; given = None; faults = c.faults } };

    fn pull(&mut self, into: &mut [u8]) -> Pull {
        pull_from(&mut self.input, &mut self.faults, into)
    }

    fn put(&mut self, bytes: &[u8]) -> Put {
        put_to(&mut self.output, &mut self.faults, bytes)
    }
}
