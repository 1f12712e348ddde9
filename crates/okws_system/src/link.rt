//! The two pipes of a child.

ghost use Rattle.std.specs.Prelude.{◌≡◌, None, false, IfOk};

use okws_outer::stream::{Link, Pull, Put};
use real_network::trying::{pull_from, put_to, reading_ahead};
use std::alloc::{AllocError, Global};
use std::io::{BufReader, Read, Write};

/// The end that is read, which is read ahead, and the end that is written. A link never tells and is
/// never steady, so it needs no room.
pub struct PipeLink<I, O> {
    input: BufReader<I>,
    output: O,
    faults: u64,
}

impl<I: Drop, O: Drop> Drop for PipeLink<I, O> {
    fn drop(self) {
        let PipeLink {
            input,
            output,
            faults: _,
        } = self;
        drop(input);
        drop(output);
    }
}

impl<I: Read + Drop, O: Write + Drop> PipeLink<I, O> {
    /// A link over these, with no fault counted yet. Fails only where memory is refused.
    pub fn new(alloc: Global, input: I, output: O) -> Result<Self, AllocError>
        ensures { IfOk result (λ l. ⟦<PipeLink<I, O> as Link>⟧.wire l ≡ record { whose = None; came = None; left = None; given = None; faults = 0; steady = false; ended = false; room = 0 }) }
    {
        Ok(PipeLink {
            input: reading_ahead(alloc, input)?,
            output,
            faults: 0,
        })
    }

    /// How many calls have failed.
    pub fn faults(&self) -> u64
        ensures { result ≡ (⟦<PipeLink<I, O> as Link>⟧.wire self.now).faults }
    {
        self.faults
    }
}

impl<I: Read, O: Write> Link for PipeLink<I, O> {
    ghost wire = { λ l. record { whose = None; came = None; left = None; given = None; faults = l.faults; steady = false; ended = false; room = 0 } };

    fn pull(&mut self, into: &mut [u8]) -> Pull {
        pull_from(&mut self.input, &mut self.faults, into)
    }

    fn put(&mut self, bytes: &[u8]) -> Put {
        put_to(&mut self.output, &mut self.faults, bytes)
    }

    fn make_room(&mut self, _: usize) -> Result<(), AllocError> {
        Ok(())
    }
}
