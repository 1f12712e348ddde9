//! Files that are written, by their paths.

ghost use Rattle.std.specs.Prelude.{◌≡◌, [], None};

use crate::notice;
use crate::output::Writing;
use okws_base::told::{Says, Told};
use okws_outer::error::Fault;
use okws_outer::sinks::{SinkEnd, SinkStart, Sinks};
use okws_outer::stream::{Put, Sink};
use real_network::trying::count;
use std::fs::{File, Files, OpenOptions};
use std::io::Stderr;

/// A file that is written. Where it can't be, that is told on standard error once, when it happens.
pub struct LogFile {
    inner: Writing<File>,
    errors: Stderr,
    is_told: bool,
}

impl Drop for LogFile {
    fn drop(self) {
        let LogFile {
            inner,
            errors: _,
            is_told: _,
        } = self;
        drop(inner);
    }
}

impl LogFile {
    /// How many puts have failed.
    pub fn faults(&self) -> u64
        ensures { result ≡ ⟦<LogFile as Sink>⟧.faults self.now }
    {
        self.inner.faults()
    }
}

impl Sink for LogFile {
    ghost given = { λ s. ⟦<Writing<File> as Sink>⟧.given s.inner };

    ghost faults = { λ s. ⟦<Writing<File> as Sink>⟧.faults s.inner };

    fn put(&mut self, bytes: &[u8]) -> Put {
        let put = self.inner.put(bytes);
        if put != Put::Done && !self.is_told {
            self.is_told = true;
            notice::log_stopped(self.errors);
        }
        put
    }
}

/// The files of the system that are written: each is made where it isn't there, and what is given to
/// it goes behind what stands there. Where one can't be opened, that is told on standard error.
pub struct RealSinks<'r, R> {
    rt: &'r R,
    errors: Stderr,
    opened: Told<SinkStart>,
    closed: Told<SinkEnd>,
    faults: u64,
}

impl<'r, R> Drop for RealSinks<'r, R> {
    fn drop(self) {
        let RealSinks {
            rt: _,
            errors: _,
            opened: _,
            closed: _,
            faults: _,
        } = self;
    }
}

impl<'r, R: Files<File = File>> RealSinks<'r, R> {
    /// The sinks, none of them opened yet and no fault counted.
    pub fn new(rt: &'r R, errors: Stderr) -> Self
        ensures { ⟦<RealSinks<'r, R> as Sinks>⟧.rack result ≡ record { opened = []; closed = []; faults = 0 } }
    {
        RealSinks {
            rt,
            errors,
            opened: Told::new(),
            closed: Told::new(),
            faults: 0,
        }
    }

    /// How many calls have failed, those of closed sinks included.
    pub fn faults(&self) -> u64
        ensures { result ≡ (⟦<RealSinks<'r, R> as Sinks>⟧.rack self.now).faults }
    {
        self.faults
    }
}

/// An opening.
#[derive(Clone, Copy)]
struct Opening<'c> {
    path: &'c str,
    is_open: bool,
}

impl<'c> Says for Opening<'c> {
    type Item = SinkStart;

    ghost item = { λ o. record { path = o.path.now; is_open = o.is_open } };
}

/// A sink that is closed.
#[derive(Clone, Copy)]
struct Closing<'c> {
    path: &'c str,
    faults: u64,
}

impl<'c> Says for Closing<'c> {
    type Item = SinkEnd;

    ghost use Rattle.std.specs.Prelude.{None};

    ghost item = { λ c. record { path = c.path.now; given = None; faults = c.faults } };
}

impl<'r, R: Files<File = File>> Sinks for RealSinks<'r, R> {
    type Sink = LogFile;

    ghost rack = { λ s. record { opened = s.opened.past; closed = s.closed.past; faults = s.faults } };

    fn open(&mut self, path: &str) -> Result<LogFile, Fault> {
        let file = OpenOptions::new()
            .append(true)
            .create(true)
            .open(self.rt, path);
        let is_open = file.is_ok();
        self.opened = self.opened.and(&Opening { path, is_open });
        match file {
            Ok(file) => Ok(LogFile {
                inner: Writing::new(file),
                errors: self.errors,
                is_told: false,
            }),
            Err(error) => {
                notice::no_log(self.errors, &error);
                count(&mut self.faults);
                Err(Fault)
            }
        }
    }

    fn close(&mut self, path: &str, sink: LogFile) {
        let faults = sink.faults();
        self.closed = self.closed.and(&Closing { path, faults });
        self.faults = self.faults.saturating_add(faults);
    }
}
