//! Connections of real clients.

ghost use Rattle.std.specs.Prelude.{◌≡◌, None};

use crate::clock::Time;
use crate::trying::{count, pull_from, put_to};
use okws_outer::conn::Conn;
use okws_outer::stream::{Pull, Put};
use std::io::{Read, Write};
use std::net::{OpenStream, Shutdown};

/// A connection. Where it is closed with bytes of the client unread, the system resets it, and the
/// client may lose the answer; so it notes whether such bytes may be there. Where it has a limit of time, its
/// request is to have come until then: a later read fails, and so does a write for which that time is waited.
pub struct RealConn<S> {
    stream: S,
    time: Option<Time>,
    is_left: bool,
    faults: u64,
}

impl<S: Drop> Drop for RealConn<S> {
    fn drop(self) {
        let RealConn {
            stream,
            time: _,
            is_left: _,
            faults: _,
        } = self;
        drop(stream);
    }
}

/// Pieces of what is left that are taken at most before a connection is closed, and the length of one.
const PIECES: u8 = 64;

const PIECE: usize = 4096;

/// Whether an answer may come before all bytes of the client were taken: a status of 400 or above.
fn is_early(answer: &[u8]) -> bool {
    answer.starts_with(b"HTTP/1.1 4") || answer.starts_with(b"HTTP/1.1 5")
}

/// Takes what came, up to a bound.
fn drain<S: Read>(stream: &mut S) {
    let mut piece = [0u8; PIECE];
    for _ in 0..PIECES {
        match stream.read(&mut piece) {
            Ok(0) | Err(_) => return,
            Ok(_) => {}
        }
    }
}

impl<S: Read + Write + OpenStream> RealConn<S> {
    /// A connection over a stream, with no fault counted yet, whose client may have a limit of time.
    pub(crate) fn new(stream: S, time: Option<Time>) -> Self
        ensures { ⟦<RealConn<S> as Conn>⟧.wire result ≡ record { left = None; last = None; given = None; faults = 0 } }
    {
        if let Some(time) = time {
            // Where this fails, writes wait as the system does.
            let _ = stream.set_write_timeout(Some(time.each));
        }
        RealConn {
            stream,
            time,
            is_left: false,
            faults: 0,
        }
    }

    /// How many calls have failed.
    pub fn faults(&self) -> u64
        ensures { result ≡ (⟦<RealConn<S> as Conn>⟧.wire self.now).faults }
    {
        self.faults
    }

    /// Whether it is too late to read. Else a read waits no longer than until then.
    fn is_late(&self) -> bool {
        match self.time {
            Some(time) => match time.until.left() {
                Some(left) => self.stream.set_read_timeout(Some(left)).is_err(),
                None => true,
            },
            None => false,
        }
    }

    /// Ends what is sent, and drops what came and was not taken, up to a bound and without waiting for
    /// more; nothing of this is counted.
    pub(crate) fn linger(&mut self)
        ensures { ⟦<RealConn<S> as Conn>⟧.wire self.new ≡ ⟦<RealConn<S> as Conn>⟧.wire self.old }
    {
        if !self.is_left {
            return;
        }
        let _ = self.stream.shutdown(Shutdown::Write);
        if self.stream.set_nonblocking(true).is_ok() {
            drain(&mut self.stream);
        }
    }
}

impl<S: Read + Write + OpenStream> Conn for RealConn<S> {
    ghost wire = { λ c. record { left = None; last = None; given = None; faults = c.faults } };

    fn pull(&mut self, into: &mut [u8]) -> Pull {
        if self.is_late() {
            count(&mut self.faults);
            return Pull::Failed;
        }
        let pull = pull_from(&mut self.stream, &mut self.faults, into);
        self.is_left = match pull {
            Pull::Took(taken) => taken == into.len(),
            Pull::End | Pull::Failed => false,
        };
        pull
    }

    fn put(&mut self, bytes: &[u8]) -> Put {
        self.is_left = self.is_left || is_early(bytes);
        put_to(&mut self.stream, &mut self.faults, bytes)
    }
}
